// What threads, input ports, connections and mode transitions add to a table.

ghost use Rattle.std.specs.Prelude.{◌≡◌, ◌<◌};
ghost use Rattle.model_format.specs.WellFormed.{GoodTiming};
ghost use Rattle.model_words.specs.Words.{timing_in};
ghost use Rattle.translation_sizes.specs.Counts.{count_below};
ghost use Rattle.translation_sizes.specs.Items as items;

use model_format::{DELAYED, IMMEDIATE, is_critical};
use model_words::{connection_at, connections, inputs, switches, thread_at, threads};
use table_counts::{count, nothing, sum_counts};
use translation_sizes::Counts;

// A thread that is not critical has three rules more, by which it is stopped.
fn thread_counts(model: &[u32], t: usize) -> Counts
    ensures { result ≡ items.thread_counts (timing_in model.now) t }
{
    let thread = thread_at(model, t);
    if is_critical(thread) {
        count(11, 32, 32, 25)
    } else {
        count(14, 38, 38, 30)
    }
}

pub fn threads_counts(model: &[u32]) -> Counts
    requires { GoodTiming (timing_in model.now) }
    ensures { result ≡ count_below (timing_in model.now).threads (items.thread_counts (timing_in model.now)) }
{
    sum_counts(threads(model), |t| thread_counts(model, t))
}

// Each port is one update.
pub fn inputs_counts(model: &[u32]) -> Counts
    ensures { result ≡ count_below (timing_in model.now).inputs (items.input_counts (timing_in model.now)) }
{
    count(0, 0, 0, inputs(model))
}

fn connection_counts(model: &[u32], c: usize) -> Counts
    ensures { result ≡ items.connection_counts (timing_in model.now) c }
{
    let connection = connection_at(model, c);
    match connection.kind {
        IMMEDIATE => count(0, 2, 9, 2),
        DELAYED => count(0, 1, 4, 2),
        _ => nothing(),
    }
}

pub fn connections_counts(model: &[u32]) -> Counts
    requires { GoodTiming (timing_in model.now) }
    ensures { result ≡ count_below (timing_in model.now).connections (items.connection_counts (timing_in model.now)) }
{
    sum_counts(connections(model), |c| connection_counts(model, c))
}

fn switch_counts(model: &[u32], q: usize) -> Counts
    requires { GoodTiming (timing_in model.now) }
    ensures { result ≡ items.switch_counts (timing_in model.now) q }
{
    count(4, 10, 11, 7 + threads(model) + 2 * connections(model))
}

pub fn switches_counts(model: &[u32]) -> Counts
    requires { GoodTiming (timing_in model.now) }
    ensures { result ≡ count_below (timing_in model.now).switches (items.switch_counts (timing_in model.now)) }
{
    sum_counts(switches(model), |q| switch_counts(model, q))
}
