// Start records: variables that are not 0 at the start.

ghost use Rattle.std.specs.Prelude.{◌≡◌, not, ◌≤◌};
ghost use Rattle.numbers.specs.Values.{natural, same_value};
ghost use Rattle.model_format.specs.WellFormed.{GoodTiming};
ghost use Rattle.model_words.specs.Words.{timing_in};
ghost use Rattle.translation_sizes.specs.Sums.{sum_below};
ghost use Rattle.translation.specs.Shown.{bit};
ghost use Rattle.translation_sizes.specs.Items as items;

use model_format::in_mode;
use model_words::{
    connection_at, connections, initial, input_at, inputs, local_at, locals, thread_at, threads,
};
use numbers::Value;

fn head_starts(model: &[u32]) -> usize
    ensures { result ≡ items.head_starts (timing_in model.now) }
{
    2 + usize::from(initial(model) != 0)
}

fn thread_starts(model: &[u32], t: usize) -> usize
    ensures { result ≡ items.thread_starts (timing_in model.now) t }
{
    let thread = thread_at(model, t);
    let mode = initial(model);
    usize::from(in_mode(thread.modes, mode)) + usize::from(thread.first != 0)
}

fn threads_starts(model: &[u32]) -> usize
    requires { GoodTiming (timing_in model.now) }
    ensures { result ≡ sum_below (timing_in model.now).threads (items.thread_starts (timing_in model.now)) }
{
    (0..threads(model)).map(|t| thread_starts(model, t)).sum()
}

fn connection_starts(model: &[u32], c: usize) -> usize
    ensures { result ≡ items.connection_starts (timing_in model.now) c }
{
    let connection = connection_at(model, c);
    usize::from(in_mode(connection.modes, initial(model)))
}

fn connections_starts(model: &[u32]) -> usize
    requires { GoodTiming (timing_in model.now) }
    ensures { result ≡ sum_below (timing_in model.now).connections (items.connection_starts (timing_in model.now)) }
{
    (0..connections(model))
        .map(|c| connection_starts(model, c))
        .sum()
}

// A start value that is not 0.
fn value_starts(start: Value) -> usize
    ensures { (result ≡ bit (not (same_value start (natural 0)))) × (result ≤ 1) }
{
    usize::from(start != Value(0))
}

// Of an input port, and as many of its buffer.
fn input_starts(model: &[u32], i: usize) -> usize
    ensures { result ≡ items.input_starts (timing_in model.now) i }
{
    let own = value_starts(input_at(model, i).start);
    own + own
}

fn inputs_starts(model: &[u32]) -> usize
    requires { GoodTiming (timing_in model.now) }
    ensures { result ≡ sum_below (timing_in model.now).inputs (items.input_starts (timing_in model.now)) }
{
    (0..inputs(model)).map(|i| input_starts(model, i)).sum()
}

fn local_starts(model: &[u32], v: usize) -> usize
    ensures { result ≡ items.local_starts (timing_in model.now) v }
{
    value_starts(local_at(model, v).start)
}

fn locals_starts(model: &[u32]) -> usize
    requires { GoodTiming (timing_in model.now) }
    ensures { result ≡ sum_below (timing_in model.now).locals (items.local_starts (timing_in model.now)) }
{
    (0..locals(model)).map(|v| local_starts(model, v)).sum()
}

pub fn item_starts(model: &[u32]) -> usize
    requires { GoodTiming (timing_in model.now) }
    ensures { result ≡ items.item_starts (timing_in model.now) }
{
    let head = head_starts(model);
    let threads = threads_starts(model);
    let connections = connections_starts(model);
    let inputs = inputs_starts(model);
    let locals = locals_starts(model);
    head + threads + connections + inputs + locals
}
