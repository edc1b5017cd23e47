// How many ticks pass before something can have an event.

ghost use Rattle.std.specs.Prelude.{◌≡◌, ◌<◌, ◌≤◌};
ghost use Rattle.model_state.specs.Words.{state_in};
ghost use Rattle.model_words.specs.Words.{timing_in};
ghost use Rattle.model_time.specs.Quiet as quiet;

use crate::calm::{calm_ticks, to_multiple};
use model_format::MAX_THREADS;
use model_semantics::REQUESTED;
use model_state::clock_of;
use model_tests::job_of;
use model_words::{switch_at, switches, thread_at, threads};

// For how many of n ticks no thread has an event.
fn all_calm(model: &[u32], state: &[u32], n: u32) -> u32
    ensures { (result ≤ n) × quiet.CalmBelow (timing_in model.now) (state_in state.now).clock (state_in state.now).threads (timing_in model.now).threads result }
{
    let count = threads(model).min(MAX_THREADS);
    let clock = clock_of(state);
    let mut calm = n;
    for t in 0..count {
        calm = calm_ticks(clock, thread_at(model, t), job_of(state, t), calm);
    }
    calm
}

// For how many of n ticks no mode transition has an event: only the pending one can have any.
fn switches_calm(model: &[u32], state: &[u32], n: u32) -> u32
    ensures { (result ≤ n) × quiet.SwitchesCalm (timing_in model.now) (state_in state.now) result }
{
    let clock = clock_of(state);
    let pending = usize::from(clock.pending);
    if switches(model) <= pending {
        return n;
    }
    let switch = switch_at(model, pending);
    if clock.phase == REQUESTED {
        to_multiple(clock.now.0, switch.h1.0, n)
    } else {
        to_multiple(clock.now.0, switch.h2.0, n)
    }
}

// How many of n ticks can pass at once where the first can: no event comes before any of those after it.
pub fn quiet_ticks(model: &[u32], state: &[u32], n: u32) -> u32
    requires { 0 < n }
    ensures { (0 < result) × ((result ≤ n) × quiet.Quiet (timing_in model.now) (state_in state.now) result) }
{
    if n == 1 {
        return 1;
    }
    let most = switches_calm(model, state, n);
    let calm = all_calm(model, state, most);
    if calm == 0 { 1 } else { calm }
}
