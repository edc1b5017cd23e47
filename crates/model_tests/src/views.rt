// What the tests see of a thread: its job, and its view with the clock and its record.

ghost use Rattle.std.specs.Prelude.{◌≡◌};
ghost use Rattle.model_state.specs.Words.{state_in};
ghost use Rattle.model_words.specs.Words.{timing_in};
ghost use Rattle.model_tests.specs.Jobs as jobs;
ghost use Rattle.model_tests.specs.Parts as parts;

use crate::{Job, ThreadView};
use model_state::{clock_of, code_of, dispatch_time, is_active, length_of, spent_of};
use model_words::thread_at;

pub fn job_of(state: &[u32], t: usize) -> Job
    ensures { result ≡ parts.job_of (state_in state.now).threads t }
{
    Job {
        active: is_active(state, t),
        code: code_of(state, t),
        dispatched: dispatch_time(state, t),
        length: length_of(state, t),
        spent: spent_of(state, t),
    }
}

// Made in place: each test asks for a few of its parts, and the others are not read then.
#[inline(always)]
pub fn thread_view_of(model: &[u32], state: &[u32], t: usize) -> ThreadView
    ensures { result ≡ jobs.thread_view_of (timing_in model.now) (state_in state.now) t }
{
    ThreadView {
        clock: clock_of(state),
        thread: thread_at(model, t),
        job: job_of(state, t),
    }
}
