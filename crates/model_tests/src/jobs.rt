// The tests on what the code has at hand of a thread: its job, or its view.

ghost use Rattle.std.specs.Prelude.{◌≡◌, ◌+◌, eqb};
ghost use Rattle.model_semantics.specs.Tests as tests;
ghost use Rattle.model_tests.specs.Jobs as jobs;
ghost use Rattle.model_tests.specs.Parts as parts;

use crate::{Job, ThreadView};
use model_format::{Thread, is_critical};
use model_semantics::{
    COMPLETED, Clock, EXECUTION, NONE, WAITING_DISPATCH, WAITING_EXECUTION, WAITING_MODE,
};
use model_state::has_job;
use numbers::is_multiple;

pub fn activates(job: Job) -> bool
    ensures { result ≡ jobs.activates job }
{
    job.active & (job.code == WAITING_MODE)
}

// A thread that leaves with a job in hand is stopped, unless it is critical.
fn is_stoppable(thread: Thread, code: u8) -> bool
    ensures { result ≡ tests.is_stoppable thread code }
{
    !is_critical(thread) & has_job(code)
}

// Without a branch: it is asked for every thread at every tick, and a branch here was slower.
pub fn deactivates(thread: Thread, job: Job) -> bool
    ensures { result ≡ parts.deactivates thread job }
{
    !job.active & ((job.code == WAITING_DISPATCH) | is_stoppable(thread, job.code))
}

pub fn completes(job: Job) -> bool
    ensures { result ≡ jobs.completes job }
{
    (job.code == EXECUTION) & (job.spent == job.length)
}

// The sum of two durations may need more than their 32 bits.
pub fn falls_due(dispatched: u32, deadline: u32, now: u32) -> bool
    ensures { result ≡ eqb (dispatched + deadline) now }
{
    (dispatched as u64) + (deadline as u64) == (now as u64)
}

fn due_in(view: ThreadView) -> bool
    ensures { result ≡ jobs.due_in view }
{
    falls_due(
        view.job.dispatched.0,
        view.thread.deadline.0,
        view.clock.now.0,
    )
}

fn periodic_in(view: ThreadView) -> bool
    ensures { result ≡ jobs.periodic_in view }
{
    is_multiple(view.clock.now.0, view.thread.period.0)
}

// What DISPATCH asks of the thread alone.
pub fn dispatches_alone(view: ThreadView) -> bool
    ensures { result ≡ jobs.dispatches_alone view }
{
    (view.job.code == WAITING_DISPATCH) & (view.job.active & periodic_in(view))
}

pub fn meets(view: ThreadView) -> bool
    ensures { result ≡ jobs.meets view }
{
    (view.job.code == COMPLETED) & due_in(view)
}

pub fn misses(view: ThreadView) -> bool
    ensures { result ≡ jobs.misses view }
{
    let late = (view.job.code == WAITING_EXECUTION)
        | ((view.job.code == EXECUTION) & (view.job.spent != view.job.length));
    due_in(view) & late
}

// Whether a thread's clock, code and job leave room for an event of it, whatever its connections say: so a quiet tick looks at none.
pub fn may_act(clock: Clock, thread: Thread, job: Job) -> bool
    ensures { result ≡ jobs.may_act clock thread job }
{
    if deactivates(thread, job) {
        return true;
    }
    match job.code {
        WAITING_MODE => job.active,
        WAITING_DISPATCH => is_multiple(clock.now.0, thread.period.0),
        WAITING_EXECUTION => (clock.cpu == NONE)
            | falls_due(job.dispatched.0, thread.deadline.0, clock.now.0),
        EXECUTION => (job.spent == job.length)
            | falls_due(job.dispatched.0, thread.deadline.0, clock.now.0),
        COMPLETED => falls_due(job.dispatched.0, thread.deadline.0, clock.now.0),
        _ => false,
    }
}

// Of the source of a connection: DISPATCH waits for its deadline, START for its job.
pub fn due_with_job(view: ThreadView) -> bool
    ensures { result ≡ jobs.due_with_job view }
{
    has_job(view.job.code) & due_in(view)
}

pub fn beside_runs(view: ThreadView, job: Job) -> bool
    ensures { result ≡ jobs.beside_runs view job }
{
    ((view.job.code == WAITING_EXECUTION) | (view.job.code == EXECUTION))
        & (view.job.dispatched == job.dispatched)
}

pub fn beside_comes(view: ThreadView, job: Job) -> bool
    ensures { result ≡ jobs.beside_comes view job }
{
    let waiting = (view.job.code == WAITING_MODE) | (view.job.code == WAITING_DISPATCH);
    (job.dispatched == view.clock.now) & (view.job.active & (waiting & periodic_in(view)))
}
