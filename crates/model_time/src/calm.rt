// How many ticks pass before a thread can have an event.

ghost use Rattle.std.specs.Prelude.{◌≡◌, false, ℕ, ◌+◌, ◌<◌, ◌≤◌, eqb};
ghost use Rattle.numbers.specs.Multiples.{is_multiple};
ghost use Rattle.model_tests.specs.Parts as parts;
ghost use Rattle.model_time.specs.Quiet as quiet;

use model_format::Thread;
use model_semantics::{
    COMPLETED, Clock, EXECUTION, NONE, WAITING_DISPATCH, WAITING_EXECUTION, WAITING_MODE,
};
use model_tests::{Job, deactivates};

// The ticks before Now is a multiple of a period, at most n.
pub fn to_multiple(now: u32, period: u32, n: u32) -> u32
    ensures { (result ≤ n) × ((i : ℕ) → i < result → is_multiple (now + i) period ≡ false) }
{
    if period == 0 {
        return n;
    }
    let rest = now % period;
    if rest == 0 {
        return 0;
    }
    n.min(period - rest)
}

// The ticks before a job is due. A time that has passed does not come again.
fn to_due(dispatched: u32, deadline: u32, now: u32, n: u32) -> u32
    ensures { (result ≤ n) × ((i : ℕ) → i < result → eqb (dispatched + deadline) (now + i) ≡ false) }
{
    let due = u64::from(dispatched) + u64::from(deadline);
    match due.checked_sub(u64::from(now)) {
        Some(left) => left.min(u64::from(n)) as u32,
        None => n,
    }
}

// The ticks before a job that runs is done.
fn to_done(spent: u32, length: u32, n: u32) -> u32
    ensures { (result ≤ n) × ((i : ℕ) → i < result → eqb (quiet.more_by i spent) length ≡ false) }
{
    n.min(length.saturating_sub(spent))
}

// The ticks before a thread can be deactivated: none, or no tick brings it about.
fn to_deactivate(thread: Thread, job: Job, n: u32) -> u32
    ensures { (result ≤ n) × ((i : ℕ) → i < result → parts.deactivates thread job ≡ false) }
{
    if deactivates(thread, job) { 0 } else { n }
}

// For how many of n ticks a thread has no event.
pub fn calm_ticks(clock: Clock, thread: Thread, job: Job, n: u32) -> u32
    ensures { (result ≤ n) × quiet.Calm clock thread job result }
{
    let most = to_deactivate(thread, job, n);
    let now = clock.now.0;
    match job.code {
        WAITING_MODE => if job.active { 0 } else { most },
        WAITING_DISPATCH => to_multiple(now, thread.period.0, most),
        WAITING_EXECUTION => if clock.cpu == NONE {
            0
        } else {
            to_due(job.dispatched.0, thread.deadline.0, now, most)
        },
        EXECUTION => to_due(
            job.dispatched.0,
            thread.deadline.0,
            now,
            to_done(job.spent.0, job.length.0, most),
        ),
        COMPLETED => to_due(job.dispatched.0, thread.deadline.0, now, most),
        _ => most,
    }
}
