// The test of each event, on a model and a state as lists of numbers.

#![tactic(auto)]

mod jobs;
mod modes;
mod threads;
mod views;

pub use jobs::deactivates;
use model_format::Thread;
use model_semantics::Clock;
pub use modes::{can_enter, can_leave, is_busy};
use numbers::Duration;
pub use threads::{
    NO_FAULT, can_activate, can_complete, can_deactivate, can_dispatch, can_meet_deadline,
    can_miss, start_fault,
};
pub use views::job_of;

// A thread's job, as the tests ask for it.
#[derive(Clone, Copy)]
pub struct Job {
    pub active: bool,
    pub code: u8,
    pub dispatched: Duration,
    pub length: Duration,
    pub spent: Duration,
}

// What the tests of a thread ask for: the clock, the thread's record and its job.
#[derive(Clone, Copy)]
pub struct ThreadView {
    pub clock: Clock,
    pub thread: Thread,
    pub job: Job,
}
