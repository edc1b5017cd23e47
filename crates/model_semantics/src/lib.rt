// A model's state, and the answer to an event. What they mean is in specs/.

#![tactic(auto)]

mod codes;

pub use codes::{
    CHANGING, COMPLETED, EXECUTION, NONE, REQUESTED, STEADY, WAITING_DISPATCH, WAITING_EXECUTION,
    WAITING_MODE,
};
use model_format::{MAX_CONNECTIONS, MAX_INPUTS, MAX_LOCALS, MAX_OUTPUTS, MAX_THREADS};
use numbers::{Duration, Value};
use records::Cause;

// `now` and `entered` are Now and EnteredAt. `pending` and `cpu` are NONE where there is none.
#[derive(Clone, Copy)]
pub struct Clock {
    pub now: Duration,
    pub entered: Duration,
    pub mode: u8,
    pub phase: u8,
    pub pending: u8,
    pub cpu: u8,
}

// By thread. `code` is the state code, `dispatched` the time of dispatch, `behavior` the behaviour state.
#[derive(Clone, Copy)]
pub struct Threads {
    pub active: [bool; MAX_THREADS],
    pub code: [u8; MAX_THREADS],
    pub dispatched: [Duration; MAX_THREADS],
    pub length: [Duration; MAX_THREADS],
    pub spent: [Duration; MAX_THREADS],
    pub behavior: [u8; MAX_THREADS],
    pub missed: [u32; MAX_THREADS],
}

#[derive(Clone, Copy)]
pub struct Ports {
    pub input: [Value; MAX_INPUTS],
    pub buffer: [Value; MAX_INPUTS],
    pub output: [Value; MAX_OUTPUTS],
    pub local: [Value; MAX_LOCALS],
}

// `live` is Flag, by connection.
#[derive(Clone, Copy)]
pub struct State {
    pub clock: Clock,
    pub threads: Threads,
    pub live: [bool; MAX_CONNECTIONS],
    pub ports: Ports,
}

// The answer to an event, and the state one event further, or as it was where the event is refused.
// Kept as one struct: the definition `step` gives it, and a refused event has a state too.
#[derive(Clone, Copy)]
pub struct Stepped {
    pub answer: Cause,
    pub state: State,
}
