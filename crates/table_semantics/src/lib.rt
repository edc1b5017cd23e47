// A table's state, the answer to an event, and what a run comes to. What they mean is in specs/.

#![tactic(auto)]

use numbers::Value;
use records::{Cause, Refusal};
use table_format::VARIABLES;

// The environment variables by number.
#[derive(Clone, Copy)]
pub struct Variables {
    pub value: [Value; VARIABLES],
}

// The answer to an event, and the variables one event further, or as they were where it is refused.
// Kept as one struct: the definition `step` gives it, and a refused event has a state too.
#[derive(Clone, Copy)]
pub struct Stepped {
    pub answer: Cause,
    pub state: Variables,
}

// What a run came to: the events taken, the refusal that stopped it, and the variables.
// Kept as one struct: the definition of a run gives it, and events are taken before the refusal too.
#[derive(Clone, Copy)]
pub struct Ran {
    pub taken: usize,
    pub refusal: Refusal,
    pub state: Variables,
}

// What a run that goes on after refusals came to: the events taken, the events refused, and the variables.
#[derive(Clone, Copy)]
pub struct Tallied {
    pub taken: usize,
    pub refused: usize,
    pub state: Variables,
}
