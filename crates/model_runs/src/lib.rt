// Runs of a model over a script, on lent lists of numbers: the list of the state is where the run is, and where it ends.

#![tactic(auto)]

mod run;
mod tally;

use records::Refusal;
pub use run::run_in;
pub use tally::run_on_in;

// How a run has ended: the events taken, and the refusal that stopped it.
// Kept as one struct: events are taken before the refusal too (`ended_in`).
#[derive(Clone, Copy)]
pub struct Stop {
    pub taken: usize,
    pub refusal: Refusal,
}

// How a run that goes on after refusals has ended: the events taken, and the events refused.
#[derive(Clone, Copy)]
pub struct Counts {
    pub taken: usize,
    pub refused: usize,
}
