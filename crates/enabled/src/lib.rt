// What is enabled: the events that may come next, of a model's machine and of a table's, as one list in one order. Definitions, and the struct
// of what a caller is told.

#![tactic(auto)]

use records::Cause;

// Whether there was room for the numbers of all events, how many events there are, and whether a tick may pass.
// Kept as one struct: the definition `told_of` gives it, with the count also where there was no room.
#[derive(Clone, Copy)]
pub struct Enabled {
    pub answer: Cause,
    pub count: usize,
    pub tick: bool,
}
