// Transitions of a behaviour, on a model and a state in lent lists of numbers: the first open one of a thread, and what an assignment assigns.

#![tactic(auto)]

mod opening;
mod values;

pub use opening::first_open;
pub use values::assigned_value;
