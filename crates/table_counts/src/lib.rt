// Records of a table, counted: sums of counts, and what the behaviour transitions of a model add. The model is a lent list of numbers.

#![tactic(auto)]

mod counts;
mod transitions;

pub use counts::{add, count, nothing, sum_counts};
pub use transitions::transitions_counts;
