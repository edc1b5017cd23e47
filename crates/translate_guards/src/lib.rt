// What the rules of COMPLETE say of a thread's transitions: their guards as clauses, written into a lent slice. The model is a lent list of
// numbers.

#![tactic(auto)]

mod guards;
mod parts;

pub use guards::{put_earlier, put_guard, put_otherwise};
pub use parts::{operand_of, variable_of};
