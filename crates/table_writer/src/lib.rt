// A table's records, and the parts of its rules, written into a lent slice.

#![tactic(auto)]

mod encoding;
mod rules;

pub use encoding::Writer;
pub use rules::{unused, variable};
