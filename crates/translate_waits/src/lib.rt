// What a thread waits for, written into a lent slice: the clauses of DISPATCH and START for its connections, and which threads a connection
// joins.

#![tactic(auto)]

mod connections;
mod waits;

pub use connections::is_from;
pub use waits::{put_delayed_waits, put_immediate_waits};
