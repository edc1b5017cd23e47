// How long the table of a model is, and how many records of each kind it has: what is told, and the counts that it is added up from.

#![tactic(auto)]

use records::Refusal;

// A table's bytes, and its records of each kind but the start records.
#[derive(Clone, Copy)]
pub struct TableSize {
    pub bytes: usize,
    pub rules: usize,
    pub clauses: usize,
    pub atoms: usize,
    pub updates: usize,
}

// What is told of a model: its refusal, or the size of its table.
// Kept as one struct: the definition `sized` gives it.
#[derive(Clone, Copy)]
pub struct Sized {
    pub refusal: Refusal,
    pub size: TableSize,
}

// The records that something adds to a table.
#[derive(Clone, Copy)]
pub struct Counts {
    pub rules: usize,
    pub clauses: usize,
    pub atoms: usize,
    pub updates: usize,
}
