// The places of records in the order that a model has them in. A record that is none has rank 0.
// Kept as numbers: `in_order` compares them.

pub const HEAD_RANK: u8 = 1;

pub const THREAD_RANK: u8 = 2;

pub const INPUT_RANK: u8 = 3;

pub const OUTPUT_RANK: u8 = 4;

pub const LOCAL_RANK: u8 = 5;

pub const CONNECTION_RANK: u8 = 6;

pub const SWITCH_RANK: u8 = 7;

pub const TRANSITION_RANK: u8 = 8;

pub const ATOM_RANK: u8 = 9;

pub const ASSIGNMENT_RANK: u8 = 10;
