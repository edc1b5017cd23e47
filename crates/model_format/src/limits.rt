// How many items of each kind a model may have, and how long a time may be.

pub const MAX_MODES: u8 = 8;

pub const MAX_THREADS: usize = 16;

pub const MAX_INPUTS: usize = 32;

pub const MAX_OUTPUTS: usize = 32;

pub const MAX_LOCALS: usize = 32;

pub const MAX_CONNECTIONS: usize = 32;

pub const MAX_SWITCHES: usize = 16;

pub const MAX_TRANSITIONS: usize = 64;

// Atoms of a transition, and assignments.
pub const MAX_EACH: usize = 4;

// Atoms of all transitions, and assignments.
pub const MAX_TIMES: usize = MAX_TRANSITIONS * MAX_EACH;

// A period, deadline or execution time.
pub const LONGEST_TIME: u32 = 1000000;
