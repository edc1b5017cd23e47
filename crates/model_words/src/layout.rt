// Where the numbers of a model stand in a list: the head and how many items there are of each kind, then the items, each kind with its
// room.

use model_format::{
    MAX_CONNECTIONS, MAX_INPUTS, MAX_LOCALS, MAX_OUTPUTS, MAX_SWITCHES, MAX_THREADS, MAX_TIMES,
    MAX_TRANSITIONS,
};

pub const MODES_PLACE: usize = 0;

pub const INITIAL_PLACE: usize = 1;

pub const THREADS_PLACE: usize = 2;

pub const INPUTS_PLACE: usize = 3;

pub const OUTPUTS_PLACE: usize = 4;

pub const LOCALS_PLACE: usize = 5;

pub const CONNECTIONS_PLACE: usize = 6;

pub const SWITCHES_PLACE: usize = 7;

pub const TRANSITIONS_PLACE: usize = 8;

// How many numbers an item has.
pub const THREAD_SIZE: usize = 7;

pub const OWNED_SIZE: usize = 2;

pub const CONNECTION_SIZE: usize = 4;

pub const SWITCH_SIZE: usize = 4;

pub const TRANSITION_SIZE: usize = 5;

pub const ATOM_SIZE: usize = 5;

pub const ASSIGNMENT_SIZE: usize = 7;

// Where the items of a kind begin.
pub const THREADS_FROM: usize = 9;

pub const INPUTS_FROM: usize = THREADS_FROM + MAX_THREADS * THREAD_SIZE;

pub const OUTPUTS_FROM: usize = INPUTS_FROM + MAX_INPUTS * OWNED_SIZE;

pub const LOCALS_FROM: usize = OUTPUTS_FROM + MAX_OUTPUTS;

pub const CONNECTIONS_FROM: usize = LOCALS_FROM + MAX_LOCALS * OWNED_SIZE;

pub const SWITCHES_FROM: usize = CONNECTIONS_FROM + MAX_CONNECTIONS * CONNECTION_SIZE;

pub const TRANSITIONS_FROM: usize = SWITCHES_FROM + MAX_SWITCHES * SWITCH_SIZE;

pub const ATOMS_FROM: usize = TRANSITIONS_FROM + MAX_TRANSITIONS * TRANSITION_SIZE;

pub const ASSIGNMENTS_FROM: usize = ATOMS_FROM + MAX_TIMES * ATOM_SIZE;

// The numbers that a model has.
pub const MODEL_WORDS: usize = ASSIGNMENTS_FROM + MAX_TIMES * ASSIGNMENT_SIZE;
