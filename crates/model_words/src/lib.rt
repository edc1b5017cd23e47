// A model in a list of numbers that the caller lends, one field a number: its items by number.

#![tactic(auto)]

mod fields;
mod items;
mod layout;

pub use items::{
    assignment_at, atom_at, connection_at, connections, initial, input_at, input_owner, inputs,
    last_transition, local_at, locals, modes, output_owner, outputs, switch_at, switches,
    thread_at, threads, transition_at, transitions,
};
pub use layout::{
    ASSIGNMENT_SIZE, ASSIGNMENTS_FROM, ATOM_SIZE, ATOMS_FROM, CONNECTION_SIZE, CONNECTIONS_FROM,
    CONNECTIONS_PLACE, INITIAL_PLACE, INPUTS_FROM, INPUTS_PLACE, LOCALS_FROM, LOCALS_PLACE,
    MODEL_WORDS, MODES_PLACE, OUTPUTS_FROM, OUTPUTS_PLACE, OWNED_SIZE, SWITCH_SIZE, SWITCHES_FROM,
    SWITCHES_PLACE, THREAD_SIZE, THREADS_FROM, THREADS_PLACE, TRANSITION_SIZE, TRANSITIONS_FROM,
    TRANSITIONS_PLACE,
};
