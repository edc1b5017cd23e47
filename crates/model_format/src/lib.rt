// A timing model: the records of its bytes, and the struct that reading makes of them, with its items by number.

#![tactic(auto)]

mod blank;
mod codes;
mod format;
mod items;
mod limits;
mod ranks;

pub use blank::{
    no_assignment, no_atom, no_connection, no_owned, no_switch, no_thread, no_transition,
};
pub use codes::{DELAYED, IMMEDIATE, INPUT_TAG, LOCAL_TAG, OUTPUT_TAG};
pub use format::{
    assignment_of, atom_of, connection_of, head_of, input_of, owned_of, switch_of, thread_of,
    transition_of,
};
pub use items::{critical_in, in_mode, is_critical, place};
pub use limits::{
    LONGEST_TIME, MAX_CONNECTIONS, MAX_EACH, MAX_INPUTS, MAX_LOCALS, MAX_MODES, MAX_OUTPUTS,
    MAX_SWITCHES, MAX_THREADS, MAX_TIMES, MAX_TRANSITIONS,
};
use numbers::{Duration, Value};
pub use ranks::{
    ASSIGNMENT_RANK, ATOM_RANK, CONNECTION_RANK, HEAD_RANK, INPUT_RANK, LOCAL_RANK, OUTPUT_RANK,
    SWITCH_RANK, THREAD_RANK, TRANSITION_RANK,
};
use records::{Operand, Refusal};

// Kind 01. Modes are numbered from 0.
#[derive(Clone, Copy)]
pub struct Head {
    pub modes: u8,
    pub initial: u8,
}

// Kind 02. `bcet` and `wcet` are Min and Max, `modes` the mask of the modes in which the thread is active, `first` its first behaviour
// state.
#[derive(Clone, Copy)]
pub struct Thread {
    pub period: Duration,
    pub deadline: Duration,
    pub bcet: Duration,
    pub wcet: Duration,
    pub modes: u8,
    pub critical: u8,
    pub first: u8,
}

// Kinds 03 and 0B, an input port, and kind 05, a local: the thread that it belongs to, and its value at the start.
#[derive(Clone, Copy)]
pub struct Owned {
    pub owner: u8,
    pub start: Value,
}

// Kind 06, from output port `source` to input port `target`. `kind` is 0 immediate or 1 delayed.
#[derive(Clone, Copy)]
pub struct Connection {
    pub kind: u8,
    pub source: u16,
    pub target: u16,
    pub modes: u8,
}

// Kind 07, with its two hyperperiods: `h1` of the threads critical in the old mode, `h2` of those critical in both.
#[derive(Clone, Copy)]
pub struct ModeTransition {
    pub from: u8,
    pub to: u8,
    pub h1: Duration,
    pub h2: Duration,
}

// Kind 08, with how many atoms and assignments it has.
#[derive(Clone, Copy)]
pub struct Transition {
    pub thread: u8,
    pub from: u8,
    pub to: u8,
    pub atoms: u8,
    pub assignments: u8,
}

// Kind 09. The left side is a tag (1 input port, 2 local) and a number.
#[derive(Clone, Copy)]
pub struct Atom {
    pub op: u8,
    pub tag: u8,
    pub number: u16,
    pub right: Operand,
}

// Kind 0A. The target is a tag (2 local, 3 output port) and a number.
#[derive(Clone, Copy)]
pub struct Assignment {
    pub tag: u8,
    pub number: u16,
    pub op: u8,
    pub first: Operand,
    pub second: Operand,
}

// One record of a model. `Cut`: its body runs past the end. `Unknown`: its kind is no model kind.
#[derive(Clone, Copy)]
pub enum Record {
    HeadRecord(Head),
    ThreadRecord(Thread),
    InputRecord(Owned),
    OutputRecord(u8),
    LocalRecord(Owned),
    ConnectionRecord(Connection),
    ModeRecord(ModeTransition),
    TransitionRecord(Transition),
    AtomRecord(Atom),
    AssignmentRecord(Assignment),
    Cut,
    Unknown,
}

// What the clock, the modes and the connections need of a model. `threads` is how many there are, and `thread` has them; likewise the
// others. `output` has the owners of output ports.
#[derive(Clone, Copy)]
pub struct Timing {
    pub modes: u8,
    pub initial: u8,
    pub threads: usize,
    pub thread: [Thread; MAX_THREADS],
    pub inputs: usize,
    pub input: [Owned; MAX_INPUTS],
    pub outputs: usize,
    pub output: [u8; MAX_OUTPUTS],
    pub locals: usize,
    pub local: [Owned; MAX_LOCALS],
    pub connections: usize,
    pub connection: [Connection; MAX_CONNECTIONS],
    pub switches: usize,
    pub switch: [ModeTransition; MAX_SWITCHES],
}

// The behaviours. Transition k has the atoms and assignments from 4 k on.
#[derive(Clone, Copy)]
pub struct Behavior {
    pub transitions: usize,
    pub transition: [Transition; MAX_TRANSITIONS],
    pub atom: [Atom; MAX_TIMES],
    pub assignment: [Assignment; MAX_TIMES],
}

#[derive(Clone, Copy)]
pub struct Model {
    pub timing: Timing,
    pub behavior: Behavior,
}

// Where a reader stands: the rank of the last record, 0 before the first, and the model so far.
#[derive(Clone, Copy)]
pub struct Reading {
    pub last: u8,
    pub model: Model,
}

// What is wrong with a record, by cause. `names`, `times` and `ranges` are the faults of single fields: a number that names nothing, a
// faulty time, any other.
#[derive(Clone, Copy)]
pub struct Faults {
    pub order: bool,
    pub excess: bool,
    pub names: bool,
    pub times: bool,
    pub ranges: bool,
    pub owner: bool,
    pub twice: bool,
    pub hyperperiod: bool,
}

// What reading gives: the model where nothing is refused, else the empty model.
// Kept as one struct: the definition `read_model` gives it, and the theorems on reading speak of both fields.
#[derive(Clone, Copy)]
pub struct ModelRead {
    pub refusal: Refusal,
    pub model: Model,
}
