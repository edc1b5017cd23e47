// The kinds of records, each language's own, the sizes of those that others cut out by themselves, and the last clock.
// Kept as bytes and no enums: the definitions (`record_size`, `event_of`, `step`) speak of any byte, also of one that is no kind.

pub const MODEL_HEAD: u8 = 1;

pub const MODEL_THREAD: u8 = 2;

pub const MODEL_INPUT: u8 = 3;

pub const MODEL_OUTPUT: u8 = 4;

pub const MODEL_LOCAL: u8 = 5;

pub const MODEL_CONNECTION: u8 = 6;

pub const MODEL_SWITCH: u8 = 7;

pub const MODEL_TRANSITION: u8 = 8;

pub const MODEL_ATOM: u8 = 9;

pub const MODEL_ASSIGNMENT: u8 = 10;

pub const MODEL_WRITTEN_INPUT: u8 = 11;

pub const TABLE_START: u8 = 32;

pub const TABLE_RULE: u8 = 33;

pub const TABLE_CLAUSE: u8 = 34;

pub const TABLE_ATOM: u8 = 35;

pub const TABLE_UPDATE: u8 = 36;

pub const ACTIVATE: u8 = 1;

pub const DEACTIVATE: u8 = 2;

pub const DISPATCH: u8 = 3;

pub const START: u8 = 4;

pub const COMPLETE: u8 = 5;

pub const DEADLINE: u8 = 6;

pub const MISS: u8 = 7;

pub const REQUEST: u8 = 8;

pub const ENTER: u8 = 9;

pub const LEAVE: u8 = 10;

pub const TICK: u8 = 11;

// With the kind byte.
pub const MODEL_HEAD_SIZE: usize = 3;

pub const MODEL_THREAD_SIZE: usize = 20;

pub const MODEL_PORT_SIZE: usize = 2;

pub const MODEL_LOCAL_SIZE: usize = 6;

pub const MODEL_CONNECTION_SIZE: usize = 5;

pub const MODEL_SWITCH_SIZE: usize = 3;

pub const MODEL_TRANSITION_SIZE: usize = 4;

pub const MODEL_ATOM_SIZE: usize = 9;

pub const MODEL_ASSIGNMENT_SIZE: usize = 14;

pub const MODEL_WRITTEN_INPUT_SIZE: usize = 6;

pub const RULE_SIZE: usize = 11;

pub const CLAUSE_SIZE: usize = 1;

pub const TABLE_ATOM_SIZE: usize = 9;

pub const UPDATE_SIZE: usize = 17;

pub const LAST_CLOCK: u32 = 1000000000;
