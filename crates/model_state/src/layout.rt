// Where each part of a state stands: the six numbers of its clock, then its arrays, one after the other. specs/Words.antt has the same
// places.

use model_format::{MAX_CONNECTIONS, MAX_INPUTS, MAX_LOCALS, MAX_OUTPUTS, MAX_THREADS};

pub const NOW: usize = 0;

pub const ENTERED: usize = 1;

pub const MODE: usize = 2;

pub const PHASE: usize = 3;

pub const PENDING: usize = 4;

pub const CPU: usize = 5;

pub const CLOCK_WORDS: usize = 6;

// An array: where it begins, and how many items it has room for.
#[derive(Clone, Copy)]
pub struct Array {
    pub from: usize,
    pub room: usize,
}

// ---- by thread
pub const ACTIVE: Array = Array {
    from: CLOCK_WORDS,
    room: MAX_THREADS,
};

pub const CODE: Array = Array {
    from: CLOCK_WORDS + MAX_THREADS,
    room: MAX_THREADS,
};

pub const DISPATCHED: Array = Array {
    from: CLOCK_WORDS + 2 * MAX_THREADS,
    room: MAX_THREADS,
};

pub const LENGTH: Array = Array {
    from: CLOCK_WORDS + 3 * MAX_THREADS,
    room: MAX_THREADS,
};

pub const SPENT: Array = Array {
    from: CLOCK_WORDS + 4 * MAX_THREADS,
    room: MAX_THREADS,
};

pub const BEHAVIOR: Array = Array {
    from: CLOCK_WORDS + 5 * MAX_THREADS,
    room: MAX_THREADS,
};

pub const MISSED: Array = Array {
    from: CLOCK_WORDS + 6 * MAX_THREADS,
    room: MAX_THREADS,
};

// ---- by connection
const CONNECTIONS_FROM: usize = CLOCK_WORDS + 7 * MAX_THREADS;

pub const LIVE: Array = Array {
    from: CONNECTIONS_FROM,
    room: MAX_CONNECTIONS,
};

// ---- by port and local
const PORTS_FROM: usize = CONNECTIONS_FROM + MAX_CONNECTIONS;

pub const INPUT: Array = Array {
    from: PORTS_FROM,
    room: MAX_INPUTS,
};

pub const BUFFER: Array = Array {
    from: PORTS_FROM + MAX_INPUTS,
    room: MAX_INPUTS,
};

pub const OUTPUT: Array = Array {
    from: PORTS_FROM + 2 * MAX_INPUTS,
    room: MAX_OUTPUTS,
};

pub const LOCAL: Array = Array {
    from: PORTS_FROM + 2 * MAX_INPUTS + MAX_OUTPUTS,
    room: MAX_LOCALS,
};

pub const STATE_WORDS: usize = LOCAL.from + LOCAL.room;
