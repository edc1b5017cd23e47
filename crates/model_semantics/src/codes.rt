// The codes of a state.
// Kept as bytes and no enums: `State` of the definitions has them, and a lent list may hold any byte.

// Of a thread.
pub const WAITING_MODE: u8 = 0;

pub const WAITING_DISPATCH: u8 = 1;

pub const WAITING_EXECUTION: u8 = 2;

pub const EXECUTION: u8 = 3;

pub const COMPLETED: u8 = 4;

// The phases: no mode transition, one requested, one under way.
pub const STEADY: u8 = 0;

pub const REQUESTED: u8 = 1;

pub const CHANGING: u8 = 2;

// No thread on the processor, no mode transition pending.
pub const NONE: u8 = 255;
