// What the bytes of items stand for.
// Kept as bytes and no enums: a record or a lent list may hold any byte, and the definitions say what one that is none of these does.

// The kinds of connections.
pub const IMMEDIATE: u8 = 0;

pub const DELAYED: u8 = 1;

// The tags of what an atom or an assignment names; 0 is a constant.
pub const INPUT_TAG: u8 = 1;

pub const LOCAL_TAG: u8 = 2;

pub const OUTPUT_TAG: u8 = 3;
