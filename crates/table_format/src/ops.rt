// How an atom compares besides the comparisons of numbers, and what an operand is.
// Kept as bytes and no enums: `holds_op` and `operand_value` speak of any operator and any tag.

pub const MULTIPLE_OF: u8 = 6;

pub const NO_MULTIPLE_OF: u8 = 7;

// The tags of operands.
pub const CONSTANT_TAG: u8 = 0;

pub const VARIABLE_TAG: u8 = 1;

pub const LENGTH_TAG: u8 = 2;
