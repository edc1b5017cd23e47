// How two values compare, and what an assignment or an update makes of them.
// Kept as bytes and no enums: `compares` and `combine` speak of any operator.

pub const EQUALS: u8 = 0;

pub const DIFFERS: u8 = 1;

pub const IS_BELOW: u8 = 2;

pub const IS_AT_LEAST: u8 = 3;

pub const IS_ABOVE: u8 = 4;

pub const IS_AT_MOST: u8 = 5;

pub const COPY: u8 = 0;

pub const SUM: u8 = 1;
