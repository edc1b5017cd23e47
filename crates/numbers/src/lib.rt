// Clock figures and port values, the two number types of the timing models.

#![tactic(auto)]

mod ops;

ghost use Rattle.std.specs.Prelude.{◌≡◌, [], ◌+◌, ◌*◌, ◌<◌, get_or, set, nat_abs};
ghost use Rattle.std.proofs.lemmas.List.Edits.{sets};
ghost use Rattle.numbers.specs.Values as values;
ghost use Rattle.numbers.specs.Multiples as multiples;

pub use ops::{COPY, DIFFERS, EQUALS, IS_ABOVE, IS_AT_LEAST, IS_AT_MOST, IS_BELOW, SUM};

// The last number that 32 bits hold.
pub const LAST_U32: u32 = 4294967295;

// DURATION: a clock figure.
#[derive(Clone, Copy, PartialEq, Eq, PartialOrd, Ord)]
pub struct Duration(pub u32);

// VALUE: what a port, a local or a table's variable holds.
#[derive(Clone, Copy, PartialEq, Eq, PartialOrd, Ord)]
pub struct Value(pub i32);

// The 32 bits of a value.
pub fn bits(v: Value) -> u32
    ensures { result ≡ values.bits_of v.0 }
{
    v.0.cast_unsigned()
}

// The value that 32 bits stand for.
pub fn value_of(n: u32) -> Value
    ensures { result ≡ values.value (values.signed n) }
{
    Value(n.cast_signed())
}

// The size of a value without its sign, also of the least one.
pub fn magnitude(v: Value) -> u32
    ensures { result ≡ nat_abs v.0 }
{
    v.0.unsigned_abs()
}

pub fn plus(a: Value, b: Value) -> Value
    ensures { result ≡ values.plus a b }
{
    Value(a.0.saturating_add(b.0))
}

fn minus(a: Value, b: Value) -> Value
    ensures { result ≡ values.minus a b }
{
    Value(a.0.saturating_sub(b.0))
}

// What an assignment or an update makes of its two operands.
pub fn combine(op: u8, a: Value, b: Value) -> Value
    ensures { result ≡ values.combine op a b }
{
    match op {
        COPY => a,
        SUM => plus(a, b),
        _ => minus(a, b),
    }
}

// An atom's comparison.
pub fn compares(op: u8, a: Value, b: Value) -> bool
    ensures { result ≡ values.compares op a b }
{
    match op {
        EQUALS => a == b,
        DIFFERS => a != b,
        IS_BELOW => a < b,
        IS_AT_LEAST => a >= b,
        IS_ABOVE => b < a,
        _ => b >= a,
    }
}

// ---- items of lists by place
// The item at a place; past the end, `none`.
pub fn item_or<T: Copy>(items: &[T], at: usize, none: T) -> T
    ensures { result ≡ get_or items.now at none }
{
    items.get(at).copied().unwrap_or(none)
}

// An item put at a place; past the end, nothing is put.
pub fn put_item<T: Copy>(items: &mut [T], at: usize, item: T)
    ensures { items.new ≡ set items.old at item }
{
    if at < items.len() {
        items[at] = item;
    }
}

// ---- bytes
// The byte k places after `at`. The sum of the two is made only where it lies within the slice.
fn byte_after(s: &[u8], at: usize, k: usize) -> u8
    ensures { result ≡ get_or s.now (at + k) 0 }
{
    if at < s.len() && k < s.len() - at {
        s[at + k]
    } else {
        0
    }
}

pub fn u16_at(s: &[u8], at: usize) -> u16
    ensures { result ≡ values.u16_at s.now at }
{
    u16::from_le_bytes([item_or(s, at, 0), byte_after(s, at, 1)])
}

// Where all four bytes are there, which is asked once, they are one load.
pub fn u32_at(s: &[u8], at: usize) -> u32
    ensures { result ≡ values.u32_at s.now at }
{
    if at < s.len() && 3 < s.len() - at {
        return u32::from_le_bytes([s[at], s[at + 1], s[at + 2], s[at + 3]]);
    }
    u32::from_le_bytes([
        item_or(s, at, 0),
        byte_after(s, at, 1),
        byte_after(s, at, 2),
        byte_after(s, at, 3),
    ])
}

pub fn duration_at(s: &[u8], at: usize) -> Duration
    ensures { result ≡ values.duration_at s.now at }
{
    Duration(u32_at(s, at))
}

pub fn value_at(s: &[u8], at: usize) -> Value
    ensures { result ≡ values.value_at s.now at }
{
    value_of(u32_at(s, at))
}

// A byte written k places after `at`, where the slice has that place.
fn put_after(d: &mut [u8], at: usize, k: usize, b: u8)
    ensures { d.new ≡ set d.old (at + k) b }
{
    if at < d.len() && k < d.len() - at {
        d[at + k] = b;
    }
}

// The bytes of a number, least first. Those that would lie past the end are left out.
pub fn put16(d: &mut [u8], at: usize, n: u16)
    ensures { d.new ≡ sets d.old at (values.u16_to n []) }
{
    put_after(d, at, 0, (n % 256) as u8);
    put_after(d, at, 1, (n / 256 % 256) as u8);
}

pub fn put32(d: &mut [u8], at: usize, n: u32)
    ensures { d.new ≡ sets d.old at (values.u32_to n []) }
{
    put_after(d, at, 0, (n % 256) as u8);
    put_after(d, at, 1, (n / 256 % 256) as u8);
    put_after(d, at, 2, (n / 256 / 256 % 256) as u8);
    put_after(d, at, 3, (n / 256 / 256 / 256 % 256) as u8);
}

// One more, and no more than 32 bits hold: for Missed of a model's thread. Spent, the definition's other use, gains many ticks at once.
pub fn one_more(n: u32) -> u32
    ensures { result ≡ values.one_more n }
{
    n.saturating_add(1)
}

pub fn is_multiple(n: u32, p: u32) -> bool
    ensures { result ≡ multiples.is_multiple n p }
{
    if p == 0 { false } else { n % p == 0 }
}

fn gcd(a: u64, b: u64) -> u64
    ensures { result ≡ multiples.gcd a b }
{
    let mut x = a;
    let mut y = b;
    while y != 0 {
        let r = x % y;
        x = y;
        y = r;
    }
    x
}

// The least common multiple so far and of one number more. Up to a limit of 32 bits, the product has room in 64.
pub fn lcm_up_to(limit: u32, a: u64, b: u32) -> u64
    ensures { result ≡ multiples.lcm_up_to limit a b }
{
    if (limit as u64) < a {
        return a;
    }
    // A number that equals the multiple so far, or divides it, needs no greatest common divisor.
    if a == b as u64 {
        return a;
    }
    if is_multiple(a as u32, b) {
        return a;
    }
    let g = gcd(a, b as u64);
    if g == 0 {
        return 0;
    }
    a / g * (b as u64)
}
