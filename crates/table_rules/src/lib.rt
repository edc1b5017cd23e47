// The variables as bits, and the rules on them: operands, atoms, clauses.

#![tactic(auto)]

ghost use Rattle.std.specs.Prelude.{◌≡◌};
ghost use Rattle.numbers.specs.Lists.{store};
ghost use Rattle.numbers.specs.Values.{value, signed};
ghost use Rattle.table_format.specs.Variables.{variables};
ghost use Rattle.table_format.specs.Format.{atom_of};
ghost use Rattle.table_semantics.specs.Rules as rules;
ghost use Rattle.table_semantics.specs.Runs.{values};
ghost use Rattle.table_rules.specs.At.{clauses_at};
ghost use Rattle.table_rules.specs.Clauses.{passes, all_pass};

use numbers::Value;
use records::{CLAUSE_SIZE, Notation, TABLE_ATOM, TABLE_ATOM_SIZE, TABLE_CLAUSE, TABLE_RULE};
use table_format::{CONSTANT_TAG, EQUALS, MULTIPLE_OF, VARIABLE_TAG, VARIABLES};
use table_semantics::Variables;

// ---- the variables as bits
// A walk over a table reads the variables from a lent slice of their bits: by value they would be copied for every atom. The slice may have any
// length: what it does not have reads 0 and is not written, nor is what it has past the last variable.

pub fn bits_of(x: Value) -> u32
    ensures { value (signed result) ≡ x }
{
    numbers::bits(x)
}

// Loops in place of `map` of arrays, with which the start of a table takes nine KiB more of stack and half as many instructions again.
pub fn all_bits(s: Variables) -> [u32; VARIABLES]
    ensures { values result ≡ s.value }
{
    let mut bits = [0; VARIABLES];
    for j in 0..VARIABLES {
        bits[j] = bits_of(s.value[j]);
    }
    bits
}

pub fn variables_of(bits: [u32; VARIABLES]) -> Variables
    ensures { result ≡ record { value = values bits } }
{
    let mut value = [numbers::value_of(0); VARIABLES];
    for j in 0..VARIABLES {
        value[j] = numbers::value_of(bits[j]);
    }
    Variables { value }
}

// A variable; one that is not there reads 0.
pub fn value_in(bits: &[u32], j: usize) -> Value
    ensures { result ≡ rules.value_of (values bits.now) j }
{
    if j < VARIABLES {
        numbers::value_of(numbers::item_or(bits, j, 0))
    } else {
        numbers::value_of(0)
    }
}

// The bits of a variable; one that is not there is not written.
pub fn put(bits: &mut [u32], j: usize, n: u32)
    ensures { bits.new ≡ store variables bits.old j n }
{
    if j < VARIABLES {
        numbers::put_item(bits, j, n);
    }
}

// ---- rules
// An operand by its tag and its value; `n` is the chosen length.
pub fn operand_value(n: u32, bits: &[u32], tag: u8, x: Value) -> Value
    ensures { result ≡ rules.operand_value n (values bits.now) (record { tag = tag; value = x }) }
{
    match tag {
        CONSTANT_TAG => x,
        VARIABLE_TAG => value_in(bits, numbers::bits(x) as usize),
        _ => numbers::value_of(n),
    }
}

// Most atoms ask whether two values are the same.
fn holds_op(op: u8, x: Value, y: Value) -> bool
    ensures { result ≡ rules.holds_op op x y }
{
    if op == EQUALS {
        return x == y;
    }
    if op < MULTIPLE_OF {
        return numbers::compares(op, x, y);
    }
    let is_multiple = numbers::is_multiple(numbers::magnitude(x), numbers::bits(y));
    if op == MULTIPLE_OF {
        is_multiple
    } else {
        !is_multiple
    }
}

// Whether the atom that a part holds does. `free`: one that reads the clock, as its variable or as its operand, passes, whatever the clock is.
fn passes(free: bool, bits: &[u32], part: &[u8]) -> bool
    ensures { result ≡ passes free (values bits.now) (atom_of part.now) }
{
    let op = numbers::item_or(part, 1, 0);
    let j = numbers::u16_at(part, 2);
    let tag = numbers::item_or(part, 4, 0);
    let y = numbers::value_at(part, 5);
    let n = numbers::bits(y);
    if free & ((j == 0) | ((tag == VARIABLE_TAG) & (n == 0))) {
        return true;
    }
    let a = value_in(bits, j as usize);
    let b = operand_value(0, bits, tag, y);
    holds_op(op, a, b)
}

// Whether all clauses hold of the rule whose records after its head begin at `from`. An atom is decoded only where its clause does not hold
// yet. A record that is cut is the last. A loop by hand in place of one over `Parts`, which looks every size up in a table where here nearly all
// records are clauses and atoms: with it runs of a table with one thread miss their goal beside the plain model.
pub fn all_pass(table: &[u8], from: usize, free: bool, bits: &[u32]) -> bool
    ensures { result ≡ all_pass free (values bits.now) (clauses_at table.now from) }
{
    let mut at = from;
    let mut held = true;
    while at < table.len() {
        let k = table[at];
        if k == TABLE_CLAUSE {
            if !held {
                return false;
            }
            held = false;
            at += CLAUSE_SIZE;
            continue;
        }
        if k == TABLE_ATOM {
            if table.len() - at < TABLE_ATOM_SIZE {
                return held;
            }
            if held {
                at += TABLE_ATOM_SIZE;
                continue;
            }
            held = passes(free, bits, &table[at..at + TABLE_ATOM_SIZE]);
            at += TABLE_ATOM_SIZE;
            continue;
        }
        if k == TABLE_RULE {
            return held;
        }
        at += records::part_length_at(Notation::Table, table, at);
    }
    held
}

pub fn is_enabled(table: &[u8], from: usize, bits: &[u32]) -> bool
    ensures { result ≡ rules.all_hold (values bits.now) (clauses_at table.now from) }
{
    all_pass(table, from, false, bits)
}
