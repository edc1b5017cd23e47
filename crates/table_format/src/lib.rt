// A table of rules as bytes: its variables, its records, and what a record holds.

#![tactic(auto)]

mod ops;
mod variables;

ghost use Rattle.std.specs.Prelude.{◌≡◌};
ghost use Rattle.table_format.specs.Format.{initial_of, head_of, atom_of, update_of, record_of, kind_of};

use numbers::Value;
pub use numbers::{COPY, DIFFERS, EQUALS, IS_ABOVE, IS_AT_LEAST, IS_AT_MOST, IS_BELOW, SUM};
pub use ops::{CONSTANT_TAG, LENGTH_TAG, MULTIPLE_OF, NO_MULTIPLE_OF, VARIABLE_TAG};
use records::{Notation, Operand, TABLE_ATOM, TABLE_CLAUSE, TABLE_RULE, TABLE_START};
pub use variables::{
    ACTIVE, BEHAVIOR, BUFFER, CLOCK_VARIABLES, CPU, DISPATCH_TIME, DUE, END, ENTERED, FLAG, INPUT,
    LOCAL, MISSED, MODE, NO_VARIABLE, NOW, OUTPUT, PENDING, PHASE, STATE, VARIABLES, active_var,
    behavior_var, buffer_var, dispatch_var, due_var, end_var, flag_var, input_var, local_var,
    missed_var, output_var, state_var,
};

// In bytes.
pub const LONGEST_TABLE: usize = 1000000;

// Kind 20, a start: the value with which an environment variable begins.
#[derive(Clone, Copy)]
pub struct InitialValue {
    pub variable: u16,
    pub value: Value,
}

// Kind 21: the event and id that a rule is for, and the lengths that it allows.
#[derive(Clone, Copy)]
pub struct RuleHead {
    pub kind: u8,
    pub id: u8,
    pub low: u32,
    pub high: u32,
}

// Kind 23: an atomic condition on a variable.
#[derive(Clone, Copy)]
pub struct Atom {
    pub op: u8,
    pub variable: u16,
    pub right: Operand,
}

// Kind 24. `condition` is the variable that must have the value `wanted`, or 65,535 for none.
#[derive(Clone, Copy)]
pub struct Update {
    pub condition: u16,
    pub wanted: u8,
    pub target: u16,
    pub op: u8,
    pub first: Operand,
    pub second: Operand,
}

// One record of a table. `Cut`: its body runs past the end. `Unknown`: its kind is no table kind.
#[derive(Clone, Copy)]
pub enum Record {
    Initial(InitialValue),
    Head(RuleHead),
    Clause,
    Atomic(Atom),
    Change(Update),
    Cut,
    Unknown,
}

// Where a reader stands. `place`: 0 before rules, 1 after a rule record, 2 in clauses, 3 in updates. `least`: the least variable that a
// start may name. `kind`: the event kind of the rule. The place is a number in the definitions of reading too.
#[derive(Clone, Copy)]
pub struct Context {
    pub place: u8,
    pub least: u32,
    pub kind: u8,
}

// The body of a start record, from a part that begins at its kind byte. A byte past the part's end reads 0, here and below.
pub fn initial_of(part: &[u8]) -> InitialValue
    ensures { result ≡ initial_of part.now }
{
    InitialValue {
        variable: numbers::u16_at(part, 1),
        value: numbers::value_at(part, 3),
    }
}

pub fn head_of(part: &[u8]) -> RuleHead
    ensures { result ≡ head_of part.now }
{
    RuleHead {
        kind: numbers::item_or(part, 1, 0),
        id: numbers::item_or(part, 2, 0),
        low: numbers::u32_at(part, 3),
        high: numbers::u32_at(part, 7),
    }
}

fn atom_of(part: &[u8]) -> Atom
    ensures { result ≡ atom_of part.now }
{
    Atom {
        op: numbers::item_or(part, 1, 0),
        variable: numbers::u16_at(part, 2),
        right: records::operand_at(part, 4),
    }
}

fn update_of(part: &[u8]) -> Update
    ensures { result ≡ update_of part.now }
{
    Update {
        condition: numbers::u16_at(part, 1),
        wanted: numbers::item_or(part, 3, 0),
        target: numbers::u16_at(part, 4),
        op: numbers::item_or(part, 6, 0),
        first: records::operand_at(part, 7),
        second: records::operand_at(part, 12),
    }
}

// The kind of the record that a part holds; 0 where it is cut or unknown. A walk that looks for one kind need decode no other.
pub fn kind_of(part: &[u8]) -> u8
    ensures { result ≡ kind_of (record_of part.now) }
{
    let kind = numbers::item_or(part, 0, 0);
    let size = records::record_size(Notation::Table, kind);
    if size == 0 {
        return 0;
    }
    if part.len() < size {
        return 0;
    }
    kind
}

// The record that a part holds, whatever its bytes.
pub fn record_of(part: &[u8]) -> Record
    ensures { result ≡ record_of part.now }
{
    let kind = numbers::item_or(part, 0, 0);
    let size = records::record_size(Notation::Table, kind);
    if size == 0 {
        return Record::Unknown;
    }
    if part.len() < size {
        return Record::Cut;
    }
    match kind {
        TABLE_START => Record::Initial(initial_of(part)),
        TABLE_RULE => Record::Head(head_of(part)),
        TABLE_CLAUSE => Record::Clause,
        TABLE_ATOM => Record::Atomic(atom_of(part)),
        _ => Record::Change(update_of(part)),
    }
}
