// What is wrong with a table: its records judged in the place where they stand, and the first that is refused.

#![tactic(auto)]

ghost use Rattle.std.specs.Prelude.{◌≡◌, cond, eqb, pos};
ghost use Rattle.std.specs.Int.Signed.{le_z, lt_z};
ghost use Rattle.records.specs.Events.{start_kind};
ghost use Rattle.table_format.specs.Variables.{is_variable};
ghost use Rattle.table_format.specs.RuleKinds.{has_rules};
ghost use Rattle.table_format.specs.Reading.{names_variable, operand_fits, initial_fits, longest_length, head_fits, atom_fits, update_fits, operand_names, initial_names, atom_names, update_names, judged, cause_of, next_context, read_table};

use numbers::Value;
use records::{ACTIVATE, Cause, LEAVE, Notation, Operand, Parts, Refusal, START};
use table_format::{
    Atom, CONSTANT_TAG, Context, InitialValue, LENGTH_TAG, LONGEST_TABLE, MULTIPLE_OF,
    NO_MULTIPLE_OF, NO_VARIABLE, Record, RuleHead, Update, VARIABLE_TAG,
};

// How many variables there are, how many ways an atom has to compare, and an update to compute.
const VARIABLES: u32 = table_format::VARIABLES as u32;

const ATOM_OPS: u8 = 8;

const UPDATE_OPS: u8 = 3;

// The longest length that a START may choose.
const LONGEST_LENGTH: u32 = 1000000;

// ---- fields
fn is_variable(number: u32) -> bool
    ensures { result ≡ is_variable number }
{
    number < VARIABLES
}

fn is_natural(value: Value) -> bool
    ensures { result ≡ le_z (pos 0) value.0 }
{
    0 <= value.0
}

// The number of a variable that is there.
fn names_variable(value: Value) -> bool
    ensures { result ≡ names_variable value.0 }
{
    is_natural(value) & is_variable(numbers::bits(value))
}

// `may_choose`: the operand may be the chosen length.
fn operand_fits(may_choose: bool, operand: Operand) -> bool
    ensures { result ≡ operand_fits may_choose operand }
{
    match operand.tag {
        CONSTANT_TAG => true,
        VARIABLE_TAG => names_variable(operand.value),
        tag => may_choose & (tag == LENGTH_TAG),
    }
}

fn initial_fits(least: u32, initial: InitialValue) -> bool
    ensures { result ≡ initial_fits least initial }
{
    let variable = initial.variable as u32;
    (least <= variable) & is_variable(variable)
}

// The greatest length that a rule of a kind may allow.
fn longest(kind: u8) -> u32
    ensures { result ≡ cond (eqb kind start_kind) longest_length 0 }
{
    if kind == START { LONGEST_LENGTH } else { 0 }
}

fn has_rules(kind: u8) -> bool
    ensures { result ≡ has_rules kind }
{
    (ACTIVATE <= kind) & (kind <= LEAVE)
}

fn head_fits(head: RuleHead) -> bool
    ensures { result ≡ head_fits head }
{
    has_rules(head.kind) & ((head.low <= head.high) & (head.high <= longest(head.kind)))
}

fn above_zero(value: Value) -> bool
    ensures { result ≡ lt_z (pos 0) value.0 }
{
    0 < value.0
}

fn atom_fits(atom: Atom) -> bool
    ensures { result ≡ atom_fits atom }
{
    let Atom { op, right, .. } = atom;
    let there = is_variable(atom.variable as u32);
    if op < MULTIPLE_OF {
        return (op < ATOM_OPS) & (there & operand_fits(false, right));
    }
    (op < ATOM_OPS) & (there & ((right.tag == CONSTANT_TAG) & above_zero(right.value)))
}

fn update_fits(kind: u8, update: Update) -> bool
    ensures { result ≡ update_fits kind update }
{
    let Update {
        condition,
        target,
        op,
        first,
        second,
        ..
    } = update;
    let condition_there = is_variable(condition as u32);
    let target_there = is_variable(target as u32);
    let first_fits = operand_fits(kind == START, first);
    let second_fits = operand_fits(kind == START, second);
    ((condition == NO_VARIABLE) | condition_there)
        & ((0 < target) & (target_there & ((op < UPDATE_OPS) & (first_fits & second_fits))))
}

// ---- names
fn operand_names(operand: Operand) -> bool
    ensures { result ≡ operand_names operand }
{
    (operand.tag != VARIABLE_TAG) | names_variable(operand.value)
}

fn atom_names(atom: Atom) -> bool
    ensures { result ≡ atom_names atom }
{
    let op = atom.op;
    let there = is_variable(atom.variable as u32);
    let names = operand_names(atom.right);
    there & (((op == MULTIPLE_OF) | (op == NO_MULTIPLE_OF)) | names)
}

fn update_names(update: Update) -> bool
    ensures { result ≡ update_names update }
{
    let condition_there = is_variable(update.condition as u32);
    let target_there = is_variable(update.target as u32);
    let first_names = operand_names(update.first);
    let second_names = operand_names(update.second);
    ((update.condition == NO_VARIABLE) | condition_there)
        & (target_there & (first_names & second_names))
}

// ---- order
fn judged(in_order: bool, names: bool, fits: bool) -> Cause
    ensures { result ≡ judged in_order names fits }
{
    if in_order {
        if names {
            if fits {
                return Cause::None;
            }
            return Cause::WrongField;
        }
        return Cause::NamesNothing;
    }
    Cause::WrongKind
}

// What fits names: only of a record that does not fit is it asked.
fn initial_cause(in_order: bool, least: u32, initial: InitialValue) -> Cause
    ensures { result ≡ judged in_order (initial_names initial) (initial_fits least initial) }
{
    if initial_fits(least, initial) {
        return judged(in_order, true, true);
    }
    judged(in_order, is_variable(initial.variable as u32), false)
}

fn atom_cause(in_order: bool, atom: Atom) -> Cause
    ensures { result ≡ judged in_order (atom_names atom) (atom_fits atom) }
{
    if atom_fits(atom) {
        return judged(in_order, true, true);
    }
    judged(in_order, atom_names(atom), false)
}

fn update_cause(in_order: bool, kind: u8, update: Update) -> Cause
    ensures { result ≡ judged in_order (update_names update) (update_fits kind update) }
{
    if update_fits(kind, update) {
        return judged(in_order, true, true);
    }
    judged(in_order, update_names(update), false)
}

fn cause_of(context: Context, found: Record) -> Cause
    ensures { result ≡ cause_of context found }
{
    let place = context.place;
    match found {
        Record::Initial(initial) => initial_cause(place == 0, context.least, initial),
        Record::Head(head) => judged(true, true, head_fits(head)),
        Record::Clause => judged((place == 1) | (place == 2), true, true),
        Record::Atomic(atom) => atom_cause(place == 2, atom),
        Record::Change(update) => update_cause(0 < place, context.kind, update),
        Record::Cut => Cause::CutRecord,
        Record::Unknown => Cause::WrongKind,
    }
}

// Where the reader stands after a record.
fn next_context(context: Context, found: Record) -> Context
    ensures { result ≡ next_context context found }
{
    match found {
        Record::Initial(initial) => Context {
            place: 0,
            least: initial.variable as u32 + 1,
            ..context
        },
        Record::Head(head) => Context {
            place: 1,
            kind: head.kind,
            ..context
        },
        Record::Clause => Context {
            place: 2,
            ..context
        },
        Record::Atomic(_) => Context {
            place: 2,
            ..context
        },
        Record::Change(_) => Context {
            place: 3,
            ..context
        },
        Record::Cut => context,
        Record::Unknown => context,
    }
}

// The first refused record of a table, and its part; a table that is too long is refused as a whole, before any record is read.
pub fn read_table(table: &[u8]) -> Refusal
    ensures { result ≡ read_table table.now }
{
    if LONGEST_TABLE < table.len() {
        return records::in_model(Cause::TooMany, 0, table.len());
    }
    let mut context = Context {
        place: 0,
        least: 1,
        kind: 0,
    };
    for part in Parts::new(Notation::Table, table, 0) {
        let found = table_format::record_of(part.bytes);
        let cause = cause_of(context, found);
        if !records::is_none(cause) {
            return records::in_model(cause, part.start, part.end);
        }
        context = next_context(context, found);
    }
    records::no_refusal()
}
