// Firing a rule: its updates.

#![tactic(auto)]

ghost use Rattle.std.specs.Prelude.{◌≡◌, true, false, ◌&&◌, [], ◌∷◌, ◌<◌, ◌≤◌, eqb, get_or, set, length, replicate};
ghost use Rattle.table_format.specs.Variables.{variables};
ghost use Rattle.table_format.specs.Format.{update_of};
ghost use Rattle.table_semantics.specs.Rules as rules;
ghost use Rattle.table_semantics.specs.Machine as machine;
ghost use Rattle.table_semantics.specs.Runs.{values, variables_of, stepped_to};
ghost use Rattle.table_rules.specs.At.{rule_at};
ghost use Rattle.table_updates.specs.Applied.{writes_from, WritesTo, pending, Gathers, Collected, Fired, head_allows};

use numbers::Value;
use records::{Cause, Event, Notation, Parts, START, TABLE_RULE, TABLE_UPDATE, UPDATE_SIZE};
use table_format::{NO_VARIABLE, RuleHead, VARIABLES};

// ---- updates
// Whether the update that a part holds applies.
fn applies(bits: &[u32], part: &[u8]) -> bool
    ensures { result ≡ rules.applies (values bits.now) (update_of part.now) }
{
    let condition = numbers::u16_at(part, 1);
    if condition == NO_VARIABLE {
        return true;
    }
    let wanted = numbers::item_or(part, 3, 0);
    table_rules::value_in(bits, condition as usize) == numbers::value_of(wanted as u32)
}

// The value that it writes. A copy has no second operand.
fn new_value(n: u32, bits: &[u32], part: &[u8]) -> Value
    ensures { result ≡ rules.new_value n (values bits.now) (update_of part.now) }
{
    let op = numbers::item_or(part, 6, 0);
    let s = numbers::item_or(part, 7, 0);
    let a = table_rules::operand_value(n, bits, s, numbers::value_at(part, 8));
    if op == 0 {
        return a;
    }
    let table = numbers::item_or(part, 12, 0);
    let b = table_rules::operand_value(n, bits, table, numbers::value_at(part, 13));
    numbers::combine(op, a, b)
}

fn target_of(part: &[u8]) -> usize
    ensures { result ≡ (update_of part.now).target }
{
    usize::from(numbers::u16_at(part, 4))
}

fn writes_to(bits: &[u32], part: &[u8], target: usize) -> bool
    ensures { result ≡ (rules.applies (values bits.now) (update_of part.now) && eqb (update_of part.now).target target) }
{
    applies(bits, part) & (target_of(part) == target)
}

// Whether an update of the rule writes this target, from this place on.
fn is_written(table: &[u8], from: usize, bits: &[u32], target: usize) -> bool
    ensures { WritesTo (values bits.now) table.now from target result }
{
    for part in Parts::new(Notation::Table, table, from) {
        let kind = table_format::kind_of(part.bytes);
        if kind == TABLE_RULE {
            return false;
        }
        if kind == TABLE_UPDATE && writes_to(bits, part.bytes, target) {
            return true;
        }
    }
    false
}

// A write that is held: a variable, and the bits of its new value.
#[derive(Clone, Copy)]
struct Held {
    target: usize,
    bits: u32,
}

// Why the writes of a rule are not all held: a target is written twice, or there is no room for one more.
#[derive(Clone, Copy)]
enum Stop {
    Twice,
    NoRoom,
}

// Marks a target; tells whether it was marked before.
fn mark(marks: &mut [bool], target: usize) -> bool
    requires { target < length marks.old }
    ensures { (result ≡ get_or marks.old target false) × (marks.new ≡ set marks.old target true) }
{
    let before = marks[target];
    marks[target] = true;
    before
}

// Where an update applies, its target is marked, and held with the new value. A target past the last variable has no mark and is not held: the
// updates from `next` on are searched for it. Tables that reading accepts have none. It tells how many writes are held then.
fn gather_update(
    table: &[u8],
    next: usize,
    n: u32,
    bits: &[u32],
    count: usize,
    held: &mut [Held],
    marks: &mut [bool],
    part: &[u8],
) -> Result<usize, Stop>
    requires { length marks.old ≡ variables }
    ensures { Gathers (rules.writes n (values bits.now) (update_of part.now ∷ [])) (writes_from n (values bits.now) table.now next) result count held.old held.new marks.old marks.new }
{
    if !applies(bits, part) {
        return Ok(count);
    }
    let target = target_of(part);
    if VARIABLES <= target {
        if is_written(table, next, bits, target) {
            return Err(Stop::Twice);
        }
        return Ok(count);
    }
    if mark(marks, target) {
        return Err(Stop::Twice);
    }
    if held.len() <= count {
        return Err(Stop::NoRoom);
    }
    held[count] = Held {
        target,
        bits: table_rules::bits_of(new_value(n, bits, part)),
    };
    Ok(count + 1)
}

// The updates of the rule whose records after its head begin at `from`. A part is known by its first byte: only of an update it is asked whether all of it is there.
fn gather_updates(
    table: &[u8],
    from: usize,
    n: u32,
    bits: &[u32],
    held: &mut [Held],
    marks: &mut [bool],
) -> Result<usize, Stop>
    requires { marks.old ≡ replicate variables false }
    ensures { (length marks.new ≡ length marks.old) × Collected (writes_from n (values bits.now) table.now from) (values bits.now) result held.new (length held.old) }
{
    let mut count: usize = 0;
    for part in Parts::new(Notation::Table, table, from) {
        match numbers::item_or(part.bytes, 0, 0) {
            TABLE_RULE => return Ok(count),
            TABLE_UPDATE => {
                if UPDATE_SIZE <= part.bytes.len() {
                    count = gather_update(
                        table, part.end, n, bits, count, held, marks, part.bytes,
                    )?;
                }
            }
            _ => {}
        }
    }
    Ok(count)
}

// The writes that are held.
fn write(bits: &mut [u32], held: &[Held])
    ensures { values bits.new ≡ rules.written (pending held.now) (values bits.old) }
{
    for one in held {
        table_rules::put(bits, one.target, one.bits);
    }
}

// ---- one event
fn allows_length(event: Event, head: RuleHead) -> bool
    ensures { result ≡ head_allows event head }
{
    if event.kind != START {
        return true;
    }
    (head.low <= event.amount) & (event.amount <= head.high)
}

// The updates of a rule, with room for N of them.
fn fire_with<const N: usize>(
    table: &[u8],
    place: usize,
    n: u32,
    bits: &mut [u32],
) -> Result<(), Stop>
    requires { N ≤ variables }
    ensures { Fired (writes_from n (values bits.old) table.now place) bits.old result bits.new N }
{
    let mut held = [Held { target: 0, bits: 0 }; N];
    let mut marks = [false; VARIABLES];
    let count = gather_updates(table, place, n, bits, &mut held, &mut marks)?;
    write(bits, &held[..count]);
    Ok(())
}

// How many updates of a rule there is room for at first: most have no more.
const FEW: usize = 64;

// As many as there are variables always have room.
fn fire_updates(table: &[u8], place: usize, n: u32, bits: &mut [u32]) -> Result<(), Stop>
    ensures { Fired (writes_from n (values bits.old) table.now place) bits.old result bits.new variables }
{
    match fire_with::<FEW>(table, place, n, bits) {
        Err(Stop::NoRoom) => fire_with::<VARIABLES>(table, place, n, bits),
        few => few,
    }
}

// The one enabled rule of an event: its head, and the place after that.
pub fn fire(table: &[u8], bits: &mut [u32], event: Event, place: usize, head: RuleHead) -> Cause
    ensures { stepped_to result bits.new ≡ machine.fire (variables_of bits.old) event (rule_at table.now place head ∷ []) }
{
    if !allows_length(event, head) {
        return Cause::NotEnabled;
    }
    match fire_updates(table, place, event.amount, bits) {
        Ok(()) => Cause::None,
        Err(_) => Cause::InconsistentUpdates,
    }
}
