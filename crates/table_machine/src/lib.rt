// A table's machine: one event, and the start.

#![tactic(auto)]

ghost use Rattle.std.specs.Prelude.{◌≡◌};
ghost use Rattle.numbers.specs.Lists.{store};
ghost use Rattle.numbers.specs.Values.{value};
ghost use Rattle.table_format.specs.Variables.{variables};
ghost use Rattle.table_format.specs.Format.{record_of};
ghost use Rattle.table_format.specs.Table.{table_of};
ghost use Rattle.table_semantics.specs.Rules.{enabled_rules};
ghost use Rattle.table_semantics.specs.Machine as machine;
ghost use Rattle.table_semantics.specs.Runs.{values, variables_of, stepped_to};
ghost use Rattle.table_index.specs.Index.{rules_in, step_by};
ghost use Rattle.table_machine.specs.Running.{initial_after};

use records::{Cause, Event, Notation, Parts, TABLE_START, TICK};
use table_format::{InitialValue, VARIABLES};
use table_index::Rules;
use table_search::Found;
use table_semantics::Variables;

// The enabled rule of an event that is no TICK is fired.
fn fire_enabled(all: Rules, bits: &mut [u32], event: Event) -> Cause
    ensures { stepped_to result bits.new ≡ machine.fire (variables_of bits.old) event (enabled_rules (values bits.old) event.kind event.id (rules_in all.entry.table.now all.entry.words.now all.entry.rest)) }
{
    let found = table_search::find(all, bits, event);
    match found {
        Found::Nothing => Cause::NotEnabled,
        Found::One { place, head } => table_updates::fire(all.table, bits, event, place, head),
        Found::Several => Cause::ConflictingRules,
    }
}

// One event. Firing is called from two places, with all rules listed and without, so that it stays a function of its own: its frame, which has a
// mark for every target, would else be set up for ticks too.
fn step_listed(all: Rules, bits: &mut [u32], event: Event) -> Cause
    ensures { stepped_to result bits.new ≡ machine.step (rules_in all.entry.table.now all.entry.words.now all.entry.rest) (variables_of bits.old) event }
{
    if records::is_broken(event) {
        return Cause::BrokenEvent;
    }
    if event.kind == TICK {
        return table_ticks::tick(all, bits, event.amount);
    }
    if all.table.len() <= all.rest {
        let none = Rules {
            rest: all.table.len(),
            ..all
        };
        return fire_enabled(none, bits, event);
    }
    fire_enabled(all, bits, event)
}

// One event on the table that the bytes hold, whether or not they were accepted, by an index of any content, on variables in a slice of any length:
// the bits of the variables are those one event further, or as they were where it is refused.
pub fn step_by(table: &[u8], index: &[usize], bits: &mut [u32], event: Event) -> Cause
    ensures { stepped_to result bits.new ≡ step_by table.now index.now (variables_of bits.old) event }
{
    step_listed(Rules::new(table, index), bits, event)
}

// The same on as many as there are.
pub fn step_on(table: &[u8], index: &[usize], bits: &mut [u32; VARIABLES], event: Event) -> Cause
    ensures { stepped_to result bits.new ≡ step_by table.now index.now (variables_of bits.old) event }
{
    step_by(table, index, bits, event)
}

// ---- the start, the clock
// How many numbers the index of a run has: room for 1,024 rules.
pub const INDEX: usize = 2050;

fn put_initial(bits: &mut [u32; VARIABLES], y: InitialValue)
    ensures { values bits.new ≡ store variables (values bits.old) y.variable y.value }
{
    table_rules::put(bits, y.variable as usize, table_rules::bits_of(y.value));
}

fn begin_with(bits: &mut [u32; VARIABLES], part: &[u8])
    ensures { values bits.new ≡ initial_after (values bits.old) (record_of part.now) }
{
    if table_format::kind_of(part) != TABLE_START {
        return;
    }
    put_initial(bits, table_format::initial_of(part));
}

// The variables as the table's start records have them.
pub fn start_variables(table: &[u8]) -> Variables
    ensures { result ≡ machine.start_variables (table_of table.now) }
{
    let mut bits = [0; VARIABLES];
    for part in Parts::new(Notation::Table, table, 0) {
        begin_with(&mut bits, part.bytes);
    }
    table_rules::variables_of(bits)
}

// The clock that a listing shows.
pub fn clock_of(s: Variables) -> u32
    ensures { result ≡ machine.clock_of s }
{
    numbers::bits(s.value[0])
}

// And of variables by their bits.
pub fn clock_in(bits: &[u32; VARIABLES]) -> u32
    ensures { result ≡ machine.clock_of (variables_of bits.now) }
{
    numbers::bits(table_rules::value_in(bits, 0))
}
