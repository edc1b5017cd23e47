// The table's engine for callers who lend slices.

#![tactic(auto)]

ghost use Rattle.std.specs.Prelude.{◌≡◌, length};
ghost use Rattle.std.proofs.lemmas.List.Edits.{sets};
ghost use Rattle.table_index.specs.Index.{index_of, index_size};
ghost use Rattle.listing.specs.Outcomes.{table_outcome};
ghost use Rattle.futonkestrel_lending.specs.Lending as lending;

use futonkestrel_lending::{put_variables, tell_run};
use records::Cause;
use table_format::VARIABLES;

// The variables as a table's start records have them.
pub fn table_start(table: &[u8], lent: &mut [u32]) -> Cause
    ensures { (result ≡ lending.start_answer table.now lent.old) × (lent.new ≡ lending.start_lent table.now lent.old) }
{
    let cause = table_faults::read_table(table).cause;
    if !records::is_none(cause) {
        return cause;
    }
    if lent.len() < VARIABLES {
        return Cause::ShortOutput;
    }
    put_variables(lent, table_machine::start_variables(table));
    cause
}

// The index of a table, as far as there is room, by which events find their rules. It tells how many numbers list all.
pub fn table_index(table: &[u8], index: &mut [usize]) -> usize
    ensures { (result ≡ index_size table.now) × (index.new ≡ sets index.old 0 (index_of table.now (length index.old))) }
{
    table_index::list_rules(table, index)
}

// One event on lent variables, where they lie, by an index of any content.
pub fn table_step(table: &[u8], index: &[usize], variables: &mut [u32], event: &[u8]) -> Cause
    ensures { (result ≡ lending.step_answer table.now index.now variables.old event.now) × (variables.new ≡ lending.step_lent table.now index.now variables.old event.now) }
{
    if variables.len() < VARIABLES {
        return Cause::ShortOutput;
    }
    let event = records::event_of(event);
    table_machine::step_by(table, index, &mut variables[..VARIABLES], event)
}

// The run of a table over a script, up to its first refused event.
pub fn run_table(table: &[u8], script: &[u8], told: &mut [usize]) -> u32
    ensures { lending.TellsOutcome (table_outcome table.now script.now) told.old result told.new }
{
    let refusal = table_faults::read_table(table);
    if !records::is_none(refusal.cause) {
        return tell_run(told, refusal, 0, 0);
    }
    let ran = table_runs::run_table(table, script);
    let clock = table_machine::clock_of(ran.state);
    tell_run(told, ran.refusal, ran.taken, clock)
}
