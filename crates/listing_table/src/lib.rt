// The listing of a table's run, written into a lent slice.

#![tactic(auto)]

ghost use Rattle.records.specs.declared.Notation.TheVariants as notations;
ghost use Rattle.table_format.specs.Table.{table_of};
ghost use Rattle.table_semantics.specs.Machine.{machine_of, clock_of, start_variables, run_table};
ghost use Rattle.listing.specs.Listing.{listing};
ghost use Rattle.listing.specs.Programs.{table_listing};
ghost use Rattle.listing.specs.Outcomes.{table_outcome};
ghost use Rattle.listing_writer.specs.Prints.{Prints, HandsBack};

use listing_writer::{Printed, put_end, put_event};
use records::Events;
use table_machine::INDEX;

// The run, event by event, up to the first that is refused.
fn run_listing(table: &[u8], script: &[u8], out: &mut [u8]) -> Printed
    ensures { Prints (listing (machine_of (table_of table.now).rules) clock_of (start_variables (table_of table.now)) script.now) (run_table table.now script.now).refusal out.old result out.new }
{
    let mut index = [0; INDEX];
    table_index::list_rules(table, &mut index);
    let mut bits = table_rules::all_bits(table_machine::start_variables(table));
    let mut taken: u64 = 0;
    let mut place = 0;
    for (at, listed) in Events::new(script) {
        let event = listed.event;
        let answer = table_machine::step_on(table, &index, &mut bits, event);
        if !records::is_none(answer) {
            let refusal = records::in_script(answer, at, listed.end);
            return put_end(out, place, taken, refusal, table_machine::clock_in(&bits));
        }
        taken += 1;
        place = put_event(out, place, taken, table_machine::clock_in(&bits), event);
    }
    let clock = table_machine::clock_in(&bits);
    put_end(out, place, taken, records::no_refusal(), clock)
}

// What `run_table` prints: the run of the table that the bytes hold, or the last line alone where the table is refused.
pub fn table_listing(table: &[u8], script: &[u8], out: &mut [u8]) -> Printed
    ensures { Prints (table_listing table.now script.now) (table_outcome table.now script.now).refusal out.old result out.new }
{
    let refusal = table_faults::read_table(table);
    if records::is_none(refusal.cause) {
        return run_listing(table, script, out);
    }
    put_end(out, 0, 0, refusal, 0)
}

// The same, and the record that was refused is handed back from the slice that holds it, with the listing's length, the refusal's
// number and its place told.
pub fn table_part<'a>(
    table: &'a [u8],
    script: &'a [u8],
    out: &mut [u8],
    told: &mut [usize],
) -> &'a [u8]
    ensures { HandsBack notations.Table (table_listing table.now script.now) (table_outcome table.now script.now).refusal table.now script.now out.old told.old result.now out.new told.new }
{
    let printed = table_listing(table, script, out);
    listing_writer::tell_printed(told, printed);
    records::part_of(table, script, printed.refusal)
}
