// The listing of the run of a model's table, written into a lent slice.

#![tactic(auto)]

ghost use Rattle.std.specs.Prelude.{◌≡◌, length};
ghost use Rattle.records.specs.declared.Notation.TheVariants as notations;
ghost use Rattle.listing.specs.Programs.{room, rules_listing, PrintsSame};
ghost use Rattle.listing.specs.Outcomes.{rules_outcome};
ghost use Rattle.listing_writer.specs.Prints.{Prints, HandsBack};

use listing_writer::Printed;

// "8 for a longer table"
const TABLE_ROOM: usize = 65536;

// Room for a table that `rules` makes.
fn table_room() -> [u8; TABLE_ROOM]
    ensures { room ≡ length result }
{
    [0; TABLE_ROOM]
}

// What `rules` prints: the run of the table made from the model that the bytes hold, or the last line alone where none is made.
fn rules_listing(model: &[u8], script: &[u8], out: &mut [u8]) -> Printed
    ensures { Prints (rules_listing model.now script.now) (rules_outcome model.now script.now).refusal out.old result out.new × PrintsSame model.now script.now }
{
    let mut table = table_room();
    let translation = translator::translate(model, &mut table);
    let refusal = translation.refusal;
    if records::is_none(refusal.cause) {
        let bytes = translation.bytes;
        return listing_table::table_listing(&table[..bytes], script, out);
    }
    listing_writer::put_end(out, 0, 0, refusal, 0)
}

// The same, and the record that was refused is handed back from the slice that holds it, with the listing's length, the refusal's
// number and its place told. The table is gone by then: a part lies in the model or in the script.
pub fn rules_part<'a>(
    model: &'a [u8],
    script: &'a [u8],
    out: &mut [u8],
    told: &mut [usize],
) -> &'a [u8]
    ensures { HandsBack notations.Model (rules_listing model.now script.now) (rules_outcome model.now script.now).refusal model.now script.now out.old told.old result.now out.new told.new × PrintsSame model.now script.now }
{
    let printed = rules_listing(model, script, out);
    listing_writer::tell_printed(told, printed);
    records::part_of(model, script, printed.refusal)
}
