// Listings, line by line into a lent slice, and what is told of the refusal that ends one.

#![tactic(auto)]

ghost use Rattle.std.specs.Prelude.{◌≡◌, ◌≤◌};
ghost use Rattle.std.proofs.lemmas.List.Edits.{sets};
ghost use Rattle.listing.specs.Listing.{line, last_line, refused_listing};
ghost use Rattle.listing.specs.Lines.{text_of, line_room};
ghost use Rattle.table_writer.specs.Wrote.{Wrote};
ghost use Rattle.listing_writer.specs.Prints.{told_printed};

use listing::Line;
use numbers::put_item;
use records::{Cause, Event, Refusal};
use table_writer::Writer;

// What writing a listing comes to: its length, and the refusal that stopped the run.
// Kept as one struct: a listing has its length also where a refusal stopped the run.
#[derive(Clone, Copy)]
pub struct Printed {
    pub length: usize,
    pub refusal: Refusal,
}

// ---- lines
// A text, written into a lent slice; what would lie past its end is counted and not written.
pub fn put_text(out: &mut [u8], at: usize, text: &[u8]) -> usize
    ensures { Wrote out.old at text.now out.new result }
{
    let mut writer = Writer::new(out, at);
    for byte in text {
        writer.byte(*byte);
    }
    writer.at
}

fn put_line(out: &mut [u8], at: usize, line: Line) -> usize
    requires { line.start ≤ line_room }
    ensures { Wrote out.old at (text_of line) out.new result }
{
    put_text(out, at, &line.bytes[line.start..])
}

// The line of an event that was taken as the given step; `clock` is the clock after it.
pub fn put_event(out: &mut [u8], at: usize, step: u64, clock: u32, event: Event) -> usize
    ensures { Wrote out.old at (line step clock event) out.new result }
{
    put_line(out, at, listing::event_line(step, clock, event))
}

fn put_last(out: &mut [u8], at: usize, taken: u64, cause: Cause, clock: u32) -> usize
    ensures { Wrote out.old at (last_line taken cause clock) out.new result }
{
    put_line(out, at, listing::last_line(taken, cause, clock))
}

// The last line of a run that the refusal stopped, or that none did.
pub fn put_end(out: &mut [u8], at: usize, taken: u64, refusal: Refusal, clock: u32) -> Printed
    ensures { (Wrote out.old at (last_line taken refusal.cause clock) out.new result.length) × (result.refusal ≡ refusal) }
{
    let length = put_last(out, at, taken, refusal.cause, clock);
    Printed { length, refusal }
}

// What is printed where no event can be run: the last line alone.
pub fn refused_listing(out: &mut [u8], cause: Cause) -> usize
    ensures { Wrote out.old 0 (refused_listing cause) out.new result }
{
    put_last(out, 0, 0, cause, 0)
}

// Figures that a caller is told, as far as there are places for them.
pub fn tell_printed(told: &mut [usize], printed: Printed)
    ensures { told.new ≡ sets told.old 0 (told_printed printed.length printed.refusal) }
{
    let refusal = printed.refusal;
    put_item(told, 0, printed.length);
    put_item(told, 1, usize::from(records::number_of(refusal.cause)));
    put_item(told, 2, refusal.start);
    put_item(told, 3, refusal.end);
}
