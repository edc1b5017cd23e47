// A reader walks a table one record at a time. It holds the table's slice: each function over it takes the reader apart and leaves the
// work to a function on a slice and a place. A place past the table's end reads as the end.

#![tactic(auto)]

ghost use Rattle.std.specs.Prelude.{◌≡◌};
ghost use Rattle.table_format.specs.Format.{records};
ghost use Rattle.table_reader.specs.Reading.{part_at, found_at, place_after, is_end, step_at, rule_in, rules_in, count_rules};

use records::Notation;
use table_format::Record;

#[derive(Clone, Copy)]
pub struct Reader<'a> {
    pub table: &'a [u8],
    pub at: usize,
}

// What stands at a place, `None` for the table's end, and the place after it.
#[derive(Clone, Copy)]
pub struct Step {
    pub found: Option<Record>,
    pub next: usize,
}

// ---- on a slice and a place
pub fn place_after(table: &[u8], at: usize) -> usize
    ensures { result ≡ place_after table.now at }
{
    at + records::part_length_at(Notation::Table, table, at)
}

pub fn part_at(table: &[u8], at: usize) -> &[u8]
    ensures { result.now ≡ part_at table.now at }
{
    if at < table.len() {
        return &table[at..place_after(table, at)];
    }
    &[]
}

// The record at a place, if it is not the end.
pub fn found_at(table: &[u8], at: usize) -> Option<Record>
    ensures { result ≡ found_at table.now at }
{
    if at < table.len() {
        Some(table_format::record_of(part_at(table, at)))
    } else {
        None
    }
}

pub fn is_end(table: &[u8], at: usize) -> bool
    ensures { result ≡ is_end table.now at }
{
    table.len() <= at
}

// ---- the reader
impl<'a> Reader<'a> {
    pub fn new(table: &'a [u8]) -> Reader<'a>
        ensures { (result.table ≡ table.entry) × (result.at ≡ 0) }
    {
        Reader { table, at: 0 }
    }

    pub fn found(self) -> Option<Record>
        ensures { result ≡ found_at self.entry.table.now self.entry.at }
    {
        found_at(self.table, self.at)
    }

    pub fn part(self) -> &'a [u8]
        ensures { result.now ≡ part_at self.entry.table.now self.entry.at }
    {
        part_at(self.table, self.at)
    }

    pub fn is_end(self) -> bool
        ensures { result ≡ is_end self.entry.table.now self.entry.at }
    {
        is_end(self.table, self.at)
    }

    // The reader at the next record; at the end it stays.
    pub fn next(self) -> Reader<'a>
        ensures { (result.table ≡ self.entry.table) × (result.at ≡ place_after self.entry.table.now self.entry.at) }
    {
        Reader {
            table: self.table,
            at: place_after(self.table, self.at),
        }
    }
}

// The walk for callers that hold no reader: what stands at a place, and where to go on.
pub fn step_at(table: &[u8], at: usize) -> Step
    ensures { result ≡ step_at table.now at }
{
    let reader = Reader { table, at };
    Step {
        found: reader.found(),
        next: reader.next().at,
    }
}

fn rule_in(found: Record) -> usize
    ensures { result ≡ rule_in found }
{
    match found {
        Record::Head(_) => 1,
        _ => 0,
    }
}

fn rules_in(found: Option<Record>) -> usize
    ensures { result ≡ rules_in found }
{
    match found {
        Some(one) => rule_in(one),
        None => 0,
    }
}

// How many rules a table has: a walk of all its records. Kept: it goes by the reader, whose walk is what is tried here.
pub fn count_rules(table: &[u8]) -> usize
    ensures { result ≡ count_rules (records table.now) }
{
    let mut count: usize = 0;
    let mut at: usize = 0;
    while at < table.len() {
        let step = step_at(table, at);
        count += rules_in(step.found);
        at = step.next;
    }
    count
}
