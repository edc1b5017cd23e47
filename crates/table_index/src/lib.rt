// The index of a table: a list of its rules beside it, by which events find their rules without a walk over the table.

#![tactic(auto)]

ghost use Rattle.std.specs.Prelude.{◌≡◌, get_or, length, ◌&&◌};
ghost use Rattle.std.proofs.lemmas.List.Edits.{sets};
ghost use Rattle.table_semantics.specs.Rules.{all_hold};
ghost use Rattle.table_semantics.specs.Runs.{values};
ghost use Rattle.table_rules.specs.At.{clauses_at};
ghost use Rattle.table_rules.specs.Places.{HeadAt};
ghost use Rattle.table_index.specs.Index.{is_head, key_of, key_at, asked_in, guard_at, room_for, index_of, index_size, is_listed, listed_in, words_in};
ghost use Rattle.table_index.specs.IndexLaws.{ListsOne};
ghost use Rattle.table_index.specs.Guards.{may_hold, untold};

use records::{Notation, Parts, RULE_SIZE, TABLE_ATOM, TABLE_CLAUSE, TABLE_RULE};
use table_format::{CONSTANT_TAG, EQUALS, LONGEST_TABLE, VARIABLES};

// An index is a slice of numbers: how many rules are listed, the place from which on the other rules are, and two words for each rule listed.
// One word is the place of its head times KEYS and its key, the other its guard. An index of any content stands for some rules of the table: words
// are checked against the table before a rule is taken from them.
const LISTED: usize = 0;

const REST: usize = 1;

pub const WORDS: usize = 2;

// How many keys there are.
pub const KEYS: usize = 65536;

// How many values 32 bits have.
const BITS: usize = 4294967296;

// A clause of one atom.
const GUARD_SIZE: usize = 10;

// Whether a rule's head stands whole at a place.
pub fn is_head(table: &[u8], at: usize) -> bool
    ensures { result ≡ is_head table.now at }
{
    if table.len() < RULE_SIZE {
        return false;
    }
    if table.len() - RULE_SIZE < at {
        return false;
    }
    table[at] == TABLE_RULE
}

// An event kind and an id as one number.
pub fn key_of(kind: u8, id: u8) -> usize
    ensures { result ≡ key_of kind id }
{
    256 * (usize::from(kind) % 256) + usize::from(id) % 256
}

fn key_at(table: &[u8], at: usize) -> usize
    requires { HeadAt table.now at }
    ensures { result ≡ key_at table.now at }
{
    key_of(table[at + 1], table[at + 2])
}

// What an atom asks its variable for, where it is variable = constant: the variable's number times 2^32, and the constant's bits. Else 0.
fn asked_in(part: &[u8]) -> usize
    ensures { result ≡ asked_in part.now }
{
    let op = numbers::item_or(part, 1, 0);
    if op != EQUALS {
        return 0;
    }
    let tag = numbers::item_or(part, 4, 0);
    if tag != CONSTANT_TAG {
        return 0;
    }
    let j = usize::from(numbers::u16_at(part, 2));
    let n = numbers::bits(numbers::value_at(part, 5)) as usize;
    BITS * j + n
}

// The same of the first clause of a rule whose records after its head begin at `at`, where it is one atom: its guard.
fn guard_of(table: &[u8], at: usize) -> usize
    ensures { result ≡ guard_at table.now at }
{
    if table.len() <= at {
        return 0;
    }
    if table.len() - at < 11 {
        return 0;
    }
    if table[at] != TABLE_CLAUSE {
        return 0;
    }
    if table[at + 1] != TABLE_ATOM {
        return 0;
    }
    if table[at + 10] != TABLE_CLAUSE {
        return 0;
    }
    asked_in(&table[at + 1..at + 10])
}

// Whether a rule of that guard may be enabled.
pub fn may_hold(bits: &[u32], guard: usize) -> bool
    ensures { result ≡ may_hold (values bits.now) guard }
{
    let j = guard / BITS;
    if j == 0 {
        return true;
    }
    if VARIABLES <= j {
        return true;
    }
    let value = table_rules::value_in(bits, j);
    let n = (guard % BITS) as u32;
    value == numbers::value_of(n)
}

// From where on the clauses of the rule that two words list are to be read: a guard that asks a variable for a value tells all of the first.
pub fn untold(word: usize, guard: usize) -> usize
    ensures { result ≡ untold word guard }
{
    let first = word / KEYS + RULE_SIZE;
    let variable = guard / BITS;
    if variable == 0 {
        return first;
    }
    if VARIABLES <= variable {
        return first;
    }
    first + GUARD_SIZE
}

// How many rules an index of `size` numbers has room for.
fn room_for(table: &[u8], size: usize) -> usize
    ensures { result ≡ room_for table.now size }
{
    if LONGEST_TABLE < table.len() {
        return 0;
    }
    if size < WORDS {
        return 0;
    }
    (size - WORDS) / 2
}

// A rule more, whose head stands at `at`: its words, where there is room for them. It tells where the first rule is that there was no room for.
fn put_rule(
    table: &[u8],
    at: usize,
    index: &mut [usize],
    room: usize,
    rules: usize,
    rest: usize,
) -> usize
    requires { HeadAt table.now at × (room ≡ room_for table.now (length index.old)) }
    ensures { ListsOne table.now at index.old index.new room rules rest result }
{
    if rules < room {
        index[WORDS + 2 * rules] = KEYS * at + key_at(table, at);
        index[WORDS + 2 * rules + 1] = guard_of(table, at + RULE_SIZE);
        return rest;
    }
    if rules == room {
        return at;
    }
    rest
}

// The index of a table, as far as there is room. It tells how many numbers the whole index has.
pub fn list_rules(table: &[u8], index: &mut [usize]) -> usize
    ensures { (result ≡ index_size table.now) × (index.new ≡ sets index.old 0 (index_of table.now (length index.old))) }
{
    let room = room_for(table, index.len());
    let mut rules: usize = 0;
    let mut rest: usize = table.len();
    for part in Parts::new(Notation::Table, table, 0) {
        if is_head(table, part.start) {
            rest = put_rule(table, part.start, index, room, rules, rest);
            rules += 1;
        }
    }
    numbers::put_item(index, LISTED, rules.min(room));
    numbers::put_item(index, REST, rest);
    WORDS + 2 * rules
}

// How many rules an index of any content lists.
pub fn listed_in(index: &[usize]) -> usize
    ensures { result ≡ listed_in index.now }
{
    if index.len() < WORDS {
        return 0;
    }
    index[LISTED].min((index.len() - WORDS) / 2)
}

// The place from which on the other rules are.
pub fn rest_in(index: &[usize]) -> usize
    ensures { result ≡ get_or index.now 1 0 }
{
    numbers::item_or(index, REST, 0)
}

// Whether two words list a rule: both are those of the head at their place.
pub fn is_listed(table: &[u8], word: usize, guard: usize) -> bool
    ensures { result ≡ is_listed table.now word guard }
{
    let at = word / KEYS;
    if !is_head(table, at) {
        return false;
    }
    let k = key_at(table, at);
    if k != word % KEYS {
        return false;
    }
    guard_of(table, at + RULE_SIZE) == guard
}

// Whether two words list a rule, and what its guard has not told of it holds. The words are checked last: few rules are enabled.
pub fn rest_holds(table: &[u8], bits: &[u32], word: usize, guard: usize) -> bool
    ensures { result ≡ (is_listed table.now word guard && all_hold (values bits.now) (clauses_at table.now (untold word guard))) }
{
    if !table_rules::is_enabled(table, untold(word, guard), bits) {
        return false;
    }
    is_listed(table, word, guard)
}

// ---- the rules that an index stands for
// Rules of a table: those that words list, and then those of the records from `rest` on.
#[derive(Clone, Copy)]
pub struct Rules<'a> {
    pub table: &'a [u8],
    pub words: &'a [usize],
    pub rest: usize,
}

impl<'a> Rules<'a> {
    // By an index of any content.
    pub fn new(table: &'a [u8], index: &'a [usize]) -> Rules<'a>
        ensures { (result.table.now ≡ table.entry.now) × ((result.words.now ≡ words_in index.entry.now) × (result.rest ≡ get_or index.entry.now 1 0)) }
    {
        let from = WORDS.min(index.len());
        Rules {
            table,
            words: &index[from..from + 2 * listed_in(index)],
            rest: rest_in(index),
        }
    }
}
