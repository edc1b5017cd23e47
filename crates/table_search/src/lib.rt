// The enabled rules of an event.

#![tactic(auto)]

ghost use Rattle.std.specs.Prelude.{◌≡◌};
ghost use Rattle.table_format.specs.Format.{record_of};
ghost use Rattle.table_semantics.specs.Rules as rules;
ghost use Rattle.table_semantics.specs.Runs.{values};
ghost use Rattle.table_index.specs.Index.{rules_in};
ghost use Rattle.table_search.specs.Enabled.{is_asked, found_one_more, choice_found, found_rule, found_after, Finds};
ghost use Rattle.table_semantics.specs.Choices.{choice};
ghost use Rattle.table_search.specs.FindListed.{found_listed, FindsListed};

use records::{Event, Notation, Parts, RULE_SIZE, TABLE_RULE};
use table_format::RuleHead;
use table_index::{KEYS, Rules};

// Those of its kind and id: of one its head, and the place after that.
#[derive(Clone, Copy)]
pub enum Found {
    Nothing,
    One { place: usize, head: RuleHead },
    Several,
}

fn is_asked(event: Event, head: RuleHead) -> bool
    ensures { result ≡ is_asked event head }
{
    (head.kind == event.kind) & (head.id == event.id)
}

fn found_one_more(found: Found, place: usize, head: RuleHead) -> Found
    ensures { result ≡ found_one_more found place head }
{
    match found {
        Found::Nothing => Found::One { place, head },
        _ => Found::Several,
    }
}

// What is found where the rule whose head stands before `next` is looked at too.
fn found_rule(
    table: &[u8],
    bits: &[u32],
    event: Event,
    found: Found,
    next: usize,
    head: RuleHead,
) -> Found
    ensures { result ≡ found_rule table.now (values bits.now) event found next head }
{
    if !is_asked(event, head) {
        return found;
    }
    if !table_rules::is_enabled(table, next, bits) {
        return found;
    }
    found_one_more(found, next, head)
}

fn found_after(
    table: &[u8],
    bits: &[u32],
    event: Event,
    found: Found,
    next: usize,
    part: &[u8],
) -> Found
    ensures { result ≡ found_after table.now (values bits.now) event found next (record_of part.now) }
{
    if table_format::kind_of(part) != TABLE_RULE {
        return found;
    }
    found_rule(table, bits, event, found, next, table_format::head_of(part))
}

// The enabled rules of an event among those from a place on, beside those found before.
fn find_from(table: &[u8], from: usize, bits: &[u32], event: Event, before: Found) -> Found
    ensures { choice_found table.now result ≡ Finds table.now (values bits.now) event before from }
{
    let mut found = before;
    for part in Parts::new(Notation::Table, table, from) {
        found = found_after(table, bits, event, found, part.end, part.bytes);
    }
    found
}

// What is found where the rule that two words list is looked at too.
fn found_listed(
    table: &[u8],
    bits: &[u32],
    event: Event,
    found: Found,
    word: usize,
    guard: usize,
) -> Found
    ensures { result ≡ found_listed table.now (values bits.now) event found word guard }
{
    if !table_index::may_hold(bits, guard) {
        return found;
    }
    if !table_index::rest_holds(table, bits, word, guard) {
        return found;
    }
    let at = word / KEYS;
    let next = at + RULE_SIZE;
    let head = table_format::head_of(&table[at..next]);
    if !is_asked(event, head) {
        return found;
    }
    found_one_more(found, next, head)
}

// The enabled rules of an event among the rules that words list. Words of another key are passed over.
fn find_listed(table: &[u8], words: &[usize], bits: &[u32], event: Event) -> Found
    ensures { FindsListed table.now (values bits.now) event result words.now }
{
    let mut found = Found::Nothing;
    let key = table_index::key_of(event.kind, event.id);
    for pair in words.chunks_exact(2) {
        if pair[0] % KEYS == key {
            found = found_listed(table, bits, event, found, pair[0], pair[1]);
        }
    }
    found
}

// The enabled rules of an event among all.
pub fn find(all: Rules, bits: &[u32], event: Event) -> Found
    ensures { choice_found all.entry.table.now result ≡ choice (rules.enabled_rules (values bits.now) event.kind event.id (rules_in all.entry.table.now all.entry.words.now all.entry.rest)) }
{
    let found = find_listed(all.table, all.words, bits, event);
    find_from(all.table, all.rest, bits, event, found)
}
