// What is enabled of a table: the events that may come next, in the order kind, id, and whether a tick may pass.

#![tactic(auto)]

ghost use Rattle.std.specs.Prelude.{◌≡◌, false, ◌+◌, ◌<◌, ◌≤◌, length, take};
ghost use Rattle.std.proofs.lemmas.List.Edits.{sets};
ghost use Rattle.numbers.specs.Values.{natural, less_value};
ghost use Rattle.records.specs.Events.{last_clock};
ghost use Rattle.table_format.specs.Format.{record_of};
ghost use Rattle.table_semantics.specs.Machine as machine;
ghost use Rattle.table_semantics.specs.Runs.{values};
ghost use Rattle.table_rules.specs.At.{rules_from};
ghost use Rattle.table_index.specs.Index.{listed, rules_by};
ghost use Rattle.enabled.specs.Told.{told_of, list_of};
ghost use Rattle.table_offers.specs.Adds.{count_end, Told, GoesOn};
ghost use Rattle.table_enabled.specs.EnabledBy.{offers_in, may_tick_in, enabled_by, list_by};
ghost use Rattle.table_enabled.specs.Walk.{Looks, rule_listed, rules_of};

use enabled::Enabled;
use records::{Cause, LAST_CLOCK, Notation, Parts, RULE_SIZE, TABLE_RULE};
use table_format::VARIABLES;
use table_index::{KEYS, Rules};
use table_offers::{OFFER, Seen};

// The variable that is the clock.
const CLOCK: usize = 0;

// ---- the rules of a table
// The rule that two words list. The words are checked last: few rules are enabled.
fn look_listed(
    table: &[u8],
    bits: &[u32],
    output: &mut [u32],
    seen: Seen,
    word: usize,
    guard: usize,
) -> Seen
    requires { seen.count + 1 < count_end }
    ensures { Looks (values bits.now) (rule_listed table.now word guard) seen output.old result output.new }
{
    let at = word / KEYS;
    let next = at + RULE_SIZE;
    if !table_rules::is_enabled(table, next, bits) {
        return seen;
    }
    if !table_index::is_listed(table, word, guard) {
        return seen;
    }
    table_offers::add_enabled(output, seen, table_format::head_of(&table[at..next]))
}

// The rules that words list. Words whose guard fails are passed over without a look at the table.
fn look_words(table: &[u8], words: &[usize], bits: &[u32], output: &mut [u32]) -> Seen
    ensures { (result.count ≤ length words.now) × GoesOn (values bits.now) (listed table.now words.now) (record { count = 0; busy = false }) output.old result output.new }
{
    let mut seen = Seen {
        count: 0,
        busy: false,
    };
    for pair in words.chunks_exact(2) {
        if table_index::may_hold(bits, pair[1]) {
            seen = look_listed(table, bits, output, seen, pair[0], pair[1]);
        }
    }
    seen
}

// The rule whose head a part is, if it is one; `next` is the place after it.
fn look_record(
    table: &[u8],
    bits: &[u32],
    output: &mut [u32],
    seen: Seen,
    next: usize,
    part: &[u8],
) -> Seen
    requires { seen.count + 1 < count_end }
    ensures { Looks (values bits.now) (rules_of table.now next (record_of part.now)) seen output.old result output.new }
{
    if table_format::kind_of(part) != TABLE_RULE {
        return seen;
    }
    if !table_rules::is_enabled(table, next, bits) {
        return seen;
    }
    table_offers::add_enabled(output, seen, table_format::head_of(part))
}

// The rules of the records from a place on.
fn look_from(table: &[u8], from: usize, bits: &[u32], output: &mut [u32], before: Seen) -> Seen
    requires { before.count + length table.now < count_end }
    ensures { GoesOn (values bits.now) (rules_from table.now from) before output.old result output.new }
{
    let mut seen = before;
    for part in Parts::new(Notation::Table, table, from) {
        seen = look_record(table, bits, output, seen, part.end, part.bytes);
    }
    seen
}

// All rules that an index stands for: those listed, then the others.
fn look(table: &[u8], index: &[usize], bits: &[u32], output: &mut [u32]) -> Seen
    ensures { Told (values bits.now) (rules_by table.now index.now) output.old result output.new }
{
    let all = Rules::new(table, index);
    let seen = look_words(table, all.words, bits, output);
    look_from(table, all.rest, bits, output, seen)
}

// ---- what is told
// How many numbers a walk writes into a list of its own before it takes the caller's, which is left alone where it is too short: as many
// as the events of most states take, so that one walk is enough.
const HELD: usize = 256;

fn is_before_last(bits: &[u32]) -> bool
    ensures { result ≡ less_value (machine.now_in (values bits.now)) (natural last_clock) }
{
    table_rules::value_in(bits, CLOCK) < numbers::value_of(LAST_CLOCK)
}

fn copy_front(list: &[u32], count: usize, output: &mut [u32])
    requires { (count ≤ length list.now) × (count ≤ length output.old) }
    ensures { output.new ≡ sets output.old 0 (take count list.now) }
{
    output[..count].copy_from_slice(&list[..count]);
}

// The same by as many variables as there are.
fn enabled_on(table: &[u8], index: &[usize], bits: &[u32], output: &mut [u32]) -> Enabled
    ensures { (result ≡ told_of (offers_in table.now index.now bits.now) (may_tick_in table.now index.now bits.now) (length output.old)) × (output.new ≡ list_of (offers_in table.now index.now bits.now) output.old) }
{
    let mut held = [0; HELD];
    let seen = look(table, index, bits, &mut held);
    let count = seen.count;
    let tick = !seen.busy & is_before_last(bits);
    if output.len() / OFFER < count {
        return Enabled {
            answer: Cause::ShortOutput,
            count,
            tick,
        };
    }
    let answer = Cause::None;
    if count <= HELD / OFFER {
        copy_front(&held, OFFER * count, output);
        return Enabled {
            answer,
            count,
            tick,
        };
    }
    look(table, index, bits, output);
    Enabled {
        answer,
        count,
        tick,
    }
}

// What is enabled on variables in a slice, by an index of any content: of each event kind, id and lengths, in the order kind, id. The list is
// written where there is room for all of it, and is else left as it was; the count tells how much room it takes.
pub fn enabled_in(table: &[u8], index: &[usize], variables: &[u32], output: &mut [u32]) -> Enabled
    ensures { (result ≡ enabled_by table.now index.now variables.now (length output.old)) × (output.new ≡ list_by table.now index.now variables.now output.old) }
{
    if variables.len() < VARIABLES {
        return Enabled {
            answer: Cause::ShortOutput,
            count: 0,
            tick: false,
        };
    }
    enabled_on(table, index, &variables[..VARIABLES], output)
}
