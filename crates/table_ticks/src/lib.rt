// TICK: how far the clock goes before some rule stops it.

#![tactic(auto)]

ghost use Rattle.std.specs.Prelude.{◌≡◌, not};
ghost use Rattle.numbers.specs.Lists.{first_below};
ghost use Rattle.numbers.specs.Values.{natural, plus, less_value};
ghost use Rattle.records.specs.Events.{last_clock};
ghost use Rattle.table_format.specs.Format.{record_of};
ghost use Rattle.table_semantics.specs.Rules as rules;
ghost use Rattle.table_semantics.specs.Machine as machine;
ghost use Rattle.table_semantics.specs.Runs.{values, variables_of, stepped_to};
ghost use Rattle.table_rules.specs.At.{clauses_at};
ghost use Rattle.table_index.specs.Index.{rules_in};
ghost use Rattle.table_ticks.specs.Stops.{rule_stops, stops_tick};
ghost use Rattle.table_ticks.specs.Ticking.{later, quiet_in, quiet_from};
ghost use Rattle.table_semantics.specs.Choices.{one_tick};
ghost use Rattle.table_ticks.specs.Copies.{Copied};
ghost use Rattle.table_ticks.specs.QuietListed.{listed_stops, QuietListed};

use numbers::Value;
use records::{Cause, LAST_CLOCK, Notation, Parts, REQUEST, RULE_SIZE, TABLE_RULE};
use table_format::VARIABLES;
use table_index::{KEYS, Rules};

// The variable that is the clock.
const CLOCK: usize = 0;

fn is_last_clock(now: Value) -> bool
    ensures { result ≡ not (less_value now (natural last_clock)) }
{
    now >= numbers::value_of(LAST_CLOCK)
}

fn one_later(now: Value) -> Value
    ensures { result ≡ plus now (natural 1) }
{
    numbers::plus(now, numbers::value_of(1))
}

// The bits one tick later.
fn advance(bits: &mut [u32])
    ensures { values bits.new ≡ one_tick (values bits.old) }
{
    let clock = table_rules::value_in(bits, CLOCK);
    table_rules::put(bits, CLOCK, table_rules::bits_of(one_later(clock)));
}

// The variables that there are, the others 0.
fn copied(bits: &[u32]) -> [u32; VARIABLES]
    ensures { Copied bits.now result }
{
    let count = bits.len().min(VARIABLES);
    let mut copy = [0; VARIABLES];
    copy[..count].copy_from_slice(&bits[..count]);
    copy
}

// After how many ticks a rule is enabled, at most `limit`: its records after its head begin at `from`. The bits are those so many ticks later.
fn advance_to_enabled(table: &[u8], from: usize, bits: &mut [u32], limit: u32) -> u32
    ensures { result ≡ first_below limit (λ i. rules.all_hold (later i (values bits.old)) (clauses_at table.now from)) }
{
    for i in 0..limit {
        if table_rules::is_enabled(table, from, bits) {
            return i;
        }
        advance(bits);
    }
    limit
}

// The same on variables that stay as they are. Where there is no clock, nothing changes with the ticks.
fn ticks_to_enabled(table: &[u8], from: usize, bits: &[u32], limit: u32) -> u32
    ensures { result ≡ first_below limit (λ i. rules.all_hold (later i (values bits.now)) (clauses_at table.now from)) }
{
    if bits.len() == 0 {
        return if table_rules::is_enabled(table, from, bits) {
            0
        } else {
            limit
        };
    }
    let mut copy = copied(bits);
    advance_to_enabled(table, from, &mut copy, limit)
}

// After how many ticks a rule for events of a kind stops them. Only the clock changes meanwhile: a rule with a clause that fails and does not
// read the clock is never enabled.
fn ticks_to_rule(table: &[u8], bits: &[u32], limit: u32, next: usize, kind: u8) -> u32
    ensures { result ≡ first_below limit (λ i. rule_stops table.now (later i (values bits.now)) next kind) }
{
    if kind == REQUEST {
        return limit;
    }
    if limit == 0 {
        return limit;
    }
    if limit == 1 {
        return if table_rules::is_enabled(table, next, bits) {
            0
        } else {
            1
        };
    }
    if !table_rules::all_pass(table, next, true, bits) {
        return limit;
    }
    ticks_to_enabled(table, next, bits, limit)
}

fn ticks_to_record(table: &[u8], bits: &[u32], limit: u32, next: usize, part: &[u8]) -> u32
    ensures { result ≡ first_below limit (λ i. stops_tick table.now (later i (values bits.now)) next (record_of part.now)) }
{
    if table_format::kind_of(part) != TABLE_RULE {
        return limit;
    }
    let head = table_format::head_of(part);
    ticks_to_rule(table, bits, limit, next, head.kind)
}

// How many of n ticks pass before some rule from a place on stops them.
fn quiet_from(table: &[u8], from: usize, bits: &[u32], n: u32) -> u32
    ensures { result ≡ quiet_from table.now (values bits.now) n from }
{
    let mut limit = n;
    for part in Parts::new(Notation::Table, table, from) {
        limit = ticks_to_record(table, bits, limit, part.end, part.bytes);
    }
    limit
}

// After how many ticks the rule that two words list stops them; one whose guard fails stops none. The words are checked last: few rules stop a tick.
fn ticks_to_listed(table: &[u8], bits: &[u32], limit: u32, word: usize, guard: usize) -> u32
    ensures { result ≡ first_below limit (λ i. listed_stops table.now (later i (values bits.now)) word guard) }
{
    if !table_index::may_hold(bits, guard) {
        return limit;
    }
    let at = word / KEYS;
    if !table_index::is_head(table, at) {
        return limit;
    }
    let kind = table[at + 1];
    if kind == REQUEST {
        return limit;
    }
    if limit == 1 {
        return if table_index::rest_holds(table, bits, word, guard) {
            0
        } else {
            1
        };
    }
    let n = ticks_to_rule(table, bits, limit, at + RULE_SIZE, kind);
    if n == limit {
        return limit;
    }
    if !table_index::is_listed(table, word, guard) {
        return limit;
    }
    n
}

// How many of n ticks pass before some rule that words list stops them.
fn quiet_listed(table: &[u8], words: &[usize], bits: &[u32], n: u32) -> u32
    ensures { QuietListed table.now (values bits.now) n words.now result }
{
    let mut limit = n;
    for pair in words.chunks_exact(2) {
        limit = ticks_to_listed(table, bits, limit, pair[0], pair[1]);
    }
    limit
}

// How many of n ticks pass before some rule stops them.
fn quiet_ticks(all: Rules, bits: &[u32], n: u32) -> u32
    ensures { result ≡ quiet_in (values bits.now) n (rules_in all.entry.table.now all.entry.words.now all.entry.rest) }
{
    let m = quiet_listed(all.table, all.words, bits, n);
    quiet_from(all.table, all.rest, bits, m)
}

// n ticks: the quiet ones, as far as the clock goes. Where they are refused, the clock is set back.
pub fn tick(all: Rules, bits: &mut [u32], n: u32) -> Cause
    ensures { stepped_to result bits.new ≡ machine.ticks (rules_in all.entry.table.now all.entry.words.now all.entry.rest) (variables_of bits.old) n (values bits.old) }
{
    let quiet = quiet_ticks(all, bits, n);
    let first = table_rules::value_in(bits, CLOCK);
    for _tick in 0..quiet {
        if is_last_clock(table_rules::value_in(bits, CLOCK)) {
            table_rules::put(bits, CLOCK, table_rules::bits_of(first));
            return Cause::LastClock;
        }
        advance(bits);
    }
    if quiet < n {
        table_rules::put(bits, CLOCK, table_rules::bits_of(first));
        return Cause::NotEnabled;
    }
    Cause::None
}
