// The longest table there may be, 1,000,000 bytes written here: it is read and run. With one byte more it is refused whole.

#![tactic(auto)]

ghost use Rattle.std.specs.Prelude.{◌≡◌, length};

use records::{Operand, Refusal};
use std::io;
use table_format::{Atom, InitialValue, RuleHead, Update};
use table_writer::Writer;

// ---- the table: a start record, rules of 38 bytes, one of 61
// Variable 1 has the number of the rule that comes next.
const RULES: u32 = 26314;

// The rule that comes next at the start, so that three of these can fire.
const FIRST: u32 = 26311;

fn operand(tag: u8, n: u32) -> Operand {
    let value = numbers::value_of(n);
    Operand { tag, value }
}

fn put_start(out: &mut Writer<'_>, n: u32) {
    let value = numbers::value_of(n);
    out.initial(InitialValue { variable: 1, value });
}

fn put_head(out: &mut Writer<'_>, kind: u8, rule: u32) {
    out.head(RuleHead {
        kind,
        id: (rule % 256) as u8,
        low: 0,
        high: 0,
    });
}

// A clause: variable 1 is the rule's number.
fn put_turn(out: &mut Writer<'_>, rule: u32) {
    out.clause();
    out.atom(Atom {
        op: 0,
        variable: 1,
        right: operand(0, rule),
    });
}

// Variable 1 gets 1 more.
fn put_next(out: &mut Writer<'_>) {
    out.update(Update {
        condition: table_format::NO_VARIABLE,
        wanted: 0,
        target: 1,
        op: 1,
        first: operand(1, 1),
        second: operand(0, 1),
    });
}

// Rules of REQUEST, which do not stop TICK.
fn put_rules(out: &mut Writer<'_>, n: u32) {
    for rule in 0..n {
        put_head(out, records::REQUEST, rule);
        put_turn(out, rule);
        put_next(out);
    }
}

// A rule of ACTIVATE with the same clause five times and no update.
fn put_last(out: &mut Writer<'_>, rule: u32) {
    put_head(out, records::ACTIVATE, rule);
    for _ in 0..5 {
        put_turn(out, rule);
    }
}

fn put_table(bytes: &mut [u8]) -> usize {
    let mut out = Writer::new(bytes, 0);
    put_start(&mut out, FIRST);
    put_rules(&mut out, RULES);
    put_last(&mut out, RULES);
    out.at
}

// ---- what it answers
fn print_refusal(rt: &HostRuntime, refusal: Refusal) -> io::Result<()> {
    let Refusal {
        cause,
        start,
        end,
        ..
    } = refusal;
    let number = records::number_of(cause);
    println!(rt; " {number} {start} {end}")
}

fn print_reading(rt: &HostRuntime, table: &[u8]) -> io::Result<()> {
    let bytes = table.len();
    print!(rt; "bytes {bytes} read")?;
    print_refusal(rt, table_faults::read_table(table))
}

fn print_rules(rt: &HostRuntime, table: &[u8]) -> io::Result<()> {
    let rules = table_reader::count_rules(table);
    println!(rt; "rules {rules}")
}

fn print_run(rt: &HostRuntime, table: &[u8], script: &[u8]) -> io::Result<()> {
    let ran = table_runs::run_table(table, script);
    let taken = ran.taken;
    print!(rt; "taken {taken} stopped")?;
    print_refusal(rt, ran.refusal)
}

fn print_run_on(rt: &HostRuntime, table: &[u8], script: &[u8]) -> io::Result<()> {
    let tally = table_runs::run_on(table, script);
    let taken = tally.taken;
    let refused = tally.refused;
    let clock = table_machine::clock_of(tally.state);
    let next = numbers::bits(tally.state.value[1]);
    println!(rt; "taken {taken} refused {refused} clock {clock} variable 1 {next}")
}

// TICK 65,535; the rules 26,311 (twice, so once refused), 26,312 and 26,313; a TICK that rule 26,314 stops; that rule.
fn print_runs(rt: &HostRuntime, table: &[u8]) -> io::Result<()> {
    let script = b"\x0b\xff\xff\x08\xc7\x08\xc7\x08\xc8\x08\xc9\x0b\x01\x00\x01\xca";
    print_run(rt, table, script)?;
    print_run_on(rt, table, script)
}

// Room for the longest table and one byte more.
const ROOM: usize = 1000001;

fn longest_buffer() -> [u8; ROOM]
    ensures { 1000001 ≡ length result }
{
    [0; ROOM]
}

fn show_table(rt: &HostRuntime, table: &[u8]) -> io::Result<()> {
    print_reading(rt, table)?;
    print_rules(rt, table)?;
    print_runs(rt, table)
}

// The buffer as it is, one byte too long, and the n bytes of it that were written.
fn show_both(rt: &HostRuntime, buffer: &[u8], n: usize) -> io::Result<()> {
    if buffer.len() < n {
        return Ok(());
    }
    print_reading(rt, buffer)?;
    show_table(rt, &buffer[0..n])
}

fn main(rt: HostRuntime) -> io::Result<()> {
    let mut buffer = longest_buffer();
    let n = put_table(&mut buffer);
    show_both(&rt, &buffer, n)
}
