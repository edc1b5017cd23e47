// Runs stored tables on stored scripts, and prints what reading and each event answers, with the variables that are not 0.

#![tactic(auto)]

ghost use Rattle.std.specs.Prelude.{◌≡◌, ◌-◌, length};

use numbers::item_or;
use records::{Cause, Events};
use std::fs::File;
use std::io;
use table_semantics::Variables;

// The variables that are not 0.
fn print_variables(rt: &HostRuntime, s: Variables) -> io::Result<()> {
    for (j, x) in s.value.iter().enumerate() {
        let value = x.0;
        if value != 0 {
            print!(rt; " {j}={value}")?;
        }
    }
    println!(rt)
}

fn print_answer(rt: &HostRuntime, cause: Cause, start: usize, end: usize) -> io::Result<()> {
    let number = records::number_of(cause);
    print!(rt; "{number} {start} {end}")
}

// Every event of the script, going on after refused ones. No rule is listed: the table is walked.
fn print_trace(rt: &HostRuntime, table: &[u8], script: &[u8]) -> io::Result<()> {
    let none = [0; 1];
    let mut bits = table_rules::all_bits(table_machine::start_variables(table));
    print!(rt; "- 0 0")?;
    print_variables(rt, table_rules::variables_of(bits))?;
    for (at, listed) in Events::new(script) {
        let answer = table_machine::step_on(table, &none, &mut bits, listed.event);
        print_answer(rt, answer, at, listed.end)?;
        print_variables(rt, table_rules::variables_of(bits))?;
    }
    Ok(())
}

// The run up to the first refused event, and the run that goes on.
fn print_runs(rt: &HostRuntime, table: &[u8], script: &[u8]) -> io::Result<()> {
    let ran = table_runs::run_table(table, script);
    let taken = ran.taken;
    println!(rt; "taken {taken}")?;
    let tally = table_runs::run_on(table, script);
    let taken = tally.taken;
    let refused = tally.refused;
    print!(rt; "on {taken} {refused}")?;
    print_variables(rt, tally.state)
}

fn print_case(rt: &HostRuntime, name: &[u8], table: &[u8], script: &[u8]) -> io::Result<()> {
    rt.write_all(name)?;
    println!(rt)?;
    let refusal = table_faults::read_table(table);
    if records::is_none(refusal.cause) {
        println!(rt; "ok")?;
        print_trace(rt, table, script)?;
        print_runs(rt, table, script)
    } else {
        print!(rt; "refused ")?;
        print_answer(rt, refusal.cause, refusal.start, refusal.end)?;
        println!(rt)
    }
}

// The first n bytes, or as many as there are, and the others.
fn cut(bytes: &[u8], n: usize) -> (&[u8], &[u8])
    ensures { length result.1.now ≡ length bytes.now - n }
{
    bytes.split_at(n.min(bytes.len()))
}

// The bytes of the three lengths of a case.
const LENGTHS: usize = 9;

// A case: the lengths of its name (u8), table and script (u32 each), then these.
fn print_cases(rt: &HostRuntime, cases: &[u8]) -> io::Result<()> {
    let mut rest = cases;
    while !rest.is_empty() {
        let (lengths, tail) = cut(rest, LENGTHS);
        let (name, tail) = cut(tail, usize::from(item_or(lengths, 0, 0)));
        let (table, tail) = cut(tail, numbers::u32_at(lengths, 1) as usize);
        let (script, tail) = cut(tail, numbers::u32_at(lengths, 5) as usize);
        print_case(rt, name, table, script)?;
        rest = tail;
    }
    Ok(())
}

fn print_file(rt: &HostRuntime, path: &str) -> io::Result<()> {
    let mut file = File::open(rt, path)?;
    let mut room = command::large_buffer();
    let length = command::read_full(&mut file, &mut room);
    print_cases(rt, &room[..length])
}

fn main(rt: HostRuntime) -> io::Result<()> {
    print_file(&rt, "cases1.bin")?;
    print_file(&rt, "cases2.bin")?;
    print_file(&rt, "cases3.bin")
}
