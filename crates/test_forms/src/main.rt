// Walks tables with the reader, and runs a checking loop that lends its view. made.bin is the table of a model; cut.bin and unknown.bin
// end in a record that is not whole. model.bin and script.bin are a model and a list of events, some of them refused.

#![tactic(auto)]

ghost use Rattle.std.specs.Prelude.{IfOk};
ghost use Rattle.command.specs.Counts.{IsPrefixLen};

use checking_loop::View;
use model_by_value::{ModelWords, StateWords};
use model_words::MODEL_WORDS;
use records::{Cause, Events};
use std::fs::File;
use std::io;
use table_format::Record;

// A file's bytes, as far as the buffer holds them.
fn read_file(rt: &HostRuntime, path: &str, buffer: &mut [u8]) -> io::Result<usize>
    ensures { IfOk result (λ n. IsPrefixLen n buffer.new) }
{
    let mut file = File::open(rt, path)?;
    Ok(command::read_full(&mut file, buffer))
}

fn name_of(found: Option<Record>) -> &'static str {
    match found {
        None => "end",
        Some(Record::Initial(_)) => "start",
        Some(Record::Head(_)) => "rule",
        Some(Record::Clause) => "clause",
        Some(Record::Atomic(_)) => "atom",
        Some(Record::Change(_)) => "update",
        Some(Record::Cut) => "cut",
        Some(Record::Unknown) => "unknown",
    }
}

// A line for each record: its place and its kind. Kept: a walk over places, since `step_at` is what is tried here.
fn walk(rt: &HostRuntime, table: &[u8]) -> io::Result<()> {
    let mut at: usize = 0;
    while at < table.len() {
        let step = table_reader::step_at(table, at);
        let name = name_of(step.found);
        println!(rt; "{at} {name}")?;
        at = step.next;
    }
    Ok(())
}

fn print_rules(rt: &HostRuntime, table: &[u8]) -> io::Result<()> {
    let n = table_reader::count_rules(table);
    println!(rt; "{n} rules")
}

fn show_table(rt: &HostRuntime, table: &[u8]) -> io::Result<()> {
    walk(rt, table)?;
    print_rules(rt, table)
}

fn walk_file(rt: &HostRuntime, path: &str) -> io::Result<()> {
    let mut buffer = command::buffer();
    let length = read_file(rt, path, &mut buffer)?;
    show_table(rt, &buffer[..length])
}

// The answer's number, then the view's clock, mode, phase and count.
fn print_turn(rt: &HostRuntime, answer: Cause, view: View) -> io::Result<()> {
    let View {
        clock,
        mode,
        phase,
        taken,
    } = view;
    let number = records::number_of(answer);
    let now = clock.0;
    println!(rt; "{number} {now} {mode} {phase} {taken}")
}

// The checking loop: it goes on after a refused event.
fn check(rt: &HostRuntime, model: ModelWords, start: StateWords, script: &[u8]) -> io::Result<()> {
    let mut state = start;
    let mut view = checking_loop::view_of(state);
    for (_, listed) in Events::new(script) {
        let turn = checking_loop::take_turn(view, model, state, listed.event);
        view = turn.view;
        state = turn.answered.state;
        print_turn(rt, turn.answered.answer, view)?;
    }
    Ok(())
}

fn check_run(rt: &HostRuntime, bytes: &[u8], script: &[u8]) -> io::Result<()> {
    let mut words: [u32; MODEL_WORDS] = [0; MODEL_WORDS];
    model_reader::read_model_into(bytes, &mut words);
    let model = ModelWords { word: words };
    let start = model_by_value::start(model);
    check(rt, model, start, script)
}

fn check_files(rt: &HostRuntime) -> io::Result<()> {
    let mut model = command::buffer();
    let length = read_file(rt, "model.bin", &mut model)?;
    let mut script = command::buffer();
    let events = read_file(rt, "script.bin", &mut script)?;
    check_run(rt, &model[..length], &script[..events])
}

fn main(rt: HostRuntime) -> io::Result<()> {
    walk_file(&rt, "made.bin")?;
    walk_file(&rt, "cut.bin")?;
    walk_file(&rt, "unknown.bin")?;
    check_files(&rt)
}
