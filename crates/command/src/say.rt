// What the programs tell on standard error. Where it cannot be written to, they go on: there is nowhere else to tell it.

ghost use Rattle.std.specs.Prelude.{◌≡◌};
ghost use Rattle.command.specs.Shows.{is_of_event};

use crate::arguments::text_before_zeros;
use crate::buffer;
use std::env::FillError;
use std::io;
use std::io::Write;
use std::rt::Env;

// Of a long record as many bytes are told.
const MOST_TOLD: usize = 64;

pub fn say(rt: &HostRuntime, text: &[u8]) {
    let _ = Print::write_all(&rt.stderr(), text);
}

pub fn say_number(rt: &HostRuntime, number: usize) {
    let _ = eprint!(rt; "{number}");
}

// The name that an argument gives, or the given one where there is no such argument.
pub fn say_name(rt: &HostRuntime, argument: usize, name: &[u8]) {
    let mut path = buffer();
    match rt.arg(argument, &mut path) {
        Ok(length) => say(rt, &path[..length]),
        Err(FillError::NotPresent) => say(rt, name),
        Err(FillError::TooLong) => {}
    }
}

// Room for the reason of any failure, and its number.
const LONGEST_REASON: usize = 512;

// Why something failed, in the system's words. Its number, which std adds, is not told.
fn say_reason(rt: &HostRuntime, error: io::Error) {
    let mut reason = [0u8; LONGEST_REASON];
    let mut rest = &mut reason[..];
    let _ = write!(rest, "{error}");
    let text = text_before_zeros(&reason);
    let words = text
        .split_once(" (os error ")
        .map_or(text, |(words, _)| words);
    say(rt, words.as_bytes());
}

// One line where something fails: what, and why.
pub fn fail(rt: &HostRuntime, what: &[u8], error: io::Error) {
    say(rt, what);
    say(rt, b": ");
    say_reason(rt, error);
    say(rt, b"\n");
}

// Where an argument is longer than the name of any file.
pub fn tell_too_long(rt: &HostRuntime) {
    say(rt, b"argument: File name too long\n");
}

// The bytes of a record; of a long one the first, and two dots.
fn say_bytes(rt: &HostRuntime, part: &[u8]) {
    for byte in part.iter().take(MOST_TOLD) {
        let _ = eprint!(rt; " {byte:02x}");
    }
    if MOST_TOLD < part.len() {
        say(rt, b" ..");
    }
}

// One line where something is refused: its number and place, the file that holds it, and the bytes of the record.
pub fn tell_refused(
    rt: &HostRuntime,
    name: &[u8],
    number: usize,
    start: usize,
    end: usize,
    part: &[u8],
) {
    if number == 0 {
        return;
    }
    // In pieces, so that what there is room for is told where there is not room for all.
    say(rt, b"refused ");
    say_number(rt, number);
    say(rt, b" ");
    say_number(rt, start);
    say(rt, b" ");
    say_number(rt, end);
    say(rt, b" ");
    say_holder(rt, name, number);
    say(rt, b":");
    say_bytes(rt, part);
    say(rt, b"\n");
}

// The refusals of events, by their numbers: from that of a broken event to that of updates that contradict each other.
const FIRST_OF_EVENTS: usize = 9;

const LAST_OF_EVENTS: usize = 13;

fn is_of_event(number: usize) -> bool
    ensures { result ≡ is_of_event number }
{
    (FIRST_OF_EVENTS <= number) & (number <= LAST_OF_EVENTS)
}

// The part of a refused event lies in the script, that of all else in the first file, the model or table.
fn say_holder(rt: &HostRuntime, name: &[u8], number: usize) {
    if is_of_event(number) {
        say_name(rt, 2, b"script.bin");
    } else {
        say_name(rt, 1, name);
    }
}
