// The numbered lines of a run, as bytes.

#![tactic(auto)]

ghost use Rattle.std.specs.Prelude.{◌≡◌, [], ◌∷◌, ◌+◌, ◌%◌};
ghost use Rattle.listing.specs.Listing.{zero_digit, most_digits, decimal, line, last_line};
ghost use Rattle.listing.specs.Lines.{figure_room, line_room, text_of, Padded, Room, Written};

use records::{Cause, Event};

// More than any line has: four figures of MOST_DIGITS and the byte after each, or three and "end ".
const LINE_ROOM: usize = 96;

// The digits of a number of 64 bits.
const MOST_DIGITS: usize = 20;

// The byte of the digit 0; those of the others follow.
const ZERO_DIGIT: u64 = 48;

// A line of text. It is written from its end: the text stands from `start` to the end of `bytes`, after zeros.
#[derive(Clone, Copy)]
pub struct Line {
    pub start: usize,
    pub bytes: [u8; LINE_ROOM],
}

fn empty_line() -> Line
    ensures { (text_of result ≡ []) × (Room result line_room) }
{
    let bytes = [0; LINE_ROOM];
    Line {
        start: LINE_ROOM,
        bytes,
    }
}

fn with_byte(line: Line, byte: u8) -> Line
    requires { Room line 1 }
    ensures { Written line result 1 (byte ∷ text_of line) }
{
    let at = line.start - 1;
    let mut bytes = line.bytes;
    bytes[at] = byte;
    Line { start: at, bytes }
}

fn digit(n: u64) -> u8
    ensures { result ≡ zero_digit + n % 10 }
{
    (ZERO_DIGIT + n % 10) as u8
}

// The digits go in from the last to the first.
fn with_decimal(line: Line, n: u64) -> Line
    requires { Room line most_digits }
    ensures { Written line result most_digits (decimal n (text_of line)) }
{
    let mut out = line;
    let mut rest = n;
    for _ in 0..MOST_DIGITS {
        out = with_byte(out, digit(rest));
        if rest < 10 {
            return out;
        }
        rest /= 10;
    }
    out
}

// A number and the byte that ends it.
fn with_figure(line: Line, n: u64, end: u8) -> Line
    requires { Room line figure_room }
    ensures { Written line result figure_room (decimal n (end ∷ text_of line)) }
{
    with_decimal(with_byte(line, end), n)
}

// The line of an event that was taken as the given step; `clock` is the clock after it.
pub fn event_line(step: u64, clock: u32, event: Event) -> Line
    ensures { (text_of result ≡ line step clock event) × (Padded result) }
{
    let kind = event.kind;
    let figure = records::figure_of(event);
    let text = with_figure(empty_line(), figure as u64, b'\n');
    let text = with_figure(text, kind as u64, b' ');
    let text = with_figure(text, clock as u64, b' ');
    with_figure(text, step, b' ')
}

// The last line of a run.
pub fn last_line(taken: u64, cause: Cause, clock: u32) -> Line
    ensures { (text_of result ≡ last_line taken cause clock) × (Padded result) }
{
    let number = records::number_of(cause);
    let text = with_figure(empty_line(), clock as u64, b'\n');
    let text = with_figure(text, number as u64, b' ');
    let text = with_byte(with_figure(text, taken, b' '), b' ');
    with_byte(with_byte(with_byte(text, b'd'), b'n'), b'e')
}
