// Files, arguments, standard output and standard error: the only library that touches the operating system.

#![tactic(auto)]

mod arguments;
mod read;
mod run;
mod say;
mod write;

ghost use Rattle.std.specs.Prelude.{◌≡◌, length};

pub use read::{Inputs, read_full, read_inputs, read_model};
pub use run::{run_program, show_listing};
pub use say::tell_refused;
pub use write::{print_start, write_argument};

// The figures that are told of a listing: its length, and the number, start and end of the refusal.
pub const TOLD: usize = 4;

// What a program came to: whether both of its files could be read, and then how many bytes of each were, and how many it printed; else zeros.
// Kept: `Shows`, which the page of promises names with `good`, speaks of this struct.
#[derive(Clone, Copy)]
pub struct Shown {
    pub model: usize,
    pub script: usize,
    pub good: bool,
    pub printed: usize,
}

pub fn outcome(model: usize, script: usize, good: bool, printed: usize) -> Shown
    ensures { result ≡ record { model = model; script = script; good = good; printed = printed } }
{
    Shown {
        model,
        script,
        good,
        printed,
    }
}

// ---- rooms
// Nothing here is allocated: memory is fixed. So what is read and printed lies in rooms of these sizes, with its length told beside it.
// The longest name that a file may have.
const LONGEST_NAME: usize = 4096;

// Room for such a name, and for a last line.
pub fn buffer() -> [u8; LONGEST_NAME]
    ensures { 4096 ≡ length result }
{
    [0; LONGEST_NAME]
}

// Room for any model and any script: of a longer file the first 65,536 bytes are read.
const LARGE: usize = 65536;

pub fn large_buffer() -> [u8; LARGE]
    ensures { 65536 ≡ length result }
{
    [0; LARGE]
}

// Room for any listing, as 65,536 bytes hold at most 32,768 events and a line has at most 26 bytes, and for any table: one of more than
// 1,000,000 bytes is refused.
const WIDE: usize = 1048576;

pub fn wide_buffer() -> [u8; WIDE]
    ensures { 1048576 ≡ length result }
{
    [0; WIDE]
}
