// The arguments of a program.

ghost use Rattle.std.specs.Prelude.{◌≡◌, IfOk};
ghost use Rattle.command.specs.Counts.{IsPrefixLen};

use crate::buffer;
use crate::say::say;
use std::env::FillError;
use std::io;
use std::rt::Env;

fn is_given(rt: &HostRuntime, argument: usize) -> bool {
    let mut path = buffer();
    !matches!(rt.arg(argument, &mut path), Err(FillError::NotPresent))
}

// How long an argument is, which is put at the start of the path; 0 where there is none, or no room for it.
pub fn put_argument(rt: &HostRuntime, argument: usize, path: &mut [u8]) -> usize
    ensures { IsPrefixLen result path.new }
{
    rt.arg(argument, path).unwrap_or(0)
}

fn is_option(rt: &HostRuntime, argument: usize) -> bool {
    let mut path = buffer();
    let length = put_argument(rt, argument, &mut path);
    path[..length].starts_with(b"--")
}

// At most two arguments, none of which begins with two dashes; else the program tells how it is called, and does nothing.
pub fn is_called_well(rt: &HostRuntime, usage: &[u8]) -> bool {
    if is_given(rt, 3) || is_option(rt, 1) || is_option(rt, 2) {
        say(rt, usage);
        return false;
    }
    true
}

// Whether the table would be written over the model that it is made from.
pub fn is_own_model(rt: &HostRuntime) -> bool {
    let mut model = buffer();
    let model_length = put_argument(rt, 1, &mut model);
    if !is_given(rt, 2) {
        return &model[..model_length] == b"table.bin".as_slice();
    }
    let mut table = buffer();
    let table_length = put_argument(rt, 2, &mut table);
    &model[..model_length] == &table[..table_length]
}

// The path as text, since no other names a file here.
pub fn text_of(path: &[u8]) -> io::Result<&str>
    ensures { IfOk result (λ text. text.now ≡ path.now) }
{
    match str::from_utf8(path) {
        Ok(text) => Ok(text),
        Err(_) => Err(io::Error::from(io::ErrorKind::InvalidFilename)),
    }
}

// The text at the start of a buffer, which has only zeros behind it.
pub fn text_before_zeros(buffer: &[u8]) -> &str {
    str::from_utf8(buffer).unwrap_or("").trim_end_matches('\0')
}
