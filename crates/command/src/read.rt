// Files that are read, as far as there is room.

ghost use Rattle.std.specs.Prelude.{IfSome};
ghost use Rattle.command.specs.Counts.{IsPrefixLen};

use crate::arguments::{is_called_well, is_own_model, text_of};
use crate::buffer;
use crate::say::{fail, say, say_name, say_number, tell_too_long};
use std::env::FillError;
use std::fs::File;
use std::io;
use std::io::Read;
use std::rt::Env;

// How many bytes of both files were read, and whether both could be.
// Kept as one struct and no `Option`: the counts are promised where one of the two could not be read, too.
#[derive(Clone, Copy)]
pub struct Inputs {
    pub model: usize,
    pub script: usize,
    pub good: bool,
}

// Reads until the buffer is full, the file ends or a read fails.
pub fn read_full(file: &mut File, buffer: &mut [u8]) -> usize
    ensures { IsPrefixLen result buffer.new }
{
    let mut done = 0;
    while done < buffer.len() {
        let more = file.read(&mut buffer[done..]).unwrap_or(0);
        if more == 0 {
            break;
        }
        done += more;
    }
    done
}

// What one more read answers: 0 at the end of the file, else there is more.
fn read_more(file: &mut File) -> io::Result<usize> {
    let mut one = [0u8; 1];
    file.read(&mut one)
}

// Where a file is longer than the room for it.
fn tell_more(rt: &HostRuntime, path: &[u8], length: usize, more: usize) {
    if more == 0 {
        return;
    }
    say(rt, path);
    say(rt, b": only the first ");
    say_number(rt, length);
    say(rt, b" bytes were read, there are more\n");
}

// A short count may be the end of the file or a failure: one more read tells which.
fn read_open(rt: &HostRuntime, mut file: File, path: &[u8], buffer: &mut [u8]) -> Option<usize>
    ensures { IfSome result (λ n. IsPrefixLen n buffer.new) }
{
    let length = read_full(&mut file, buffer);
    match read_more(&mut file) {
        Ok(more) => {
            tell_more(rt, path, length, more);
            Some(length)
        }
        Err(error) => {
            fail(rt, path, error);
            None
        }
    }
}

fn open(rt: &HostRuntime, path: &[u8]) -> io::Result<File> {
    File::open(rt, text_of(path)?)
}

// The start of a file, as much as the buffer has room for: how many bytes. Where it cannot be opened or read, the reason is told.
fn read_file(rt: &HostRuntime, path: &[u8], buffer: &mut [u8]) -> Option<usize>
    ensures { IfSome result (λ n. IsPrefixLen n buffer.new) }
{
    match open(rt, path) {
        Ok(file) => read_open(rt, file, path, buffer),
        Err(error) => {
            fail(rt, path, error);
            None
        }
    }
}

// The file that an argument names, or the one of the given name where there is no such argument.
fn read_argument(rt: &HostRuntime, argument: usize, name: &[u8], room: &mut [u8]) -> Option<usize>
    ensures { IfSome result (λ n. IsPrefixLen n room.new) }
{
    let mut path = buffer();
    match rt.arg(argument, &mut path) {
        Ok(length) => read_file(rt, &path[..length], room),
        Err(FillError::NotPresent) => read_file(rt, name, room),
        Err(FillError::TooLong) => {
            tell_too_long(rt);
            None
        }
    }
}

// The model, or the table that stands for it, and the script: the first two arguments. Of a file that could not be read, no bytes.
pub fn read_inputs(
    rt: &HostRuntime,
    usage: &[u8],
    name: &[u8],
    model: &mut [u8],
    script: &mut [u8],
) -> Inputs
    ensures { (IsPrefixLen result.model model.new) × (IsPrefixLen result.script script.new) }
{
    if !is_called_well(rt, usage) {
        return Inputs {
            model: 0,
            script: 0,
            good: false,
        };
    }
    let first = read_argument(rt, 1, name, model);
    let second = read_argument(rt, 2, b"script.bin", script);
    Inputs {
        model: first.unwrap_or(0),
        script: second.unwrap_or(0),
        good: first.is_some() & second.is_some(),
    }
}

// The model that `make_table` reads: its first argument.
pub fn read_model(rt: &HostRuntime, usage: &[u8], buffer: &mut [u8]) -> Option<usize>
    ensures { IfSome result (λ n. IsPrefixLen n buffer.new) }
{
    if !is_called_well(rt, usage) {
        return None;
    }
    if is_own_model(rt) {
        say_name(rt, 1, b"model.bin");
        say(rt, b": the table would be written over its model\n");
        return None;
    }
    read_argument(rt, 1, b"model.bin", buffer)
}
