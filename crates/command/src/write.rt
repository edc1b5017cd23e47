// What is printed, and the files that are written: all of a table, or what was there.

use crate::arguments::{text_before_zeros, text_of};
use crate::buffer;
use crate::say::{fail, say, tell_too_long};
use std::env::FillError;
use std::fs::{File, OpenOptions};
use std::io::{ErrorKind, Write};
use std::rt::Env;
use std::{fs, io, process};

// As many bytes of a buffer, from its start on.
pub fn print_start(rt: &HostRuntime, buffer: &[u8], length: usize) {
    if buffer.len() < length {
        say(rt, b"listing: too long\n");
        return;
    }
    if let Err(error) = rt.write_all(&buffer[..length]) {
        fail(rt, b"standard output", error);
    }
}

fn write_straight(mut file: File, bytes: &[u8]) -> io::Result<()> {
    file.write_all(bytes)
}

// All bytes are written and have reached the device.
fn store(mut file: File, bytes: &[u8]) -> io::Result<()> {
    file.write_all(bytes)?;
    file.sync_all()
}

// A new file gets the bytes, and then the name: whoever opens the path finds what was there, or all of the table.
fn write_whole(rt: &HostRuntime, new: &str, path: &str, bytes: &[u8]) -> io::Result<()> {
    let file = OpenOptions::new()
        .write(true)
        .create_new(true)
        .open(rt, new)?;
    let written = move_in(rt, file, new, path, bytes);
    if written.is_err() {
        let _ = fs::remove_file(rt, new);
    }
    written
}

fn move_in(rt: &HostRuntime, file: File, new: &str, path: &str, bytes: &[u8]) -> io::Result<()> {
    store(file, bytes)?;
    fs::rename(rt, new, path)
}

// The new file's name, in the same folder: the table's, a dot and the number of this process.
fn write_beside(rt: &HostRuntime, path: &str, bytes: &[u8]) -> io::Result<()> {
    let mut new = buffer();
    let mut rest = &mut new[..];
    let process = process::id(rt.process());
    if write!(rest, "{path}.{process}").is_err() {
        let message = "the name is too long";
        return Err(io::Error::new(ErrorKind::InvalidFilename, message));
    }
    write_whole(rt, text_before_zeros(&new), path, bytes)
}

// A file is replaced as a whole. What is no regular file, as a pipe or a device, is written as it is and never replaced: it lies under
// /dev or /proc, or cannot be synced.
fn write_file(rt: &HostRuntime, path: &[u8], bytes: &[u8]) -> io::Result<()> {
    let name = text_of(path)?;
    if path.starts_with(b"/dev/") || path.starts_with(b"/proc/") {
        return write_straight(File::create(rt, name)?, bytes);
    }
    match OpenOptions::new().append(true).open(rt, name) {
        Ok(file) => write_over(rt, file, name, bytes),
        Err(error) => write_missing(rt, error, name, bytes),
    }
}

// A file that is there, open at its end.
fn write_over(rt: &HostRuntime, file: File, path: &str, bytes: &[u8]) -> io::Result<()> {
    match file.sync_all() {
        Ok(()) => {
            drop(file);
            write_beside(rt, path, bytes)
        }
        Err(error) => {
            if error.kind() != ErrorKind::InvalidInput {
                return Err(error);
            }
            write_straight(file, bytes)
        }
    }
}

// A file that could not be opened: none is there, or that is the reason.
fn write_missing(rt: &HostRuntime, error: io::Error, path: &str, bytes: &[u8]) -> io::Result<()> {
    if error.kind() != ErrorKind::NotFound {
        return Err(error);
    }
    write_beside(rt, path, bytes)
}

// Where the file cannot be written, the reason is told.
fn write_or_tell(rt: &HostRuntime, path: &[u8], bytes: &[u8]) {
    if let Err(error) = write_file(rt, path, bytes) {
        fail(rt, path, error);
    }
}

// The bytes of a table to the file that an argument names, or to the one of the given name.
pub fn write_argument(rt: &HostRuntime, argument: usize, name: &[u8], bytes: &[u8]) {
    let mut path = buffer();
    match rt.arg(argument, &mut path) {
        Ok(length) => write_or_tell(rt, &path[..length], bytes),
        Err(FillError::NotPresent) => write_or_tell(rt, name, bytes),
        Err(FillError::TooLong) => tell_too_long(rt),
    }
}
