// Standard input and output for the programs. No contract can say what a call reads or writes; a call that fails is told on standard error, and is
// not taken for the end of the input.
#![tactic(auto)]

pub mod text_input;

ghost use Rattle.std.specs.Prelude.{◌≤◌, length, IfOk, MatchResult};

use std::env::FillError;
use std::io::{Error, Read, Write};
use std::rt::Env;
use std::str;

// Reading or writing failed, which standard error was told already.
#[derive(Clone, Copy)]
pub struct Failed;

// Reading failed after so many bytes, which standard error was told already. The number is for whoever uses what was read; no crate here does.
#[derive(Clone, Copy)]
pub struct ReadFailed {
    pub size: usize,
}

// How many arguments the program was started with, its own name among them.
pub fn arg_count(rt: &impl Env) -> usize {
    for i in 0..usize::MAX {
        if let Err(FillError::NotPresent) = rt.arg(i, &mut []) {
            return i;
        }
    }
    usize::MAX
}

// Writes a line to standard error: what failed, a colon and the system's words for the error.
pub fn fail(rt: &impl Eprint, what: &str, error: Error) -> Failed {
    let mut told = [0u8; 256];
    let mut room = &mut told[..];
    let _ = Write::write_fmt(&mut room, error);
    let left = room.len();
    let size = told.len().saturating_sub(left);
    let words = match str::from_utf8(&told[..size]) {
        Ok(text) => without_number(text),
        Err(_) => "",
    };
    let _ = eprintln!(rt; "{what}: {words}");
    Failed
}

// The words of an error without its number, which std writes after them.
fn without_number(text: &str) -> &str {
    match text.split_once(" (os error ") {
        Some((words, _)) => words,
        None => text,
    }
}

// One read of a file into a buffer: how many bytes, none at the end of the file.
pub fn read_some(rt: &impl Eprint, file: &mut impl Read, buffer: &mut [u8]) -> Result<usize, Failed>
    ensures { IfOk result (λ size. size ≤ length buffer.old) }
{
    file.read(&mut buffer[..])
        .map_err(|error| fail(rt, "reading failed", error))
}

// Reads standard input until the buffer is full or the input ends: how many bytes stand at its start, also where a read failed.
pub fn read_input(rt: &(impl Input + Eprint), buffer: &mut [u8]) -> Result<usize, ReadFailed>
    ensures { MatchResult result (λ size. size ≤ length buffer.new) (λ failed. failed.size ≤ length buffer.new) }
{
    let mut input = rt.reader();
    let mut size = 0;
    // Kept: how many reads it takes is not known before; each one moves the place by what it gives.
    while size < buffer.len() {
        let read = read_some(rt, &mut input, &mut buffer[size..]).map_err(|_| ReadFailed { size })?;
        if read == 0 {
            break;
        }
        size += read;
    }
    Ok(size)
}

// Writes all bytes to standard output.
pub fn print(rt: &(impl Print + Eprint), bytes: &[u8]) -> Result<(), Failed> {
    rt.write_all(bytes)
        .map_err(|error| fail(rt, "writing failed", error))
}
