// Runs call logs on one bench from empty, and prints the answers as it goes (docs/CALL-LOG.md): the log on standard input, or a kept log, of which
// nothing is printed, and then the lines on standard input. Input of any length, bounded memory: the whole lines of what was read are run, and what
// waits for the end of its line stands at the front of the buffer for what is read next (crate `stream`).
#![tactic(auto)]

mod memory;

ghost use Rattle.std.specs.Prelude.{◌≡◌, ◌+◌, ◌≤◌, ◌<◌, length, take, IfOk, OnOk};
ghost use Rattle.text_lines.specs.Lines.{lines};
ghost use Rattle.stream.specs.Pieces.{kept_bytes, ended, waiting};
ghost use Rattle.log_session.specs.Desk.{empty_desk};
ghost use Rattle.log_run.specs.Log.{Run, begun, run_lines, most_lines};
ghost use Rattle.stdio_log.specs.Streaming.{Ran, Streaming, Streamed, Continued};

use crate::memory::Memory;
use log_forms::Printer;
use std::fs::File;
use std::io::{Error, Read};
use std::rt::Files;
use std::{io, str};
use stdio::Failed;

// So many bytes are read at once, with those that wait for the end of their line.
const CHUNK_SIZE: usize = 65536;

// Answers are printed when they pass the limit, so that there is room for one answer more (`answer_limit`).
const LIMIT: usize = 28672;

// So many bytes are read at most, and there are no more lines (`most_lines`).
const MOST: usize = 1 << 62;

// The system's number of the error that bytes are no text.
const EILSEQ: i32 = 84;

// Runs lines and tells their answers.
// Kept: a `while`, since a run moves the place past several lines; `callable`, since no bound says of a closure that it may be called with every
// part of the answers; `memory` and `tell`: of a struct that lends both each clause would have to say, too, that it lends the same memory after as
// before, as `Printed` says of a printer's buffer.
fn run_lines<T: Fn(&[u8]) -> Result<(), Failed>>(
    memory: &mut Memory,
    log: &[u8],
    tell: &T,
) -> Result<(), Failed>
    requires callable { T.IsAlwaysCallable tell.now }
    requires few { memory.old.line + length log.now ≤ most_lines }
    ensures few { memory.new.line ≤ memory.old.line + length log.now }
    ensures run { (R : Run) → Ran R memory.old → OnOk result (Ran (run_lines R (lines log.now)) memory.new) }
{
    let mut from = 0;
    while from < log.len() {
        let mut printer = Printer::new(&mut memory.out, memory.line);
        from += log_run::run_some(&mut printer, &mut memory.session, &log[from..], LIMIT);
        let end = printer.at;
        memory.line = printer.line;
        tell(&memory.out[..end])?;
    }
    Ok(())
}

// The whole lines of the first bytes of a chunk are run, and what waits moves to the front; how many bytes it has.
// Kept: `callable`, `memory` and `tell`, as above.
fn feed<T: Fn(&[u8]) -> Result<(), Failed>>(
    memory: &mut Memory,
    chunk: &mut [u8],
    filled: usize,
    tell: &T,
) -> Result<usize, Failed>
    requires callable { T.IsAlwaysCallable tell.now }
    requires inside { filled ≤ length chunk.old }
    requires few { memory.old.line + filled ≤ most_lines }
    ensures { IfOk result (λ rest. (rest ≤ kept_bytes) × (take rest chunk.new ≡ waiting (take filled chunk.old))
        × (memory.new.line + rest ≤ memory.old.line + filled)
        × ((R : Run) → Ran R memory.old → Ran (run_lines R (lines (ended (take filled chunk.old)))) memory.new)) }
{
    let whole = stream::last_end(&chunk[..filled]);
    run_lines(memory, &chunk[..whole], tell)?;
    Ok(stream::keep_waiting(chunk, filled))
}

// One read into the chunk after the bytes that wait.
fn read_piece(
    rt: &impl Eprint,
    file: &mut impl Read,
    chunk: &mut [u8],
    rest: usize,
) -> Result<usize, Failed>
    requires { rest < length chunk.old }
    ensures { IfOk result (λ size. (rest + size ≤ length chunk.old) × (take rest chunk.new ≡ take rest chunk.old)) }
{
    stdio::read_some(rt, file, &mut chunk[rest..])
}

// A file, piece by piece: how many bytes of it are left at the front of the chunk, a last line without its end.
// Kept: a `while`, since how many reads it takes is not known before; `callable`, `memory` and `tell`, as above.
fn read_all<T: Fn(&[u8]) -> Result<(), Failed>>(
    rt: &impl Eprint,
    file: &mut impl Read,
    memory: &mut Memory,
    chunk: &mut [u8],
    tell: &T,
) -> Result<usize, Failed>
    requires callable { T.IsAlwaysCallable tell.now }
    requires chunk_room { kept_bytes < length chunk.old }
    ensures { IfOk result (λ rest. (rest ≤ length chunk.new) × (memory.new.line + rest ≤ most_lines)
        × ((R : Run) → Ran R memory.old → Streaming R memory.new (take rest chunk.new))) }
{
    let mut rest = 0;
    let mut left = MOST - memory.line;
    while chunk.len() <= left {
        let size = read_piece(rt, file, &mut chunk[..], rest)?;
        if size == 0 {
            return Ok(rest);
        }
        rest = feed(memory, &mut chunk[..], rest + size, tell)?;
        left -= size;
    }
    Ok(rest)
}

// A whole file, its last line without an end too.
// Kept: `callable`, `memory` and `tell`, as above.
fn replayed<T: Fn(&[u8]) -> Result<(), Failed>>(
    rt: &impl Eprint,
    file: &mut impl Read,
    memory: &mut Memory,
    tell: &T,
) -> Result<(), Failed>
    requires callable { T.IsAlwaysCallable tell.now }
    ensures { (R : Run) → Ran R memory.old → OnOk result (Streamed R memory.new) }
{
    let mut chunk = [0u8; CHUNK_SIZE];
    let rest = read_all(rt, file, memory, &mut chunk, tell)?;
    run_lines(memory, &chunk[..rest], tell)
}

// A whole file from an empty bench.
// Kept: `callable`, `memory` and `tell`, as above.
fn replayed_first<T: Fn(&[u8]) -> Result<(), Failed>>(
    rt: &impl Eprint,
    file: &mut impl Read,
    memory: &mut Memory,
    tell: &T,
) -> Result<(), Failed>
    requires callable { T.IsAlwaysCallable tell.now }
    requires first { Ran (begun empty_desk 0) memory.old }
    ensures { OnOk result (Streamed (begun empty_desk 0) memory.new) }
{
    replayed(rt, file, memory, tell)
}

// A kept log, of which nothing is printed, and then the lines on standard input.
fn continued(
    rt: &(impl Input + Print + Eprint),
    kept: &mut impl Read,
    memory: &mut Memory,
) -> Result<(), Failed>
    requires first { Ran (begun empty_desk 0) memory.old }
    ensures { OnOk result (Continued memory.new) }
{
    replayed_first(rt, kept, memory, &|_answers: &[u8]| Ok(()))?;
    let mut input = rt.reader();
    replayed(
        rt,
        &mut input,
        memory,
        &|answers: &[u8]| { stdio::print(rt, answers) },
    )
}

// Runs the log on standard input. Public for the programs. Where reading or printing fails it ends, and standard error was told.
pub fn replay_input(rt: &(impl Input + Print + Eprint)) {
    let mut memory = Memory::empty();
    let mut input = rt.reader();
    let _ = replayed_first(
        rt,
        &mut input,
        &mut memory,
        &|answers: &[u8]| { stdio::print(rt, answers) },
    );
}

// Opens a file for reading. std takes a path only as text, so one that is no UTF-8 is refused.
fn open_read<R: Files>(rt: &R, path: &[u8]) -> io::Result<R::File> {
    let text = str::from_utf8(path).map_err(|_| Error::from_raw_os_error(EILSEQ))?;
    File::open(rt, text)
}

// Runs the log on standard input after the log that was kept in a file. Public for the programs. It ends as the run without a file does.
pub fn replay_after(rt: &(impl Files + Input + Print + Eprint), path: &[u8]) {
    match open_read(rt, path) {
        Ok(mut kept) => {
            let mut memory = Memory::empty();
            let _ = continued(rt, &mut kept, &mut memory);
        }
        Err(error) => {
            stdio::fail(rt, "opening failed", error);
        }
    }
}
