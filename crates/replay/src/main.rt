// Runs the call log on standard input on one bench, and prints the answers (docs/CALL-LOG.md). The bench is empty, or the one that a kept log makes,
// whose file is the argument. With an option, as --help, or more arguments it prints how it is used.
#![tactic(auto)]

use std::io::Error;
use std::rt::{Env, Files};
use stdio::Failed;

// The system's number of the error that a name is too long.
const ENAMETOOLONG: i32 = 36;

// A longer argument is no name that the system opens.
const ARGUMENT_SIZE: usize = 4096;

const USAGE: &[u8] =
    b"usage: replay < LOG\n  runs the call log on one bench from empty and prints the answers\nusage: replay FILE < LOG\n  the same on the bench that the log kept in FILE makes; lines count on from it\n";

// What the argument asks for. A file's name that is too long cannot be opened.
fn run_after(rt: &(impl Env + Files + Input + Print + Eprint), count: usize) -> Result<(), Failed> {
    let mut argument = [0u8; ARGUMENT_SIZE];
    let size = rt.arg(1, &mut argument).map_err(|_| {
        stdio::fail(rt, "opening failed", Error::from_raw_os_error(ENAMETOOLONG))
    })?;
    if 2 < count || argument[..size].starts_with(b"-") {
        return stdio::print(rt, USAGE);
    }
    stdio_log::replay_after(rt, &argument[..size]);
    Ok(())
}

fn main(rt: HostRuntime) {
    let count = stdio::arg_count(&rt);
    if count < 2 {
        return stdio_log::replay_input(&rt);
    }
    // The status stays 0 where reading or writing fails: standard error was told.
    let _ = run_after(&rt, count);
}
