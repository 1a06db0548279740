//! A file that gets what would go to standard output.
use crate::program::run_to_output;
use mmdb_arguments::{NoRequest, Request};
use mmdb_console::{
    Console, DIFFERENT, DONE, FAILED, Pace, ProgramError, Terminals, note_remarks, report_replace,
};
use mmdb_files::{PendingFile, SharedFiles, Standing, begin_file, plain_standing_of};
use mmdb_filter::Live;
use std::alloc::Global;
use std::env::Env;
use std::io::{BufWriter, Write};
use std::time::Clock;

/// How many bytes are gathered. What is longer is written as it is.
const WRITE: usize = 1 << 15;

// Rejects what is there and no plain file.
fn check<R: SharedFiles, O: Write, E: Write>(
    rt: &R,
    path: &str,
    console: &Console<'_, O, E>,
) -> Result<(), ProgramError> {
    let standing = match plain_standing_of(rt, path) {
        Ok(standing) => standing,
        // the same call fails where the file is begun
        Err(_) => return Ok(()),
    };
    match standing {
        Standing::Nothing | Standing::Database | Standing::Other => Ok(()),
        Standing::NoFile | Standing::DeadLink => {
            let wanted = "it is there, and is no plain file";
            Err(ProgramError::Arguments(NoRequest::bad_argument(console.alloc, "--output", wanted)))
        }
    }
}

/// How a request came out, and whether its file is to stay.
#[derive(Clone, Copy)]
struct Outcome {
    status: u8,
    is_whole: bool,
}

// A console whose output is a file at a path.
fn console_of<'c, O: Write, E: Write>(
    alloc: Global,
    terminals: Terminals,
    out: &'c mut O,
    errors: &'c mut E,
    path: &'c str,
) -> Console<'c, O, E> {
    let mut console = Console::new(alloc, terminals, out, errors);
    console.output_name = path;
    console
}

// Does what is requested, and writes to a file.
fn run_to<R: SharedFiles + Env + Clock, I: Live, O: Write, E: Pace>(
    rt: &R,
    request: &Request<'_>,
    path: &str,
    pending: &mut PendingFile<R>,
    input: &mut I,
    console: &mut Console<'_, O, E>,
) -> Result<Outcome, ProgramError> {
    let terminals = Terminals {
        output: false,
        ..console.terminals
    };
    let mut out = match BufWriter::with_capacity(console.alloc, WRITE, &mut *pending) {
        Ok(out) => out,
        Err(_) => return Err(ProgramError::Memory),
    };
    let (alloc, errors) = (console.alloc, &mut *console.errors);
    let mut to_file = console_of(alloc, terminals, &mut out, errors, path);
    let status = run_to_output(rt, request, input, &mut to_file);
    let is_done = status == DONE || status == DIFFERENT;
    let is_whole = is_done || (to_file.rows_are_whole && status == FAILED);
    Ok(Outcome { status, is_whole })
}

/// Does what is requested, writes to a file beside the one at a path, which takes its place where all was done and of rows also
/// where some had errors, and answers the status. An `Err` where what is there is no plain file, or out of memory.
pub(crate) fn run_to_file<R: SharedFiles + Env + Clock, I: Live, O: Write, E: Pace>(
    rt: &R,
    request: &Request<'_>,
    path: &str,
    input: &mut I,
    console: &mut Console<'_, O, E>,
) -> Result<u8, ProgramError> {
    check(rt, path, console)?;
    let mut pending = match begin_file(rt, console.alloc, path) {
        Ok(pending) => pending,
        Err(error) => return report_replace(path, error, console),
    };
    note_remarks(path, &pending, console);
    match run_to(rt, request, path, &mut pending, input, console) {
        Ok(
            Outcome {
                status,
                is_whole: true,
            },
        ) => match pending.take_place(rt) {
            Ok(()) => Ok(status),
            Err(error) => report_replace(path, error, console),
        },
        Ok(Outcome { status, .. }) => {
            pending.remove(rt);
            Ok(status)
        }
        Err(error) => {
            pending.remove(rt);
            Err(error)
        }
    }
}
