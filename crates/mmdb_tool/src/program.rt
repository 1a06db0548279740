//! What the program does.
ghost use Rattle.std.specs.Prelude.{◌≤◌, IfErr};

use crate::command::{Command, USAGE, command_of};
use crate::line::lookup_line;
use crate::list::{ListError, list_to};
use crate::report_text::report_text;
use crate::sink::{Sink, put_all};
use mmdb_main::{BAD_ARGUMENTS, DONE, FAILED};
use mmdb_reader::{MaxMindDbError, Reader};
use mmdb_report::{ReportError, report_on};
use std::alloc::{AllocError, Global};
use std::convert::AsSlice;
use std::rt::Files;
use thiserror::Error;

/// What is said of a file that is whole.
const WHOLE: &str = "ok\n";

/// The text of an error that there is no memory to print.
const NO_MEMORY: &str = "out of memory\n";

/// Why a command was not done.
#[derive(Debug, Drop, Error)]
enum RunError {
    /// The database failed, or memory ran out.
    #[error("{0}")]
    Database(#[from] MaxMindDbError),
    /// A list was not written whole, or another text.
    #[error("{0}")]
    List(#[from] ListError),
    /// There is no report.
    #[error("{0}")]
    Report(#[from] ReportError),
}

// Puts all of a text.
fn put_text<O: Sink>(out: &mut O, text: &str) -> Result<(), ListError> {
    Ok(put_all(out, text.as_bytes())?)
}

// The status of what was done. The text of an error goes to `err`, whose own faults change nothing.
fn status_of<E: Sink>(alloc: Global, done: Result<(), RunError>, err: &mut E) -> u8
    ensures { result ≤ 1 }
{
    let Err(error) = done else {
        return DONE;
    };
    let text: Result<String, AllocError> = format!(in alloc; "{error}\n");
    let _ = match text {
        Ok(text) => put_all(err, text.as_bytes()),
        Err(_) => put_all(err, NO_MEMORY.as_bytes()),
    };
    FAILED
}

// The command that the arguments give, or the status where they give none: without arguments the usage line
// goes to `out`, and after bad arguments to `err`.
fn command_or_status<'a, O: Sink, E: Sink>(
    alloc: Global,
    words: &'a [String],
    out: &mut O,
    err: &mut E,
) -> Result<Command<'a>, u8>
    ensures { IfErr result (λ status. status ≤ 2) }
{
    if words.is_empty() {
        let done = put_text(out, USAGE).map_err(RunError::from);
        return Err(status_of(alloc, done, err));
    }
    match command_of(words) {
        Some(command) => Ok(command),
        None => {
            let _ = put_all(err, USAGE.as_bytes());
            Err(BAD_ARGUMENTS)
        }
    }
}

// What a command writes of a database that was opened.
fn answer<S: AsSlice<u8> + Drop, O: Sink>(
    alloc: Global,
    opened: Result<Reader<S>, MaxMindDbError>,
    command: Command<'_>,
    out: &mut O,
) -> Result<(), RunError> {
    let reader = opened?;
    match command {
        Command::Lookup { file: _, address } => {
            let line = lookup_line(alloc, &reader, address)?;
            put_text(out, line.as_str())?;
        }
        Command::List {
            file: _,
            range,
            options,
        } => list_to(alloc, &reader, range, options, out)?,
        Command::Verify { file: _ } => {
            reader.verify(alloc)?;
            put_text(out, WHOLE)?;
        }
        Command::Report {
            file: _,
            range,
            options,
        } => {
            let report = report_on(alloc, &reader, range, options)?;
            let text = report_text(alloc, &report).map_err(MaxMindDbError::from)?;
            put_text(out, text.as_str())?;
        }
    }
    Ok(())
}

/// What the program does with its arguments, after its name, and the status that it ends with.
///
/// 0: done. 1: an error, whose text and a newline go to `err`; one by `out` is such an error too. 2:
/// bad arguments, or an address that is not read; the usage line goes to `err`, and no file is opened.
/// Without arguments the usage line goes to `out`, with status 0. A fault of `err` changes no status.
pub fn run<R: Files, O: Sink, E: Sink>(
    rt: &R,
    alloc: Global,
    words: &[String],
    out: &mut O,
    err: &mut E,
) -> u8
    ensures { result ≤ 2 }
{
    match command_or_status(alloc, words, out, err) {
        Ok(command) => {
            let opened = Reader::open_readfile(rt, alloc, command.file());
            let done = answer(alloc, opened, command, out);
            status_of(alloc, done, err)
        }
        Err(status) => status,
    }
}

/// `run` with these bytes in the place of the file's content.
pub fn run_bytes<O: Sink, E: Sink>(
    alloc: Global,
    source: &[u8],
    words: &[String],
    out: &mut O,
    err: &mut E,
) -> u8
    ensures { result ≤ 2 }
{
    match command_or_status(alloc, words, out, err) {
        Ok(command) => {
            let opened = Reader::from_source(alloc, source);
            let done = answer(alloc, opened, command, out);
            status_of(alloc, done, err)
        }
        Err(status) => status,
    }
}
