//! What the program does with its arguments.
use crate::output::run_to_file;
use mmdb_arguments::{ArgumentMessage, NoRequest, Request, request_of};
use mmdb_cmd_build::build;
use mmdb_cmd_diff::diff;
use mmdb_cmd_enrich::enrich;
use mmdb_cmd_export::{export, list_diff};
use mmdb_cmd_install::install;
use mmdb_cmd_show::{describe, show, verify};
use mmdb_console::{
    BAD_ARGUMENTS, Console, DONE, FAILED, Io, NO_MEMORY, Pace, Paced, ProgramError,
};
use mmdb_files::SharedFiles;
use mmdb_filter::Live;
use std::alloc::Global;
use std::env::Env;
use std::io::Write;
use std::time::Clock;

// Writes a message in the place of a request, and answers the status.
fn put_message<O: Write, E: Write>(
    message: &ArgumentMessage,
    console: &mut Console<'_, O, E>,
) -> u8 {
    let text = message.text.as_bytes();
    if message.is_error {
        let _ = console.errors.write_all(text);
        return BAD_ARGUMENTS;
    }
    match console.put(text) {
        Ok(()) => console.end(DONE),
        Err(error) => {
            console.report_last("", &error);
            drop(error);
            FAILED
        }
    }
}

// Writes why there is nothing to do, and answers the status.
fn put_reason<O: Write, E: Write>(reason: &NoRequest, console: &mut Console<'_, O, E>) -> u8 {
    match reason {
        NoRequest::Message(message) => put_message(message, console),
        NoRequest::Memory => {
            let _ = console.errors.write_all(NO_MEMORY.as_bytes());
            FAILED
        }
    }
}

// What an error of a request names: the file, or the command where there are several.
fn subject_of<'a>(request: &Request<'a>) -> &'a str {
    match request {
        Request::Show(arguments) => arguments.asked.first().copied().unwrap_or("show"),
        Request::Info(arguments) => match arguments.files.as_slice() {
            [file] => *file,
            _ => "info",
        },
        Request::Enrich(arguments) => arguments.file,
        Request::Export(arguments) => arguments.file,
        Request::Diff(_) | Request::ListDiff(_) => "diff",
        Request::Install(arguments) => arguments.dest,
        Request::Build(arguments) => arguments.out,
        Request::Verify(_) => "verify",
    }
}

// The status of what was done, of which an error is reported with what it is of.
fn status_of<O: Write, E: Write>(
    done: &Result<u8, ProgramError>,
    subject: &str,
    console: &mut Console<'_, O, E>,
) -> u8 {
    match done {
        Ok(status) => *status,
        Err(ProgramError::Arguments(reason)) => put_reason(reason, console),
        Err(error) => {
            console.report_last(subject, error);
            match error {
                ProgramError::NoColumn { .. } => BAD_ARGUMENTS,
                _ => FAILED,
            }
        }
    }
}

// Does what is requested.
fn done_of<R: SharedFiles + Env + Clock, I: Live, O: Write, E: Pace>(
    rt: &R,
    request: &Request<'_>,
    input: &mut I,
    console: &mut Console<'_, O, E>,
) -> Result<u8, ProgramError> {
    match request {
        Request::Show(arguments) => show(rt, arguments, console),
        Request::Info(arguments) => describe(rt, arguments, console),
        Request::Enrich(arguments) => enrich(rt, arguments, input, console),
        Request::Export(arguments) => export(rt, arguments, input, console),
        Request::Diff(arguments) => diff(rt, arguments, console),
        Request::ListDiff(arguments) => list_diff(rt, arguments, input, console),
        Request::Install(arguments) => install(rt, arguments, console),
        Request::Build(arguments) => build(rt, arguments, input, console),
        Request::Verify(arguments) => verify(rt, arguments, console),
    }
}

/// Does what is requested, and answers the status after all is written. What can't be written is reported once.
pub(crate) fn run_to_output<R: SharedFiles + Env + Clock, I: Live, O: Write, E: Pace>(
    rt: &R,
    request: &Request<'_>,
    input: &mut I,
    console: &mut Console<'_, O, E>,
) -> u8 {
    let done = done_of(rt, request, input, console);
    console.clear_progress();
    let status = status_of(&done, subject_of(request), console);
    let is_reported = matches!(&done, Err(ProgramError::Write(_)));
    drop(done);
    if is_reported {
        status
    } else {
        console.end(status)
    }
}

// Does what is requested, to standard output or a file, and answers the status.
fn run_request<R: SharedFiles + Env + Clock, I: Live, O: Write, E: Pace>(
    rt: &R,
    request: &Request<'_>,
    input: &mut I,
    console: &mut Console<'_, O, E>,
) -> u8 {
    match request.output() {
        Some(path) => {
            let done = run_to_file(rt, request, path, input, console);
            let status = status_of(&done, path, console);
            drop(done);
            status
        }
        None => run_to_output(rt, request, input, console),
    }
}

/// What the program does with its arguments, its own name first, and the status that it ends with.
///
/// 0: done. 1: an error, which is reported on `errors` with the file, the stream or the argument. 2: a usage error; no file was
/// opened, unless for a column that the first line has not, or where `show` has no address. 6: an address has no record, or a
/// path leads nowhere in it. 7: two files differ, where that was asked. Faults of `errors` change no status.
pub fn run<R: SharedFiles + Env + Clock, I: Live, O: Write, E: Write>(
    rt: &R,
    alloc: Global,
    arguments: &[String],
    io: Io<'_, I, O, E>,
) -> u8 {
    let Io {
        input,
        out,
        errors,
        terminals,
    } = io;
    let mut errors = Paced::new(rt, terminals, errors);
    let mut console = Console::new(alloc, terminals, out, &mut errors);
    match request_of(alloc, arguments) {
        Ok(request) => {
            let status = run_request(rt, &request, input, &mut console);
            drop(request);
            status
        }
        Err(reason) => {
            let status = put_reason(&reason, &mut console);
            drop(reason);
            status
        }
    }
}
