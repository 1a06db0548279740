//! A file that is made of rows.
use crate::bad_rows::BadRows;
use crate::finish::finish;
use crate::gather::Gathering;
use crate::like::learn_types;
use crate::notes::{report_io, report_write};
use crate::replaceable::may_replace;
use crate::taken::TakenRows;
use crate::task::{BuildTask, STANDARD_INPUT, build_task, options_of};
use crate::types::Types;
use mmdb_arguments::BuildArguments;
use mmdb_console::{Console, FAILED, Pace, ProgramError, ProgressLine};
use mmdb_files::SharedFiles;
use mmdb_writer::{Options, Writer};
use std::env::Env;
use std::fs::File;
use std::io::{BufRead, BufReader, Write};
use std::rt::Files;
use std::time::Clock;

/// How many bytes are read at once.
const BUFFER: usize = 1 << 16;

// Gathers the rows of an input.
fn gather<'t, I: BufRead, O: Write, E: Pace>(
    task: &BuildTask<'t>,
    types: &'t Types,
    gathering: &mut Gathering,
    input: &mut I,
    console: &mut Console<'_, O, E>,
) -> Result<(), ProgramError> {
    let alloc = console.alloc;
    let mut progress = ProgressLine::new(alloc, "lines", console.errors);
    let gathered = gathering.gather(alloc, task, types, input, &mut progress);
    progress.clear();
    gathered
}

// Opens the file of the rows and gathers them, or those of standard input.
fn gather_from<'t, R: Files, I: BufRead, O: Write, E: Pace>(
    rt: &R,
    task: &BuildTask<'t>,
    types: &'t Types,
    gathering: &mut Gathering,
    input: &mut I,
    console: &mut Console<'_, O, E>,
) -> Result<(), ProgramError> {
    if task.from == STANDARD_INPUT {
        return gather(task, types, gathering, input, console);
    }
    let file = File::open(rt, task.from)?;
    let mut rows = BufReader::with_capacity(console.alloc, BUFFER, file)?;
    gather(task, types, gathering, &mut rows, console)
}

// Makes the file of rows whose values have these types.
fn build_of<R: SharedFiles + Clock, I: BufRead, O: Write, E: Pace>(
    rt: &R,
    task: &BuildTask<'_>,
    options: Options,
    types: &Types,
    input: &mut I,
    console: &mut Console<'_, O, E>,
) -> Result<u8, ProgramError> {
    let version = options.ip_version;
    let writer = match Writer::new(console.alloc, options) {
        Ok(writer) => writer,
        Err(error) => return report_write(task.out, error, console),
    };
    let mut gathering = Gathering {
        taken: TakenRows::new(console.alloc, task, version, writer),
        bad: BadRows::new(console.alloc),
        is_too_large: false,
        has_no_header: false,
        has_open_quote: false,
    };
    match gather_from(rt, &*task, &*types, &mut gathering, input, console) {
        Ok(()) => finish(rt, task, types, gathering, console),
        Err(ProgramError::Read(error)) if task.from != STANDARD_INPUT => {
            drop(gathering);
            report_io(task.from, error, console)
        }
        Err(error) => {
            drop(gathering);
            Err(error)
        }
    }
}

// Learns types and makes the file.
fn build_file<R: SharedFiles + Env + Clock, I: BufRead, O: Write, E: Pace>(
    rt: &R,
    task: &BuildTask<'_>,
    options: Options,
    input: &mut I,
    console: &mut Console<'_, O, E>,
) -> Result<u8, ProgramError> {
    let mut types = Types::new(console.alloc);
    if may_replace(rt, task.out, console)? && learn_types(rt, task, &mut types, console)? {
        build_of(rt, &*task, options, &types, input, console)
    } else {
        drop(options);
        Ok(FAILED)
    }
}

/// Makes a MaxMind DB file of rows, reports what is wrong with them and what the file has, and answers the status. The file
/// takes the place of what is there when it is whole. An `Err` where an argument is not what is wanted in its place, before any
/// file is opened; where standard input can't be read, or out of memory.
pub fn build<R: SharedFiles + Env + Clock, I: BufRead, O: Write, E: Pace>(
    rt: &R,
    arguments: &BuildArguments<'_>,
    input: &mut I,
    console: &mut Console<'_, O, E>,
) -> Result<u8, ProgramError> {
    let task = build_task(console.alloc, arguments)?;
    let options = options_of(rt, console.alloc, arguments)?;
    let done = build_file(rt, &task, options, input, console);
    drop(task);
    done
}
