//! The files of the databases in which rows are looked up.
use crate::reload::Lookout;
use mmdb_console::{BAD_ARGUMENTS, Console, FAILED, Pace, line_of, opened, reported};
use mmdb_layout::{Database, Opened, open_found, path_or};
use mmdb_reader::MaxMindDbError;
use std::alloc::AllocError;
use std::env::Env;
use std::io::Write;
use std::rt::Files;

// Says that a log is no argument, where a file was given after a database that is none itself.
fn hint_input<O: Write, E: Pace>(other: &str, console: &mut Console<'_, O, E>) {
    let text = format!(in console.alloc;
        "mmdb: {other} is no database; enrich reads standard input: < {other}"
    );
    console.note(line_of(console.alloc, text));
}

// The status that it means that a file can't be used. After the first one it is a log more often than a damaged database.
fn status_of<O: Write, E: Pace>(
    name: &str,
    is_first: bool,
    is_no_database: bool,
    console: &mut Console<'_, O, E>,
) -> u8 {
    if is_first || !is_no_database {
        return FAILED;
    }
    hint_input(name, console);
    BAD_ARGUMENTS
}

// Opens a file, or answers the status where it has an error, which is reported. How one is unpacked is said of the first alone:
// another one is a log more often, which is no database when it is unpacked.
fn open_one<R: Files + Env, O: Write, E: Pace>(
    rt: &R,
    name: &str,
    databases: &mut Vec<Database>,
    lookout: &mut Lookout,
    console: &mut Console<'_, O, E>,
) -> Result<Option<u8>, AllocError> {
    let mark = lookout.mark_of(rt, name);
    let Opened { path, got } = open_found(rt, name, console);
    let is_first = databases.is_empty();
    let is_no_database = matches!(got, Err(MaxMindDbError::InvalidDatabase { .. }));
    let file = path_or(&path, name);
    let got = if is_first {
        opened(rt, file, got, console)
    } else {
        reported(file, got, console)
    };
    let Some(database) = got else {
        return Ok(Some(status_of(name, is_first, is_no_database, console)));
    };
    databases.push(database)?;
    lookout.watch(console.alloc, path_or(&path, name), mark)?;
    Ok(None)
}

/// Opens all files, or answers the status where one has an error, which is reported. Their marks are taken before.
pub(crate) fn open_all<R: Files + Env, O: Write, E: Pace>(
    rt: &R,
    names: &[&str],
    databases: &mut Vec<Database>,
    lookout: &mut Lookout,
    console: &mut Console<'_, O, E>,
) -> Result<Option<u8>, AllocError> {
    for name in names {
        let status = open_one(rt, *name, databases, lookout, console)?;
        if status.is_some() {
            return Ok(status);
        }
    }
    Ok(None)
}
