//! The types of values: those of a database, and those that are named.
use crate::notes::note;
use crate::task::BuildTask;
use crate::types::Types;
use mmdb_console::{Console, ProgramError};
use mmdb_layout::{Database, Found, can_be_walked, open_database};
use mmdb_reader::{MaxMindDbError, WithinOptions};
use mmdb_value::Value;
use std::alloc::{AllocError, Global};
use std::collections::HashSet;
use std::env::Env;
use std::io::Write;
use std::rt::Files;

// Learns the types of the record of a network, if it was not met before.
fn learn_found(
    alloc: Global,
    found: &Found<'_>,
    met: &mut HashSet<usize>,
    types: &mut Types,
) -> Result<(), MaxMindDbError> {
    let Some(offset) = found.offset() else {
        return Ok(());
    };
    if !met.insert(offset)? {
        return Ok(());
    }
    let record: Option<Value<'_>> = found.decode(alloc)?;
    match &record {
        Some(record) => Ok(types.learn(alloc, record)?),
        None => Ok(()),
    }
}

// Learns the types of all records of a database.
fn learn_all(alloc: Global, database: &Database, types: &mut Types) -> Result<(), MaxMindDbError> {
    let mut met = HashSet::new(alloc);
    for item in database.networks(alloc, WithinOptions::default())? {
        match item {
            Ok(found) => learn_found(alloc, &found, &mut met, types)?,
            Err(error) => return Err(error),
        }
    }
    Ok(())
}

// Sets the types that are named.
fn set_named(alloc: Global, task: &BuildTask<'_>, types: &mut Types) -> Result<(), AllocError> {
    for typed in &task.types {
        types.set(alloc, &typed.path, typed.kind)?;
    }
    Ok(())
}

// Notes at how many paths of a file a value may have several types.
fn note_several<O: Write, E: Write>(file: &str, types: &Types, console: &mut Console<'_, O, E>) {
    let several = types.several();
    if several > 0 {
        note(
            console,
            format!(in console.alloc;
                "mmdb: {file}: at {several} paths values that JSON shows alike have several types; the first that has a value just so is taken"
            ),
        );
    }
}

// Learns the types of a file, and says whether it could be read. Why it could not is reported.
fn learn_file<R: Files + Env, O: Write, E: Write>(
    rt: &R,
    file: &str,
    types: &mut Types,
    console: &mut Console<'_, O, E>,
) -> Result<bool, ProgramError> {
    let Some(database) = open_database(rt, file, console) else {
        return Ok(false);
    };
    if !can_be_walked(&database, file, None, console)? {
        return Ok(false);
    }
    let learned = learn_all(console.alloc, &database, types);
    drop(database);
    match learned {
        Ok(()) => {
            note_several(file, types, console);
            Ok(true)
        }
        Err(MaxMindDbError::Memory) => Err(ProgramError::Memory),
        Err(error) => {
            console.report(file, &error);
            drop(error);
            Ok(false)
        }
    }
}

/// Learns the types that are asked for, and says whether the file of which they are could be read. Why it could not is reported.
pub(crate) fn learn_types<R: Files + Env, O: Write, E: Write>(
    rt: &R,
    task: &BuildTask<'_>,
    types: &mut Types,
    console: &mut Console<'_, O, E>,
) -> Result<bool, ProgramError> {
    if let Some(file) = task.types_like {
        if !learn_file(rt, file, types, console)? {
            return Ok(false);
        }
    }
    set_named(console.alloc, task, types)?;
    Ok(true)
}
