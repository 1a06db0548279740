//! Which fields that no record of the lines had other records of databases have.
use mmdb_console::wanted_path;
use mmdb_layout::{Database, ReadAlong, has_few_networks_in, networks_in};
use mmdb_reader::{MaxMindDbError, PathElement};
use std::alloc::{AllocError, Global};
use std::collections::HashSet;

// The paths of texts that are paths.
fn paths_of<'p>(alloc: Global, texts: &[&'p str]) -> Result<Vec<Vec<PathElement<'p>>>, AllocError> {
    let mut paths = Vec::new(alloc);
    for text in texts {
        match wanted_path(alloc, *text) {
            Ok(path) => paths.push(path)?,
            // of texts that are paths
            Err(_) => return Err(AllocError),
        }
    }
    Ok(paths)
}

// Whether a record has a value at a path. One that can't be read has none.
fn has_value<R: ReadAlong>(
    alloc: Global,
    found: &R,
    path: &[PathElement<'_>],
) -> Result<bool, AllocError> {
    let value = found.outline_along(alloc, path);
    match &value {
        Ok(Some(_)) => Ok(true),
        Err(MaxMindDbError::Memory) => Err(AllocError),
        _ => Ok(false),
    }
}

// Marks the fields at paths that a record has.
fn mark<R: ReadAlong>(
    alloc: Global,
    found: &R,
    paths: &[Vec<PathElement<'_>>],
    are_met: &mut [bool],
) -> Result<(), AllocError> {
    for (is_met, path) in are_met.iter_mut().zip(paths) {
        if !*is_met {
            *is_met = has_value(alloc, found, path.as_slice())?;
        }
    }
    Ok(())
}

// Marks the fields at paths that records of a database have, each looked at once, until all are. None of one whose tree leads to
// more networks than its nodes can have.
fn look_through(
    alloc: Global,
    database: &Database,
    paths: &[Vec<PathElement<'_>>],
    are_met: &mut [bool],
) -> Result<(), MaxMindDbError> {
    if !has_few_networks_in(alloc, database, None)? {
        return Ok(());
    }
    let mut seen = HashSet::new(alloc);
    for item in networks_in(alloc, database, None)? {
        if let Ok(found) = item
            && let Some(offset) = found.offset()
            && seen.insert(offset)?
        {
            mark(alloc, &found, paths, are_met)?;
            if are_met.iter().all(|is_met| *is_met) {
                break;
            }
        }
    }
    Ok(())
}

/// Which of the fields at these paths a record of the databases has. An `Err` where there is no memory to see it.
pub(crate) fn fields_met(
    alloc: Global,
    databases: &[Database],
    texts: &[&str],
) -> Result<Vec<bool>, MaxMindDbError> {
    let paths = paths_of(alloc, texts)?;
    let mut are_met = vec![in alloc; false; paths.len()]?;
    for database in databases {
        look_through(alloc, database, paths.as_slice(), are_met.as_mut_slice())?;
    }
    Ok(are_met)
}
