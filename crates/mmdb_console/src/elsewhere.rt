//! Databases that are not here under the name that was given.
use crate::output::{Console, line_of};
use mmdb_format::error::MaxMindDbError;
use std::alloc::{AllocError, Global};
use std::env::{self, Env, VarError};
use std::fs;
use std::io::{ErrorKind, Write};
use std::rt::Files;

/// The variable of the folders in which databases are looked for first.
const VARIABLE: &str = "MMDB_PATH";

/// The folders in which they are looked for then.
const FOLDERS: &str = "/usr/local/share/GeoIP:/usr/share/GeoIP:/var/lib/GeoIP";

/// What may be left out at the end of a name.
const ENDING: &str = ".mmdb";

// The folders in which databases are looked for, with colons between them.
fn folders_of<R: Env>(rt: &R, alloc: Global) -> Result<String, AllocError> {
    match env::var(&(rt, alloc), VARIABLE) {
        Ok(own) => format!(in alloc; "{own}:{FOLDERS}"),
        Err(VarError::OutOfMemory) => Err(AllocError),
        Err(_) => String::from_str(alloc, FOLDERS),
    }
}

// The path of a name in a folder; the folder without a name is the current one.
fn path_in(alloc: Global, folder: &str, name: &str, ending: &str) -> Result<String, AllocError> {
    let slash = if folder.is_empty() || folder.ends_with('/') {
        ""
    } else {
        "/"
    };
    format!(in alloc; "{folder}{slash}{name}{ending}")
}

// Whether there is a file at a path.
fn is_file<R: Files>(rt: &R, path: &str) -> bool {
    match fs::metadata(rt, path) {
        Ok(found) => found.is_file(),
        Err(_) => false,
    }
}

// The file of a name in a folder, or else that of the name with its ending.
fn file_in<R: Files>(
    rt: &R,
    alloc: Global,
    folder: &str,
    name: &str,
) -> Result<Option<String>, AllocError> {
    let path = path_in(alloc, folder, name, "")?;
    if is_file(rt, path.as_str()) {
        return Ok(Some(path));
    }
    let path = path_in(alloc, folder, name, ENDING)?;
    Ok(if is_file(rt, path.as_str()) {
        Some(path)
    } else {
        None
    })
}

// The first file of a name in folders with colons between them.
fn file_among<R: Files>(
    rt: &R,
    alloc: Global,
    folders: &str,
    name: &str,
) -> Result<Option<String>, AllocError> {
    for folder in folders.split(':') {
        if !folder.is_empty() {
            if let Some(path) = file_in(rt, alloc, folder, name)? {
                return Ok(Some(path));
            }
        }
    }
    Ok(None)
}

// The file of a name that is not here: here with its ending, or in one of the folders.
fn file_of<R: Files + Env>(
    rt: &R,
    alloc: Global,
    name: &str,
) -> Result<Option<String>, AllocError> {
    if name.is_empty() || name.contains('/') {
        return Ok(None);
    }
    match file_in(rt, alloc, "", name)? {
        Some(path) => Ok(Some(path)),
        None => file_among(rt, alloc, folders_of(rt, alloc)?.as_str(), name),
    }
}

/// Where the database of a name is that is not here, if it is anywhere, which is said: a name without a slash is looked for
/// here with `.mmdb` added, and then in the folders of the variable `MMDB_PATH` and those in which databases are installed.
pub fn file_elsewhere<R: Files + Env, O: Write, E: Write>(
    rt: &R,
    name: &str,
    console: &mut Console<'_, O, E>,
) -> Result<Option<String>, AllocError> {
    let alloc = console.alloc;
    let path = file_of(rt, alloc, name)?;
    if let Some(path) = &path {
        if console.names_found {
            console.note(line_of(alloc, format!(in alloc; "mmdb: {name}: {path}")));
        }
    }
    Ok(path)
}

/// Where the database of a name is, if that is elsewhere: where nothing was found at the name, as `file_elsewhere` says. An
/// `Err` is `Memory`.
pub fn path_elsewhere<R: Files + Env, T, O: Write, E: Write>(
    rt: &R,
    name: &str,
    got: &Result<T, MaxMindDbError>,
    console: &mut Console<'_, O, E>,
) -> Result<Option<String>, MaxMindDbError> {
    match got {
        Err(MaxMindDbError::Io(error)) if error.kind() == ErrorKind::NotFound => {
            Ok(file_elsewhere(rt, name, console)?)
        }
        _ => Ok(None),
    }
}
