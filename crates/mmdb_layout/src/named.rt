//! Databases by the names that arguments give them.
use crate::database::{Database, Opened, open_found, path_or};
use mmdb_console::{Console, ProgramError, line_of, opened};
use mmdb_reader::{IpNetwork, MaxMindDbError};
use std::alloc::{AllocError, Global};
use std::env::Env;
use std::io::{ErrorKind, Write};
use std::rt::Files;

/// A database, by its name as it was given.
#[derive(Drop)]
pub struct NamedDatabase<'a> {
    pub name: &'a str,
    pub database: Database,
}

/// The databases that names are of.
#[derive(Drop)]
pub struct NamedDatabases<'a> {
    /// Those that could be opened.
    pub open: Vec<NamedDatabase<'a>>,
    /// How many names are those of databases.
    pub named: usize,
    /// How many names have no file.
    pub strangers: usize,
}

impl NamedDatabases<'_> {
    /// Whether one of the names is of no database that could be opened.
    pub fn has_failed(&self) -> bool {
        self.strangers > 0 || self.open.len() < self.named
    }
}

/// What arguments may name beside files.
#[derive(Clone, Copy, PartialEq, Eq)]
pub enum BesideFiles {
    Addresses,
    Networks,
}

/// A name, and what was found under it.
#[derive(Drop)]
struct FoundName<'a> {
    name: &'a str,
    opened: Opened,
}

impl FoundName<'_> {
    // Whether there is a file.
    fn is_file(&self) -> bool {
        match &self.opened.got {
            Err(MaxMindDbError::Io(error)) => {
                !matches!(error.kind(), ErrorKind::NotFound | ErrorKind::NotADirectory)
            }
            _ => true,
        }
    }
}

// What is said of a name without a file.
fn text_of_stranger(alloc: Global, name: &str, beside: BesideFiles) -> Result<String, AllocError> {
    match beside {
        BesideFiles::Networks => { format!(in alloc; "mmdb: {name}: neither a network nor a file") }
        BesideFiles::Addresses if name.parse::<IpNetwork>().is_ok() => format!(in alloc;
            "mmdb: {name}: a network, not an address; mmdb export FILE {name} writes what it has"
        ),
        BesideFiles::Addresses => {
            format!(in alloc; "mmdb: {name}: neither an address nor a file")
        }
    }
}

// What is found under these names, which is said where it is elsewhere.
fn find_all<'a, R: Files + Env, O: Write, E: Write>(
    rt: &R,
    names: &[&'a str],
    console: &mut Console<'_, O, E>,
) -> Result<Vec<FoundName<'a>>, AllocError> {
    let mut found = Vec::new(console.alloc);
    for name in names {
        let opened = open_found(rt, *name, console);
        found.push(FoundName {
            name: *name,
            opened,
        })?;
    }
    Ok(found)
}

/// Opens the databases of these names. Reports of each that can't be opened why, and of each without a file that it is none of
/// what may be named. Where none has a file and one is needed, the first is that of a missing database.
pub fn open_named<'a, R: Files + Env, O: Write, E: Write>(
    rt: &R,
    names: &[&'a str],
    beside: BesideFiles,
    is_needed: bool,
    console: &mut Console<'_, O, E>,
) -> Result<NamedDatabases<'a>, ProgramError> {
    let found = find_all(rt, names, console)?;
    let is_first_missing = is_needed && !found.iter().any(|found| found.is_file());
    let mut databases = NamedDatabases {
        open: Vec::new(console.alloc),
        named: 0,
        strangers: 0,
    };
    for (place, found) in found.into_iter().enumerate() {
        let is_database = found.is_file() || (place == 0 && is_first_missing);
        let FoundName { name, opened: file } = found;
        if !is_database {
            let text = text_of_stranger(console.alloc, name, beside);
            console.note(line_of(console.alloc, text));
            databases.strangers = databases.strangers.saturating_add(1);
            continue;
        }
        databases.named = databases.named.saturating_add(1);
        let Opened { path, got } = file;
        if let Some(database) = opened(rt, path_or(&path, name), got, console) {
            databases.open.push(NamedDatabase { name, database })?;
        }
    }
    Ok(databases)
}

// Whether answers of one of the databases are called so, or what is beside them.
fn is_taken(key: &str, beside: &str, keys: &[String]) -> bool {
    key == beside || keys.iter().any(|other| other.as_str() == key)
}

// What the answers of a database are called after others.
fn key_of(
    alloc: Global,
    name: &str,
    database: &Database,
    beside: &str,
    keys: &[String],
) -> Result<String, AllocError> {
    let own = database.metadata().database_type.as_str();
    if !is_taken(own, beside, keys) {
        return String::from_str(alloc, own);
    }
    let mut key = String::from_str(alloc, name)?;
    for number in 2..keys.len().saturating_add(4) {
        if !is_taken(key.as_str(), beside, keys) {
            break;
        }
        key = format!(in alloc; "{name} ({number})")?;
    }
    Ok(key)
}

/// What the answers of databases are called beside something of this name: by the type of each, or as it was given where that
/// is taken, with a number where that is taken too.
pub fn keys_of(
    alloc: Global,
    databases: &[NamedDatabase<'_>],
    beside: &str,
) -> Result<Vec<String>, AllocError> {
    let mut keys = Vec::new(alloc);
    for named in databases {
        let key = key_of(alloc, named.name, &named.database, beside, keys.as_slice())?;
        keys.push(key)?;
    }
    Ok(keys)
}

/// The same of databases with the names that were given.
pub fn keys_of_all(
    alloc: Global,
    names: &[&str],
    databases: &[Database],
    beside: &str,
) -> Result<Vec<String>, AllocError> {
    let mut keys = Vec::new(alloc);
    for (name, database) in names.iter().zip(databases) {
        let key = key_of(alloc, *name, database, beside, keys.as_slice())?;
        keys.push(key)?;
    }
    Ok(keys)
}
