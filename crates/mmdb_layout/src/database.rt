//! Databases whose bytes are those of a file.
ghost use Rattle.std.specs.Prelude.{◌≡◌, IfOk};
ghost use Rattle.mmdb_reader.specs.Enumeration.{database_walked, items_to_come};
ghost use Rattle.mmdb_layout.specs.Networks.{items_in};

use mmdb_console::{Console, opened, path_elsewhere};
use mmdb_reader::{IpNetwork, LookupResult, MaxMindDbError, Reader, Within, WithinOptions};
use std::alloc::Global;
use std::env::Env;
use std::io::Write;
use std::rt::Files;

/// A database with the bytes of its file.
pub type Database = Reader<Vec<u8>>;

/// What a database has for an address.
pub type Found<'r> = LookupResult<'r, Vec<u8>>;

/// The networks of a range of a database.
pub type Networks<'r> = Within<'r, Vec<u8>>;

/// What was found under a name.
#[derive(Drop)]
pub struct Opened {
    /// The path at which it was found, where that is not the name.
    pub path: Option<String>,
    /// The database, or why there is none.
    pub got: Result<Database, MaxMindDbError>,
}

/// The path at which something was found: that which is known, or else its name.
pub fn path_or<'a>(path: &'a Option<String>, name: &'a str) -> &'a str {
    match path {
        Some(path) => path.as_str(),
        None => name,
    }
}

/// What is found under a name, here or elsewhere, which is said.
pub fn open_found<R: Files + Env, O: Write, E: Write>(
    rt: &R,
    name: &str,
    console: &mut Console<'_, O, E>,
) -> Opened {
    let got = Reader::open_readfile(rt, console.alloc, name);
    match path_elsewhere(rt, name, &got, console) {
        Ok(None) => Opened { path: None, got },
        Ok(Some(path)) => {
            drop(got);
            let got = Reader::open_readfile(rt, console.alloc, path.as_str());
            Opened {
                path: Some(path),
                got,
            }
        }
        Err(error) => {
            drop(got);
            Opened {
                path: None,
                got: Err(error),
            }
        }
    }
}

/// The database of a name, here or elsewhere, which is said, or none where it has an error, which is reported.
pub fn open_database<R: Files + Env, O: Write, E: Write>(
    rt: &R,
    name: &str,
    console: &mut Console<'_, O, E>,
) -> Option<Database> {
    let Opened { path, got } = open_found(rt, name, console);
    let database = opened(rt, path_or(&path, name), got, console);
    drop(path);
    database
}

/// The database of a file at just this path, or none where it has an error, which is reported.
pub fn open_at<R: Files, O: Write, E: Write>(
    rt: &R,
    path: &str,
    console: &mut Console<'_, O, E>,
) -> Option<Database> {
    opened(
        rt,
        path,
        Reader::open_readfile(rt, console.alloc, path),
        console,
    )
}

/// The networks of a range of a database, or all.
pub fn networks_in(
    alloc: Global,
    database: &Database,
    range: Option<IpNetwork>,
) -> Result<Networks<'_>, MaxMindDbError>
    ensures database { IfOk result (λ networks. database_walked networks ≡ database.now) }
    ensures listed { IfOk result
        (λ networks. items_to_come networks ≡ items_in database.now range) }
{
    match range {
        Some(range) => database.within(alloc, range, WithinOptions::default()),
        None => database.networks(alloc, WithinOptions::default()),
    }
}
