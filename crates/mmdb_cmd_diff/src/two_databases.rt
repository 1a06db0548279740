//! Two databases that are read from files.
ghost use Rattle.std.specs.Prelude.{◌≡◌, unwrap_or};

use mmdb_console::{Console, opened, path_elsewhere};
use mmdb_layout::{Database, open_database, path_or};
use mmdb_reader::{MaxMindDbError, Reader};
use std::env::Env;
use std::io::Write;
use std::rt::Files;

/// Two databases. One serves for both where the files have the same bytes.
#[derive(Drop)]
pub(crate) struct TwoDatabases {
    old: Database,
    /// The new one, where its file has other bytes.
    other: Option<Database>,
}

impl TwoDatabases {
    pub(crate) fn old(&self) -> &Database
        ensures { result.now ≡ self.now.old }
    {
        &self.old
    }

    pub(crate) fn newer(&self) -> &Database
        ensures { result.now ≡ unwrap_or self.now.other self.now.old }
    {
        match &self.other {
            Some(other) => other,
            None => &self.old,
        }
    }

    /// Whether both files have the same bytes.
    pub(crate) fn have_same_bytes(&self) -> bool {
        self.other.is_none()
    }
}

// A database and another one, or none where there is an error, which is reported with the file.
fn with_other<R: Files, O: Write, E: Write>(
    rt: &R,
    file: &str,
    old: Database,
    other: Result<Option<Database>, MaxMindDbError>,
    console: &mut Console<'_, O, E>,
) -> Option<TwoDatabases> {
    match opened(rt, file, other, console) {
        Some(other) => Some(TwoDatabases { old, other }),
        None => {
            drop(old);
            None
        }
    }
}

// The database of a name beside another one, or none where there is an error, which is reported.
fn with_newer<R: Files + Env, O: Write, E: Write>(
    rt: &R,
    name: &str,
    old: Database,
    console: &mut Console<'_, O, E>,
) -> Option<TwoDatabases> {
    let mut other = Reader::open_unless_same(rt, console.alloc, name, &old);
    let path = match path_elsewhere(rt, name, &other, console) {
        Ok(path) => path,
        Err(error) => {
            other = Err(error);
            None
        }
    };
    if let Some(path) = &path {
        other = Reader::open_unless_same(rt, console.alloc, path.as_str(), &old);
    }
    let both = with_other(rt, path_or(&path, name), old, other, console);
    drop(path);
    both
}

/// The databases of two files, or none if one of them has an error, which is reported: that of the old one, where both
/// have one.
pub(crate) fn open_two<R: Files + Env, O: Write, E: Write>(
    rt: &R,
    old_file: &str,
    new_file: &str,
    console: &mut Console<'_, O, E>,
) -> Option<TwoDatabases> {
    let old = open_database(rt, old_file, console)?;
    with_newer(rt, new_file, old, console)
}
