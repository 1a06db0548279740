//! Files of databases that are replaced while rows pass.
ghost use Rattle.std.specs.Prelude.{◌≡◌, true, false};

use mmdb_console::{Console, line_of};
use mmdb_layout::Database;
use mmdb_reader::Reader;
use std::alloc::{AllocError, Global};
use std::fs;
use std::io::Write;
use std::os::unix::fs::MetadataExt;
use std::rt::Files;
use std::time::{Clock, Duration};

/// How many seconds it takes until files are looked at again.
const PAUSE: u64 = 1;

/// What tells a file from others that were at its path.
#[derive(Clone, Copy, PartialEq, Eq)]
pub(crate) struct FileMark {
    device: u64,
    inode: u64,
    size: u64,
    seconds: i64,
    nanoseconds: i64,
}

// What tells the file at a path from others, if there is a plain one. A pipe may make who opens it wait without end.
fn mark_of<R: Files>(rt: &R, path: &str) -> Option<FileMark> {
    let found = fs::metadata(rt, path).ok()?;
    if !found.is_file() {
        return None;
    }
    Some(FileMark {
        device: found.dev(),
        inode: found.ino(),
        size: found.size(),
        seconds: found.mtime(),
        nanoseconds: found.mtime_nsec(),
    })
}

/// The file of a database.
#[derive(Drop)]
struct WatchedFile {
    path: String,
    /// Of the file that was opened last, or that was to be.
    mark: Option<FileMark>,
}

impl WatchedFile {
    // The mark of the file that is at the path now, if it is another one than that of which this has the mark.
    fn other<R: Files>(&self, rt: &R) -> Option<FileMark> {
        let mark = mark_of(rt, self.path.as_str())?;
        if self.mark == Some(mark) {
            None
        } else {
            Some(mark)
        }
    }
}

/// Looks whether files of databases were replaced, once a second at most.
#[derive(Drop)]
pub(crate) struct Lookout {
    /// Whether replaced files are wanted.
    pub(crate) is_wanted: bool,
    files: Vec<WatchedFile>,
    /// When they were looked at last.
    looked: Duration,
    /// Whether another file was seen that was not opened yet.
    pub(crate) has_seen: bool,
}

impl Lookout {
    /// Of no file.
    pub(crate) fn new<R: Clock>(alloc: Global, rt: &R, is_wanted: bool) -> Lookout {
        let now = if is_wanted { rt.monotonic().ok() } else { None };
        Lookout {
            is_wanted,
            files: Vec::new(alloc),
            looked: now.unwrap_or(Duration::ZERO),
            has_seen: false,
        }
    }

    /// The mark of the file at a path, where replaced files are wanted.
    pub(crate) fn mark_of<R: Files>(&self, rt: &R, path: &str) -> Option<FileMark> {
        if self.is_wanted {
            mark_of(rt, path)
        } else {
            None
        }
    }

    /// Looks at the file of the next database too, of which this was the mark before it was opened.
    pub(crate) fn watch(
        &mut self,
        alloc: Global,
        path: &str,
        mark: Option<FileMark>,
    ) -> Result<(), AllocError> {
        if self.is_wanted {
            let path = String::from_str(alloc, path)?;
            self.files.push(WatchedFile { path, mark })?;
        }
        Ok(())
    }

    // Whether it is time to look again.
    fn is_due<R: Clock>(&mut self, rt: &R) -> bool
        ensures seen { self.new.has_seen ≡ self.old.has_seen }
        ensures wanted { self.new.is_wanted ≡ self.old.is_wanted }
    {
        let Ok(now) = rt.monotonic() else {
            return false;
        };
        let is_due = now.saturating_sub(self.looked).as_secs() >= PAUSE;
        if is_due {
            self.looked = now;
        }
        is_due
    }

    /// Whether a file was replaced, as far as it is time to look.
    pub(crate) fn look<R: Files + Clock>(&mut self, rt: &R) -> bool
        ensures seen { result ≡ self.new.has_seen }
        ensures stays { self.old.has_seen ≡ true → self.new.has_seen ≡ true }
        ensures unwanted { self.old.is_wanted ≡ false → self.new.has_seen ≡ self.old.has_seen }
        ensures wanted { self.new.is_wanted ≡ self.old.is_wanted }
    {
        if self.is_wanted && self.is_due(rt) {
            self.has_seen |= self.files.iter().any(|file| file.other(rt).is_some());
        }
        self.has_seen
    }
}

// Says that a file that took the place of a database's is not used.
fn say_kept<O: Write, E: Write>(
    alloc: Global,
    path: &str,
    why: &str,
    console: &mut Console<'_, O, E>,
) {
    let text = format!(in alloc;
        "mmdb: {path} was replaced{why}; the database before it stays in use"
    );
    console.note(line_of(alloc, text));
}

// Says that a database is of another type than the one before it.
fn say_other_type<O: Write, E: Write>(
    path: &str,
    old: &Database,
    new: &Database,
    console: &mut Console<'_, O, E>,
) {
    let alloc = console.alloc;
    let (old, new) = (
        old.metadata().database_type.as_str(),
        new.metadata().database_type.as_str(),
    );
    let why: Result<String, AllocError> = format!(in alloc; " by one of the type {new}, not {old}");
    if let Ok(why) = why {
        say_kept(alloc, path, why.as_str(), console);
    }
}

// The database of the file that took the place of another one's, if it is of the same type.
fn opened_anew<R: Files, O: Write, E: Write>(
    rt: &R,
    path: &str,
    old: &Database,
    console: &mut Console<'_, O, E>,
) -> Option<Database> {
    match Reader::open_readfile(rt, console.alloc, path) {
        Ok(new) if new.metadata().database_type == old.metadata().database_type => Some(new),
        Ok(new) => {
            say_other_type(path, old, &new, console);
            None
        }
        Err(error) => {
            console.report(path, &error);
            say_kept(console.alloc, path, "", console);
            None
        }
    }
}

// Opens the file that took the place of a database's. Where it can't take it, which is said, it is not tried again.
fn replace<R: Files, O: Write, E: Write>(
    rt: &R,
    file: &mut WatchedFile,
    database: &mut Database,
    console: &mut Console<'_, O, E>,
) {
    let Some(mark) = file.other(rt) else {
        return;
    };
    file.mark = Some(mark);
    if let Some(new) = opened_anew(rt, file.path.as_str(), database, console) {
        *database = new;
    }
}

/// Opens each file that took the place of a database's. A database stays where it can't be opened, is of another type, or there
/// is no memory for both, which is said once for each such file.
pub(crate) fn reopen<R: Files, O: Write, E: Write>(
    rt: &R,
    lookout: &mut Lookout,
    databases: &mut [Database],
    console: &mut Console<'_, O, E>,
) {
    lookout.has_seen = false;
    for (file, database) in lookout.files.iter_mut().zip(databases.iter_mut()) {
        replace(rt, file, database, console);
    }
}
