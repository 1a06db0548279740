//! What is at a path that is to be written.
use memchr::memmem;
use std::alloc::Global;
use std::fs::File;
use std::io::{self, ErrorKind, Read, Seek, SeekFrom};
use std::rt::Files;

/// What comes before the metadata of a MaxMind DB file ("Database Metadata" of the MaxMind DB File Format Specification 2.0).
const MARKER: &[u8] = b"\xAB\xCD\xEFMaxMind.com";

/// In how many bytes at the end of a file the marker is looked for: in those in which the format lets it be.
const MOST_BEHIND: u64 = 131_072;

/// What is at a path.
#[derive(Clone, Copy, Debug, PartialEq, Eq)]
pub enum Standing {
    /// Nothing.
    Nothing,
    /// A file with the marker of a MaxMind DB file.
    Database,
    /// Another file.
    Other,
    /// A folder, a pipe, a device or the like, or a name that no file can have.
    NoFile,
    /// A link that leads nowhere.
    DeadLink,
}

// The bytes at the end of a file.
fn read_end<F: Read + Seek>(alloc: Global, file: &mut F) -> io::Result<Vec<u8>> {
    let len = file.seek(SeekFrom::End(0))?;
    file.seek(SeekFrom::Start(len.saturating_sub(MOST_BEHIND)))?;
    let mut bytes = Vec::new(alloc);
    file.by_ref().take(MOST_BEHIND).read_to_end(&mut bytes)?;
    Ok(bytes)
}

// Whether an error says that there is nothing.
fn is_missing(error: &io::Error) -> bool {
    error.kind() == ErrorKind::NotFound
}

// What is at a path that leads to nothing.
fn nothing_at<R: Files>(rt: &R, path: &str) -> io::Result<Standing> {
    match rt.symlink_metadata(path) {
        Ok(_) => Ok(Standing::DeadLink),
        Err(error) if is_missing(&error) => Ok(Standing::Nothing),
        Err(error) => Err(error),
    }
}

// What a file is.
fn kind_of_file<R: Files>(rt: &R, alloc: Global, path: &str) -> io::Result<Standing> {
    let mut file = File::open(rt, path)?;
    let end = read_end(alloc, &mut file)?;
    if memmem::find(&end, MARKER).is_some() {
        Ok(Standing::Database)
    } else {
        Ok(Standing::Other)
    }
}

/// What is at a path, where a file is another one whatever it has: nothing is opened.
pub fn plain_standing_of<R: Files>(rt: &R, path: &str) -> io::Result<Standing> {
    if path.is_empty() || path.ends_with('/') {
        return Ok(Standing::NoFile);
    }
    match rt.metadata(path) {
        Ok(found) if found.is_file() => Ok(Standing::Other),
        Ok(_) => Ok(Standing::NoFile),
        Err(error) if is_missing(&error) => nothing_at(rt, path),
        Err(error) => Err(error),
    }
}

/// What is at a path. Of a file no more than the last 131,072 bytes are read, and what is no file is not opened.
pub fn standing_of<R: Files>(rt: &R, alloc: Global, path: &str) -> io::Result<Standing> {
    match plain_standing_of(rt, path)? {
        Standing::Other => kind_of_file(rt, alloc, path),
        standing => Ok(standing),
    }
}
