//! Files that are packed, as downloads are, and have to be unpacked first.
use crate::output::{Console, line_of};
use std::alloc::{AllocError, Global};
use std::fs::{self, File};
use std::io::{self, Read, Write};
use std::rt::Files;

/// How many bytes at a file's beginning tell what it is packed as: the word of tar is the last of them.
const HEAD: u64 = 262;

/// Where tar has its word.
const TAR_AT: usize = 257;

/// What a file is packed as.
#[derive(Clone, Copy, Debug, PartialEq, Eq)]
pub enum Archive {
    Gzip,
    Xz,
    Zip,
    Tar,
}

impl Archive {
    /// What a file with this beginning is packed as, if it is.
    pub fn of(head: &[u8]) -> Option<Archive> {
        if head.starts_with(b"\x1F\x8B") {
            Some(Archive::Gzip)
        } else if head.starts_with(b"\xFD7zXZ\0") {
            Some(Archive::Xz)
        } else if head.starts_with(b"PK\x03\x04") {
            Some(Archive::Zip)
        } else if head.get(TAR_AT..).unwrap_or(&[]).starts_with(b"ustar") {
            Some(Archive::Tar)
        } else {
            None
        }
    }

    /// Its name.
    pub fn name(self) -> &'static str {
        match self {
            Archive::Gzip => "gzip",
            Archive::Xz => "xz",
            Archive::Zip => "zip",
            Archive::Tar => "tar",
        }
    }

    // What unpacks a file: a download that is a tar within is taken apart at once, and of another one the file comes out
    // beside it. An `Err` is of memory.
    fn command(self, alloc: Global, file: &str) -> Result<String, AllocError> {
        let is_tar = file.ends_with(".tar.gz")
            || file.ends_with(".tgz")
            || file.ends_with(".tar.xz");
        match self {
            Archive::Zip => format!(in alloc; "unzip {file}"),
            _ if is_tar || self == Archive::Tar => format!(in alloc; "tar -xf {file}"),
            Archive::Gzip if file.ends_with(".mmdb.gz") => {
                let out = file.strip_suffix(".gz").unwrap_or(file);
                format!(in alloc; "gzip -dc {file} >{out}")
            }
            Archive::Xz if file.ends_with(".mmdb.xz") => {
                let out = file.strip_suffix(".xz").unwrap_or(file);
                format!(in alloc; "xz -dc {file} >{out}")
            }
            Archive::Gzip => format!(in alloc; "gzip -dc {file} >{file}.mmdb"),
            _ => format!(in alloc; "xz -dc {file} >{file}.mmdb"),
        }
    }
}

// The first bytes of a file.
fn read_head<R: Files>(rt: &R, alloc: Global, file: &str) -> io::Result<Vec<u8>> {
    let mut head = Vec::new(alloc);
    File::open(rt, file)?.take(HEAD).read_to_end(&mut head)?;
    Ok(head)
}

// What a file is packed as, if it is. What is no regular file is not read: it may wait for ever.
fn archive_at<R: Files>(rt: &R, alloc: Global, file: &str) -> Option<Archive> {
    if !fs::metadata(rt, file).ok()?.is_file() {
        return None;
    }
    let head = read_head(rt, alloc, file).ok()?;
    Archive::of(head.as_slice())
}

/// Says how a file is unpacked that is no database, where it is packed.
pub fn note_archive<R: Files, O: Write, E: Write>(
    rt: &R,
    file: &str,
    console: &mut Console<'_, O, E>,
) {
    let alloc = console.alloc;
    if let Some(archive) = archive_at(rt, alloc, file) {
        let name = archive.name();
        let text = match archive.command(alloc, file) {
            Ok(command) => format!(in alloc;
                "mmdb: {file}: this is {name}; unpack it first: {command}"
            ),
            Err(error) => Err(error),
        };
        console.note(line_of(alloc, text));
    }
}
