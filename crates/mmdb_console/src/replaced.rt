//! Files that commands replace.
use crate::error::ProgramError;
use crate::output::{Console, line_of};
use mmdb_files::{PendingFile, ReplaceError, SharedFiles};
use mmdb_main::FAILED;
use std::io::{ErrorKind, Write};

/// Says what is worth a line of a file that is made in another one's place.
pub fn note_remarks<R: SharedFiles, O: Write, E: Write>(
    of: &str,
    pending: &PendingFile<R>,
    console: &mut Console<'_, O, E>,
) {
    let alloc = console.alloc;
    for remark in &pending.remarks(alloc).unwrap_or(Vec::new(alloc)) {
        console.note(line_of(alloc, format!(in alloc; "mmdb: {of}: {remark}")));
    }
}

/// Reports why a file was not replaced, unless it is of memory, and answers that something failed.
pub fn report_replace<O: Write, E: Write>(
    of: &str,
    error: ReplaceError,
    console: &mut Console<'_, O, E>,
) -> Result<u8, ProgramError> {
    if let ReplaceError::Io(cause) = &error
        && cause.kind() == ErrorKind::OutOfMemory
    {
        drop(error);
        return Err(ProgramError::Memory);
    }
    console.report(of, &error);
    drop(error);
    Ok(FAILED)
}
