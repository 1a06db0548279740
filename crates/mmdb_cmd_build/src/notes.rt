//! What is said on standard error.
use mmdb_console::{Console, FAILED, ProgramError, line_of};
use mmdb_writer::WriteError;
use std::alloc::AllocError;
use std::io::{self, ErrorKind, Write};

/// Says a line on standard error, in which no text of a file or an argument begins another one.
pub(crate) fn note<O: Write, E: Write>(
    console: &mut Console<'_, O, E>,
    text: Result<String, AllocError>,
) {
    console.note(line_of(console.alloc, text));
}

/// Reports an error of a file, unless it is of memory, and answers that something failed.
pub(crate) fn report_io<O: Write, E: Write>(
    file: &str,
    error: io::Error,
    console: &mut Console<'_, O, E>,
) -> Result<u8, ProgramError> {
    if error.kind() == ErrorKind::OutOfMemory {
        drop(error);
        return Err(ProgramError::Memory);
    }
    console.report(file, &error);
    drop(error);
    Ok(FAILED)
}

// Why a writer gives no file, but for memory.
fn text_of_error(error: WriteError) -> &'static str {
    match error {
        WriteError::TooLarge => "more nodes or bytes than a MaxMind DB file may have",
        WriteError::Options(_) => "the metadata are not those of a MaxMind DB file",
        WriteError::NotAsMeant => "the file is not read back as it was meant",
        WriteError::Memory | WriteError::Value { .. } | WriteError::Row { .. } => "out of memory",
    }
}

/// Reports an error of the writer, unless it is of memory, and answers that something failed.
pub(crate) fn report_write<O: Write, E: Write>(
    out: &str,
    error: WriteError,
    console: &mut Console<'_, O, E>,
) -> Result<u8, ProgramError> {
    if error == WriteError::Memory {
        return Err(ProgramError::Memory);
    }
    console.report(out, &text_of_error(error));
    Ok(FAILED)
}
