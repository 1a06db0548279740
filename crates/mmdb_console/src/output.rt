//! What goes to standard output and standard error.
use crate::archive::note_archive;
use crate::error::ProgramError;
use crate::progress::{Pace, Passed, show, take_away};
use mmdb_arguments::shown_text;
use mmdb_format::error::MaxMindDbError;
use mmdb_main::FAILED;
use std::alloc::{AllocError, Global};
use std::fmt::Display;
use std::io::{self, BufRead, Write};
use std::rt::Files;

/// An address has no record, or a path leads nowhere in it.
pub const NOT_FOUND: u8 = 6;

/// Two files differ, where that was asked.
pub const DIFFERENT: u8 = 7;

/// What is reported where there is no memory to print an error.
pub const NO_MEMORY: &str = "mmdb: out of memory\n";

/// Which of the standard streams are terminals.
#[derive(Clone, Copy)]
pub struct Terminals {
    pub output: bool,
    pub errors: bool,
}

/// The standard streams, and which of them are terminals.
#[derive(Drop)]
pub struct Io<'c, I: BufRead, O: Write, E: Write> {
    pub input: &'c mut I,
    pub out: &'c mut O,
    pub errors: &'c mut E,
    pub terminals: Terminals,
}

/// Memory, standard output and standard error.
#[derive(Drop)]
pub struct Console<'c, O: Write, E: Write> {
    pub alloc: Global,
    pub terminals: Terminals,
    pub out: &'c mut O,
    pub errors: &'c mut E,
    /// What reports call the output.
    pub output_name: &'c str,
    /// Whether all rows of an input came out, whatever errors they had.
    pub rows_are_whole: bool,
    /// Whether a database that was found elsewhere is named.
    pub names_found: bool,
    /// Whether a terminal shows how far it is.
    is_progress_shown: bool,
}

/// Writes a text to standard output; an `Err` is `Write`.
pub fn put<O: Write>(text: &[u8], out: &mut O) -> Result<(), ProgramError> {
    match out.write_all(text) {
        Ok(()) => Ok(()),
        Err(error) => Err(ProgramError::Write(error)),
    }
}

// Whether an output was closed.
fn is_closed(error: &ProgramError) -> bool {
    match error {
        ProgramError::Write(error) => error.kind() == io::ErrorKind::BrokenPipe,
        _ => false,
    }
}

/// A line of a text, in which no text of a file or an argument begins another one. An `Err` is of memory.
pub fn line_of(alloc: Global, text: Result<String, AllocError>) -> Result<String, AllocError> {
    let mut line = shown_text(alloc, text?.as_str())?;
    line.push('\n')?;
    Ok(line)
}

impl<'c, O: Write, E: Write> Console<'c, O, E> {
    pub fn new(
        alloc: Global,
        terminals: Terminals,
        out: &'c mut O,
        errors: &'c mut E,
    ) -> Console<'c, O, E> {
        Console {
            alloc,
            terminals,
            out,
            errors,
            output_name: "standard output",
            rows_are_whole: false,
            names_found: true,
            is_progress_shown: false,
        }
    }

    /// Takes what is shown away again.
    pub fn clear_progress(&mut self) {
        if self.is_progress_shown {
            take_away(self.errors);
            self.is_progress_shown = false;
        }
    }

    /// Writes a text to standard output; an `Err` is `Write`.
    pub fn put(&mut self, text: &[u8]) -> Result<(), ProgramError> {
        put(text, self.out)
    }

    /// Writes out what is buffered, so that what is reported next comes after it. An `Err` is `Write`.
    pub fn flush(&mut self) -> Result<(), ProgramError> {
        match self.out.flush() {
            Ok(()) => Ok(()),
            Err(error) => Err(ProgramError::Write(error)),
        }
    }

    /// Writes a text to standard error, whose faults change nothing. It is left out where there is no memory for it.
    pub fn note(&mut self, text: Result<String, AllocError>) {
        self.clear_progress();
        if let Ok(text) = text {
            let _ = self.errors.write_all(text.as_bytes());
        }
    }

    /// Reports what went wrong, with the file or the address that it is of.
    pub fn report<D: Display>(&mut self, of: &str, error: &D) {
        let line = line_of(self.alloc, format!(in self.alloc; "mmdb: {of}: {error}"));
        let text = match &line {
            Ok(line) => line.as_str(),
            Err(_) => NO_MEMORY,
        };
        self.clear_progress();
        let _ = self.errors.write_all(text.as_bytes());
    }

    /// Reports what went wrong, after what was written so far, if there was memory for the name of what it is of. An `Err` is
    /// `Write` or `Memory`.
    pub fn report_behind<D: Display>(
        &mut self,
        of: Result<String, AllocError>,
        error: &D,
    ) -> Result<(), ProgramError> {
        self.flush()?;
        self.report(of?.as_str(), error);
        Ok(())
    }

    /// Reports an error that ends the program, with the standard stream that it is of, or else with a file. Of an output that
    /// was closed nothing is reported.
    pub fn report_last(&mut self, of: &str, error: &ProgramError) {
        if is_closed(error) {
            return;
        }
        let of = match error {
            ProgramError::Write(_) => self.output_name,
            _ => error.stream().unwrap_or(of),
        };
        self.report(of, error);
    }

    /// The status after all is written: that of what was done, or where the rest can't be written, which is reported, `FAILED`.
    pub fn end(&mut self, status: u8) -> u8 {
        match self.flush() {
            Ok(()) => status,
            Err(error) => {
                self.report_last("", &error);
                drop(error);
                FAILED
            }
        }
    }
}

impl<'c, O: Write, E: Pace> Console<'c, O, E> {
    /// Shows what passed so far, where a terminal does.
    pub fn show_progress(&mut self, unit: &str, passed: Passed) {
        self.is_progress_shown |= show(self.alloc, unit, passed, self.errors);
    }
}

/// What was got of a file, or none where there is an error, which is reported.
pub fn reported<T: Drop, O: Write, E: Write>(
    file: &str,
    got: Result<T, MaxMindDbError>,
    console: &mut Console<'_, O, E>,
) -> Option<T> {
    match got {
        Ok(value) => Some(value),
        Err(error) => {
            console.report(file, &error);
            drop(error);
            None
        }
    }
}

/// The database of a file, or none where there is an error, which is reported: with how the file is unpacked, where it is
/// packed.
pub fn opened<R: Files, T: Drop, O: Write, E: Write>(
    rt: &R,
    file: &str,
    got: Result<T, MaxMindDbError>,
    console: &mut Console<'_, O, E>,
) -> Option<T> {
    let is_no_database = matches!(got, Err(MaxMindDbError::InvalidDatabase { .. }));
    let database = reported(file, got, console);
    if is_no_database {
        note_archive(rt, file, console);
    }
    database
}
