//! Standard output, as rows are written to it.
ghost use Rattle.std.specs.Prelude.{◌≡◌, IfOk, OnErr, OnOk, IsErr};
ghost use Rattle.std.specs.Io.KnownBytes.{Appends};

use mmdb_console::ProgramError;
use std::io::{self, ErrorKind, Write};

/// Writes a text; an `Err` is `Write`.
pub(crate) fn put<O: Write>(text: &[u8], out: &mut O) -> Result<(), ProgramError>
    ensures { OnOk result (Appends (O.contents out.old) (O.contents out.new) text.now) }
{
    match out.write_all(text) {
        Ok(()) => Ok(()),
        Err(error) => Err(ProgramError::Write(error)),
    }
}

/// An output that knows whether it failed. A filter of rows reports the error of a read or of a write alike. What a filter
/// flushes before each read goes out where the input is live. It ends at a write of no byte, and goes on after an interrupted
/// one.
#[derive(Drop)]
pub(crate) struct Output<'o, O: Write> {
    pub(crate) out: &'o mut O,
    is_live: bool,
    has_failed: bool,
}

impl<'o, O: Write> Output<'o, O> {
    pub(crate) fn new(out: &'o mut O, is_live: bool) -> Output<'o, O> {
        Output {
            out,
            is_live,
            has_failed: false,
        }
    }

    /// What a filter of rows answered that wrote here, as the program reports it.
    pub(crate) fn of_filter<T>(&self, done: io::Result<T>) -> Result<T, ProgramError>
        ensures value { IfOk result (λ value. done ≡ Ok value) }
        ensures failed { OnErr result (IsErr done) }
    {
        match done {
            Ok(value) => Ok(value),
            Err(error) if self.has_failed => Err(ProgramError::of_write(error)),
            Err(error) => Err(ProgramError::from(error)),
        }
    }
}

impl<'o, O: Write> Write for Output<'o, O> {
    ghost contents = { λ output. O.contents output.out.now };

    #[inline(always)]
    fn write(&mut self, bytes: &[u8]) -> io::Result<usize> {
        match self.out.write(bytes) {
            Ok(count) => {
                self.has_failed |= count == 0;
                Ok(count)
            }
            Err(error) => {
                self.has_failed |= error.kind() != ErrorKind::Interrupted;
                Err(error)
            }
        }
    }

    fn flush(&mut self) -> io::Result<()> {
        if !self.is_live {
            return Ok(());
        }
        let flushed = self.out.flush();
        if flushed.is_err() {
            self.has_failed = true;
        }
        flushed
    }
}
