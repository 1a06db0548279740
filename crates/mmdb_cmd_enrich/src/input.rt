//! Standard input, as rows are read from it.
ghost use Rattle.std.specs.Prelude.{◌≡◌, ◌≤◌, IfOk, IfSome, OnOk, OnSome, true};
ghost use Rattle.std.specs.Io.KnownBytes.{Keeps};
ghost use Rattle.mmdb_cmd_enrich.specs.Mark.{IsMarkCopied, begins_with};

use crate::output::put;
use mmdb_console::ProgramError;
use mmdb_filter::Live;
use std::cell::Cell;
use std::io::{self, BufRead, ErrorKind, Read, Write};
use std::rt::Files;

/// What some texts in UTF-8 begin with, before the first row.
const MARK: &[u8] = b"\xef\xbb\xbf";

// Whether the next byte of an input is this one.
fn is_next<I: BufRead>(input: &mut I, byte: u8) -> io::Result<bool>
    ensures next { IfOk result (λ is_next. IfSome (I.remaining input.old)
        (λ xs. is_next ≡ begins_with byte xs)) }
    ensures kept { Keeps (I.remaining input.old) (I.remaining input.new) }
    ensures shown { IfOk result (λ is_next. OnSome (I.remaining input.old)
        (is_next ≡ true → IfSome (I.consumable_len input.new) (λ shown. 1 ≤ shown))) }
{
    for _ in 0..u64::MAX {
        match input.fill_buf() {
            Ok(shown) => return Ok(shown.first() == Some(&byte)),
            Err(error) if error.kind() != ErrorKind::Interrupted => return Err(error),
            Err(_) => {}
        }
    }
    Err(io::Error::from(ErrorKind::TimedOut))
}

/// Copies the mark that an input may begin with, so that it is no part of the first row, however its bytes come. Bytes that
/// begin as the mark does and go on otherwise are copied too: no address begins so.
pub(crate) fn copy_mark<I: BufRead, O: Write>(
    input: &mut I,
    out: &mut O,
) -> Result<(), ProgramError>
    ensures { OnOk result (IsMarkCopied
        (I.remaining input.old) (I.remaining input.new) (O.contents out.old) (O.contents out.new)) }
{
    for byte in MARK {
        if !is_next(input, *byte)? {
            return Ok(());
        }
        input.consume(1);
        put(&[*byte], out)?;
    }
    Ok(())
}

/// What is known of standard input.
#[derive(Clone, Copy)]
pub(crate) struct InputKind {
    /// Whether its next bytes may be long in coming, as those of a pipe or a terminal and not of a file.
    pub(crate) is_live: bool,
    /// How many bytes it has, where it is a file.
    pub(crate) size: Option<u64>,
}

/// What standard input is.
pub(crate) fn kind_of_input<R: Files>(rt: &R) -> InputKind {
    match rt.metadata("/dev/stdin") {
        Ok(metadata) if metadata.is_file() => InputKind {
            is_live: false,
            size: Some(metadata.len()),
        },
        _ => InputKind {
            is_live: true,
            size: None,
        },
    }
}

/// An input whose bytes are counted as they are taken.
#[derive(Drop)]
pub(crate) struct Counted<'i, I: Live> {
    pub(crate) input: &'i mut I,
    pub(crate) bytes: &'i Cell<u64>,
}

impl<'i, I: Live> Counted<'i, I> {
    #[inline(always)]
    fn count(&self, amount: usize) {
        self.bytes.set(self.bytes.get().wrapping_add(amount as u64));
    }
}

impl<'i, I: Live> Read for Counted<'i, I> {
    ghost remaining = { λ counted. I.remaining counted.input.now };

    fn read(&mut self, buf: &mut [u8]) -> io::Result<usize> {
        let amount = self.input.read(buf)?;
        self.count(amount);
        Ok(amount)
    }
}

impl<'i, I: Live> BufRead for Counted<'i, I> {
    ghost consumable_len = { λ counted. I.consumable_len counted.input.now };

    #[inline(always)]
    fn fill_buf(&mut self) -> io::Result<&[u8]> {
        self.input.fill_buf()
    }

    #[inline(always)]
    fn consume(&mut self, amount: usize) {
        self.count(amount);
        self.input.consume(amount);
    }
}

impl<'i, I: Live> Live for Counted<'i, I> {
    #[inline(always)]
    fn is_drained(&self) -> bool {
        self.input.is_drained()
    }
}
