//! Reads that may wait.
ghost use Rattle.std.specs.Prelude.{◌≡◌, [], IfOk, OnErr, OnOk, OnSome, Some, false, true};
ghost use Rattle.std.specs.Io.KnownBytes.{IsAtEnd, Keeps};
ghost use Rattle.mmdb_filter.specs.Lines.{AppendsFront};
ghost use Rattle.mmdb_filter.specs.Working.{IsPutFrom};

use crate::at_hand::READY;
use crate::filter::Progress;
use crate::live::Live;
use crate::put::put_ready;
use std::io::{self, ErrorKind, Write};

// Reads what comes, unless that is interrupted, and says whether the filter ends, and if so, whether at the input's end.
fn read_next<R: Live, P: Progress>(input: &mut R, progress: &mut P) -> io::Result<Option<bool>>
    ensures left { Keeps (R.remaining input.old) (R.remaining input.new) }
    ensures end { IfOk result (λ ended. ended ≡ Some true
        → OnSome (R.remaining input.old) (IsAtEnd (R.remaining input.new))) }
    ensures asked { IfOk result (λ ended. ended ≡ Some false → P.ends progress.new) }
{
    match input.fill_buf() {
        Ok(shown) if shown.is_empty() => Ok(Some(true)),
        Ok(_) if progress.has_read() => Ok(None),
        Ok(_) => Ok(Some(false)),
        Err(error) if error.kind() == ErrorKind::Interrupted => Ok(None),
        Err(error) => Err(error),
    }
}

// Writes out what is buffered, so that it is not held back while a read waits, and reads.
fn flush_and_read<R: Live, W: Write, P: Progress>(
    input: &mut R,
    out: &mut W,
    progress: &mut P,
) -> io::Result<Option<bool>>
    ensures left { Keeps (R.remaining input.old) (R.remaining input.new) }
    ensures written { Keeps (W.contents out.old) (W.contents out.new) }
    ensures end { IfOk result (λ ended. ended ≡ Some true
        → OnSome (R.remaining input.old) (IsAtEnd (R.remaining input.new))) }
    ensures asked { IfOk result (λ ended. ended ≡ Some false → P.ends progress.new) }
{
    out.flush()?;
    read_next(input, progress)
}

/// Writes what is ready, where that is much or all that was read is consumed. Then what comes is read, which may wait. Says
/// whether the filter ends, and if so, whether at the input's end.
pub(crate) fn refill<R: Live, W: Write, P: Progress>(
    input: &mut R,
    ready: &mut Vec<u8>,
    out: &mut W,
    progress: &mut P,
) -> io::Result<Option<bool>>
    ensures left { Keeps (R.remaining input.old) (R.remaining input.new) }
    ensures end { IfOk result (λ ended. ended ≡ Some true
        → OnSome (R.remaining input.old) (IsAtEnd (R.remaining input.new))) }
    ensures asked { IfOk result (λ ended. ended ≡ Some false → P.ends progress.new) }
    ensures put { OnOk result (IsPutFrom ready.old.items ready.new.items
        (W.contents out.old) (W.contents out.new)) }
    ensures begun { OnErr result
        (AppendsFront (W.contents out.old) (W.contents out.new) ready.old.items) }
    ensures none { OnErr result (ready.new.items ≡ []) }
{
    if !input.is_drained() && ready.len() < READY {
        return Ok(None);
    }
    put_ready(out, ready)?;
    if input.is_drained() {
        flush_and_read(input, out, progress)
    } else {
        Ok(None)
    }
}
