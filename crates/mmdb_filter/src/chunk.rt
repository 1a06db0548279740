//! Rows in chunks.
ghost use Rattle.std.specs.Prelude.{◌≡◌, ◌≢◌, ◌<◌, Ok, None, IfOk, IfSome, OnSome, length};
ghost use Rattle.std.specs.Io.KnownBytes.{Keeps, IsAtEnd};
ghost use Rattle.mmdb_filter.specs.Rows.{GrowsAlong};
ghost use Rattle.mmdb_filter.specs.declared.rows.RowPosition.TheVariants as spec_position;

use crate::live::Live;
use crate::rows::{RowPosition, Rows, scan};
use std::io::{self, BufRead, ErrorKind, Write};

/// How many bytes of a row are mostly held.
pub(crate) const CHUNK: usize = 65_539;

// Appends what the input has at hand of a row, as far as so many bytes are held, or nothing where it was interrupted.
#[inline(always)]
fn read_some<R: BufRead>(
    input: &mut R,
    rows: Rows,
    position: RowPosition,
    held: usize,
    chunk: &mut Vec<u8>,
) -> io::Result<Option<RowPosition>>
    requires { position ≢ spec_position.Ended }
    ensures interrupted { result ≡ Ok None → Keeps (R.remaining input.old) (R.remaining input.new)
        × (chunk.new.items ≡ chunk.old.items) }
    ensures leads { IfOk result (λ read. IfSome read (λ next.
        GrowsAlong rows position next chunk.old.items chunk.new.items
        (R.remaining input.old) (R.remaining input.new))) }
    ensures end { IfOk result (λ read. IfSome read (λ next. length chunk.old.items < held
        → length chunk.new.items ≡ length chunk.old.items
        → OnSome (R.remaining input.old) (IsAtEnd (R.remaining input.new)))) }
{
    let shown = match input.fill_buf() {
        Ok(shown) => shown,
        Err(error) => {
            return if error.kind() == ErrorKind::Interrupted {
                Ok(None)
            } else {
                Err(error)
            };
        }
    };
    let room = held.saturating_sub(chunk.len()).min(shown.len());
    let (len, next) = scan(rows, position, &shown[..room]);
    chunk.extend_from_slice(&shown[..len])?;
    input.consume(len);
    Ok(Some(next))
}

/// Appends bytes of a row from a position in it, up to its end or until there are 65,539, and says the position after
/// them. It is inlined: an `io::Result` is large, and expensive to hand back for each row.
#[inline(always)]
pub fn read_chunk<R: BufRead>(
    input: &mut R,
    rows: Rows,
    position: RowPosition,
    chunk: &mut Vec<u8>,
) -> io::Result<RowPosition>
    ensures leads { IfOk result (λ next.
        GrowsAlong rows position next chunk.old.items chunk.new.items
        (R.remaining input.old) (R.remaining input.new)) }
    ensures end { IfOk result (λ next. next ≢ spec_position.Ended
        → length chunk.new.items < 65539
        → OnSome (R.remaining input.old) (IsAtEnd (R.remaining input.new))) }
{
    let mut now = position;
    for _ in 0..u64::MAX {
        let before = chunk.len();
        if now == RowPosition::Ended || before >= CHUNK {
            return Ok(now);
        }
        if let Some(next) = read_some(input, rows, now, CHUNK, chunk)? {
            now = next;
            if chunk.len() == before {
                return Ok(now);
            }
        }
    }
    Err(io::Error::from(ErrorKind::TimedOut))
}

/// The same until there are as many bytes as are held, and what is written to `out` is written out before each read of the
/// input, which may wait.
#[inline(never)]
pub(crate) fn read_live<R: Live, W: Write>(
    input: &mut R,
    rows: Rows,
    position: RowPosition,
    held: usize,
    chunk: &mut Vec<u8>,
    out: &mut W,
) -> io::Result<RowPosition>
    ensures leads { IfOk result (λ next.
        GrowsAlong rows position next chunk.old.items chunk.new.items
        (R.remaining input.old) (R.remaining input.new)) }
    ensures end { IfOk result (λ next. next ≢ spec_position.Ended
        → length chunk.new.items < held
        → OnSome (R.remaining input.old) (IsAtEnd (R.remaining input.new))) }
    ensures kept { Keeps (W.contents out.old) (W.contents out.new) }
{
    let mut now = position;
    for _ in 0..u64::MAX {
        let before = chunk.len();
        if now == RowPosition::Ended || before >= held {
            return Ok(now);
        }
        if input.is_drained() {
            out.flush()?;
        }
        if let Some(next) = read_some(input, rows, now, held, chunk)? {
            now = next;
            if chunk.len() == before {
                return Ok(now);
            }
        }
    }
    Err(io::Error::from(ErrorKind::TimedOut))
}
