//! Rows that are read in chunks.
ghost use Rattle.std.specs.Prelude.{◌≡◌, ◌-◌, ◌<◌, ◌≤◌, [], OnOk, OnErr, length, take, drop};
ghost use Rattle.std.specs.Io.KnownBytes.{Appends};
ghost use Rattle.mmdb_filter.specs.Lines.{AppendsFront};
ghost use Rattle.mmdb_filter.specs.Working.{EndsWithInput, Passes, PassesFront};
ghost use Rattle.mmdb_filter.specs.declared.rows.RowPosition.TheVariants as spec_position;

use crate::chunk::read_live;
use crate::live::Live;
use crate::put::{append_row, put_all};
use crate::rows::{RowPosition, Rows};
use crate::text::text_length;
use std::io::{self, ErrorKind, Write};

// Writes all of a chunk but the last two bytes, in which the row's end may begin, and keeps those.
#[inline(never)]
fn put_front<W: Write>(out: &mut W, chunk: &mut Vec<u8>) -> io::Result<()>
    requires { 2 ≤ length chunk.old.items }
    ensures whole { OnOk result (Appends (W.contents out.old) (W.contents out.new)
        (take (length chunk.old.items - 2) chunk.old.items)) }
    ensures kept { OnOk result (chunk.new.items
        ≡ drop (length chunk.old.items - 2) chunk.old.items) }
    ensures begun { OnErr result (AppendsFront (W.contents out.old) (W.contents out.new)
        (take (length chunk.old.items - 2) chunk.old.items)) }
{
    let (front, back) = chunk.as_slice().split_at(chunk.len() - 2);
    put_all(out, front)?;
    let kept = [back[0], back[1]];
    chunk.clear();
    chunk.extend_from_slice(&kept)?;
    Ok(())
}

/// Passes a row, of which the first chunk was read, as many bytes as are held or all, with what is added before its end and
/// `behind` bytes of its text: none, where the row is longer. What is before its last chunk is written, and the rest is
/// ready. The position is then after the row.
#[inline(never)]
pub(crate) fn pass_chunks<R: Live, W: Write>(
    input: &mut R,
    rows: Rows,
    position: &mut RowPosition,
    held: usize,
    chunk: &mut Vec<u8>,
    added: &[u8],
    behind: usize,
    ready: &mut Vec<u8>,
    out: &mut W,
) -> io::Result<()>
    requires front { held ≤ length chunk.old.items → behind ≡ 0 }
    requires some { 2 ≤ held }
    requires none { ready.old.items ≡ [] }
    ensures whole { EndsWithInput held position.old chunk.old.items (R.remaining input.old)
        → OnOk result (Passes rows position.old chunk.old.items added.now behind
        (R.remaining input.old) (R.remaining input.new) (W.contents out.old) (W.contents out.new)
        ready.new.items) }
    ensures begun { EndsWithInput held position.old chunk.old.items (R.remaining input.old)
        → OnErr result (PassesFront rows position.old chunk.old.items added.now behind
        (R.remaining input.old) (W.contents out.old) (W.contents out.new)) }
    ensures none { OnErr result (ready.new.items ≡ []) }
{
    let mut now = *position;
    for _ in 0..u64::MAX {
        if now == RowPosition::Ended || chunk.len() < held {
            let len = text_length(chunk.as_slice());
            append_row(ready, chunk.as_slice(), len, added, behind)?;
            return Ok(());
        }
        put_front(out, chunk)?;
        now = read_live(input, rows, now, held, chunk, out)?;
        *position = now;
    }
    Err(io::Error::from(ErrorKind::FileTooLarge))
}
