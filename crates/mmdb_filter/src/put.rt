//! Writing all of a text.
ghost use Rattle.std.specs.Prelude.{◌≡◌, ◌≤◌, ◌++◌, [], OnOk, OnErr, length};
ghost use Rattle.std.specs.Io.KnownBytes.{Appends};
ghost use Rattle.std.specs.Io.{StartsWith};
ghost use Rattle.mmdb_filter.specs.Lines.{AppendsFront, row_with, text_length as spec_text_length};

use std::alloc::AllocError;
use std::io::{self, ErrorKind, Write};

/// Writes all of the bytes, in as many writes as that takes. An interrupted write goes on.
#[inline(never)]
pub(crate) fn put_all<W: Write>(out: &mut W, bytes: &[u8]) -> io::Result<()>
    ensures whole { OnOk result (Appends (W.contents out.old) (W.contents out.new) bytes.now) }
    ensures begun { OnErr result
        (AppendsFront (W.contents out.old) (W.contents out.new) bytes.now) }
{
    let mut rest = bytes;
    for _ in 0..u64::MAX {
        if rest.is_empty() {
            return Ok(());
        }
        match out.write(rest) {
            Ok(0) => return Err(io::Error::from(ErrorKind::WriteZero)),
            Ok(n) => rest = &rest[n..],
            Err(error) => {
                if error.kind() != ErrorKind::Interrupted {
                    return Err(error);
                }
            }
        }
    }
    Err(io::Error::from(ErrorKind::TimedOut))
}

/// Writes what is ready. Nothing of it is ready then, whether all of it was written or not.
pub(crate) fn put_ready<W: Write>(out: &mut W, ready: &mut Vec<u8>) -> io::Result<()>
    ensures whole { OnOk result
        (Appends (W.contents out.old) (W.contents out.new) ready.old.items) }
    ensures begun { OnErr result
        (AppendsFront (W.contents out.old) (W.contents out.new) ready.old.items) }
    ensures none { ready.new.items ≡ [] }
{
    let put = put_all(out, ready.as_slice());
    ready.clear();
    put
}

// Appends three texts, one after the other. Some of them may be there where memory runs out.
#[inline(always)]
fn append_three(
    ready: &mut Vec<u8>,
    first: &[u8],
    second: &[u8],
    third: &[u8],
) -> Result<(), AllocError>
    ensures whole { OnOk result
        (ready.new.items ≡ ready.old.items ++ (first.now ++ (second.now ++ third.now))) }
    ensures front { StartsWith ready.new.items ready.old.items }
{
    ready.extend_from_slice(first)?;
    ready.extend_from_slice(second)?;
    ready.extend_from_slice(third)
}

/// Appends a row whose text has `len` bytes, with what is added before its end and `behind` bytes of its text, or nothing
/// where memory runs out.
#[inline(always)]
pub(crate) fn append_row(
    ready: &mut Vec<u8>,
    row: &[u8],
    len: usize,
    added: &[u8],
    behind: usize,
) -> Result<(), AllocError>
    requires text { len ≡ spec_text_length row.now }
    requires within { len ≤ length row.now }
    ensures whole { OnOk result
        (ready.new.items ≡ ready.old.items ++ row_with row.now added.now behind) }
    ensures none { OnErr result (ready.new.items ≡ ready.old.items) }
{
    let before = ready.len();
    let (front, back) = row.split_at(len.saturating_sub(behind));
    let appended = append_three(ready, front, added, back);
    if appended.is_err() {
        ready.truncate(before);
    }
    appended
}
