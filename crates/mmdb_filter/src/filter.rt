//! The filter.
ghost use Rattle.std.specs.Prelude.{◌≡◌, ◌<◌, ◌≤◌, ◌-◌, ◌^◌, ◌++◌, [], List, ℕ, Bool, Option, IfOk, OnOk, OnErr, OnSome, true, false};
ghost use Rattle.std.specs.Io.KnownBytes.{IsAtEnd};
ghost use Rattle.mmdb_filter.specs.Counting.{total};
ghost use Rattle.mmdb_filter.specs.Lines.{MayAdd, StandsBehind, IsFiltered, IsBegun};
ghost use Rattle.mmdb_filter.specs.Working.{UnderWay, IsBegunWith};
ghost use Rattle.mmdb_filter.specs.declared.counts.Counts.{Counts as SpecCounts};
ghost use Rattle.mmdb_filter.specs.declared.counts.Outcome.{Outcome as SpecOutcome};

use crate::at_hand::{AtHand, pass_at_hand};
use crate::batch::Batch;
use crate::chunk::read_live;
use crate::counts::{Counts, Outcome};
use crate::live::Live;
use crate::pass::pass_chunks;
use crate::put::put_ready;
use crate::refill::refill;
use crate::rows::{RowPosition, Rows};
use crate::text::{MOST_BEHIND, seen, text_length};
use std::alloc::{AllocError, Global};
use std::io::{self, ErrorKind, Write};

/// What was added to a row.
#[derive(Clone, Copy)]
pub struct Added {
    /// How the row fares.
    pub outcome: Outcome,
    /// How many bytes of the row's text follow what is added.
    pub behind: usize,
}

/// What is added to rows.
pub trait Additions {
    /// What it remembers from row to row.
    type Memory: Drop;

    /// How many bytes of a text are seen at most, and what may be added to a row of which such a text is seen, without the
    /// row's end, where it may be that the text is longer; how many bytes of the text follow that; and how that row fares then.
    ghost adds: { Self → MayAdd };

    /// What is remembered is right.
    ghost fits: { Self → Self.Memory → Type 0 };

    /// How many bytes of a row's text are seen at most: [`MOST_SEEN`](crate::MOST_SEEN) or another number, of at most
    /// [`MOST_ASKED`](crate::MOST_ASKED). As much is held of a row.
    fn most_seen(&self) -> usize
        ensures most { result ≡ (adds self.now).most }
        ensures few { result ≤ 1048576 };

    /// Appends to `out` what is added to a row. Its text comes without its end. Of a long text only its first bytes come, as
    /// many as are seen, and `is_long` says so; what is added comes after all of it.
    fn add(
        &self,
        memory: &mut Self::Memory,
        text: &[u8],
        is_long: bool,
        out: &mut Vec<u8>,
    ) -> Result<Added, AllocError>
        requires { fits self.now memory.old }
        ensures added { IfOk result (λ addition. (extra : List ℕ)
            × (adds self.now).adds text.now is_long extra addition.behind addition.outcome
            × (out.new.items ≡ out.old.items ++ extra)) }
        ensures behind { IfOk result (λ addition. StandsBehind text.now is_long addition.behind) }
        ensures fits { fits self.now memory.new };

    /// What it may remember of the next bytes of the input, at which rows begin and of which the last one may be cut
    /// off. It is a hint: nothing that is added depends on it.
    fn foresee(&self, memory: &mut Self::Memory, bytes: &[u8])
        requires { fits self.now memory.old }
        ensures { fits self.now memory.new };
}

/// Who is asked whether a filter goes on.
pub trait Progress {
    /// It is asked that the filter ends.
    ghost ends: { Self → Type 0 };

    /// The rows that passed fared so. Whether the filter goes on; else it ends before the next row.
    fn passed(&mut self, counts: Counts) -> bool
        ensures { result ≡ false → ends self.new };

    /// The input was read, which may have waited. Whether the filter goes on; else it ends before the row that comes.
    fn has_read(&mut self) -> bool
        ensures { result ≡ false → ends self.new };

    /// The row after this many is between quotes where as many bytes of it are read as are held, or where the input ends.
    fn stays_quoted(&mut self, rows: u64, is_long: bool);

    /// The row after this many stays as it is: it has already what would be added, or it is too long.
    fn is_named(&mut self, rows: u64, outcome: Outcome);
}

/// Where a filter ended.
#[derive(Clone, Copy)]
pub struct Filtered {
    /// How the rows fared.
    pub counts: Counts,
    /// Whether that was the input's end; else it was asked to.
    pub is_end: bool,
}

/// After this many rows it is asked first whether the filter goes on.
const FIRST: u64 = 1_000;

/// Each time that this many more rows passed, it is asked again.
const STEP: u64 = 65_536;

// After how many rows it is asked next, where `passed` rows passed.
fn next_asked(passed: u64) -> u64 {
    if passed < FIRST {
        FIRST
    } else {
        (passed / STEP).saturating_add(1).saturating_mul(STEP)
    }
}

// Reads a row in chunks and passes it on, or says that there is none at the input's end. Nothing is ready before; then the
// row's last chunk is.
#[inline(never)]
fn pass_read<A: Additions, R: Live, W: Write, P: Progress>(
    rows: Rows,
    additions: &A,
    memory: &mut A::Memory,
    input: &mut R,
    batch: &mut Batch,
    out: &mut W,
    progress: &mut P,
) -> io::Result<bool>
    requires fits { A.fits additions.now memory.old }
    requires none { batch.old.ready.items ≡ [] }
    requires few { total batch.old.counts ≡ batch.old.passed }
    requires room { batch.old.passed < 2 ^ 64 - 1 }
    ensures on { IfOk result (λ is_row. (all old : Option (List ℕ)) (before : SpecCounts)
        → UnderWay rows (A.adds additions.now) all (R.remaining input.old)
        old (W.contents out.old) [] before batch.old.counts
        → UnderWay rows (A.adds additions.now) all (R.remaining input.new)
        old (W.contents out.new) batch.new.ready.items before batch.new.counts
        × (is_row ≡ false → OnSome all (IsAtEnd (R.remaining input.new)))) }
    ensures begun { OnErr result ((all old : Option (List ℕ)) (before : SpecCounts)
        → UnderWay rows (A.adds additions.now) all (R.remaining input.old)
        old (W.contents out.old) [] before batch.old.counts
        → IsBegun rows (A.adds additions.now) all old (W.contents out.new)) }
    ensures none { OnErr result (batch.new.ready.items ≡ []) }
    ensures few { OnOk result (total batch.new.counts ≡ batch.new.passed) }
    ensures fits { A.fits additions.now memory.new }
{
    batch.chunk.clear();
    let most = additions.most_seen();
    let held = most + MOST_BEHIND;
    let mut position = read_live(input, rows, RowPosition::Cell, held, &mut batch.chunk, out)?;
    if batch.chunk.is_empty() {
        return Ok(false);
    }
    batch.added.clear();
    let len = text_length(batch.chunk.as_slice());
    let (text, is_long) = seen(batch.chunk.as_slice(), len, most);
    let addition = additions.add(memory, text, is_long, &mut batch.added)?;
    let is_quoted = position == RowPosition::Quoted;
    pass_chunks(
        input,
        rows,
        &mut position,
        held,
        &mut batch.chunk,
        batch.added.as_slice(),
        addition.behind,
        &mut batch.ready,
        out,
    )?;
    if is_quoted || position == RowPosition::Quoted {
        progress.stays_quoted(batch.passed, is_quoted && is_long);
    }
    if addition.outcome.is_named() {
        progress.is_named(batch.passed, addition.outcome);
    }
    batch.counts.count(addition.outcome);
    batch.passed += 1;
    Ok(true)
}

// Passes rows until the input's end, or until it is asked to end, and says whether that was the input's end. What is still
// ready then is to be written, where an error came too.
fn pass_all<A: Additions, R: Live, W: Write, P: Progress>(
    rows: Rows,
    additions: &A,
    memory: &mut A::Memory,
    input: &mut R,
    batch: &mut Batch,
    out: &mut W,
    progress: &mut P,
) -> io::Result<bool>
    requires fits { A.fits additions.now memory.old }
    requires none { batch.old.ready.items ≡ [] }
    requires few { total batch.old.counts ≡ batch.old.passed }
    ensures way { OnOk result (UnderWay rows (A.adds additions.now)
        (R.remaining input.old) (R.remaining input.new) (W.contents out.old) (W.contents out.new)
        batch.new.ready.items batch.old.counts batch.new.counts) }
    ensures end { IfOk result (λ is_end. is_end ≡ true
        → OnSome (R.remaining input.old) (IsAtEnd (R.remaining input.new))) }
    ensures asked { IfOk result (λ is_end. is_end ≡ false → P.ends progress.new) }
    ensures begun { OnErr result (IsBegunWith rows (A.adds additions.now)
        (R.remaining input.old) (W.contents out.old) (W.contents out.new)
        batch.new.ready.items) }
    ensures fits { A.fits additions.now memory.new }
{
    let mut asked = next_asked(batch.passed);
    for _ in 0..u64::MAX {
        if batch.passed == u64::MAX {
            return Err(io::Error::from(ErrorKind::FileTooLarge));
        }
        if batch.passed == asked {
            asked = next_asked(batch.passed);
            if !progress.passed(batch.counts) {
                return Ok(false);
            }
        }
        if let Some(is_end) = refill(input, &mut batch.ready, out, progress)? {
            return Ok(is_end);
        }
        match pass_at_hand(rows, additions, memory, input, asked, batch, progress)? {
            AtHand::End => return Ok(true),
            AtHand::Rows => {}
            AtHand::Part => {
                put_ready(out, &mut batch.ready)?;
                if !pass_read(rows, additions, memory, input, batch, out, progress)? {
                    return Ok(true);
                }
            }
            AtHand::OutOfMemory => return Err(io::Error::from(ErrorKind::OutOfMemory)),
        }
    }
    Err(io::Error::from(ErrorKind::FileTooLarge))
}

/// Copies rows, with what is added to each before its last bytes, and counts how they fared, with those that were counted
/// before. It ends at the input's end, or before a row where it is asked to; then the rows that are left may be filtered
/// by another call, also with other additions. A last row without an end stays without. A long row passes in chunks. `out` is flushed before each
/// read of the input, which may wait, and not at the end.
///
/// An `Err` is of the input, the output or memory, or there are 2^64 - 1 rows; a beginning of that was written then. Memory for
/// as much as additions see of a row is taken at once.
pub fn filter_rows<A: Additions, R: Live, W: Write, P: Progress>(
    alloc: Global,
    rows: Rows,
    additions: &A,
    memory: &mut A::Memory,
    before: Counts,
    input: &mut R,
    out: &mut W,
    progress: &mut P,
) -> io::Result<Filtered>
    requires { A.fits additions.now memory.old }
    ensures whole { IfOk result (λ filtered. IsFiltered rows (A.adds additions.now)
        (R.remaining input.old) (R.remaining input.new)
        (W.contents out.old) (W.contents out.new) before filtered.counts) }
    ensures end { IfOk result (λ filtered. filtered.is_end ≡ true
        → OnSome (R.remaining input.old) (IsAtEnd (R.remaining input.new))) }
    ensures asked { IfOk result (λ filtered. filtered.is_end ≡ false → P.ends progress.new) }
    ensures begun { OnErr result (IsBegun rows (A.adds additions.now)
        (R.remaining input.old) (W.contents out.old) (W.contents out.new)) }
    ensures fits { A.fits additions.now memory.new }
{
    let Some(first) = before.total() else {
        return Err(io::Error::from(ErrorKind::FileTooLarge));
    };
    let mut batch = Batch::new(alloc, first, before, additions.most_seen())?;
    let done = pass_all(rows, additions, memory, input, &mut batch, out, progress);
    put_ready(out, &mut batch.ready)?;
    Ok(Filtered {
        counts: batch.counts,
        is_end: done?,
    })
}
