//! Rows that are whole in what an input has at hand.
ghost use Rattle.std.specs.Prelude.{◌≡◌, ◌≢◌, ◌+◌, ◌<◌, ◌≤◌, ◌++◌, ◌^◌, List, ℕ, Option, OnErr, OnOk, OnSome, IfOk, IfSome, length, take, drop};
ghost use Rattle.std.specs.Io.KnownBytes.{Keeps, IsAtEnd};
ghost use Rattle.mmdb_filter.specs.Counting.{total};
ghost use Rattle.mmdb_filter.specs.Lines.{IsAdded, row_with};
ghost use Rattle.mmdb_filter.specs.Rows.{Goes};
ghost use Rattle.mmdb_filter.specs.Working.{GoOn, UnderWay};
ghost use Rattle.mmdb_filter.specs.declared.counts.Counts.{Counts as SpecCounts};
ghost use Rattle.mmdb_filter.specs.declared.at_hand.AtHand.TheVariants as spec_at_hand;
ghost use Rattle.mmdb_filter.specs.declared.rows.RowPosition.TheVariants.{Cell, Ended};

use crate::batch::Batch;
use crate::chunk::CHUNK;
use crate::counts::Outcome;
use crate::filter::{Additions, Progress};
use crate::put::append_row;
use crate::rows::{RowPosition, Rows, scan};
use crate::text::{seen, text_length};
use std::alloc::AllocError;
use std::io::{self, BufRead, ErrorKind};

/// What is ready is written when it has this many bytes, or before a read. It is more than what 64 KiB at hand mostly become,
/// so that they go out in one write, and a buffered output of fewer bytes hands that on with no copy.
pub(crate) const READY: usize = 114_688;

/// Room for what is ready: most rows begin before its end and end within this.
pub(crate) const ROOM: usize = READY + 8_192;

/// After this many rows additions are shown what comes.
const AHEAD: u64 = 64;

/// What an input had at hand.
#[derive(Clone, Copy, PartialEq, Eq)]
pub(crate) enum AtHand {
    /// Nothing: it is at its end.
    End,
    /// Whole rows. Some passed.
    Rows,
    /// No whole row.
    Part,
    /// A row for which memory ran out. Rows before it may have passed.
    OutOfMemory,
}

/// What was taken of bytes at hand.
#[derive(Clone, Copy)]
struct TakenAtHand {
    /// How many bytes of them passed.
    bytes: usize,
    at_hand: AtHand,
}

// How long the row is that is first in some bytes, where it is whole in them and is no longer than a chunk.
#[inline(always)]
fn whole_row(rows: Rows, bytes: &[u8]) -> Option<usize>
    ensures some { IfSome result (λ n. 0 < n) }
    ensures within { IfSome result (λ n. n ≤ length bytes.now) }
    ensures goes { IfSome result (λ n. (ys : List ℕ) → Goes rows Cell (bytes.now ++ ys)
        (take n bytes.now) Ended (drop n bytes.now ++ ys)) }
{
    if bytes.is_empty() {
        return None;
    }
    let (len, next) = scan(rows, RowPosition::Cell, bytes);
    if next == RowPosition::Ended && len <= CHUNK {
        Some(len)
    } else {
        None
    }
}

// Appends a row to what is ready, with what is added to it, and says how it fares; nothing where memory runs out.
#[inline(always)]
fn pass_row<A: Additions>(
    additions: &A,
    memory: &mut A::Memory,
    row: &[u8],
    added: &mut Vec<u8>,
    ready: &mut Vec<u8>,
) -> Result<Outcome, AllocError>
    requires { A.fits additions.now memory.old }
    ensures added { IfOk result (λ outcome. (extra : List ℕ) × (behind : ℕ)
        × IsAdded (A.adds additions.now) row.now extra behind outcome
        × (ready.new.items ≡ ready.old.items ++ row_with row.now extra behind)) }
    ensures none { OnErr result (ready.new.items ≡ ready.old.items) }
    ensures fits { A.fits additions.now memory.new }
{
    added.clear();
    let len = text_length(row);
    let (text, is_long) = seen(row, len, additions.most_seen());
    let addition = additions.add(memory, text, is_long, added)?;
    append_row(ready, row, len, added.as_slice(), addition.behind)?;
    Ok(addition.outcome)
}

// Passes the first rows of some bytes that are whole in them, until a given number passed in all or much is ready.
#[inline(never)]
fn pass_rows<A: Additions, P: Progress>(
    rows: Rows,
    additions: &A,
    memory: &mut A::Memory,
    bytes: &[u8],
    until: u64,
    batch: &mut Batch,
    progress: &mut P,
) -> TakenAtHand
    requires fits { A.fits additions.now memory.old }
    requires few { total batch.old.counts ≡ batch.old.passed }
    ensures within { result.bytes ≤ length bytes.now }
    ensures on { GoOn rows (A.adds additions.now) bytes.now result.bytes
        batch.old.ready.items batch.new.ready.items batch.old.counts batch.new.counts }
    ensures part { result.at_hand ≡ spec_at_hand.Part → batch.new.passed ≡ batch.old.passed }
    ensures no_end { result.at_hand ≢ spec_at_hand.End }
    ensures few { total batch.new.counts ≡ batch.new.passed }
    ensures fits { A.fits additions.now memory.new }
{
    let mut at = 0;
    for passed in batch.passed..until {
        let rest = &bytes[at..];
        if batch.ready.len() >= READY {
            return TakenAtHand {
                bytes: at,
                at_hand: AtHand::Rows,
            };
        }
        if passed % AHEAD == 0 {
            additions.foresee(memory, rest);
        }
        let Some(len) = whole_row(rows, rest) else {
            return TakenAtHand {
                bytes: at,
                at_hand: if at > 0 { AtHand::Rows } else { AtHand::Part },
            };
        };
        let row = &rest[..len];
        let Ok(outcome) = pass_row(additions, memory, row, &mut batch.added, &mut batch.ready)
        else {
            return TakenAtHand {
                bytes: at,
                at_hand: AtHand::OutOfMemory,
            };
        };
        if outcome.is_named() {
            progress.is_named(passed, outcome);
        }
        batch.counts.count(outcome);
        batch.passed = passed + 1;
        at += len;
    }
    TakenAtHand {
        bytes: at,
        at_hand: AtHand::Rows,
    }
}

/// Passes the rows that are whole in what an input has at hand, until a given number passed in all or much is ready. It reads
/// where nothing is at hand.
#[inline(never)]
pub(crate) fn pass_at_hand<A: Additions, R: BufRead, P: Progress>(
    rows: Rows,
    additions: &A,
    memory: &mut A::Memory,
    input: &mut R,
    until: u64,
    batch: &mut Batch,
    progress: &mut P,
) -> io::Result<AtHand>
    requires fits { A.fits additions.now memory.old }
    requires few { total batch.old.counts ≡ batch.old.passed }
    ensures way { OnOk result ((all old now : Option (List ℕ)) (before : SpecCounts)
        → UnderWay rows (A.adds additions.now) all (R.remaining input.old) old now
        batch.old.ready.items before batch.old.counts
        → UnderWay rows (A.adds additions.now) all (R.remaining input.new) old now
        batch.new.ready.items before batch.new.counts) }
    ensures end { IfOk result (λ at_hand. at_hand ≡ spec_at_hand.End
        → OnSome (R.remaining input.old) (IsAtEnd (R.remaining input.new))) }
    ensures part { IfOk result (λ at_hand. at_hand ≡ spec_at_hand.Part
        → batch.new.passed ≡ batch.old.passed) }
    ensures none { OnErr result (batch.new ≡ batch.old) }
    ensures few { total batch.new.counts ≡ batch.new.passed }
    ensures fits { A.fits additions.now memory.new }
{
    let shown = match input.fill_buf() {
        Ok(shown) => shown,
        Err(error) => {
            return if error.kind() == ErrorKind::Interrupted {
                Ok(AtHand::Part)
            } else {
                Err(error)
            };
        }
    };
    if shown.is_empty() {
        return Ok(AtHand::End);
    }
    let taken = pass_rows(rows, additions, memory, shown, until, batch, progress);
    input.consume(taken.bytes);
    Ok(taken.at_hand)
}
