//! What is shown of pairs of records.
ghost use Rattle.std.specs.Prelude.{◌≡◌, ◌<◌, ◌^◌, IfOk, IfSome};
ghost use Rattle.mmdb_compare.specs.Kept.{IsKeptAs};
ghost use Rattle.mmdb_cmd_diff.specs.Showing.{IsNumberOf, IsShownFor};

use mmdb_cache::Cache;
use std::alloc::{AllocError, Global};
use std::marker::Model;

/// The most bytes of what is shown of a record of a pair that is kept.
const MOST_SHOWN: usize = 4096;

/// The number of no record.
const NO_RECORD: usize = u32::MAX as usize;

/// The values of a network in two databases as JSON.
#[derive(Drop)]
pub(crate) struct ShownPair {
    pub(crate) old: Vec<u8>,
    pub(crate) new: Vec<u8>,
}

/// What is shown of the pairs of two data sections that were shown last, by a number for each.
#[derive(Drop)]
pub(crate) struct ShownPairs<'r> {
    in_old: &'r [u8],
    in_new: &'r [u8],
    /// Whether whole records are shown.
    are_whole: bool,
    kept: Cache<ShownPair>,
    /// The pair that was compared last, where it differs: it is mostly shown next.
    last: Option<(usize, ShownPair)>,
}

impl<'r> Model for ShownPairs<'r> {
    ghost use Rattle.mmdb_compare.specs.Same.{Sections};
    ghost use Rattle.mmdb_cmd_diff.specs.Showing.{Showing, AreKeptFor};

    ghost Value = { Showing };

    ghost view = { λ p. record {
      are_whole = p.are_whole;
      sections = record { in_old = p.in_old.now; in_new = p.in_new.now };
    } };

    ghost invariant = { λ p. AreKeptFor (record {
      are_whole = p.are_whole;
      sections = record { in_old = p.in_old.now; in_new = p.in_new.now };
    }) p.kept p.last };
}

// The number by which a record is kept, unless its offset is too large.
#[inline(always)]
fn kept_number(offset: Option<usize>) -> Option<usize>
    ensures number { IfSome result (IsKeptAs offset) }
    ensures small { IfSome result (λ number. number < 2 ^ 32) }
{
    match offset {
        Some(offset) if offset < NO_RECORD => Some(offset),
        Some(_) => None,
        None => Some(NO_RECORD),
    }
}

/// The number of a pair of records, another one for each, unless an offset is too large.
#[inline(always)]
pub(crate) fn number_of(old: Option<usize>, new: Option<usize>) -> Option<usize>
    ensures { IfSome result (IsNumberOf old new) }
{
    let (old, new) = (kept_number(old)?, kept_number(new)?);
    Some(old + new * (1 << 32))
}

// The same texts once more.
fn copy_of(alloc: Global, shown: &ShownPair) -> Result<ShownPair, AllocError>
    ensures old { IfOk result (λ copy. copy.old.items ≡ shown.now.old.items) }
    ensures new { IfOk result (λ copy. copy.new.items ≡ shown.now.new.items) }
{
    Ok(ShownPair {
        old: shown.old.as_slice().to_vec(alloc)?,
        new: shown.new.as_slice().to_vec(alloc)?,
    })
}

// Whether texts may be kept.
fn are_short(shown: &ShownPair) -> bool {
    shown.old.len() <= MOST_SHOWN && shown.new.len() <= MOST_SHOWN
}

impl<'r> ShownPairs<'r> {
    /// None yet of two data sections, whose whole records are shown or not. At most `most` bytes are kept.
    pub(crate) fn new(
        alloc: Global,
        in_old: &'r [u8],
        in_new: &'r [u8],
        are_whole: bool,
        most: usize,
    ) -> ShownPairs<'r>
        ensures whole { result.are_whole ≡ are_whole }
        ensures old { result.sections.in_old ≡ in_old.now }
        ensures new { result.sections.in_new ≡ in_new.now }
    {
        ShownPairs {
            in_old,
            in_new,
            are_whole,
            kept: Cache::new(alloc, most),
            last: None,
        }
    }

    /// Lets go of all that is kept.
    pub(crate) fn clear(&mut self)
        ensures { self.new ≡ self.old }
    {
        self.kept.clear();
        self.last = None;
    }

    /// Keeps what is shown of the pair that was compared last, of any length.
    pub(crate) fn note_last(&mut self, number: usize, shown: ShownPair)
        requires { IsShownFor self.old number shown }
        ensures { self.new ≡ self.old }
    {
        self.last = Some((number, shown));
    }

    /// Lets go of what is shown of the pair that was compared last.
    pub(crate) fn forget_last(&mut self)
        ensures { self.new ≡ self.old }
    {
        self.last = None;
    }

    // Takes what is shown of a pair, if it was compared last.
    fn take_last(&mut self, number: usize) -> Option<ShownPair>
        ensures shown { IfSome result (IsShownFor self.old number) }
        ensures same { self.new ≡ self.old }
    {
        let (last, shown) = self.last.take()?;
        if last == number {
            return Some(shown);
        }
        None
    }

    // A copy of what is kept of a pair.
    fn copied(&self, alloc: Global, number: usize) -> Result<Option<ShownPair>, AllocError>
        ensures { IfOk result (λ kept. IfSome kept (IsShownFor self.now number)) }
    {
        let Some(shown) = self.kept.get(number) else {
            return Ok(None);
        };
        Ok(Some(copy_of(alloc, shown)?))
    }

    /// What is shown of a pair, if that is kept: what was compared last is handed out, of another one a copy. An `Err` is of
    /// memory.
    pub(crate) fn kept(
        &mut self,
        alloc: Global,
        number: usize,
    ) -> Result<Option<ShownPair>, AllocError>
        ensures shown { IfOk result (λ kept. IfSome kept (IsShownFor self.old number)) }
        ensures same { self.new ≡ self.old }
    {
        if let Some(shown) = self.take_last(number) {
            self.keep(alloc, number, &shown);
            return Ok(Some(shown));
        }
        self.copied(alloc, number)
    }

    /// Keeps what is shown of a pair, if it is short and there is memory.
    pub(crate) fn keep(&mut self, alloc: Global, number: usize, shown: &ShownPair)
        requires { IsShownFor self.old number shown.now }
        ensures { self.new ≡ self.old }
    {
        if !are_short(shown) {
            return;
        }
        let bytes = shown.old.len().saturating_add(shown.new.len());
        if let Ok(copy) = copy_of(alloc, shown) {
            self.kept.put(number, copy, bytes);
        }
    }
}
