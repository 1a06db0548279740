//! Which networks are chosen.
ghost use Rattle.std.specs.Prelude.{◌≡◌, ◌<◌, ℕ, List, Option, Bool, true, Some, IfOk, IfErr, IfSome};
ghost use Rattle.std.specs.List.{All};
ghost use Rattle.mmdb_format.specs.Error.{MemoryApart};
ghost use Rattle.mmdb_query.specs.Kept.{IsOfNone, IsFresh, ChoiceFits};

use crate::answer::Answer;
use mmdb_cache::{CacheKey, CacheTable, Memo};
use mmdb_reader::MaxMindDbError;
use std::alloc::Global;
use std::mem;

/// What is asked of the records of a network.
pub trait Conditions {
    /// A Bool says whether the records at these offsets of data sections meet all conditions.
    ghost says: { Self → List (List ℕ) → List (Option ℕ) → Bool → Type 0 };

    /// That can't be read.
    ghost is_unread: { Self → List (List ℕ) → List (Option ℕ) → Type 0 };

    /// Whether there are none, so that all networks are chosen.
    fn are_none(&self) -> bool
        ensures { result ≡ true → (s : List (List ℕ)) (offsets : List (Option ℕ))
            → says self.now s offsets true };

    /// Whether all conditions are met. Fails, unless out of memory, where that can't be read.
    fn are_met<A: Answer>(&self, alloc: Global, answer: &A) -> Result<bool, MaxMindDbError>
        ensures met { IfOk result
            (says self.now (A.sections answer.now) (A.had answer.now).offsets) }
        ensures unread { IfErr result (λ e. MemoryApart e
            (is_unread self.now (A.sections answer.now) (A.had answer.now).offsets)) };
}

/// How many sets of answers are kept.
const SETS: usize = 1 << 16;

/// The number of no records.
const NO_NUMBER: u64 = u64::MAX;

/// The number of records, by which an answer is kept.
#[derive(Clone, Copy)]
pub struct RecordKey {
    number: u64,
}

impl CacheKey for RecordKey {
    #[inline(always)]
    fn number(self) -> u64 {
        self.number
    }

    #[inline(always)]
    fn is(self, other: RecordKey) -> bool {
        self.number == other.number
    }
}

/// The choice of networks that meet all conditions. Many share their records, so the last answers are kept by the records'
/// number.
#[derive(Drop)]
pub struct Choice<'a, C: Conditions> {
    alloc: Global,
    pub(crate) conditions: &'a C,
    are_none: bool,
    /// Whether answers are kept.
    is_kept: bool,
    pub(crate) kept: CacheTable<RecordKey, bool, SETS>,
}

// What an answer is kept by, unless its number is too large.
#[inline(always)]
fn kept_key(key: Option<usize>) -> Option<RecordKey>
    ensures { IfSome result
        (λ kept. (key ≡ Some kept.number) × (kept.number < 18446744073709551615)) }
{
    match key {
        Some(key) if (key as u64) < NO_NUMBER => Some(RecordKey { number: key as u64 }),
        _ => None,
    }
}

// No answers, and none is kept where there is no memory for that.
fn no_answers(alloc: Global) -> CacheTable<RecordKey, bool, SETS>
    ensures { All IsOfNone result }
{
    let none = Memo {
        key: RecordKey { number: NO_NUMBER },
        value: false,
    };
    match CacheTable::new(alloc, none) {
        Ok(kept) => kept,
        Err(_) => CacheTable::without_memory(alloc),
    }
}

impl<'a, C: Conditions> Choice<'a, C> {
    /// By these conditions. All its memory is taken here, as far as there is enough, and none where there are no conditions.
    pub fn new(alloc: Global, conditions: &'a C) -> Choice<'a, C>
        ensures conditions { result.conditions.now ≡ conditions.now }
        ensures fresh { IsFresh C.says result }
    {
        let are_none = conditions.are_none();
        let kept = if are_none {
            CacheTable::without_memory(alloc)
        } else {
            no_answers(alloc)
        };
        Choice {
            alloc,
            conditions,
            are_none,
            is_kept: !are_none,
            kept,
        }
    }

    /// Keeps no answers from here on. Whether it kept some.
    pub(crate) fn drop_kept(&mut self) -> bool
        ensures fits { (s : List (List ℕ)) → ChoiceFits C.says s self.old
            → ChoiceFits C.says s self.new }
        ensures same { self.new.conditions.now ≡ self.old.conditions.now }
    {
        self.kept = CacheTable::without_memory(self.alloc);
        mem::replace(&mut self.is_kept, false)
    }

    /// What was answered for the same records, where that is kept.
    #[inline(always)]
    pub(crate) fn kept<A: Answer>(&self, answer: &A) -> Option<bool>
        requires { ChoiceFits C.says (A.sections answer.now) self.now }
        ensures { IfSome result
            (C.says self.now.conditions.now (A.sections answer.now) (A.had answer.now).offsets) }
    {
        if self.are_none {
            return Some(true);
        }
        self.kept.get(kept_key(answer.key())?)
    }

    // Keeps what was answered, unless the records' number is too large.
    fn keep<A: Answer>(&mut self, answer: &A, is_chosen: bool)
        requires says { C.says self.old.conditions.now (A.sections answer.now)
            (A.had answer.now).offsets is_chosen }
        requires fits { ChoiceFits C.says (A.sections answer.now) self.old }
        ensures fits { ChoiceFits C.says (A.sections answer.now) self.new }
        ensures same { self.new.conditions.now ≡ self.old.conditions.now }
    {
        if let Some(key) = kept_key(answer.key()) {
            self.kept.put(key, is_chosen);
        }
    }

    // Answers anew, and keeps the answer.
    #[inline(never)]
    fn answer<A: Answer>(&mut self, answer: &A) -> Result<bool, MaxMindDbError>
        requires { ChoiceFits C.says (A.sections answer.now) self.old }
        ensures met { IfOk result
            (C.says self.old.conditions.now (A.sections answer.now) (A.had answer.now).offsets) }
        ensures unread { IfErr result (λ e. MemoryApart e
            (C.is_unread self.old.conditions.now (A.sections answer.now)
            (A.had answer.now).offsets)) }
        ensures fits { ChoiceFits C.says (A.sections answer.now) self.new }
        ensures same { self.new.conditions.now ≡ self.old.conditions.now }
    {
        let is_chosen = self.conditions.are_met(self.alloc, answer)?;
        self.keep(answer, is_chosen);
        Ok(is_chosen)
    }

    /// Whether a network is chosen. Fails, unless out of memory, where what a condition is on can't be read.
    #[inline(always)]
    pub fn chooses<A: Answer>(&mut self, answer: &A) -> Result<bool, MaxMindDbError>
        requires { ChoiceFits C.says (A.sections answer.now) self.old }
        ensures says { IfOk result
            (C.says self.old.conditions.now (A.sections answer.now) (A.had answer.now).offsets) }
        ensures unread { IfErr result (λ e. MemoryApart e
            (C.is_unread self.old.conditions.now (A.sections answer.now)
            (A.had answer.now).offsets)) }
        ensures fits { ChoiceFits C.says (A.sections answer.now) self.new }
        ensures same { self.new.conditions.now ≡ self.old.conditions.now }
    {
        match self.kept(answer) {
            Some(is_chosen) => Ok(is_chosen),
            None => self.answer(answer),
        }
    }
}
