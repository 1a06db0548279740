//! The chosen networks of a walk, given to a sink one by one.
ghost use Rattle.std.specs.Prelude.{◌≡◌, ◌≤◌, ◌+◌, ℕ, List, [], false, IfOk, IfErr, length};
ghost use Rattle.std.specs.Io.KnownBytes.{Appends};
ghost use Rattle.mmdb_query.specs.Ends.{IsOfOutput, Leaves, left_of, StopsBy};
ghost use Rattle.mmdb_query.specs.Kept.{ChoiceFits};
ghost use Rattle.mmdb_query.specs.Walks.{Goes};
ghost use Rattle.mmdb_query.specs.Walks.Item.{Found};
ghost use Rattle.mmdb_query.specs.Taking.{asks, Takes};
ghost use Rattle.mmdb_query.specs.Steps.{TakesKnown, IsPut, PutsStep, IsTried, FitsOf, FitsStill, is_memory as spec_is_memory};

use crate::answer::Answer;
use crate::choice::{Choice, Conditions};
use crate::error::{Fault, Faults, QueryError, is_memory, report};
use crate::sink::Sink;
use crate::walk::Walk;
use mmdb_reader::MaxMindDbError;
use std::alloc::Global;
use std::io::Write;

/// After so many networks it is said how many passed.
const STEP: u64 = 1 << 16;

// Says now and then how many networks passed.
#[inline(always)]
fn tell<F: Faults>(passed: u64, faults: &mut F) {
    if passed % STEP == 0 {
        faults.passed(passed);
    }
}

// Drops all that is kept to be faster. Whether that may free memory.
#[cold]
#[inline(never)]
fn drop_kept<S: Sink, C: Conditions>(choice: &mut Choice<'_, C>, sink: &mut S) -> bool
    ensures choice { FitsStill (ChoiceFits C.says) choice.old choice.new }
    ensures same { choice.new.conditions.now ≡ choice.old.conditions.now }
    ensures sink { FitsStill S.fits sink.old sink.new }
    ensures form { S.form sink.new ≡ S.form sink.old }
    ensures took { S.took sink.new ≡ S.took sink.old }
{
    let was_kept = choice.drop_kept();
    sink.drop_caches() || was_kept
}

// Reports what can't be read, and says that it is one. Where there is no memory for that, what a sink keeps is
// dropped, and it is tried once more: nothing was reported.
#[cold]
#[inline(never)]
fn report_of<A: Answer, S: Sink, O: Write, F: Faults>(
    sink: &mut S,
    fault: &Fault<'_, A>,
    error: &MaxMindDbError,
    out: &mut O,
    faults: &mut F,
) -> Result<u64, QueryError>
    ensures one { IfOk result (λ fault. (fault ≡ 1) × (spec_is_memory error.now ≡ false)) }
    ensures out { Appends (O.contents out.old) (O.contents out.new) [] }
    ensures failed { IfErr result IsOfOutput }
    ensures sink { FitsStill S.fits sink.old sink.new }
    ensures form { S.form sink.new ≡ S.form sink.old }
    ensures took { S.took sink.new ≡ S.took sink.old }
{
    match report(fault, error, out, faults) {
        Err(QueryError::Memory) if !is_memory(error) && sink.drop_caches() => {
            report(fault, error, out, faults)
        }
        done => done,
    }
}

// Gives a network to a sink at once, where it is known to be chosen and all that this needs is at hand; or leaves it out, where
// it is known not to be. Whether that was done. Most go this way, which makes no error but the output's.
#[inline(always)]
fn put_known<A: Answer, S: Sink, C: Conditions, O: Write>(
    choice: &Choice<'_, C>,
    sink: &mut S,
    answer: &A,
    out: &mut O,
) -> Result<bool, QueryError>
    requires choice { ChoiceFits C.says (A.sections answer.now) choice.now }
    requires sink { S.fits (A.sections answer.now) sink.old }
    ensures put { IfOk result (λ is_done. TakesKnown
        (asks C.says C.is_unread S.puts S.is_unread S.leaves choice.now.conditions.now
        (S.form sink.old) (A.sections answer.now)) (Found (A.had answer.now)) is_done
        (S.took sink.old) (S.took sink.new) (O.contents out.old) (O.contents out.new)) }
    ensures failed { IfErr result (Leaves (left_of
        (asks C.says C.is_unread S.puts S.is_unread S.leaves choice.now.conditions.now
        (S.form sink.old) (A.sections answer.now)) (A.had answer.now) (S.took sink.old))
        (O.contents out.old) (O.contents out.new)) }
    ensures sink { S.fits (A.sections answer.now) sink.new }
    ensures form { S.form sink.new ≡ S.form sink.old }
{
    match choice.kept(answer) {
        Some(true) => sink.put_kept(answer, out),
        Some(false) => Ok(true),
        None => Ok(false),
    }
}

// Gives a network to a sink, if it is chosen, or answers why it can't be, unless out of memory.
#[inline(always)]
fn put_chosen<A: Answer, S: Sink, C: Conditions, O: Write>(
    choice: &mut Choice<'_, C>,
    sink: &mut S,
    answer: &A,
    out: &mut O,
) -> Result<Option<MaxMindDbError>, QueryError>
    requires choice { ChoiceFits C.says (A.sections answer.now) choice.old }
    requires sink { S.fits (A.sections answer.now) sink.old }
    ensures tried { IfOk result (λ unread. IsTried
        (asks C.says C.is_unread S.puts S.is_unread S.leaves choice.old.conditions.now
        (S.form sink.old) (A.sections answer.now)) (A.had answer.now) unread
        (S.took sink.old) (S.took sink.new)
        (O.contents out.old) (O.contents out.new)) }
    ensures failed { IfErr result (Leaves (left_of
        (asks C.says C.is_unread S.puts S.is_unread S.leaves choice.old.conditions.now
        (S.form sink.old) (A.sections answer.now)) (A.had answer.now) (S.took sink.old))
        (O.contents out.old) (O.contents out.new)) }
    ensures choice { ChoiceFits C.says (A.sections answer.now) choice.new }
    ensures sink { S.fits (A.sections answer.now) sink.new }
    ensures same { choice.new.conditions.now ≡ choice.old.conditions.now }
    ensures form { S.form sink.new ≡ S.form sink.old }
{
    match choice.chooses(answer) {
        Ok(true) => sink.put(answer, out),
        Ok(false) => Ok(None),
        Err(error) => Ok(Some(error)),
    }
}

// Gives a network to a sink, if it is chosen, or reports why it can't be, and says how many can't. Where memory was out, all that
// is kept is dropped, and it is tried once more.
#[inline(never)]
fn put_anew<A: Answer, S: Sink, C: Conditions, O: Write, F: Faults>(
    choice: &mut Choice<'_, C>,
    sink: &mut S,
    answer: &A,
    out: &mut O,
    faults: &mut F,
) -> Result<u64, QueryError>
    requires choice { ChoiceFits C.says (A.sections answer.now) choice.old }
    requires sink { S.fits (A.sections answer.now) sink.old }
    ensures put { IsPut
        (asks C.says C.is_unread S.puts S.is_unread S.leaves choice.old.conditions.now
        (S.form sink.old) (A.sections answer.now)) (A.had answer.now) result
        (S.took sink.old) (S.took sink.new) (O.contents out.old) (O.contents out.new) }
    ensures choice { ChoiceFits C.says (A.sections answer.now) choice.new }
    ensures sink { S.fits (A.sections answer.now) sink.new }
    ensures same { choice.new.conditions.now ≡ choice.old.conditions.now }
    ensures form { S.form sink.new ≡ S.form sink.old }
{
    match put_chosen(choice, sink, answer, out) {
        Ok(None) => Ok(0),
        Ok(Some(error)) => {
            if !is_memory(&error) {
                return report_of(sink, &Fault::Network(answer), &error, out, faults);
            }
            if !drop_kept(choice, sink) {
                return Err(QueryError::Memory);
            }
            match put_chosen(choice, sink, answer, out) {
                Ok(None) => Ok(0),
                Ok(Some(error)) => report_of(sink, &Fault::Network(answer), &error, out, faults),
                Err(error) => Err(error),
            }
        }
        Err(error) => Err(error),
    }
}

// The same of the last item of a walk; at once, where that can be.
#[inline(always)]
fn put_item<W: Walk, S: Sink, C: Conditions, O: Write, F: Faults>(
    choice: &mut Choice<'_, C>,
    sink: &mut S,
    walk: &mut W,
    item: Result<W::Item, MaxMindDbError>,
    out: &mut O,
    faults: &mut F,
) -> Result<u64, QueryError>
    requires choice { IfOk item
        (λ answer. ChoiceFits C.says (W.Item.sections answer) choice.old) }
    requires sink { IfOk item (λ answer. S.fits (W.Item.sections answer) sink.old) }
    ensures put { PutsStep
        (asks C.says C.is_unread S.puts S.is_unread S.leaves choice.old.conditions.now
        (S.form sink.old)) W.Item.sections W.Item.had item result
        (S.took sink.old) (S.took sink.new) (O.contents out.old) (O.contents out.new) }
    ensures few { IfOk result (λ fault. fault ≤ 1) }
    ensures walk { Goes W.comes walk.old [] walk.new }
    ensures sections { W.sections walk.new ≡ W.sections walk.old }
    ensures choice { FitsOf W.Item.sections (ChoiceFits C.says) item choice.old choice.new }
    ensures sink { FitsOf W.Item.sections S.fits item sink.old sink.new }
    ensures same { choice.new.conditions.now ≡ choice.old.conditions.now }
    ensures form { S.form sink.new ≡ S.form sink.old }
{
    match item {
        Ok(answer) => {
            let put = match put_known(choice, sink, &answer, out) {
                Ok(true) => Ok(0),
                Ok(false) => put_anew(choice, sink, &answer, out, faults),
                Err(error) => Err(error),
            };
            walk.give_back(answer);
            put
        }
        Err(error) => {
            let leaf: Fault<'_, W::Item> = Fault::Leaf(walk.unread_leaf());
            report_of(sink, &leaf, &error, out, faults)
        }
    }
}

/// Gives the networks of a walk that meet all conditions to a sink, one by one, reports each that can't be read, and says how
/// many can't. Where memory is out, what the sink keeps is dropped, and it is tried once more.
///
/// An `Err` is of the output; or of memory, or the sink did not take a network, and then what was written is of some first networks
/// and what the sink left of the next; or more come than can be counted.
pub fn put_each<W: Walk, S: Sink, C: Conditions, O: Write, F: Faults>(
    alloc: Global,
    walk: &mut W,
    conditions: &C,
    sink: &mut S,
    out: &mut O,
    faults: &mut F,
) -> Result<u64, QueryError>
    requires { S.fits (W.sections walk.old) sink.old }
    ensures taken { IfOk result (λ unread. Takes (W.comes walk.old)
        (asks C.says C.is_unread S.puts S.is_unread S.leaves conditions.now (S.form sink.old)
        (W.sections walk.old)) (S.took sink.old) (S.took sink.new)
        (O.contents out.old) (O.contents out.new) unread) }
    ensures failed { IfErr result (StopsBy W.comes
        (asks C.says C.is_unread S.puts S.is_unread S.leaves conditions.now (S.form sink.old)
        (W.sections walk.old)) walk.old (S.took sink.old)
        (O.contents out.old) (O.contents out.new)) }
    ensures form { S.form sink.new ≡ S.form sink.old }
{
    let mut choice = Choice::new(alloc, conditions);
    let mut unread = 0;
    let mut passed = 0u64;
    for _ in 0..u64::MAX {
        let Some(item) = walk.next_item() else {
            return Ok(unread);
        };
        unread += put_item(&mut choice, sink, walk, item, out, faults)?;
        passed = passed.wrapping_add(1);
        tell(passed, faults);
    }
    Err(QueryError::TooMany)
}
