//! The rows of chosen networks.
ghost use Rattle.std.specs.Prelude.{◌≡◌, ◌++◌, ℕ, List, [], Some, true, IfOk, IfErr, IfSome, OnOk};
ghost use Rattle.std.specs.Io.KnownBytes.{Appends};
ghost use Rattle.mmdb_format.specs.Error.{MemoryApart};
ghost use Rattle.mmdb_query.specs.Ends.{WritesNone, leaves_none, EndsBy};
ghost use Rattle.mmdb_query.specs.Kept.{RowsFit};
ghost use Rattle.mmdb_query.specs.Rows.{IsRow, IsBegun, puts_row, nothing};
ghost use Rattle.mmdb_query.specs.Taking.{asks, IsDone, Takes};

use crate::answer::Answer;
use crate::choice::Conditions;
use crate::each::put_each;
use crate::error::{Faults, QueryError, WriteError};
use crate::sink::Sink;
use crate::template::Template;
use crate::walk::Walk;
use mmdb_cache::Cache;
use mmdb_reader::MaxMindDbError;
use std::alloc::{AllocError, Global};
use std::io::Write;

/// The most bytes that are kept of one row. Of the row that was made last all is kept.
const MOST_BYTES: usize = 4096;

/// The most bytes of what a row has after its network where it is put together with that: two puts of some bytes take longer
/// than their copy and one put.
const MOST_JOINED: usize = 1024;

/// Room for a row that is put together.
const LINE: usize = MOST_BYTES + 64;

// Makes what rows have after their network. Many networks share their records, so it is kept by the records' number.
#[derive(Drop)]
pub(crate) struct RowMaker<'a, T: Template> {
    alloc: Global,
    template: &'a T,
    scratch: T::Scratch,
    kept: Cache<Vec<u8>>,
    // What was made last, and the number of its records, if they have one.
    last: Vec<u8>,
    last_key: Option<usize>,
}

impl<'a, T: Template> RowMaker<'a, T> {
    // What rows of the same records have after their network, where that is kept.
    #[inline(always)]
    fn kept_tail<A: Answer>(&self, answer: &A) -> Option<&Vec<u8>>
        requires { RowsFit T.is_tail T.fits (A.sections answer.now) self.now }
        ensures { IfSome result (λ tail. T.is_tail self.now.template.now (A.sections answer.now)
            (A.had answer.now).offsets tail.now.items) }
    {
        self.kept.get(answer.key()?)
    }

    // Whether what was made last is of the same records.
    #[inline(always)]
    fn is_last<A: Answer>(&self, answer: &A) -> bool
        requires { RowsFit T.is_tail T.fits (A.sections answer.now) self.now }
        ensures { result ≡ true → T.is_tail self.now.template.now (A.sections answer.now)
            (A.had answer.now).offsets self.now.last.items }
    {
        match (self.last_key, answer.key()) {
            (Some(last), Some(key)) => last == key,
            _ => false,
        }
    }

    // Keeps a copy of what was made last, of an answer, unless it is long or there is no memory.
    fn keep_last<A: Answer>(&mut self, answer: &A)
        requires tail { T.is_tail self.old.template.now (A.sections answer.now)
            (A.had answer.now).offsets self.old.last.items }
        requires fits { RowsFit T.is_tail T.fits (A.sections answer.now) self.old }
        ensures fits { RowsFit T.is_tail T.fits (A.sections answer.now) self.new }
        ensures last { self.new.last.items ≡ self.old.last.items }
        ensures same { self.new.template.now ≡ self.old.template.now }
    {
        if self.last.len() > MOST_BYTES {
            return;
        }
        let Some(key) = answer.key() else {
            return;
        };
        if let Ok(tail) = Vec::from_slice(self.alloc, self.last.as_slice()) {
            let bytes = tail.len();
            self.kept.put(key, tail, bytes);
        }
    }

    // Makes what the row of an answer has after its network, in place of what was made last.
    #[inline(always)]
    fn make_last<A: Answer>(&mut self, answer: &A) -> Result<(), MaxMindDbError>
        requires { RowsFit T.is_tail T.fits (A.sections answer.now) self.old }
        ensures tail { OnOk result (T.is_tail self.old.template.now (A.sections answer.now)
            (A.had answer.now).offsets self.new.last.items) }
        ensures unread { IfErr result (λ e. MemoryApart e
            (T.is_unread self.old.template.now (A.sections answer.now)
            (A.had answer.now).offsets)) }
        ensures fits { RowsFit T.is_tail T.fits (A.sections answer.now) self.new }
        ensures same { self.new.template.now ≡ self.old.template.now }
    {
        self.last_key = None;
        self.last.clear();
        self.template
            .put_tail(self.alloc, &mut self.scratch, answer, &mut self.last)?;
        self.last_key = answer.key();
        self.keep_last(answer);
        Ok(())
    }

    // Begins the row of a network, in place of another one.
    #[inline(always)]
    fn begin<A: Answer>(&self, answer: &A, line: &mut Vec<u8>) -> Result<(), AllocError>
        ensures { OnOk result
            (IsBegun (T.front self.now.template.now) (A.had answer.now) line.new.items) }
    {
        line.clear();
        line.extend_from_slice(self.template.front())?;
        answer.network().push_text(line)
    }

    // Puts the row of a network together, in place of another one, where what it has after its network is kept. Whether that was
    // done.
    #[inline(always)]
    fn join_kept<A: Answer>(&self, answer: &A, line: &mut Vec<u8>) -> Result<bool, AllocError>
        requires { RowsFit T.is_tail T.fits (A.sections answer.now) self.now }
        ensures { IfOk result (λ is_row. is_row ≡ true → IsRow (T.front self.now.template.now)
            (T.is_tail self.now.template.now (A.sections answer.now)) (A.had answer.now)
            line.new.items) }
    {
        let Some(tail) = self.kept_tail(answer) else {
            return Ok(false);
        };
        self.begin(answer, line)?;
        line.extend_from_slice(tail.as_slice())?;
        Ok(true)
    }
}

/// Writes the rows of networks in a form.
#[derive(Drop)]
pub struct Rows<'a, T: Template> {
    pub(crate) maker: RowMaker<'a, T>,
    line: Vec<u8>,
}

// Writes some bytes.
#[inline(always)]
fn write_bytes<O: Write>(bytes: &[u8], out: &mut O) -> Result<(), QueryError>
    ensures written { OnOk result (Appends (O.contents out.old) (O.contents out.new) bytes.now) }
    ensures failed { IfErr result (WritesNone (O.contents out.old) (O.contents out.new)) }
{
    match out.write_all(bytes) {
        Ok(()) => Ok(()),
        Err(error) => Err(QueryError::Write(WriteError::of(error))),
    }
}

// Writes what a row begins with, and then what it has after that.
fn write_parts<O: Write>(front: &[u8], tail: &[u8], out: &mut O) -> Result<(), QueryError>
    ensures written { OnOk result
        (Appends (O.contents out.old) (O.contents out.new) (front.now ++ tail.now)) }
    ensures failed { IfErr result (WritesNone (O.contents out.old) (O.contents out.new)) }
{
    match out.write_all(front) {
        Ok(()) => {}
        Err(error) => return Err(QueryError::Write(WriteError::of(error))),
    }
    match out.write_all(tail) {
        Ok(()) => Ok(()),
        Err(error) => Err(QueryError::Write(WriteError::of(error))),
    }
}

impl<'a, T: Template> Rows<'a, T> {
    /// No rows yet, of which at most so many bytes are kept, beside what they are made with. They are of the records that this is
    /// of.
    pub fn new(
        alloc: Global,
        template: &'a T,
        scratch: T::Scratch,
        most_kept: usize,
    ) -> Result<Rows<'a, T>, AllocError>
        ensures template { IfOk result (λ rows. rows.maker.template.now ≡ template.now) }
        ensures fits { IfOk result (λ rows. (s : List (List ℕ))
            → T.fits template.now s scratch → RowsFit T.is_tail T.fits s rows.maker) }
    {
        let line = Vec::with_capacity(alloc, LINE)?;
        Ok(Rows {
            maker: RowMaker {
                alloc,
                template,
                scratch,
                kept: Cache::new(alloc, most_kept),
                last: Vec::new(alloc),
                last_key: None,
            },
            line,
        })
    }

    /// What they are made with.
    pub fn scratch(&self) -> &T::Scratch
        ensures { result.now ≡ self.now.maker.scratch }
    {
        &self.maker.scratch
    }

    // Joins the row of a network that is begun with what was made last.
    #[inline(always)]
    fn join_last(&mut self) -> Result<(), AllocError>
        ensures line { OnOk result
            (self.new.line.items ≡ self.old.line.items ++ self.old.maker.last.items) }
        ensures maker { self.new.maker ≡ self.old.maker }
    {
        self.line.extend_from_slice(self.maker.last.as_slice())
    }

    // Writes the row of a network with what was made last, which is of the same records.
    #[inline(always)]
    fn put_last<A: Answer, O: Write>(
        &mut self,
        answer: &A,
        out: &mut O,
    ) -> Result<Option<MaxMindDbError>, QueryError>
        requires { T.is_tail self.old.maker.template.now (A.sections answer.now)
            (A.had answer.now).offsets self.old.maker.last.items }
        ensures done { IfOk result (λ unread. IsDone
            (puts_row T.front T.is_tail self.old.maker.template.now (A.sections answer.now)
            (A.had answer.now))
            (T.is_unread self.old.maker.template.now (A.sections answer.now)
            (A.had answer.now).offsets)
            unread nothing nothing (O.contents out.old) (O.contents out.new)) }
        ensures failed { IfErr result (WritesNone (O.contents out.old) (O.contents out.new)) }
        ensures maker { self.new.maker ≡ self.old.maker }
    {
        let Ok(()) = self.maker.begin(answer, &mut self.line) else {
            return Ok(Some(MaxMindDbError::Memory));
        };
        if self.maker.last.len() > MOST_JOINED {
            write_parts(self.line.as_slice(), self.maker.last.as_slice(), out)?;
            return Ok(None);
        }
        let Ok(()) = self.join_last() else {
            return Ok(Some(MaxMindDbError::Memory));
        };
        write_bytes(self.line.as_slice(), out)?;
        Ok(None)
    }
}

impl<'a, T: Template> Sink for Rows<'a, T> {
    ghost Form = { T };

    ghost form = { λ rows. rows.maker.template.now };

    ghost Took = { Unit {0} };

    ghost took = { λ _. nothing };

    ghost puts = { puts_row T.front T.is_tail };

    ghost is_unread = { T.is_unread };

    ghost leaves = { leaves_none };

    ghost fits = { λ s rows. RowsFit T.is_tail T.fits s rows.maker };

    #[inline(always)]
    fn put_kept<A: Answer, O: Write>(
        &mut self,
        answer: &A,
        out: &mut O,
    ) -> Result<bool, QueryError> {
        let Ok(true) = self.maker.join_kept(answer, &mut self.line) else {
            return Ok(false);
        };
        write_bytes(self.line.as_slice(), out)?;
        Ok(true)
    }

    #[inline(always)]
    fn put<A: Answer, O: Write>(
        &mut self,
        answer: &A,
        out: &mut O,
    ) -> Result<Option<MaxMindDbError>, QueryError> {
        if self.maker.is_last(answer) {
            return self.put_last(answer, out);
        }
        match self.maker.make_last(answer) {
            Ok(()) => self.put_last(answer, out),
            Err(error) => Ok(Some(error)),
        }
    }

    #[cold]
    #[inline(never)]
    fn drop_caches(&mut self) -> bool {
        let maker = &mut self.maker;
        maker.template.drop_kept(&mut maker.scratch);
        maker.kept.clear();
        maker.last_key = None;
        maker.last = Vec::new(maker.alloc);
        true
    }
}

/// Writes the rows of the networks of a walk that meet all conditions, reports each that can't be read, and says how many
/// can't. An `Err` is of the output, or of memory: then what was written is of some first networks.
pub fn export_rows<W: Walk, T: Template, C: Conditions, O: Write, F: Faults>(
    alloc: Global,
    walk: &mut W,
    rows: &mut Rows<'_, T>,
    conditions: &C,
    out: &mut O,
    faults: &mut F,
) -> Result<u64, QueryError>
    requires { RowsFit T.is_tail T.fits (W.sections walk.old) rows.old.maker }
    ensures rows { IfOk result (λ unread. Takes (W.comes walk.old)
        (asks C.says C.is_unread (puts_row T.front T.is_tail) T.is_unread leaves_none
        conditions.now rows.old.maker.template.now (W.sections walk.old)) nothing nothing
        (O.contents out.old) (O.contents out.new) unread) }
    ensures failed { IfErr result (EndsBy W.comes
        (asks C.says C.is_unread (puts_row T.front T.is_tail) T.is_unread leaves_none
        conditions.now rows.old.maker.template.now (W.sections walk.old)) walk.old nothing
        (O.contents out.old) (O.contents out.new)) }
{
    put_each(alloc, walk, conditions, rows, out, faults)
}
