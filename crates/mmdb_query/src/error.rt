//! Why a walk is not done to its end, and who is told of networks that can't be read.
ghost use Rattle.std.specs.Prelude.{◌≡◌, IfOk, IfErr, [], false, Some, MatchOption};
ghost use Rattle.std.specs.IoError.{error_kind, raw_os_error};
ghost use Rattle.std.specs.Io.KnownBytes.{Appends};
ghost use Rattle.mmdb_query.specs.Ends.{IsOfOutput, write_error};
ghost use Rattle.mmdb_query.specs.Steps.{is_memory as spec_is_memory};

use crate::answer::Answer;
use crate::walk::UnreadLeaf;
use mmdb_blocks::RangesError;
use mmdb_reader::MaxMindDbError;
use std::alloc::{AllocError, AllocFailed};
use std::io::{self, ErrorKind, Write};

/// Why the output can't be written, in few bytes: a walk hands on what it came to for each network.
#[derive(Clone, Copy)]
pub struct WriteError {
    kind: ErrorKind,
    /// The system's number of it, if it is of the system.
    code: Option<i32>,
}

impl WriteError {
    /// What a writer said.
    #[cold]
    #[inline(never)]
    pub(crate) fn of(error: io::Error) -> WriteError
        ensures { result ≡ write_error error }
    {
        WriteError {
            kind: error.kind(),
            code: error.raw_os_error(),
        }
    }

    /// The same error. Of one that is not of the system the text is that of its kind.
    pub fn to_error(self) -> io::Error
        ensures code { MatchOption self.code (error_kind result ≡ self.kind)
            (λ code. raw_os_error result ≡ Some code) }
    {
        match self.code {
            Some(code) => io::Error::from_raw_os_error(code),
            None => io::Error::from(self.kind),
        }
    }
}

/// Why a walk was not done to its end.
#[derive(Clone, Copy)]
pub enum QueryError {
    /// Out of memory.
    Memory,
    /// The output can't be written.
    Write(WriteError),
    /// More networks come than can be counted.
    TooMany,
    /// Blocks of addresses would not ascend.
    OutOfOrder,
}

impl From<AllocError> for QueryError {
    fn from(_error: AllocError) -> QueryError {
        QueryError::Memory
    }
}

impl<T: Drop> From<AllocFailed<T>> for QueryError {
    fn from(_error: AllocFailed<T>) -> QueryError {
        QueryError::Memory
    }
}

impl From<RangesError> for QueryError {
    fn from(error: RangesError) -> QueryError {
        match error {
            RangesError::OutOfOrder => QueryError::OutOfOrder,
            RangesError::Memory => QueryError::Memory,
        }
    }
}

/// What can't be read.
#[derive(Drop)]
pub enum Fault<'x, A: Answer> {
    /// Something that is asked of what databases have in a network.
    Network(&'x A),
    /// A leaf of a database, whose network is not known.
    Leaf(UnreadLeaf),
}

/// Who is told of networks.
pub trait Faults {
    /// Something can't be read. What was written before is flushed. An `Err` is of memory, and then nothing is reported.
    fn report<A: Answer>(
        &mut self,
        fault: &Fault<'_, A>,
        error: &MaxMindDbError,
    ) -> Result<(), AllocError>;

    /// So many networks passed, which is said now and then.
    fn passed(&mut self, networks: u64);
}

/// Whether memory is out.
#[inline(always)]
pub(crate) fn is_memory(error: &MaxMindDbError) -> bool
    ensures { result ≡ spec_is_memory error.now }
{
    match error {
        MaxMindDbError::Memory => true,
        _ => false,
    }
}

// Writes out what is buffered.
fn flush<O: Write>(out: &mut O) -> Result<(), QueryError>
    ensures out { Appends (O.contents out.old) (O.contents out.new) [] }
    ensures failed { IfErr result IsOfOutput }
{
    match out.flush() {
        Ok(()) => Ok(()),
        Err(error) => Err(QueryError::Write(WriteError::of(error))),
    }
}

/// Reports what can't be read, after what was written, and says that it is one; unless memory is out.
#[cold]
#[inline(never)]
pub(crate) fn report<A: Answer, O: Write, F: Faults>(
    fault: &Fault<'_, A>,
    error: &MaxMindDbError,
    out: &mut O,
    faults: &mut F,
) -> Result<u64, QueryError>
    ensures one { IfOk result (λ fault. (fault ≡ 1) × (spec_is_memory error.now ≡ false)) }
    ensures out { Appends (O.contents out.old) (O.contents out.new) [] }
    ensures failed { IfErr result IsOfOutput }
{
    if is_memory(error) {
        return Err(QueryError::Memory);
    }
    flush(out)?;
    match faults.report(fault, error) {
        Ok(()) => Ok(1),
        Err(_) => Err(QueryError::Memory),
    }
}
