//! The list of a range, as text.
ghost use Rattle.std.specs.Prelude.{◌≡◌, ◌≤◌, ◌⊎◌, ◌↔◌, [], length, OnOk, OnErr};
ghost use Rattle.mmdb_net.specs.Network.{ip_of};
ghost use Rattle.mmdb_reader.specs.Lookup.{CanAsk};
ghost use Rattle.mmdb_tool.specs.Putting.{AppendsFront, TellsFault};
ghost use Rattle.mmdb_tool.specs.Working.{PutsFront};
ghost use Rattle.mmdb_tool.specs.ListText.{WritesList, BeginsList, HasPutChunk, IfDatabase, chunk_bytes, IsOfRange, NamesRangeOrMemory, TellsListFault};

use crate::line::put_item_line;
use crate::sink::{PutError, Sink, put_all};
use mmdb_reader::{IpNetwork, MaxMindDbError, Reader, WithinOptions};
use std::alloc::{AllocError, Global};
use std::convert::AsSlice;
use std::io;
use thiserror::Error;

/// No line is longer: an IPv6 network of 43 bytes, a space, 20 digits and a newline.
const MOST_BYTES: usize = 65;

/// How many bytes of lines are put at once.
const ROOM: usize = 1 << 16;

/// Why the lines of a database were not written whole.
#[derive(Debug, Drop, Error)]
pub enum ListError {
    /// The database failed, or memory ran out.
    #[error("{0}")]
    Database(MaxMindDbError),
    /// The sink failed at a put.
    #[error("write error: {0}")]
    Write(io::Error),
    /// The sink took no byte of some.
    #[error("write stopped")]
    Stopped,
}

impl From<MaxMindDbError> for ListError {
    ghost use Rattle.mmdb_tool.specs.declared.list.ListError.TheVariants.{Database};

    ghost from_gives = { λ error e. e ≡ Database error };

    fn from(error: MaxMindDbError) -> ListError {
        ListError::Database(error)
    }
}

impl From<AllocError> for ListError {
    ghost use Rattle.mmdb_format.specs.declared.error.MaxMindDbError.TheVariants.{Memory};
    ghost use Rattle.mmdb_tool.specs.declared.list.ListError.TheVariants.{Database};

    ghost from_gives = { λ _ e. e ≡ Database Memory };

    fn from(_error: AllocError) -> ListError {
        ListError::Database(MaxMindDbError::Memory)
    }
}

impl From<PutError> for ListError {
    ghost use Rattle.mmdb_tool.specs.PutErrors.{BecomesListError};

    ghost from_gives = { BecomesListError };

    fn from(error: PutError) -> ListError {
        match error {
            PutError::Write(error) => ListError::Write(error),
            PutError::Stopped => ListError::Stopped,
        }
    }
}

// Puts the lines that are held, where one more might not fit.
#[inline(always)]
fn make_room<W: Sink>(sink: &mut W, lines: &mut Vec<u8>) -> Result<(), PutError>
    ensures put { OnOk result (PutsFront (W.held sink.old) (W.held sink.new)
        lines.old.items lines.new.items) }
    ensures begun { OnErr result
        (AppendsFront (W.held sink.old) (W.held sink.new) lines.old.items) }
    ensures kept { OnOk result ((sink.new ≡ sink.old)
        ⊎ ((lines.new.items ≡ []) × (chunk_bytes ≤ length lines.old.items))) }
    ensures fault { TellsFault (W.fault sink.old) (W.fault sink.new) result }
{
    if lines.len() <= ROOM - MOST_BYTES {
        return Ok(());
    }
    put_all(sink, lines.as_slice())?;
    lines.clear();
    Ok(())
}

/// Writes a line for each network of a range that `within` hands out, and `fault` for an error item.
///
/// `Database` is `InvalidInput` exactly where `within` fails so, and then nothing is written;
/// else it is `Memory`, and nothing is written before 65,472 bytes of lines have come. `Write` is a put at which the sink
/// failed, an interrupted one too, and `Stopped` one that took no byte. On any error what was written is a beginning of
/// the text.
pub fn list_to<S: AsSlice<u8> + Drop, W: Sink>(
    alloc: Global,
    reader: &Reader<S>,
    range: IpNetwork,
    options: WithinOptions,
    sink: &mut W,
) -> Result<(), ListError>
    ensures whole { OnOk result
        (WritesList reader.now options range (W.held sink.old) (W.held sink.new)) }
    ensures begun { OnErr result (CanAsk reader.now (ip_of range)
        → BeginsList reader.now options range (W.held sink.old) (W.held sink.new)) }
    ensures of_range { IsOfRange result ↔ ¬ (CanAsk reader.now (ip_of range)) }
    ensures no_other { NamesRangeOrMemory result }
    ensures untouched { ¬ (CanAsk reader.now (ip_of range)) → sink.new ≡ sink.old }
    ensures kept { IfDatabase result ((sink.new ≡ sink.old)
        ⊎ HasPutChunk reader.now options range (W.held sink.old) (W.held sink.new)) }
    ensures fault { TellsListFault (W.fault sink.old) (W.fault sink.new) result }
{
    let items = reader.within(alloc, range, options)?;
    let mut lines = Vec::with_capacity(alloc, ROOM)?;
    for item in items {
        make_room(sink, &mut lines)?;
        put_item_line(item, &mut lines)?;
    }
    put_all(sink, lines.as_slice())?;
    Ok(())
}
