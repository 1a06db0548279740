//! The end of lists of the fewest blocks.
ghost use Rattle.std.specs.Prelude.{◌≡◌, OnOk, IfErr};
ghost use Rattle.mmdb_blocks.specs.Lists.{listing_of, Prints};
ghost use Rattle.mmdb_cmd_export.specs.Listed.{list_result, IsFinished, MayEnd, EndFails};

use mmdb_blocks::{BlocksError, List};
use mmdb_console::ProgramError;
use std::io::Write;

/// What a list answered, as the program reports it.
#[inline(always)]
pub(crate) fn of_list(done: Result<(), BlocksError>) -> Result<(), ProgramError>
    ensures { result ≡ list_result done }
{
    match done {
        Ok(()) => Ok(()),
        Err(BlocksError::Write(error)) => Err(ProgramError::Write(error)),
        Err(BlocksError::OutOfOrder) => Err(ProgramError::OutOfOrder),
        Err(BlocksError::Memory) => Err(ProgramError::Memory),
    }
}

/// Writes what is left of a list, and what comes after it, by which it is loaded only if it is whole. Without networks it is
/// an error, unless it may be empty.
pub(crate) fn end_list<O: Write>(
    list: &mut List<'_>,
    may_be_empty: bool,
    is_whole: bool,
    out: &mut O,
) -> Result<(), ProgramError>
    ensures ended { OnOk result (Prints (IsFinished (listing_of list.old) is_whole)
        (O.contents out.old) (O.contents out.new)) }
    ensures may_end { OnOk result (MayEnd (listing_of list.old) may_be_empty) }
    ensures failed { IfErr result (EndFails (listing_of list.old) may_be_empty
        (O.contents out.old) (O.contents out.new)) }
{
    of_list(list.finish(out))?;
    if list.is_empty() && !may_be_empty {
        return Err(ProgramError::EmptyList);
    }
    of_list(list.begin(out))?;
    if is_whole {
        of_list(list.end(out))
    } else {
        of_list(list.break_off(out))
    }
}
