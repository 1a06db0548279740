//! Offsets of errors.
ghost use Rattle.std.specs.Prelude.{◌≡◌};
ghost use Rattle.mmdb_format.specs.Error.{kind_of};

use mmdb_format::error::MaxMindDbError;

/// The error of a section that begins at this place, with the offset of an `InvalidDatabase` counted from
/// the file's start.
pub(crate) fn counted_from_start(error: MaxMindDbError, section_start: usize) -> MaxMindDbError
    ensures { kind_of result ≡ kind_of error }
{
    match error {
        MaxMindDbError::InvalidDatabase { message, offset } => MaxMindDbError::InvalidDatabase {
            message,
            offset: offset.and_then(|offset| offset.checked_add(section_start)),
        },
        other => other,
    }
}
