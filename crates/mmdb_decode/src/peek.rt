//! What a header says of a value, without reading the value.
ghost use Rattle.std.specs.Prelude.{◌≡◌, IfErr};
ghost use Rattle.std.specs.Result.{result_ok};
ghost use Rattle.mmdb_format.specs.Error.{kind_of, OfDatabase};
ghost use Rattle.mmdb_decode.specs.Peeking.{kind_at, empty_at};

use mmdb_format::decode_error_kind::DecodeErrorKind;
use mmdb_format::error::{DecodeResult, MaxMindDbError};
use mmdb_format::header::direct_at;
use mmdb_format::kind::{ARRAY, Kind, MAP};
use mmdb_format::message::{Message, Text};

/// The type of the value at an offset, or through one pointer there.
#[inline(always)]
#[tactic(auto, unfolding(crate::specs::Peeking::kind_at))]
pub(crate) fn kind_of_value(section: &[u8], offset: usize) -> Result<Kind, DecodeErrorKind>
    ensures { result_ok result ≡ kind_at section.now offset }
{
    let at = direct_at(section, offset, 0)?;
    Ok(Kind::of_number(at.header.kind))
}

/// Whether the value at an offset, or through one pointer there, is a map or an array of size 0.
///
/// It fails exactly where no header that is no pointer can be read so. It takes no memory.
#[tactic(auto, unfolding(crate::specs::Peeking::empty_at))]
pub fn empty_container(section: &[u8], offset: usize) -> DecodeResult<bool>
    ensures value { result_ok result ≡ empty_at section.now offset }
    ensures err { IfErr result (λ e. kind_of e ≡ OfDatabase) }
{
    let text = match direct_at(section, offset, 0) {
        Ok(at) => {
            let kind = at.header.kind;
            return Ok((kind == MAP || kind == ARRAY) && at.header.size == 0);
        }
        Err(DecodeErrorKind::PointerToPointer) => Text::PointerToPointer,
        Err(_) => Text::EndOfBuffer,
    };
    Err(MaxMindDbError::InvalidDatabase {
        message: Message::Fixed(text),
        offset: Some(offset),
    })
}
