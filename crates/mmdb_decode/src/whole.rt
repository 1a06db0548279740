//! Whole numbers of whatever type.
ghost use Rattle.std.specs.Prelude.{◌≡◌, ◌-◌};
ghost use Rattle.std.specs.Result.{result_ok};
ghost use Rattle.mmdb_decode.specs.SmallNumbers.{whole_here as spec_whole_here, whole_within};

use mmdb_format::content::{Content, content_at, content_end};
use mmdb_format::decode_error_kind::DecodeErrorKind;
use mmdb_format::header::{Header, MAX_LEVELS, header_at, pointer_at};
use mmdb_format::kind::POINTER;

/// The number after a header, and the offset after it.
#[tactic(auto, unfolding(crate::specs::SmallNumbers::whole_here))]
fn whole_here(section: &[u8], header: Header) -> Result<(i128, usize), DecodeErrorKind>
    ensures { result_ok result ≡ spec_whole_here section.now header }
{
    let number = match content_at(section, header) {
        Ok(Content::I32(n)) => i128::from(n),
        Ok(Content::U16(n)) => i128::from(n),
        Ok(Content::U32(n)) => i128::from(n),
        Ok(Content::U64(n)) => i128::from(n),
        Ok(_) => return Err(DecodeErrorKind::NotWhole),
        Err(DecodeErrorKind::UnknownType(kind)) if kind <= 255 => return Err(
            DecodeErrorKind::NotWhole,
        ),
        Err(fault) => return Err(fault),
    };
    Ok((number, content_end(header)))
}

/// The number through any number of pointers, each of which is a level, and the offset after it, or
/// after the first pointer.
pub(crate) fn whole_at(
    section: &[u8],
    offset: usize,
    levels: u16,
) -> Result<(i128, usize), DecodeErrorKind>
    ensures { result_ok result ≡ whole_within (512 - levels) section.now offset }
{
    let header = header_at(section, offset)?;
    if header.kind != POINTER {
        return whole_here(section, header);
    }
    if levels >= MAX_LEVELS {
        return Err(DecodeErrorKind::TooDeep);
    }
    let pointer = pointer_at(section, header.body, header.size as u8)?;
    let (number, _) = whole_at(section, pointer.target, levels + 1)?;
    Ok((number, pointer.next))
}
