//! Values of one type, which are read directly or through one pointer.
ghost use Rattle.std.specs.Prelude.{◌≡◌, ◌<◌, ◌≤◌, ◌^◌, length, IfOk, option_map};
ghost use Rattle.std.specs.Result.{result_ok};
ghost use Rattle.mmdb_decode.specs.Scalars.{direct_of as spec_direct_of, number_of, bits_of, bool_at as spec_bool_at, bytes_of, if_text, free_of_charge, costs_its_length};
ghost use Rattle.mmdb_decode.specs.Arrays.{container_at as spec_container_at};

use mmdb_format::content::{content_bytes, fixed_width_integer, variable_width_integer};
use mmdb_format::decode_error_kind::DecodeErrorKind;
use mmdb_format::header::{Direct, MAX_LEVELS, direct_at};
use mmdb_format::kind::{BOOL, Kind};
use mmdb_format::utf8::is_utf8;

/// A container that was entered.
#[derive(Clone, Copy)]
pub struct Entered {
    pub count: usize,
    pub body: usize,
    pub after: Option<usize>,
    pub levels: u16,
}

/// The header of a value of one type.
#[inline(always)]
#[tactic(auto, unfolding(crate::specs::Scalars::direct_of))]
fn direct_of(
    section: &[u8],
    offset: usize,
    levels: u16,
    wanted: u16,
) -> Result<Direct, DecodeErrorKind>
    ensures value { result_ok result ≡ spec_direct_of wanted section.now offset levels }
    ensures bound { IfOk result (λ at. at.header.size < 2 ^ 25) }
{
    let at = direct_at(section, offset, levels)?;
    if at.header.kind != wanted {
        return Err(DecodeErrorKind::unexpected(Kind::of_number(wanted), at.header.kind));
    }
    Ok(at)
}

/// An integer of one type, of at most `most` bytes, and the offset after it.
#[inline(always)]
#[tactic(auto, unfolding(crate::specs::Scalars::number_of))]
pub(crate) fn number_at(
    section: &[u8],
    offset: usize,
    levels: u16,
    wanted: u16,
    most: usize,
) -> Result<(u128, usize), DecodeErrorKind>
    requires { most ≤ 16 }
    ensures value { option_map free_of_charge (result_ok result)
        ≡ number_of wanted most section.now offset levels }
    ensures bound { IfOk result (λ x. x.0 < 256 ^ most) }
{
    let at = direct_of(section, offset, levels, wanted)?;
    let n = variable_width_integer(section, at.header, most)?;
    Ok((n, at.after.unwrap_or(at.header.body + at.header.size)))
}

/// The bits of a number of exactly `size` bytes, and the offset after it.
#[inline(always)]
#[tactic(auto, unfolding(crate::specs::Scalars::bits_of))]
pub(crate) fn bits_at(
    section: &[u8],
    offset: usize,
    levels: u16,
    wanted: u16,
    size: usize,
) -> Result<(u128, usize), DecodeErrorKind>
    requires { size ≤ 16 }
    ensures value { option_map free_of_charge (result_ok result)
        ≡ bits_of wanted size section.now offset levels }
    ensures bound { IfOk result (λ x. x.0 < 256 ^ size) }
{
    let at = direct_of(section, offset, levels, wanted)?;
    let n = fixed_width_integer(section, at.header, size)?;
    Ok((n, at.after.unwrap_or(at.header.body + at.header.size)))
}

/// A truth value, and the offset after it.
#[inline(always)]
#[tactic(auto, unfolding(crate::specs::Scalars::bool_at))]
pub(crate) fn bool_at(
    section: &[u8],
    offset: usize,
    levels: u16,
) -> Result<(bool, usize), DecodeErrorKind>
    ensures { option_map free_of_charge (result_ok result)
        ≡ spec_bool_at section.now offset levels }
{
    let at = direct_of(section, offset, levels, BOOL)?;
    if at.header.size > 1 {
        return Err(at.header.wrong_size());
    }
    Ok((at.header.size == 1, at.after.unwrap_or(at.header.body)))
}

/// All the bytes of a text or a byte string, and the offset after it.
#[inline(always)]
#[tactic(auto, unfolding(crate::specs::Scalars::bytes_of))]
pub(crate) fn content_bytes_at(
    section: &[u8],
    offset: usize,
    levels: u16,
    wanted: u16,
) -> Result<(&[u8], usize), DecodeErrorKind>
    ensures value { option_map (λ x. costs_its_length (x.0.now, x.1)) (result_ok result)
        ≡ bytes_of wanted section.now offset levels }
    ensures bound { IfOk result (λ x. length x.0.now < 2 ^ 25) }
{
    let at = direct_of(section, offset, levels, wanted)?;
    let bytes = content_bytes(section, at.header)?;
    Ok((bytes, at.after.unwrap_or(at.header.body + at.header.size)))
}

/// A container of one type, which is one level.
#[inline(always)]
#[tactic(auto, unfolding(crate::specs::Arrays::container_at))]
pub(crate) fn container_at(
    section: &[u8],
    offset: usize,
    levels: u16,
    wanted: u16,
) -> Result<Entered, DecodeErrorKind>
    ensures value { result_ok result ≡ spec_container_at wanted section.now offset levels }
    ensures bound { IfOk result (λ at. at.count < 2 ^ 25) }
{
    let at = direct_of(section, offset, levels, wanted)?;
    if at.levels >= MAX_LEVELS {
        return Err(DecodeErrorKind::TooDeep);
    }
    Ok(Entered {
        count: at.header.size,
        body: at.header.body,
        after: at.after,
        levels: at.levels + 1,
    })
}

/// The bytes as text, where they are UTF-8. The text is made of the bytes at hand: one taken out of an answer in
/// memory would wait for it.
#[tactic(auto, using(crate::proofs::Texts::text_yes, crate::proofs::Texts::text_no, crate::proofs::Texts::utf8_of))]
#[inline(always)]
pub fn text_of(bytes: &[u8]) -> Result<&str, DecodeErrorKind>
    ensures value { option_map (λ x. x.now) (result_ok result) ≡ if_text bytes.now }
    ensures same { IfOk result (λ x. x.now ≡ bytes.now) }
{
    if !is_utf8(bytes) {
        return Err(DecodeErrorKind::InvalidUtf8);
    }
    Ok(unsafe { std::str::from_utf8_unchecked(bytes) })
}
