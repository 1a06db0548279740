//! Headers and pointers.
ghost use Rattle.std.specs.Prelude.{◌≡◌, ℕ, ◌<◌, ◌≤◌, ◌^◌, ◌+◌, ◌-◌, length, Some, slice_get, IfSome, IfOk, option_map};
ghost use Rattle.std.specs.Result.{result_ok};
ghost use Rattle.mmdb_format.specs.Header.{bytes_at as spec_bytes_at, big_endian as spec_big_endian, number_at as spec_number_at, size_at as spec_size_at, sized_header as spec_sized_header, header_at as spec_header_at};
ghost use Rattle.mmdb_format.specs.Working.{with_length_end};
ghost use Rattle.mmdb_format.specs.Pointer.{pointer_at as spec_pointer_at, direct_at as spec_direct_at, behind as spec_behind};

use crate::decode_error_kind::DecodeErrorKind;
use crate::kind::POINTER;

/// At most this many containers and pointers lie on the way to a value.
pub const MAX_LEVELS: u16 = 512;

/// The type number of a value, its size, and where its content begins.
#[derive(Clone, Copy)]
pub struct Header {
    pub kind: u16,
    pub size: usize,
    pub body: usize,
}

/// Where a pointer leads, and the offset after it.
#[derive(Clone, Copy)]
pub struct Pointer {
    pub target: usize,
    pub next: usize,
}

/// A header that is no pointer, directly or through one pointer.
#[derive(Clone, Copy)]
pub struct Direct {
    pub header: Header,
    pub after: Option<usize>,
    pub levels: u16,
}

// The number that at most eight bytes spell, in one register.
#[inline(always)]
fn big_endian_short(bytes: &[u8]) -> u64
    requires { length bytes.now ≤ 8 }
    ensures value { result ≡ spec_big_endian bytes.now }
    ensures bound { result < 256 ^ length bytes.now }
{
    let mut n: u64 = 0;
    for b in bytes {
        n = n * 256 + u64::from(*b);
    }
    n
}

fn big_endian_long(bytes: &[u8]) -> u128
    requires { length bytes.now ≤ 16 }
    ensures value { result ≡ spec_big_endian bytes.now }
    ensures bound { result < 256 ^ length bytes.now }
{
    let mut n: u128 = 0;
    for b in bytes {
        n = n * 256 + u128::from(*b);
    }
    n
}

/// The number that the bytes spell, the most significant first.
#[inline(always)]
pub fn big_endian(bytes: &[u8]) -> u128
    requires { length bytes.now ≤ 16 }
    ensures value { result ≡ spec_big_endian bytes.now }
    ensures bound { result < 256 ^ length bytes.now }
{
    if bytes.len() <= 8 {
        u128::from(big_endian_short(bytes))
    } else {
        big_endian_long(bytes)
    }
}

/// `len` bytes from an offset on.
#[inline(always)]
#[tactic(auto, unfolding(crate::specs::Header::bytes_at))]
pub fn bytes_at(section: &[u8], offset: usize, len: usize) -> Option<&[u8]>
    ensures len { IfSome result (λ x. length x.now ≡ len) }
    ensures value { option_map (λ x. x.now) result ≡ spec_bytes_at section.now offset len }
    ensures inside { IfSome result (λ x. offset + len ≤ length section.now) }
{
    if offset <= section.len() && len <= section.len() - offset {
        Some(&section[offset..offset + len])
    } else {
        None
    }
}

/// The number of up to 16 big-endian bytes at an offset, if they end inside the section.
#[inline(always)]
#[tactic(auto, unfolding(crate::specs::Header::number_at, crate::specs::Header::bytes_at))]
pub fn wide_number_at(section: &[u8], offset: usize, len: usize) -> Option<u128>
    requires { len ≤ 16 }
    ensures value { result ≡ spec_number_at section.now offset len }
    ensures bound { IfSome result (λ n. (n < 256 ^ len) × (offset + len ≤ length section.now)) }
{
    if offset <= section.len() && len <= section.len() - offset {
        Some(big_endian(&section[offset..offset + len]))
    } else {
        None
    }
}

/// The number in a few bytes at an offset.
#[inline(always)]
#[tactic(auto, unfolding(crate::specs::Header::number_at))]
fn number_at(section: &[u8], offset: usize, len: usize) -> Result<usize, DecodeErrorKind>
    requires { len ≤ 4 }
    ensures value { result_ok result ≡ spec_number_at section.now offset len }
    ensures bound { IfOk result (λ n. (n < 256 ^ len) × (offset + len ≤ length section.now)) }
{
    match bytes_at(section, offset, len) {
        Some(bytes) => Ok(big_endian_short(bytes) as usize),
        None => Err(DecodeErrorKind::EndOfBuffer),
    }
}

// The size that one, two or three length bytes at an offset say. Out of line, with an answer that fits in registers.
#[inline(never)]
#[tactic(auto, unfolding(crate::specs::Header::size_at))]
fn long_size_at(section: &[u8], offset: usize, low: u8) -> Option<usize>
    requires long { 28 < low }
    requires bits { low < 32 }
    ensures value { with_length_end offset low result ≡ spec_size_at section.now offset low }
    ensures bound { IfSome result (λ n. (n < 2 ^ 25) × (offset + (low - 28) ≤ length section.now)) }
{
    Some(match low {
        29 => 29 + number_at(section, offset, 1).ok()?,
        30 => 285 + number_at(section, offset, 2).ok()?,
        _ => 65_821 + number_at(section, offset, 3).ok()?,
    })
}

#[inline(always)]
#[tactic(auto, unfolding(crate::specs::Header::size_at))]
fn size_at(section: &[u8], offset: usize, low: u8) -> Result<(usize, usize), DecodeErrorKind>
    requires { low < 32 }
    ensures value { result_ok result ≡ spec_size_at section.now offset low }
    ensures bound { IfOk result (λ z. z.0 < 2 ^ 25) }
{
    if low <= 28 {
        return Ok((usize::from(low), offset));
    }
    match long_size_at(section, offset, low) {
        Some(size) => Ok((size, offset + usize::from(low - 28))),
        None => Err(DecodeErrorKind::EndOfBuffer),
    }
}

#[inline(always)]
#[tactic(auto, unfolding(crate::specs::Header::sized_header))]
fn sized_header(
    section: &[u8],
    offset: usize,
    kind: u16,
    low: u8,
) -> Result<Header, DecodeErrorKind>
    requires kind { 1 < kind }
    requires bits { low < 32 }
    ensures value { result_ok result ≡ spec_sized_header section.now offset kind low }
    ensures bound { IfOk result (λ h. (h.size < 2 ^ 25) × (h.kind ≡ kind)) }
{
    let (size, body) = size_at(section, offset, low)?;
    Ok(Header { kind, size, body })
}

/// The low five bits of the control byte at an offset, where it is that of a pointer.
#[inline(always)]
#[tactic(auto, unfolding(crate::specs::Header::header_at))]
pub(crate) fn pointer_bits_at(section: &[u8], offset: usize) -> Option<u8>
    ensures header { IfSome result (λ low. spec_header_at section.now offset
        ≡ Some (record { kind = 1; size = low; body = offset + 1 })) }
    ensures bits { IfSome result (λ low. (low < 32) × (offset < length section.now)) }
{
    let control = *section.get(offset)?;
    if control / 32 != 1 {
        return None;
    }
    Some(control % 32)
}

/// The size of the text at an offset, and where its bytes begin.
#[inline(always)]
#[tactic(auto, unfolding(crate::specs::Header::header_at, crate::specs::Header::sized_header))]
pub(crate) fn text_size_at(section: &[u8], offset: usize) -> Option<(usize, usize)>
    ensures header { IfSome result (λ x. spec_header_at section.now offset
        ≡ Some (record { kind = 2; size = x.0; body = x.1 })) }
    ensures bound { IfSome result (λ x. x.0 < 2 ^ 25) }
{
    let control = *section.get(offset)?;
    if control / 32 != 2 {
        return None;
    }
    size_at(section, offset + 1, control % 32).ok()
}

/// The header at an offset. One that is its control byte alone is recognised first, and nothing here that stays out of
/// line has a large answer: its memory would be cleared for each header.
#[inline(always)]
#[tactic(auto, unfolding(crate::specs::Header::header_at, crate::specs::Header::sized_header, crate::specs::Header::size_at))]
pub fn header_at(section: &[u8], offset: usize) -> Result<Header, DecodeErrorKind>
    ensures value { result_ok result ≡ spec_header_at section.now offset }
    ensures bound { IfOk result (λ h. (h.size < 2 ^ 25) × (h.kind ≡ 1 → h.size < 32)) }
{
    let Some(control) = section.get(offset) else {
        return Err(DecodeErrorKind::EndOfBuffer);
    };
    let kind = *control / 32;
    let low = *control % 32;
    if kind == 1 || kind > 1 && low < 29 {
        return Ok(Header {
            kind: u16::from(kind),
            size: usize::from(low),
            body: offset + 1,
        });
    }
    if kind != 0 {
        return sized_header(section, offset + 1, u16::from(kind), low);
    }
    match section.get(offset + 1) {
        Some(kind) => sized_header(section, offset + 2, u16::from(*kind) + 7, low),
        None => Err(DecodeErrorKind::EndOfBuffer),
    }
}

/// The pointer whose control byte has these low five bits, and whose bytes begin at an offset.
#[inline(always)]
#[tactic(auto, unfolding(crate::specs::Pointer::pointer_at))]
pub fn pointer_at(section: &[u8], offset: usize, low: u8) -> Result<Pointer, DecodeErrorKind>
    requires { low < 32 }
    ensures { result_ok result ≡ spec_pointer_at section.now offset low }
{
    let high = usize::from(low % 8);
    let (target, len) = match low / 8 {
        0 => (high * 256 + number_at(section, offset, 1)?, 1),
        1 => (high * 65_536 + number_at(section, offset, 2)? + 2_048, 2),
        2 => (
            high * 16_777_216 + number_at(section, offset, 3)? + 526_336,
            3,
        ),
        _ => (number_at(section, offset, 4)?, 4),
    };
    Ok(Pointer {
        target,
        next: offset + len,
    })
}

#[inline(always)]
#[tactic(auto, unfolding(crate::specs::Pointer::behind))]
fn behind(section: &[u8], levels: u16, pointer: Pointer) -> Result<Direct, DecodeErrorKind>
    ensures value { result_ok result ≡ spec_behind section.now levels pointer }
    ensures bound { IfOk result (λ at. at.header.size < 2 ^ 25) }
{
    if levels >= MAX_LEVELS {
        return Err(DecodeErrorKind::TooDeep);
    }
    let header = header_at(section, pointer.target)?;
    if header.kind == POINTER {
        return Err(DecodeErrorKind::PointerToPointer);
    }
    Ok(Direct {
        header,
        after: Some(pointer.next),
        levels: levels + 1,
    })
}

/// The header that is no pointer at an offset, directly or through one pointer.
#[inline(always)]
#[tactic(auto, unfolding(crate::specs::Pointer::direct_at))]
pub fn direct_at(section: &[u8], offset: usize, levels: u16) -> Result<Direct, DecodeErrorKind>
    ensures value { result_ok result ≡ spec_direct_at section.now offset levels }
    ensures bound { IfOk result (λ at. at.header.size < 2 ^ 25) }
{
    let header = header_at(section, offset)?;
    if header.kind != POINTER {
        return Ok(Direct {
            header,
            after: None,
            levels,
        });
    }
    behind(
        section,
        levels,
        pointer_at(section, header.body, header.size as u8)?,
    )
}
