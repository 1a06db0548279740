//! Headers of values.
ghost use Rattle.std.specs.Prelude.{◌≡◌, ◌≤◌, ◌<◌, ◌++◌, OnOk};
ghost use Rattle.mmdb_section.specs.Bytes.{low_bits_of, control_bytes, size_bytes, header_bytes};
ghost use Rattle.mmdb_section.specs.Sections.{most_size};
ghost use Rattle.mmdb_section.specs.Encoding.{Appends, IsHeader};
ghost use Rattle.mmdb_section.specs.Working.{IsControl, IsSize};

use std::alloc::AllocError;

/// The greatest size that a header can have.
pub const MOST_SIZE: usize = 16_843_036;

// The five bits of a control byte that say a size, or how many bytes say it.
fn low_bits(size: usize) -> u8
    ensures bound { result < 32 }
    ensures own { size < 29 → result ≡ size }
    ensures one { 29 ≤ size → size < 285 → result ≡ 29 }
    ensures two { 285 ≤ size → size < 65821 → result ≡ 30 }
    ensures three { 65821 ≤ size → result ≡ 31 }
    ensures bits { result ≡ low_bits_of size }
{
    if size < 29 {
        size as u8
    } else if size < 285 {
        29
    } else if size < 65_821 {
        30
    } else {
        31
    }
}

// The control byte of a type, and the byte after it of an extended type.
fn push_control(out: &mut Vec<u8>, kind: u16, low: u8) -> Result<(), AllocError>
    requires no_pointer { 1 < kind }
    requires kind { kind < 16 }
    requires low { low < 32 }
    ensures says { OnOk result (Appends (IsControl kind low) out.old.items out.new.items) }
    ensures bytes { OnOk result (out.new.items ≡ out.old.items ++ control_bytes kind low) }
{
    if kind < 8 {
        out.extend_from_slice(&[(kind * 32) as u8 + low])
    } else {
        out.extend_from_slice(&[low, (kind - 7) as u8])
    }
}

// The bytes after a control byte that say a larger size.
fn push_size(out: &mut Vec<u8>, low: u8, size: usize) -> Result<(), AllocError>
    requires own { size < 29 → low ≡ size }
    requires one { 29 ≤ size → size < 285 → low ≡ 29 }
    requires two { 285 ≤ size → size < 65821 → low ≡ 30 }
    requires three { 65821 ≤ size → low ≡ 31 }
    requires most { size ≤ most_size }
    ensures says { OnOk result (Appends (IsSize low size) out.old.items out.new.items) }
    ensures bytes { OnOk result (out.new.items ≡ out.old.items ++ size_bytes size) }
{
    if size < 29 {
        Ok(())
    } else if size < 285 {
        out.extend_from_slice(&[(size - 29) as u8])
    } else if size < 65_821 {
        let above = size - 285;
        out.extend_from_slice(&[(above / 256) as u8, (above % 256) as u8])
    } else {
        let above = size - 65_821;
        out.extend_from_slice(&[
            (above / 65_536) as u8,
            (above / 256 % 256) as u8,
            (above % 256) as u8,
        ])
    }
}

/// Appends the header of a value that is no pointer ("Data Field Format" of the MaxMind DB File Format Specification 2.0): a
/// control byte, the byte of an extended type, and up to three bytes of a larger size. An array's size is how many values come
/// after it, a map's how many pairs.
pub fn push_header(out: &mut Vec<u8>, kind: u16, size: usize) -> Result<(), AllocError>
    requires no_pointer { 1 < kind }
    requires kind { kind < 16 }
    requires size { size ≤ most_size }
    ensures says { OnOk result (Appends (IsHeader kind size) out.old.items out.new.items) }
    ensures bytes { OnOk result (out.new.items ≡ out.old.items ++ header_bytes kind size) }
{
    let low = low_bits(size);
    push_control(out, kind, low)?;
    push_size(out, low, size)
}
