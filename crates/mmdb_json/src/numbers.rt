//! Numbers of JSON.
ghost use Rattle.std.specs.Prelude.{◌≡◌, OnOk};
ghost use Rattle.mmdb_format.specs.Contents.{signed32, number64, number128, double_bits, float_bits};
ghost use Rattle.mmdb_json.specs.Appended.{AppendsScalar};

use crate::draft::Draft;
use mmdb_format::content::{Double, Float};
use std::alloc::AllocError;
use std::num::{f32_from_bits_with_nan, f64_from_bits_with_nan};

/// Appends a number of at most 64 bits.
pub(crate) fn put_number(n: u64, out: &mut Draft<'_>) -> Result<(), AllocError>
    ensures { OnOk result (AppendsScalar (number64 n) out.old out.new) }
{
    let mut buffer = itoa::Buffer::new();
    out.put(buffer.format(n).as_bytes())
}

/// Appends a number of 128 bits.
pub(crate) fn put_wide(n: u128, out: &mut Draft<'_>) -> Result<(), AllocError>
    ensures { OnOk result (AppendsScalar (number128 n) out.old out.new) }
{
    let mut buffer = itoa::Buffer::new();
    out.put(buffer.format(n).as_bytes())
}

/// Appends a signed number of 32 bits.
pub(crate) fn put_signed(n: i32, out: &mut Draft<'_>) -> Result<(), AllocError>
    ensures { OnOk result (AppendsScalar (signed32 n) out.old out.new) }
{
    let mut buffer = itoa::Buffer::new();
    out.put(buffer.format(n).as_bytes())
}

/// Appends a number of double precision, by digits that read back as it; null where it is none.
pub(crate) fn put_double(double: Double, out: &mut Draft<'_>) -> Result<(), AllocError>
    ensures { OnOk result (AppendsScalar (double_bits double.bits) out.old out.new) }
{
    let x = f64_from_bits_with_nan(double.bits);
    if !x.is_finite() {
        return out.put(b"null");
    }
    let mut buffer = ryu::Buffer::new();
    out.put(buffer.format_finite(x).as_bytes())
}

/// Appends a number of single precision, by digits that read back as it; null where it is none.
pub(crate) fn put_float(float: Float, out: &mut Draft<'_>) -> Result<(), AllocError>
    ensures { OnOk result (AppendsScalar (float_bits float.bits) out.old out.new) }
{
    let x = f32_from_bits_with_nan(float.bits);
    if !x.is_finite() {
        return out.put(b"null");
    }
    let mut buffer = ryu::Buffer::new();
    out.put(buffer.format_finite(x).as_bytes())
}
