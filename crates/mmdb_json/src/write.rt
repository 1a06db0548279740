//! Values as tokens of JSON.
ghost use Rattle.std.specs.Prelude.{◌≡◌, OnOk};
ghost use Rattle.mmdb_format.specs.Contents.{bytes as byte_string, signed32, number64, number128, double_bits, float_bits};
ghost use Rattle.mmdb_value.specs.Values.{value_tree};
ghost use Rattle.mmdb_json.specs.Shown.{WritesShown};
ghost use Rattle.mmdb_json.specs.Working.{WritesScalar};

use crate::sink::TokenSink;
use base64::engine::general_purpose::STANDARD;
use json::Token;
use mmdb_value::{Double, Float, Value};
use std::alloc::{AllocError, Global};
use std::num::{f32_from_bits_with_nan, f64_from_bits_with_nan};

// Bytes are a string of base64.
fn write_bytes<W: TokenSink>(alloc: Global, bytes: &[u8], out: &mut W) -> Result<(), AllocError>
    ensures shown { OnOk result (WritesScalar (byte_string bytes.now)
        (W.tokens out.old) (W.tokens out.new)) }
    ensures front { W.front out.new ≡ W.front out.old }
{
    let text = STANDARD.encode(alloc, bytes)?;
    out.token(Token::String(text.as_str()))
}

// A number of 128 bits.
fn write_wide<W: TokenSink>(n: u128, out: &mut W) -> Result<(), AllocError>
    ensures shown { OnOk result (WritesScalar (number128 n) (W.tokens out.old) (W.tokens out.new)) }
    ensures front { W.front out.new ≡ W.front out.old }
{
    let mut buffer = itoa::Buffer::new();
    out.token(Token::Number(buffer.format(n)))
}

// A number of at most 64 bits.
fn write_number<W: TokenSink>(n: u64, out: &mut W) -> Result<(), AllocError>
    ensures shown { OnOk result (WritesScalar (number64 n) (W.tokens out.old) (W.tokens out.new)) }
    ensures front { W.front out.new ≡ W.front out.old }
{
    let mut buffer = itoa::Buffer::new();
    out.token(Token::Number(buffer.format(n)))
}

// A signed number of 32 bits.
fn write_signed<W: TokenSink>(n: i32, out: &mut W) -> Result<(), AllocError>
    ensures shown { OnOk result (WritesScalar (signed32 n) (W.tokens out.old) (W.tokens out.new)) }
    ensures front { W.front out.new ≡ W.front out.old }
{
    let mut buffer = itoa::Buffer::new();
    out.token(Token::Number(buffer.format(n)))
}

// A number of double precision, by digits that read back as it; null where it is none.
fn write_double<W: TokenSink>(double: Double, out: &mut W) -> Result<(), AllocError>
    ensures shown { OnOk result (WritesScalar (double_bits double.bits)
        (W.tokens out.old) (W.tokens out.new)) }
    ensures front { W.front out.new ≡ W.front out.old }
{
    let x = f64_from_bits_with_nan(double.bits);
    if !x.is_finite() {
        return out.token(Token::Null);
    }
    let mut buffer = ryu::Buffer::new();
    out.token(Token::Number(buffer.format_finite(x)))
}

// A number of single precision, by digits that read back as it; null where it is none.
fn write_float<W: TokenSink>(float: Float, out: &mut W) -> Result<(), AllocError>
    ensures shown { OnOk result (WritesScalar (float_bits float.bits)
        (W.tokens out.old) (W.tokens out.new)) }
    ensures front { W.front out.new ≡ W.front out.old }
{
    let x = f32_from_bits_with_nan(float.bits);
    if !x.is_finite() {
        return out.token(Token::Null);
    }
    let mut buffer = ryu::Buffer::new();
    out.token(Token::Number(buffer.format_finite(x)))
}

/// Gives the tokens of JSON that shows a value. An `Err` is of memory, and leaves some of them given.
pub fn write_value<W: TokenSink>(
    alloc: Global,
    value: &Value<'_>,
    out: &mut W,
) -> Result<(), AllocError>
    ensures shown { OnOk result (WritesShown (value_tree value.now)
        (W.tokens out.old) (W.tokens out.new)) }
    ensures front { W.front out.new ≡ W.front out.old }
{
    match value {
        Value::String(text) => out.token(Token::String(*text)),
        Value::Bytes(bytes) => write_bytes(alloc, *bytes, out),
        Value::Bool(b) => out.token(Token::Bool(*b)),
        Value::I32(n) => write_signed(*n, out),
        Value::U16(n) => write_number(u64::from(*n), out),
        Value::U32(n) => write_number(u64::from(*n), out),
        Value::U64(n) => write_number(*n, out),
        Value::U128(n) => write_wide(*n, out),
        Value::Double(x) => write_double(*x, out),
        Value::Float(x) => write_float(*x, out),
        Value::Array(values) => {
            out.token(Token::BeginArray)?;
            for value in values {
                write_value(alloc, value, out)?;
            }
            out.token(Token::EndArray)
        }
        Value::Map(pairs) => {
            out.token(Token::BeginObject)?;
            for pair in pairs {
                out.token(Token::Key(pair.0))?;
                write_value(alloc, &pair.1, out)?;
            }
            out.token(Token::EndObject)
        }
    }
}
