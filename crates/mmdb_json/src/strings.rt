//! Strings of JSON.
ghost use Rattle.std.specs.Char.{digit_char};
ghost use Rattle.std.specs.Prelude.{◌≡◌, ◌<◌, ◌≤◌, ◌++◌, length, take, true, OnOk, IfOk};
ghost use Rattle.std.specs.List.{All};
ghost use Rattle.json.specs.Print.{escape, escape_byte, escape_letter, quoted};
ghost use Rattle.base64.specs.GeneralPurpose.{encode_of};
ghost use Rattle.base64.specs.Engines.{standard};
ghost use Rattle.mmdb_json.specs.Drafts.{IsBehind};
ghost use Rattle.mmdb_json.specs.Appended.{IsPlain};

use base64::engine::general_purpose::STANDARD;
use json::Writer;
use std::alloc::{AllocError, Global};
use std::mem;

/// A string of a longer text is not written apart, nor one after less than this.
pub(crate) const MOST_APART: usize = 1024;

/// A longer text is looked at as a whole.
const SHORT: usize = 64;

/// A shorter text is escaped by runs of bytes that are not, a longer one by the kit's writer, many bytes at a time.
const FEW: usize = 24;

// Whether a byte is not escaped in a string.
#[inline(always)]
fn is_plain_byte(byte: u8) -> bool
    ensures { result ≡ true → IsPlain byte }
{
    (byte >= b' ') & (byte != b'"') & (byte != b'\\')
}

// Whether none of some bytes is escaped in a string. All are looked at, which goes by vectors where it is known how many
// there are.
#[inline(always)]
fn are_plain(text: &[u8]) -> bool
    ensures { result ≡ true → All IsPlain text.now }
{
    let mut are_plain = true;
    for byte in text {
        are_plain &= is_plain_byte(*byte);
    }
    are_plain
}

// How many bytes at the beginning of a text are not escaped in a string.
#[inline(always)]
fn plain_len(text: &[u8]) -> usize
    ensures bound { result ≤ length text.now }
    ensures plain { All IsPlain (take result text.now) }
{
    let mut at = 0;
    while text.len() - at >= 16 && are_plain(&text[at..at + 16]) {
        at += 16;
    }
    while text.len() - at >= 4 && are_plain(&text[at..at + 4]) {
        at += 4;
    }
    while at < text.len() && is_plain_byte(text[at]) {
        at += 1;
    }
    at
}

/// Whether no byte of a text is escaped in a string.
#[inline(always)]
pub(crate) fn is_plain(text: &[u8]) -> bool
    ensures { result ≡ true → escape text.now ≡ text.now }
{
    if text.len() >= SHORT {
        return are_plain(text);
    }
    plain_len(text) == text.len()
}

/// Appends the string of a text in which no byte is escaped.
#[inline(always)]
pub(crate) fn put_plain(text: &[u8], out: &mut Vec<u8>) -> Result<(), AllocError>
    requires { escape text.now ≡ text.now }
    ensures put { OnOk result (out.new.items ≡ out.old.items ++ quoted text.now) }
    ensures behind { IsBehind out.old.items out.new.items }
{
    out.push(b'"')?;
    out.extend_from_slice(text)?;
    Ok(out.push(b'"')?)
}

// The letter of a byte's short escape, or 0 where it has none.
#[inline(always)]
fn letter_of(byte: u8) -> u8
    ensures { result ≡ escape_letter byte }
{
    match byte {
        b'"' | b'\\' => byte,
        8 => b'b',
        9 => b't',
        10 => b'n',
        12 => b'f',
        13 => b'r',
        _ => 0,
    }
}

#[inline(always)]
fn hex_of(digit: u8) -> u8
    requires { digit < 16 }
    ensures { result ≡ digit_char digit }
{
    if digit < 10 {
        b'0' + digit
    } else {
        b'a' - 10 + digit
    }
}

// Appends what is written in a string for a byte.
#[inline(always)]
fn put_byte(byte: u8, out: &mut Vec<u8>) -> Result<(), AllocError>
    ensures put { OnOk result (out.new.items ≡ out.old.items ++ escape_byte byte) }
    ensures behind { IsBehind out.old.items out.new.items }
{
    let letter = letter_of(byte);
    if letter > 0 {
        out.push(b'\\')?;
        return Ok(out.push(letter)?);
    }
    if byte < b' ' {
        let digits = [hex_of(byte / 16), hex_of(byte % 16)];
        return out.extend_from_slice(&[b'\\', b'u', b'0', b'0', digits[0], digits[1]]);
    }
    Ok(out.push(byte)?)
}

// Appends the string of a text, by runs of bytes that are not escaped.
fn put_short(text: &[u8], out: &mut Vec<u8>) -> Result<(), AllocError>
    ensures put { OnOk result (out.new.items ≡ out.old.items ++ quoted text.now) }
    ensures behind { IsBehind out.old.items out.new.items }
{
    out.push(b'"')?;
    let mut left = text;
    while !left.is_empty() {
        let (plain, escaped) = left.split_at(plain_len(left));
        out.extend_from_slice(plain)?;
        left = match escaped.split_first() {
            Some((byte, behind)) => {
                put_byte(*byte, out)?;
                behind
            }
            None => escaped,
        };
    }
    Ok(out.push(b'"')?)
}

// Appends the string of a text, which is written where the others are.
fn put_long(alloc: Global, text: &str, out: &mut Vec<u8>) -> Result<(), AllocError>
    ensures put { OnOk result (out.new.items ≡ out.old.items ++ quoted text.now) }
    ensures behind { IsBehind out.old.items out.new.items }
{
    let mut writer = Writer::new(mem::replace(out, Vec::new(alloc)));
    let written = writer.string(text);
    *out = writer.into_inner();
    written
}

// The string of a text, written in a room.
fn string_in(room: Vec<u8>, text: &str) -> Result<Vec<u8>, AllocError>
    ensures { IfOk result (λ string. string.items ≡ quoted text.now) }
{
    let mut room = room;
    room.clear();
    let mut writer = Writer::new(room);
    writer.string(text)?;
    Ok(writer.into_inner())
}

/// Appends the string of a text. One of middling length after much is written apart, in a room for it: the kit's writer fills
/// room ahead of what it writes, the more the longer the text before it is.
#[inline(never)]
pub(crate) fn put_string(
    alloc: Global,
    text: &str,
    room: &mut Vec<u8>,
    out: &mut Vec<u8>,
) -> Result<(), AllocError>
    ensures put { OnOk result (out.new.items ≡ out.old.items ++ quoted text.now) }
    ensures behind { IsBehind out.old.items out.new.items }
{
    if text.len() < FEW {
        return put_short(text.as_bytes(), out);
    }
    if text.len() > MOST_APART || out.len() <= MOST_APART {
        return put_long(alloc, text, out);
    }
    let string = string_in(mem::replace(room, Vec::new(alloc)), text)?;
    let done = out.extend_from_slice(string.as_slice());
    *room = string;
    done
}

/// Appends the string of bytes, in base64.
#[inline(never)]
pub(crate) fn put_bytes(
    alloc: Global,
    bytes: &[u8],
    room: &mut Vec<u8>,
    out: &mut Vec<u8>,
) -> Result<(), AllocError>
    ensures put { OnOk result
        (out.new.items ≡ out.old.items ++ quoted (encode_of standard bytes.now)) }
    ensures behind { IsBehind out.old.items out.new.items }
{
    let text = STANDARD.encode(alloc, bytes)?;
    if is_plain(text.as_bytes()) {
        return put_plain(text.as_bytes(), out);
    }
    put_string(alloc, text.as_str(), room, out)
}
