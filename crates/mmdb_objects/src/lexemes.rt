//! Strings and words of JSON: where they end.
ghost use Rattle.std.specs.Prelude.{◌≡◌, ℕ, ◌+◌, ◌<◌, ◌≤◌, IfSome, ◌||◌, length, drop, map, nat_eq, true, is_some};
ghost use Rattle.std.specs.List.{prefix_len, starts_with};
ghost use Rattle.std.specs.Char.{is_ascii_digit};
ghost use Rattle.std.specs.Simd.Lanes.{mask_l};
ghost use Rattle.json.specs.Word.{is_operator, is_space as spec_is_space, head, ends_word, after_digits, after_minus, after_sign, after_whole, after_fraction, after_exponent};
ghost use Rattle.json.specs.Json.{Json};
ghost use Rattle.json.specs.Text.{short_escape};
ghost use Rattle.mmdb_objects.specs.Scanned.{is_plain as spec_is_plain, is_stop, lexemes_at, EndsAt, EndsPlain, EndsString, EndsEscape, EndsNumber, IsCode, HasWord, HasName, begins_number, begins_integer, is_other};

use std::simd::prelude::*;

/// Whether a byte is white space of JSON.
#[inline(always)]
pub(crate) fn is_space(byte: u8) -> bool
    ensures { result ≡ spec_is_space byte }
{
    byte == b' ' || byte == b'\t' || byte == b'\n' || byte == b'\r'
}

/// The byte at an index, or a space after the end.
#[inline(always)]
pub(crate) fn byte_at(text: &[u8], at: usize) -> u8
    ensures { result ≡ head (drop at text.now) }
{
    if at < text.len() { text[at] } else { b' ' }
}

/// A byte of a text, and where it is.
#[derive(Clone, Copy)]
pub(crate) struct Stop {
    pub(crate) at: usize,
    pub(crate) byte: u8,
}

/// The byte at an index, or a space after the end.
#[inline(always)]
pub(crate) fn stop_at(text: &[u8], at: usize) -> Stop
    ensures at { result.at ≡ at }
    ensures byte { result.byte ≡ head (drop at text.now) }
{
    Stop {
        at,
        byte: byte_at(text, at),
    }
}

/// The byte at an index.
#[inline(always)]
pub(crate) fn seen_at(text: &[u8], at: usize) -> Stop
    requires { at < length text.now }
    ensures at { result.at ≡ at }
    ensures byte { result.byte ≡ head (drop at text.now) }
{
    Stop { at, byte: text[at] }
}

/// Where the white space from a byte on ends.
#[inline(always)]
pub(crate) fn space_end(text: &[u8], from: usize) -> usize
    requires { from ≤ length text.now }
    ensures low { from ≤ result }
    ensures high { result ≤ length text.now }
    ensures same { lexemes_at text.now result ≡ lexemes_at text.now from }
{
    let mut at = from;
    while at < text.len() && is_space(text[at]) {
        at += 1;
    }
    at
}

// Which of these bytes do not stand for themselves in a string. A quote, with its second bit turned,
// is the byte after the control characters, which stay below it.
#[inline(always)]
fn stops(bytes: u8x16) -> u64
    ensures { result ≡ mask_l (map is_stop bytes) }
{
    let turned = bytes ^ u8x16::splat(2);
    (bytes.simd_eq(u8x16::splat(b'\\')) | turned.simd_lt(u8x16::splat(0x21))).to_bitmask()
}

// Whether a byte of a string stands for itself.
#[inline(always)]
fn is_plain(byte: u8) -> bool
    ensures { result ≡ spec_is_plain byte }
{
    byte > b'\\' || (byte >= b' ' && byte != b'"' && byte != b'\\')
}

// Where the bytes that stand for themselves end, byte by byte.
#[inline(always)]
fn short_plain_end(text: &[u8], from: usize) -> usize
    requires { from ≤ length text.now }
    ensures { result ≡ from + prefix_len spec_is_plain (drop from text.now) }
{
    let mut at = from;
    while at < text.len() && is_plain(text[at]) {
        at += 1;
    }
    at
}

// Where the bytes that stand for themselves end, of less than 16. They are the last of the text's last
// 16 bytes, of which those ahead of them are left out.
#[inline(always)]
fn last_plain_end(text: &[u8], from: usize) -> usize
    requires within { from ≤ length text.now }
    requires few { length text.now < from + 16 }
    ensures value { result ≡ from + prefix_len spec_is_plain (drop from text.now) }
    ensures bound { result ≤ length text.now }
{
    let len = text.len();
    if len < 16 {
        return short_plain_end(text, from);
    }
    let found = stops(u8x16::from_slice(&text[len - 16..])) >> (from + 16 - len);
    if found == 0 {
        return len;
    }
    from + found.trailing_zeros() as usize
}

// Where the bytes that stand for themselves end.
#[inline(never)]
fn plain_end(text: &[u8], from: usize) -> usize
    requires { from ≤ length text.now }
    ensures value { result ≡ from + prefix_len spec_is_plain (drop from text.now) }
    ensures bound { result ≤ length text.now }
{
    let mut at = from;
    while text.len() - at >= 16 {
        let found = stops(u8x16::from_slice(&text[at..]));
        if found != 0 {
            return at + found.trailing_zeros() as usize;
        }
        at += 16;
    }
    last_plain_end(text, at)
}

// What ends the bytes that stand for themselves. Most strings are short, so that their ends are seen
// in 16 bytes, without a call.
#[inline(always)]
fn plain_stop(text: &[u8], from: usize) -> Stop
    requires { from ≤ length text.now }
    ensures at { result.at ≡ from + prefix_len spec_is_plain (drop from text.now) }
    ensures byte { result.byte ≡ head (drop result.at text.now) }
    ensures bound { result.at ≤ length text.now }
{
    if from + 16 > text.len() {
        return stop_at(text, plain_end(text, from));
    }
    let found = stops(u8x16::from_slice(&text[from..]));
    if found == 0 {
        return stop_at(text, plain_end(text, from + 16));
    }
    seen_at(text, from + found.trailing_zeros() as usize)
}

/// The quote that ends a string, from the byte after its first quote on; none where a byte does
/// not stand for itself.
#[inline(always)]
pub(crate) fn plain_string_end(text: &[u8], from: usize) -> Option<usize>
    requires { from ≤ length text.now }
    ensures { IfSome result (EndsPlain text.now from) }
{
    let stop = plain_stop(text, from);
    if stop.byte == b'"' {
        Some(stop.at)
    } else {
        None
    }
}

// Whether a byte makes an escape with a backslash before it. A `u` does not: four digits follow.
#[inline(always)]
#[tactic(auto, unfolding(json::specs::Text::short_escape))]
fn is_short_escape(byte: u8) -> bool
    ensures { result ≡ is_some (short_escape byte) }
{
    byte == b'"'
        || byte == b'\\'
        || byte == b'/'
        || byte == b'b'
        || byte == b'f'
        || byte == b'n'
        || byte == b'r'
        || byte == b't'
}

// Where the four digits of an escape with `u` end; none where the first of them is no decimal digit,
// as in each half of a pair.
fn code_end(text: &[u8], from: usize) -> Option<usize>
    requires { from ≤ length text.now }
    ensures { IfSome result (IsCode text.now from) }
{
    if text.len() - from < 4 || !text[from].is_ascii_digit() {
        return None;
    }
    let (b, c, d) = (text[from + 1], text[from + 2], text[from + 3]);
    if b.is_ascii_hexdigit() && c.is_ascii_hexdigit() && d.is_ascii_hexdigit() {
        Some(from + 4)
    } else {
        None
    }
}

// Where an escape ends, from after its backslash on.
#[inline(never)]
fn escape_end(text: &[u8], from: usize) -> Option<usize>
    requires { from ≤ length text.now }
    ensures { IfSome result (EndsEscape text.now from) }
{
    let byte = byte_at(text, from);
    if is_short_escape(byte) {
        return Some(from + 1);
    }
    if byte != b'u' {
        return None;
    }
    code_end(text, from + 1)
}

// The quote that ends a string, which has escapes, from a byte between two of them on; none where an
// escape may be half of a pair.
#[inline(never)]
fn escaped_end(text: &[u8], from: usize) -> Option<usize>
    requires { from ≤ length text.now }
    ensures { IfSome result (EndsString text.now from) }
{
    let mut at = from;
    loop {
        let stop = plain_stop(text, at);
        if stop.byte == b'"' {
            return Some(stop.at);
        }
        if stop.byte != b'\\' {
            return None;
        }
        at = escape_end(text, stop.at + 1)?;
    }
}

// The same from after a backslash on.
#[inline(never)]
fn behind_backslash(text: &[u8], from: usize) -> Option<usize>
    requires { from ≤ length text.now }
    ensures { IfSome result (λ quote. (at : ℕ) × EndsEscape text.now from at
        × EndsString text.now at quote) }
{
    let at = escape_end(text, from)?;
    escaped_end(text, at)
}

/// The quote that ends a string, from the byte after its first quote on; none where an escape may
/// be half of a pair.
#[inline(always)]
pub(crate) fn string_end(text: &[u8], from: usize) -> Option<usize>
    requires { from ≤ length text.now }
    ensures { IfSome result (EndsString text.now from) }
{
    let stop = plain_stop(text, from);
    if stop.byte == b'"' {
        return Some(stop.at);
    }
    if stop.byte != b'\\' {
        return None;
    }
    behind_backslash(text, stop.at + 1)
}

#[inline(always)]
fn digits_end(text: &[u8], from: usize) -> usize
    requires { from ≤ length text.now }
    ensures value { result ≡ from + prefix_len is_ascii_digit (drop from text.now) }
    ensures bound { result ≤ length text.now }
{
    let mut at = from;
    while at < text.len() && text[at].is_ascii_digit() {
        at += 1;
    }
    at
}

// The same by a call, for digits that are not seen in 16 bytes.
#[inline(never)]
fn far_digits_end(text: &[u8], from: usize) -> usize
    requires { from ≤ length text.now }
    ensures value { result ≡ from + prefix_len is_ascii_digit (drop from text.now) }
    ensures bound { result ≤ length text.now }
{
    digits_end(text, from)
}

// Which of these bytes are no digits.
#[inline(always)]
fn others(bytes: u8x16) -> u64
    ensures { result ≡ mask_l (map is_other bytes) }
{
    (bytes.simd_lt(u8x16::splat(b'0')) | bytes.simd_gt(u8x16::splat(b'9'))).to_bitmask()
}

// What ends the digits from a byte on. Most numbers end in the first 16 bytes.
#[inline(always)]
fn digits_stop(text: &[u8], from: usize) -> Stop
    requires { from ≤ length text.now }
    ensures at { result.at ≡ from + prefix_len is_ascii_digit (drop from text.now) }
    ensures byte { result.byte ≡ head (drop result.at text.now) }
    ensures bound { result.at ≤ length text.now }
{
    if from + 16 > text.len() {
        return stop_at(text, far_digits_end(text, from));
    }
    let found = others(u8x16::from_slice(&text[from..]));
    if found == 0 {
        return stop_at(text, far_digits_end(text, from + 16));
    }
    seen_at(text, from + found.trailing_zeros() as usize)
}

#[inline(always)]
fn some_digits_end(text: &[u8], from: usize) -> Option<usize>
    requires { from ≤ length text.now }
    ensures { EndsAt text.now from result (after_digits (drop from text.now)) }
{
    let end = digits_end(text, from);
    if end == from { None } else { Some(end) }
}

#[inline(always)]
fn minus_end(text: &[u8], from: usize) -> usize
    requires { from ≤ length text.now }
    ensures value { drop result text.now ≡ after_minus (drop from text.now) }
    ensures bounds { (from ≤ result) × (result ≤ length text.now) }
{
    if byte_at(text, from) == b'-' {
        from + 1
    } else {
        from
    }
}

#[inline(always)]
fn whole_end(text: &[u8], from: usize) -> Option<usize>
    requires { from ≤ length text.now }
    ensures { EndsAt text.now from result (after_whole (drop from text.now)) }
{
    if byte_at(text, from) == b'0' {
        Some(from + 1)
    } else {
        some_digits_end(text, from)
    }
}

#[inline(always)]
fn fraction_end(text: &[u8], from: usize) -> Option<usize>
    requires { from ≤ length text.now }
    ensures { EndsAt text.now from result (after_fraction (drop from text.now)) }
{
    if byte_at(text, from) == b'.' {
        some_digits_end(text, from + 1)
    } else {
        Some(from)
    }
}

#[inline(always)]
fn sign_end(text: &[u8], from: usize) -> usize
    requires { from ≤ length text.now }
    ensures value { drop result text.now ≡ after_sign (drop from text.now) }
    ensures bounds { (from ≤ result) × (result ≤ length text.now) }
{
    let byte = byte_at(text, from);
    if (byte == b'-') | (byte == b'+') {
        from + 1
    } else {
        from
    }
}

#[inline(always)]
fn exponent_end(text: &[u8], from: usize) -> Option<usize>
    requires { from ≤ length text.now }
    ensures { EndsAt text.now from result (after_exponent (drop from text.now)) }
{
    let byte = byte_at(text, from);
    if !((byte == b'e') | (byte == b'E')) {
        return Some(from);
    }
    some_digits_end(text, sign_end(text, from + 1))
}

// Where a literal of this name ends.
fn literal_end(text: &[u8], from: usize, name: &[u8]) -> Option<usize>
    requires { from ≤ length text.now }
    ensures { IfSome result (λ end. (starts_with nat_eq (drop from text.now) name.now ≡ true)
        × (end ≡ from + length name.now) × (end ≤ length text.now)) }
{
    if text[from..].starts_with(name) {
        Some(from + name.len())
    } else {
        None
    }
}

// Whether a word ends before a byte.
#[inline(always)]
fn ends_before(byte: u8) -> bool
    ensures { result ≡ (is_operator byte || spec_is_space byte) }
{
    byte == b','
        || byte == b'}'
        || byte == b']'
        || is_space(byte)
        || byte == b':'
        || byte == b'{'
        || byte == b'['
}

// Whether a number begins with a byte.
#[inline(always)]
fn is_number_start(byte: u8) -> bool
    ensures { result ≡ begins_number byte }
{
    byte == b'-' || byte.is_ascii_digit()
}

/// Whether an integer begins with a byte that is not 0.
#[inline(always)]
pub(crate) fn is_integer_start(byte: u8) -> bool
    ensures { result ≡ begins_integer byte }
{
    byte >= b'1' && byte <= b'9'
}

// Where a number ends of which the whole part ends at a byte.
#[inline(never)]
fn rest_word_end(text: &[u8], from: usize) -> Option<usize>
    requires { from ≤ length text.now }
    ensures { IfSome result (EndsNumber text.now from) }
{
    let power = fraction_end(text, from)?;
    let end = exponent_end(text, power)?;
    if ends_before(byte_at(text, end)) {
        Some(end)
    } else {
        None
    }
}

// Where a number ends that begins with a minus or a digit.
#[inline(always)]
fn number_word_end(text: &[u8], from: usize) -> Option<usize>
    requires within { from ≤ length text.now }
    requires first { begins_number (head (drop from text.now)) ≡ true }
    ensures bounds { IfSome result (λ end. (from ≤ end) × (end ≤ length text.now)) }
    ensures word { IfSome result (λ end. (j : Json) × HasWord text.now from end j) }
{
    let point = whole_end(text, minus_end(text, from))?;
    rest_word_end(text, point)
}

/// Where a number ends that begins with a digit other than 0. Most of these are integers.
#[inline(always)]
pub(crate) fn digits_word_end(text: &[u8], from: usize) -> Option<usize>
    requires within { from ≤ length text.now }
    requires first { begins_integer (head (drop from text.now)) ≡ true }
    ensures bounds { IfSome result (λ end. (from ≤ end) × (end ≤ length text.now)) }
    ensures word { IfSome result (λ end. (j : Json) × HasWord text.now from end j) }
{
    let stop = digits_stop(text, from);
    if ends_before(stop.byte) {
        Some(stop.at)
    } else {
        rest_word_end(text, stop.at)
    }
}

// Where a literal of this name ends.
fn literal_word_end(text: &[u8], from: usize, name: &[u8]) -> Option<usize>
    requires { from ≤ length text.now }
    ensures bounds { IfSome result (λ end. (from ≤ end) × (end ≤ length text.now)) }
    ensures word { IfSome result (λ end. HasName text.now from end name.now) }
{
    let end = literal_end(text, from, name)?;
    if ends_before(byte_at(text, end)) {
        Some(end)
    } else {
        None
    }
}

/// Where a number or a literal ends.
#[inline(never)]
pub(crate) fn word_end(text: &[u8], from: usize) -> Option<usize>
    requires { from ≤ length text.now }
    ensures bounds { IfSome result (λ end. (from ≤ end) × (end ≤ length text.now)) }
    ensures word { IfSome result (λ end. (j : Json) × HasWord text.now from end j) }
{
    let byte = byte_at(text, from);
    if is_number_start(byte) {
        number_word_end(text, from)
    } else if byte == b't' {
        literal_word_end(text, from, b"true")
    } else if byte == b'f' {
        literal_word_end(text, from, b"false")
    } else if byte == b'n' {
        literal_word_end(text, from, b"null")
    } else {
        None
    }
}
