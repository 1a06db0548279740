//! Numbers as JSON writes them, compared exactly.
ghost use Rattle.std.specs.Prelude.{◌≡◌, ◌≤◌, ◌<◌, ◌+◌, ◌-◌, ◌*◌, ◌^◌, ◌↔◌, ℕ, IsTrue, IfOk, MatchOption, length, map, min};
ghost use Rattle.std.specs.Option.{SomeIff};
ghost use Rattle.std.specs.Str.Parse.{AllDigits, digits_value};
ghost use Rattle.fast_float.specs.Text.{digits_of, tens_up, tens_down};
ghost use Rattle.json.specs.Word.{after_minus};
ghost use Rattle.std.specs.Float.{binary32, binary64};
ghost use Rattle.mmdb_layout.specs.Numbers.{is_negative, IsNumeric, IsSmaller, IsLessBy, IsBeyond, SaysBeyondAll, IsSameNumber, IsReadAsFloat};
ghost use Rattle.mmdb_layout.specs.Digits.{IsReadAs, AreDigitsOf};

use fast_float::Numeral;
use std::alloc::{AllocError, Global};

/// On which side of a number another one is.
#[derive(Clone, Copy)]
pub(crate) enum Side {
    Above,
    Below,
}

/// A number as its text writes it.
#[derive(Drop)]
struct Number<'a> {
    is_negative: bool,
    /// Its digits, without the sign.
    numeral: Numeral<'a>,
    /// The number that the digits of its exponent write.
    exponent: u64,
    ghost read: { exponent ≡ digits_value 10 numeral.exponent },
    ghost short: { length numeral.whole + length numeral.fraction < 2 ^ 63 },
}

// The number that the digits of an exponent write, 0 where there are none. None where it is 2^64 or more.
fn exponent_of(digits: &[u8]) -> Option<u64>
    requires { AllDigits 10 digits.now }
    ensures { SomeIff result (digits_value 10 digits.now < 2 ^ 64) (digits_value 10 digits.now) }
{
    if digits.is_empty() {
        return Some(0);
    }
    fast_float::parse_u64(digits).ok()
}

// Whether a text begins with a minus, and what follows it.
fn split_sign(text: &[u8]) -> (bool, &[u8])
    ensures { (result.0 ≡ is_negative text.now) × (result.1.now ≡ after_minus text.now) }
{
    match text {
        [b'-', rest @ ..] => (true, rest),
        _ => (false, text),
    }
}

// The number that a text writes. None where it is no number of JSON, and where its exponent is 2^64 or more.
fn number_of(text: &str) -> Option<Number<'_>>
    ensures { MatchOption result (¬ IsNumeric text.now)
        (λ number. IsReadAs text.now number.is_negative number.numeral) }
{
    if !json::is_number(text) {
        return None;
    }
    let (is_negative, size) = split_sign(text.as_bytes());
    let numeral = Numeral::scan(size);
    let exponent = exponent_of(numeral.exponent())?;
    Some(Number {
        is_negative,
        numeral,
        exponent,
    })
}

impl Number<'_> {
    // How many digits it has, without those of its exponent.
    fn count(&self) -> usize
        ensures value { result ≡ length self.now.numeral.whole + length self.now.numeral.fraction }
        ensures bound { digits_of self.now.numeral < 10 ^ result }
    {
        self.numeral.whole().len() + self.numeral.fraction().len()
    }

    // The power of ten that the digits are multiplied by.
    fn tens_up(&self) -> u128
        ensures value { result ≡ tens_up self.now.numeral }
        ensures small { result < 2 ^ 64 }
    {
        if self.numeral.is_exponent_negative() {
            0
        } else {
            self.exponent as u128
        }
    }

    // The power of ten that they are divided by.
    fn tens_down(&self) -> u128
        ensures value { result ≡ tens_down self.now.numeral }
        ensures small { result < 2 ^ 65 }
    {
        let places = self.numeral.fraction().len() as u128;
        if self.numeral.is_exponent_negative() {
            places + self.exponent as u128
        } else {
            places
        }
    }

    // Its digits with zeros after them, and before them as many as make them so many.
    fn digits(&self, alloc: Global, zeros: usize, size: usize) -> Result<Vec<u8>, AllocError>
        requires { length self.now.numeral.whole + length self.now.numeral.fraction + zeros ≤ size }
        ensures { IfOk result (λ digits. AreDigitsOf self.now.numeral zeros size digits.items) }
    {
        let mut digits = vec![in alloc; b'0'; size - zeros - self.count()]?;
        digits.extend_from_slice(self.numeral.whole())?;
        digits.extend_from_slice(self.numeral.fraction())?;
        digits.resize(size, b'0')?;
        Ok(digits)
    }
}

// By how much a number is larger than another one, and at most so much.
fn excess(number: u128, other: u128, most: usize) -> usize
    ensures { result ≡ min (number - other) most }
{
    number.saturating_sub(other).min(most as u128) as usize
}

// Whether digits write a smaller number than other digits, as many.
fn are_smaller(digits: &[u8], others: &[u8]) -> bool
    requires own { AllDigits 10 digits.now }
    requires other { AllDigits 10 others.now }
    requires wide { length digits.now ≡ length others.now }
    ensures { IsTrue result ↔ (digits_value 10 digits.now < digits_value 10 others.now) }
{
    digits.cmp(&others).is_lt()
}

// Whether a number is smaller than another one, without their signs.
fn is_smaller(alloc: Global, number: &Number<'_>, other: &Number<'_>) -> Result<bool, AllocError>
    ensures { IfOk result (λ b. IsTrue b ↔ IsSmaller number.now.numeral other.now.numeral) }
{
    let tens = number.tens_up() + other.tens_down();
    let other_tens = other.tens_up() + number.tens_down();
    // more zeros than digits change nothing
    let most = number.count().max(other.count());
    let zeros = excess(tens, other_tens, most);
    let other_zeros = excess(other_tens, tens, most);
    let width = (number.count() + zeros).max(other.count() + other_zeros);
    let digits = number.digits(alloc, zeros, width)?;
    let others = other.digits(alloc, other_zeros, width)?;
    Ok(are_smaller(digits.as_slice(), others.as_slice()))
}

// Whether all digits are 0.
fn are_zeros(digits: &[u8]) -> bool
    requires { AllDigits 10 digits.now }
    ensures { IsTrue result ↔ (digits_value 10 digits.now ≡ 0) }
{
    for digit in digits {
        if *digit != b'0' {
            return false;
        }
    }
    true
}

// Whether a number is 0.
fn is_zero(number: &Number<'_>) -> bool
    ensures { IsTrue result ↔ (digits_of number.now.numeral ≡ 0) }
{
    are_zeros(number.numeral.whole()) && are_zeros(number.numeral.fraction())
}

// Whether a number is less than another one.
fn is_less(alloc: Global, number: &Number<'_>, other: &Number<'_>) -> Result<bool, AllocError>
    ensures { IfOk result (λ b. IsTrue b ↔ IsLessBy number.now.is_negative number.now.numeral
        other.now.is_negative other.now.numeral) }
{
    match (number.is_negative, other.is_negative) {
        (false, false) => is_smaller(alloc, number, other),
        (true, true) => is_smaller(alloc, other, number),
        (true, false) => Ok(!is_zero(number) || !is_zero(other)),
        (false, true) => Ok(false),
    }
}

// Whether two texts are numbers, the first on this side of the second one.
fn is_beyond(alloc: Global, side: Side, own: &str, bound: &str) -> Result<bool, AllocError>
    ensures { IfOk result (λ b. IsTrue b ↔ IsBeyond side own.now bound.now) }
{
    let (Some(own), Some(bound)) = (number_of(own), number_of(bound)) else {
        return Ok(false);
    };
    match side {
        Side::Above => is_less(alloc, &bound, &own),
        Side::Below => is_less(alloc, &own, &bound),
    }
}

/// Whether a text is a number on this side of each of the texts.
pub(crate) fn is_beyond_all(
    alloc: Global,
    side: Side,
    own: &str,
    bounds: &[&str],
) -> Result<bool, AllocError>
    ensures { IfOk result (SaysBeyondAll side own.now (map (λ t. t.now) bounds.now)) }
{
    for bound in bounds {
        if !is_beyond(alloc, side, own, *bound)? {
            return Ok(false);
        }
    }
    Ok(true)
}

/// Whether a text is a number of JSON that can be compared: its exponent is below 2^64.
pub fn is_comparable(text: &str) -> bool
    ensures { IsTrue result ↔ IsNumeric text.now }
{
    number_of(text).is_some()
}

/// Whether a text is digits alone.
pub(crate) fn are_digits(text: &[u8]) -> bool
    ensures { IsTrue result ↔ AllDigits 10 text.now }
{
    for byte in text {
        if !byte.is_ascii_digit() {
            return false;
        }
    }
    true
}

/// Whether two texts are the same number.
pub(crate) fn is_same_number(alloc: Global, own: &str, other: &str) -> Result<bool, AllocError>
    ensures { IfOk result (λ b. IsTrue b ↔ IsSameNumber own.now other.now) }
{
    // digits alone are the same number only where they are the same text
    if are_digits(other.as_bytes()) && are_digits(own.as_bytes()) {
        return Ok(own == other && is_comparable(own));
    }
    let Some(other) = number_of(other) else {
        return Ok(false);
    };
    let Some(own) = number_of(own) else {
        return Ok(false);
    };
    Ok(!is_less(alloc, &own, &other)? && !is_less(alloc, &other, &own)?)
}

/// Whether a text is a number of JSON that is read as this double.
pub(crate) fn is_f64(x: f64, text: &str) -> bool
    ensures { IsTrue result ↔ IsReadAsFloat binary64 x text.now }
{
    if !x.is_finite() || !json::is_number(text) {
        return false;
    }
    let read: Result<f64, fast_float::Error> = fast_float::parse(text);
    match read {
        Ok(read) => read == x,
        Err(_) => false,
    }
}

/// The same of a float.
pub(crate) fn is_f32(x: f32, text: &str) -> bool
    ensures { IsTrue result ↔ IsReadAsFloat binary32 x text.now }
{
    if !x.is_finite() || !json::is_number(text) {
        return false;
    }
    let read: Result<f32, fast_float::Error> = fast_float::parse(text);
    match read {
        Ok(read) => read == x,
        Err(_) => false,
    }
}
