// The texts of networks: their parts in writing and in reading.
ghost use Rattle.std.specs.Prelude.{◌≡◌, ◌+◌, ◌++◌, ◌<◌, ◌≤◌, ◌∷◌, Some, IfOk, OnOk, OnErr, MatchOption, codes, decimal, length};
ghost use Rattle.std.specs.Char.{digit_char};
ghost use Rattle.mmdb_net.specs.Address.{address_width};
ghost use Rattle.std.specs.Net.Addr.{ipv6_segments};
ghost use Rattle.std.specs.Net.Text as Short;
ghost use Rattle.std.specs.Net.Text.{ipv4_text, ipv6_text};
ghost use Rattle.mmdb_net.specs.FullText.{hex_group, groups_text, prefix_text};
ghost use Rattle.mmdb_net.specs.NetworkText.{IsPrefixText};
ghost use Rattle.mmdb_net.specs.Working.{LacksSlash, HasSlashes, HasNoPrefix};

use super::error::IpNetworkError;
use std::alloc::AllocError;
use std::fmt;
use std::fmt::Display;
use std::net::{IpAddr, Ipv6Addr};

// A segment of an IPv6 address, shown in four hexadecimal digits.
#[derive(Clone, Copy)]
pub(crate) struct HexGroup(pub u16);

impl Display for HexGroup {
    ghost output = { λ group. Some (hex_group group.0) };

    fn fmt<W: fmt::Write>(&self, f: &mut fmt::Formatter<W>) -> fmt::Result {
        let [high, low] = self.0.to_be_bytes();
        write!(f, "{high:02x}{low:02x}")
    }
}

// The digit of a number below sixteen.
#[inline(always)]
fn hex_digit(number: u16) -> u8
    requires { number < 16 }
    ensures { result ≡ digit_char number }
{
    let digit = number as u8;
    if digit < 10 {
        b'0' + digit
    } else {
        b'a' + (digit - 10)
    }
}

// The four digits of a segment.
#[inline(always)]
fn hex_digits(segment: u16) -> [u8; 4]
    ensures { result ≡ hex_group segment }
{
    [
        hex_digit(segment >> 12),
        hex_digit(segment >> 8 & 15),
        hex_digit(segment >> 4 & 15),
        hex_digit(segment & 15),
    ]
}

// Appends a colon and the four digits of a segment.
#[inline(always)]
fn put_next_group(segment: u16, out: &mut Vec<u8>) -> Result<(), AllocError>
    ensures { OnOk result (out.new.items ≡ out.old.items ++ (codes ":" ++ hex_group segment)) }
{
    let [a, b, c, d] = hex_digits(segment);
    out.extend_from_slice(&[b':', a, b, c, d])
}

// Appends the four digits of a segment.
#[inline(always)]
fn put_group(segment: u16, out: &mut Vec<u8>) -> Result<(), AllocError>
    ensures { OnOk result (out.new.items ≡ out.old.items ++ hex_group segment) }
{
    out.extend_from_slice(&hex_digits(segment))
}

// Appends a number below 256 in decimal.
#[inline(always)]
#[tactic(auto, using(crate::proofs::TextLaws::decimal_one, crate::proofs::TextLaws::decimal_two, crate::proofs::TextLaws::decimal_three))]
fn put_octet(octet: u8, out: &mut Vec<u8>) -> Result<(), AllocError>
    ensures { OnOk result (out.new.items ≡ out.old.items ++ decimal octet) }
{
    let (hundreds, tens, ones) = (octet / 100, octet / 10 % 10, octet % 10);
    if octet >= 100 {
        out.extend_from_slice(&[b'0' + hundreds, b'0' + tens, b'0' + ones])
    } else if octet >= 10 {
        out.extend_from_slice(&[b'0' + tens, b'0' + ones])
    } else {
        out.extend_from_slice(&[b'0' + ones])
    }
}

// Appends a byte and a number below 256 in decimal, together, since each call that appends looks for room.
#[inline(always)]
#[tactic(auto, using(crate::proofs::TextLaws::decimal_one, crate::proofs::TextLaws::decimal_two, crate::proofs::TextLaws::decimal_three))]
fn put_next_octet(before: u8, octet: u8, out: &mut Vec<u8>) -> Result<(), AllocError>
    ensures { OnOk result (out.new.items ≡ out.old.items ++ (before ∷ decimal octet)) }
{
    let (hundreds, tens, ones) = (octet / 100, octet / 10 % 10, octet % 10);
    if octet >= 100 {
        out.extend_from_slice(&[before, b'0' + hundreds, b'0' + tens, b'0' + ones])
    } else if octet >= 10 {
        out.extend_from_slice(&[before, b'0' + tens, b'0' + ones])
    } else {
        out.extend_from_slice(&[before, b'0' + ones])
    }
}

// Appends four octets with dots between them.
pub(crate) fn put_octets(octets: [u8; 4], out: &mut Vec<u8>) -> Result<(), AllocError>
    ensures { OnOk result (out.new.items ≡ out.old.items ++ ipv4_text octets) }
{
    let [a, b, c, d] = octets;
    put_octet(a, out)?;
    put_next_octet(b'.', b, out)?;
    put_next_octet(b'.', c, out)?;
    put_next_octet(b'.', d, out)
}

// Appends eight segments in full, with colons between them.
pub(crate) fn put_segments(segments: [u16; 8], out: &mut Vec<u8>) -> Result<(), AllocError>
    ensures { OnOk result (out.new.items ≡ out.old.items ++ groups_text segments) }
{
    let [a, b, c, d, e, f, g, h] = segments;
    put_group(a, out)?;
    put_next_group(b, out)?;
    put_next_group(c, out)?;
    put_next_group(d, out)?;
    put_next_group(e, out)?;
    put_next_group(f, out)?;
    put_next_group(g, out)?;
    put_next_group(h, out)
}

// Appends a segment in hexadecimal, without leading zeros.
#[inline(always)]
fn put_short_group(segment: u16, out: &mut Vec<u8>) -> Result<(), AllocError>
    ensures { OnOk result (out.new.items ≡ out.old.items ++ Short.hex segment) }
{
    let [a, b, c, d] = hex_digits(segment);
    if segment >= 0x1000 {
        out.extend_from_slice(&[a, b, c, d])
    } else if segment >= 0x100 {
        out.extend_from_slice(&[b, c, d])
    } else if segment >= 0x10 {
        out.extend_from_slice(&[c, d])
    } else {
        out.extend_from_slice(&[d])
    }
}

// Appends a colon and a segment in hexadecimal, without leading zeros.
#[inline(always)]
fn put_next_short_group(segment: u16, out: &mut Vec<u8>) -> Result<(), AllocError>
    ensures { OnOk result (out.new.items ≡ out.old.items ++ (codes ":" ++ Short.hex segment)) }
{
    let [a, b, c, d] = hex_digits(segment);
    if segment >= 0x1000 {
        out.extend_from_slice(&[b':', a, b, c, d])
    } else if segment >= 0x100 {
        out.extend_from_slice(&[b':', b, c, d])
    } else if segment >= 0x10 {
        out.extend_from_slice(&[b':', c, d])
    } else {
        out.extend_from_slice(&[b':', d])
    }
}

// Appends segments without leading zeros, with colons between them.
fn put_short_groups(segments: &[u16], out: &mut Vec<u8>) -> Result<(), AllocError>
    ensures { OnOk result (out.new.items ≡ out.old.items ++ Short.groups_text segments.now) }
{
    if let [first, rest @ ..] = segments {
        put_short_group(*first, out)?;
        for segment in rest {
            put_next_short_group(*segment, out)?;
        }
    }
    Ok(())
}

// The start and the length of the longest run of zeros, the first one of that length.
fn longest_zero_run(segments: &[u16]) -> (usize, usize)
    ensures value { result ≡ Short.longest_zero_run segments.now }
    ensures within { result.0 + result.1 ≤ length segments.now }
{
    let (mut start, mut longest, mut run) = (segments.len(), 0, 0);
    for i in (0..segments.len()).rev() {
        run = if segments[i] == 0 { run + 1 } else { 0 };
        if run >= longest {
            start = i;
            longest = run;
        }
    }
    (start, longest)
}

// Appends segments with the longest run of zeros written `::`.
fn put_compressed(segments: [u16; 8], out: &mut Vec<u8>) -> Result<(), AllocError>
    ensures { OnOk result (out.new.items ≡ out.old.items ++ Short.hex_groups_text segments) }
{
    let (start, longest) = longest_zero_run(&segments);
    if longest < 2 {
        return put_short_groups(&segments, out);
    }
    put_short_groups(&segments[..start], out)?;
    out.extend_from_slice(b"::")?;
    put_short_groups(&segments[start + longest..], out)
}

// Appends an IPv6 address as std displays it. By hand, since a formatter takes some ten times as long.
pub(crate) fn put_ipv6(address: Ipv6Addr, out: &mut Vec<u8>) -> Result<(), AllocError>
    ensures { OnOk result (out.new.items ≡ out.old.items ++ ipv6_text (ipv6_segments address)) }
{
    match address.to_ipv4_mapped() {
        Some(mapped) => {
            out.extend_from_slice(b"::ffff:")?;
            put_octets(mapped.octets(), out)
        }
        None => put_compressed(address.segments(), out),
    }
}

// Appends `/` and a prefix.
pub(crate) fn put_prefix(prefix: u8, out: &mut Vec<u8>) -> Result<(), AllocError>
    ensures { OnOk result (out.new.items ≡ out.old.items ++ prefix_text prefix) }
{
    put_next_octet(b'/', prefix, out)
}

// The most digits that the text of a prefix may have.
const MAX_PREFIX_DIGITS: usize = 3;

// The text of the address, and that of the prefix where there is a `/`.
pub(crate) fn split_prefix(text: &str) -> Result<(&str, Option<&str>), IpNetworkError>
    ensures parts { IfOk result (λ parts. MatchOption parts.1 (text.now ≡ parts.0.now)
        (λ prefix. text.now ≡ parts.0.now ++ codes "/" ++ prefix.now)) }
    ensures first { IfOk result (λ parts. LacksSlash parts.0.now) }
    ensures several { OnErr result (HasSlashes text.now) }
{
    match text.split_once('/') {
        None => Ok((text, None)),
        Some((_, prefix)) if prefix.contains('/') => Err(IpNetworkError::InvalidCidrFormat),
        Some((address, prefix)) => Ok((address, Some(prefix))),
    }
}

// The prefix that the text gives in one to three ASCII digits, or the whole address where there is
// no text.
pub(crate) fn read_prefix(text: Option<&str>, whole: u8) -> Result<u8, IpNetworkError>
    ensures prefix { IfOk result (λ prefix. MatchOption text.entry (prefix ≡ whole)
        (λ digits. IsPrefixText digits.now prefix)) }
    ensures none { OnErr result (HasNoPrefix text.entry) }
{
    let Some(digits) = text else {
        return Ok(whole);
    };
    if digits.len() > MAX_PREFIX_DIGITS
        || !digits.as_bytes().iter().all(|digit| digit.is_ascii_digit())
    {
        return Err(IpNetworkError::InvalidPrefix);
    }
    digits.parse().map_err(|_| IpNetworkError::InvalidPrefix)
}

// The number of bits of the address.
pub(crate) fn address_bits(address: IpAddr) -> u8
    ensures { result ≡ address_width address }
{
    match address {
        IpAddr::V4(_) => 32,
        IpAddr::V6(_) => 128,
    }
}
