//! Addresses that texts spell.
//!
//! Most are of IPv4, whose octets have three digits at most, so these are read by steps of their own, which test no more
//! than that needs. Any other text is left to the parser of `std`.
ghost use Rattle.std.specs.Prelude.{◌≡◌, ◌+◌, ◌<◌, ◌≤◌, IfSome, length, get_or, take};
ghost use Rattle.std.specs.Net.Grammar.{Parses, IsIpText, IsIpv4Text};
ghost use Rattle.mmdb_addresses.specs.Octets.{HasOctet, HasDotAndOctet};

use std::net::{AddrParseError, IpAddr, Ipv4Addr};

// An octet, and where its digits end.
#[derive(Clone, Copy)]
struct Octet {
    value: u8,
    end: usize,
}

// The value of the decimal digit at an index, or more than 9 where there is none.
#[inline(always)]
fn digit_at(text: &[u8], at: usize) -> u32
    ensures fits { result < 256 }
    ensures digit { result < 10 → get_or text.now at 0 ≡ 48 + result }
    ensures within { result < 10 → at < length text.now }
{
    if at < text.len() {
        u32::from(text[at].wrapping_sub(b'0'))
    } else {
        255
    }
}

// The octet whose digits begin at an index; none where they do not spell one.
#[inline(always)]
fn octet_at(text: &[u8], from: usize) -> Option<Octet>
    requires { from ≤ length text.now }
    ensures { IfSome result (λ octet. HasOctet text.now from octet.end octet.value) }
{
    let first = digit_at(text, from);
    if first >= 10 {
        return None;
    }
    let second = digit_at(text, from + 1);
    if second >= 10 {
        return Some(Octet {
            value: first as u8,
            end: from + 1,
        });
    }
    if first == 0 {
        return None;
    }
    let two = first * 10 + second;
    let third = digit_at(text, from + 2);
    if third >= 10 {
        return Some(Octet {
            value: two as u8,
            end: from + 2,
        });
    }
    let three = two * 10 + third;
    if three >= 256 {
        return None;
    }
    Some(Octet {
        value: three as u8,
        end: from + 3,
    })
}

// The octet after the dot at an index; none where that is no dot.
#[inline(always)]
fn octet_behind_dot(text: &[u8], from: usize) -> Option<Octet>
    requires { from ≤ length text.now }
    ensures { IfSome result (λ octet. HasDotAndOctet text.now from octet.end octet.value) }
{
    if from < text.len() && text[from] == b'.' {
        octet_at(text, from + 1)
    } else {
        None
    }
}

/// An address of IPv4 that a text begins with, and where it ends.
#[derive(Clone, Copy)]
pub(crate) struct Front {
    pub(crate) address: Ipv4Addr,
    pub(crate) end: usize,
}

/// The address of IPv4 that a text begins with, or none.
#[inline(always)]
pub(crate) fn dotted_front(text: &[u8]) -> Option<Front>
    ensures spelled { IfSome result (λ front. IsIpv4Text (take front.end text.now) front.address) }
    ensures within { IfSome result (λ front. front.end ≤ length text.now) }
{
    let a = octet_at(text, 0)?;
    let b = octet_behind_dot(text, a.end)?;
    let c = octet_behind_dot(text, b.end)?;
    let d = octet_behind_dot(text, c.end)?;
    Some(Front {
        address: Ipv4Addr::new(a.value, b.value, c.value, d.value),
        end: d.end,
    })
}

/// The address of IPv4 that a text spells, or none where these steps read none.
pub(crate) fn read_dotted(text: &[u8]) -> Option<Ipv4Addr>
    ensures { IfSome result (IsIpv4Text text.now) }
{
    let front = dotted_front(text)?;
    if front.end < text.len() {
        return None;
    }
    Some(front.address)
}

/// The address that a text spells.
#[inline(always)]
pub fn read_address(text: &[u8]) -> Result<IpAddr, AddrParseError>
    ensures { Parses IsIpText text.now result }
{
    if let Some(address) = read_dotted(text) {
        return Ok(IpAddr::V4(address));
    }
    IpAddr::parse_ascii(text)
}
