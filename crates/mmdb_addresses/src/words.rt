//! The address of a word, which may have a port, a zone or brackets.
ghost use Rattle.std.specs.Prelude.{◌≡◌, ◌⊎◌, Decides, drop};
ghost use Rattle.std.specs.Net.Grammar.{IsIpText};
ghost use Rattle.mmdb_addresses.specs.Addresses.{Finds};
ghost use Rattle.mmdb_addresses.specs.Rows.{IsPlain};
ghost use Rattle.mmdb_addresses.specs.Words.{IsPort, IsZone, IsEnd, IsWord, HasPort, HasZone, HasBrackets};

use crate::addresses::{read_address, read_dotted};
use crate::bytes::{AddressKind, end_of};
use std::net::{IpAddr, Ipv4Addr, Ipv6Addr};

// The most bytes of a port.
const PORT_DIGITS: usize = 5;

// Whether a text is a port.
fn is_port(digits: &[u8]) -> bool
    ensures { Decides result (IsPort digits.now) }
{
    if digits.is_empty() || digits.len() > PORT_DIGITS {
        return false;
    }
    let mut port: u32 = 0;
    for digit in digits {
        if *digit < b'0' || *digit > b'9' {
            return false;
        }
        port = port * 10 + u32::from(*digit - b'0');
        if port > 65_535 {
            return false;
        }
    }
    true
}

// Whether a text is the name of a zone.
fn is_zone(name: &[u8]) -> bool
    ensures { Decides result (IsZone name.now) }
{
    !name.is_empty() && end_of(AddressKind::Name, name, 0) == name.len()
}

// The address of IPv4 before a port.
fn address_with_port(word: &[u8]) -> Option<IpAddr>
    ensures { Finds (HasPort word.now) result }
{
    let colon = end_of(AddressKind::Not(b':'), word, 0);
    if colon >= word.len() || !is_port(&word[colon + 1..]) {
        return None;
    }
    match Ipv4Addr::parse_ascii(&word[..colon]) {
        Ok(address) => Some(IpAddr::V4(address)),
        Err(_) => None,
    }
}

// The address of IPv6 before a zone.
fn address_with_zone(word: &[u8]) -> Option<IpAddr>
    ensures { Finds (HasZone word.now) result }
{
    let percent = end_of(AddressKind::Not(b'%'), word, 0);
    if percent >= word.len() || !is_zone(&word[percent + 1..]) {
        return None;
    }
    match Ipv6Addr::parse_ascii(&word[..percent]) {
        Ok(address) => Some(IpAddr::V6(address)),
        Err(_) => None,
    }
}

// The address that is a word, with a zone or without.
fn address_inside(word: &[u8]) -> Option<IpAddr>
    ensures { Finds (λ address. IsIpText word.now address ⊎ HasZone word.now address) result }
{
    match read_address(word) {
        Ok(address) => Some(address),
        Err(_) => address_with_zone(word),
    }
}

// Whether what is after a bracket is nothing, or `:` and a port.
fn is_end(rest: &[u8]) -> bool
    ensures { Decides result (IsEnd rest.now) }
{
    rest.is_empty() || (rest[0] == b':' && is_port(&rest[1..]))
}

// The address in brackets.
fn address_in_brackets(word: &[u8]) -> Option<IpAddr>
    ensures { Finds (HasBrackets word.now) result }
{
    if word.is_empty() || word[0] != b'[' {
        return None;
    }
    let bracket = end_of(AddressKind::Not(b']'), word, 1);
    if bracket >= word.len() || !is_end(&word[bracket + 1..]) {
        return None;
    }
    address_inside(&word[1..bracket])
}

/// The address that is a word, with a port or without.
pub(crate) fn plain_address(word: &[u8]) -> Option<IpAddr>
    ensures { Finds (IsPlain word.now) result }
{
    if let Some(address) = read_dotted(word) {
        return Some(IpAddr::V4(address));
    }
    if let Some(address) = address_with_port(word) {
        return Some(address);
    }
    match IpAddr::parse_ascii(word) {
        Ok(address) => Some(address),
        Err(_) => None,
    }
}

// The address before a zone or in brackets.
fn dressed_address(word: &[u8]) -> Option<IpAddr>
    ensures { Finds (λ address. HasZone word.now address ⊎ HasBrackets word.now address) result }
{
    match address_with_zone(word) {
        Some(address) => Some(address),
        None => address_in_brackets(word),
    }
}

/// The address of a word.
#[inline(never)]
pub(crate) fn word_address(word: &[u8]) -> Option<IpAddr>
    ensures { Finds (IsWord word.now) result }
{
    match plain_address(word) {
        Some(address) => Some(address),
        None => dressed_address(word),
    }
}
