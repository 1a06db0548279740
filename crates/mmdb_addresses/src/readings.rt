//! What an address is looked for in a text.
ghost use Rattle.std.specs.Prelude.{IfSome, option_map};
ghost use Rattle.std.specs.declared.net.ip_addr.IpAddr.TheVariants.{V4};
ghost use Rattle.mmdb_addresses.specs.declared.readings.Reading.TheVariants.{First};
ghost use Rattle.mmdb_addresses.specs.Addresses.{Finds, IsAddressIn, ReadsAddress};

use crate::addresses::{dotted_front, read_address};
use crate::bytes::ends_word;
use crate::cells::{first_address, last_address};
use crate::rows::{address_anywhere, last_address_anywhere};
use std::net::{IpAddr, Ipv4Addr};

/// Where in a text an address is looked for.
#[derive(Clone, Copy, PartialEq, Eq)]
pub enum Reading {
    /// The text is an address, and nothing else.
    Exact,
    /// It is the first word, with a port, a zone, brackets or quotes, or without.
    First,
    /// It is the first word after the last comma, as of the hops of a request.
    Last,
    /// It is anywhere; the first one counts.
    Anywhere,
    /// It is anywhere; the last one counts.
    LastAnywhere,
}

// The address of IPv4 that is the first word of a text, or none.
#[inline(always)]
fn dotted_word(text: &[u8]) -> Option<Ipv4Addr>
    ensures { IfSome result (λ short. IsAddressIn First text.now (V4 short)) }
{
    let front = dotted_front(text)?;
    if front.end < text.len() && !ends_word(text[front.end]) {
        return None;
    }
    Some(front.address)
}

/// The address of IPv4 in a text, where it is looked for as the first word and is that as it stands. Else there may be another.
#[inline(always)]
pub fn short_in(reading: Reading, text: &[u8]) -> Option<Ipv4Addr>
    ensures { IfSome result (λ short. IsAddressIn reading text.now (V4 short)) }
{
    match reading {
        Reading::First => dotted_word(text),
        _ => None,
    }
}

/// The address in a text, read as any. Where rows mostly have one of IPv4 as it stands, nothing is held ready for this call.
#[cold]
#[inline(never)]
pub fn any_address(reading: Reading, text: &[u8]) -> Option<IpAddr>
    ensures { Finds (IsAddressIn reading text.now) result }
{
    match reading {
        Reading::Exact => match read_address(text) {
            Ok(address) => Some(address),
            Err(_) => None,
        },
        Reading::First => first_address(text),
        Reading::Last => last_address(text),
        Reading::Anywhere => address_anywhere(text, false),
        Reading::LastAnywhere => last_address_anywhere(text, false),
    }
}

/// The address in a text. Most are the first word of it, and of IPv4, so these are read by steps of their own.
#[inline(always)]
pub fn address_in(reading: Reading, text: &[u8]) -> Option<IpAddr>
    ensures { Finds (IsAddressIn reading text.now) result }
{
    match short_in(reading, text) {
        Some(short) => Some(IpAddr::V4(short)),
        None => any_address(reading, text),
    }
}

/// The address in a text, where there is a text.
#[inline(always)]
pub fn address_of(reading: Reading, text: Option<&[u8]>) -> Option<IpAddr>
    ensures { ReadsAddress reading (option_map (λ s. s.now) text.entry) result }
{
    match text {
        Some(text) => address_in(reading, text),
        None => None,
    }
}
