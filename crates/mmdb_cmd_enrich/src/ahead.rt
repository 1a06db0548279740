//! The addresses of the rows ahead.
ghost use Rattle.std.specs.Prelude.{◌≡◌, ◌+◌, ◌<◌, ◌≤◌, IfSome, None, Some, []};
ghost use Rattle.mmdb_addresses.specs.Addresses.{ReadsAddress};
ghost use Rattle.mmdb_addresses.specs.declared.readings.Reading.{Reading as SpecReading};
ghost use Rattle.mmdb_cmd_enrich.specs.Ahead.{AreSpelled, IsAhead, IsNumberOf, IsNumbered, address_of_row, ahead_of, number_of_row};

use crate::parts::part_of;
use mmdb_addresses::{AddressText, Reading, address_in, any_address, short_in};
use mmdb_filter::{Rows, first_row};
use std::net::{IpAddr, Ipv4Addr, Ipv6Addr};

/// Of how many rows addresses are remembered.
const MOST: usize = 64;

/// An address in a text, and its number among those ahead, if it is one of them.
#[derive(Clone, Copy)]
pub(crate) struct AheadAddress {
    pub(crate) address: IpAddr,
    pub(crate) number: Option<usize>,
}

/// An address of IPv4 in a row, and its number among those ahead, if it is one of them.
#[derive(Clone, Copy)]
pub(crate) struct ShortAddress {
    pub(crate) address: Ipv4Addr,
    pub(crate) number: Option<usize>,
}

/// The address that a row has, if any. One of IPv6 is kept elsewhere: it would be copied with each row, and few have one.
#[derive(Clone, Copy)]
pub enum RowAddress {
    Nothing,
    /// One of IPv4, and its number among those ahead, if it is one of them.
    Short {
        address: Ipv4Addr,
        number: Option<usize>,
    },
    Long,
}

/// The address that was found in a row, if any, of no number. One of IPv6 is put into `long`.
#[inline(always)]
pub(crate) fn row_address(found: Option<IpAddr>, long: &mut Ipv6Addr) -> RowAddress
    ensures address { address_of_row result long.new ≡ found }
    ensures number { number_of_row result ≡ None }
{
    match found {
        Some(IpAddr::V4(address)) => RowAddress::Short {
            address,
            number: None,
        },
        Some(IpAddr::V6(address)) => {
            *long = address;
            RowAddress::Long
        }
        None => RowAddress::Nothing,
    }
}

// The address in a text that is not one of IPv4 as it stands.
#[inline(always)]
fn other_address(reading: Reading, text: &[u8], long: &mut Ipv6Addr) -> RowAddress
    ensures spelled { ReadsAddress reading (Some text.now) (address_of_row result long.new) }
    ensures number { number_of_row result ≡ None }
{
    row_address(any_address(reading, text), long)
}

// The address in a text. Most are of IPv4, and are read by steps of their own.
#[inline(always)]
fn address_alone(reading: Reading, text: &[u8], long: &mut Ipv6Addr) -> RowAddress
    ensures spelled { ReadsAddress reading (Some text.now) (address_of_row result long.new) }
    ensures number { number_of_row result ≡ None }
{
    match short_in(reading, text) {
        Some(address) => RowAddress::Short {
            address,
            number: None,
        },
        None => other_address(reading, text, long),
    }
}

/// The addresses that rows ahead have, each with its text, in their order.
#[derive(Drop)]
pub struct Ahead {
    texts: [AddressText; MOST],
    addresses: [IpAddr; MOST],
    /// How many there are.
    count: usize,
    /// How many of them were passed.
    next: usize,
}

impl Ahead {
    /// Of no row.
    pub fn new() -> Ahead
        ensures is { (reading : SpecReading) → IsAhead reading result }
        ensures none { ahead_of result ≡ [] }
    {
        Ahead {
            texts: [AddressText::none(); MOST],
            addresses: [IpAddr::V4(Ipv4Addr::UNSPECIFIED); MOST],
            count: 0,
            next: 0,
        }
    }

    // Notes an address after `count` others, if the text has one, and says how many there are.
    #[inline(always)]
    fn note(&mut self, count: usize, reading: Reading, text: &[u8]) -> usize
        requires few { count < 64 }
        requires spelled { AreSpelled reading self.old.texts self.old.addresses count }
        ensures few { result ≤ count + 1 }
        ensures spelled { AreSpelled reading self.new.texts self.new.addresses result }
    {
        let Some(copy) = AddressText::of(text) else {
            return count;
        };
        let Some(address) = address_in(reading, text) else {
            return count;
        };
        self.texts[count] = copy;
        self.addresses[count] = address;
        count + 1
    }

    // Notes the address of a row after `count` others, if it has one, and says how many there are.
    #[inline(always)]
    fn note_row(
        &mut self,
        count: usize,
        rows: Rows,
        reading: Reading,
        column: usize,
        row: &[u8],
    ) -> usize
        requires few { count < 64 }
        requires spelled { AreSpelled reading self.old.texts self.old.addresses count }
        ensures few { result ≤ count + 1 }
        ensures spelled { AreSpelled reading self.new.texts self.new.addresses result }
    {
        match part_of(rows, reading, row, false, column, true) {
            Some(text) => self.note(count, reading, text),
            None => count,
        }
    }

    // Notes the addresses of the first lines of some bytes, and says how many there are. A row of more lines than one
    // may have none.
    fn note_rows(&mut self, rows: Rows, reading: Reading, column: usize, bytes: &[u8]) -> usize
        ensures few { result ≤ 64 }
        ensures spelled { AreSpelled reading self.new.texts self.new.addresses result }
    {
        let mut rest = bytes;
        let mut count = 0;
        for _ in 0..MOST {
            let Some((row, after)) = first_row(Rows::Lines { delimiter: b'\t' }, rest) else {
                return count;
            };
            count = self.note_row(count, rows, reading, column, row);
            rest = after;
        }
        count
    }

    /// Remembers the addresses that the first rows of some bytes have in a column.
    pub(crate) fn look(&mut self, rows: Rows, reading: Reading, column: usize, bytes: &[u8])
        ensures { IsAhead reading self.new }
    {
        self.count = self.note_rows(rows, reading, column, bytes);
        self.next = 0;
    }

    /// The addresses.
    pub(crate) fn addresses(&self) -> &[IpAddr]
        requires { self.now.count ≤ 64 }
        ensures { result.now ≡ ahead_of self.now }
    {
        &self.addresses[..self.count]
    }

    /// Whether an address is ahead.
    #[inline(always)]
    pub(crate) fn has_next(&self) -> bool {
        self.next < self.count
    }

    // The next address, if this is its text; then it is passed.
    #[inline(always)]
    fn next(&mut self, reading: Reading, text: &[u8]) -> Option<AheadAddress>
        requires { IsAhead reading self.old }
        ensures spelled { IfSome result (λ found.
            ReadsAddress reading (Some text.now) (Some found.address)) }
        ensures number { IfSome result (λ found.
            IsNumberOf (ahead_of self.old) found.number found.address) }
        ensures is { IsAhead reading self.new }
        ensures same { ahead_of self.new ≡ ahead_of self.old }
    {
        let at = self.next;
        if at >= self.count || self.texts[at].as_slice() != text {
            return None;
        }
        self.next = at + 1;
        Some(AheadAddress {
            address: self.addresses[at],
            number: Some(at),
        })
    }

    // The same where an address is ahead.
    #[inline(never)]
    fn read_next(&mut self, reading: Reading, text: &[u8], long: &mut Ipv6Addr) -> RowAddress
        requires { IsAhead reading self.old }
        ensures spelled { ReadsAddress reading (Some text.now) (address_of_row result long.new) }
        ensures number { IsNumbered (ahead_of self.old) result }
        ensures is { IsAhead reading self.new }
        ensures same { ahead_of self.new ≡ ahead_of self.old }
    {
        match self.next(reading, text) {
            Some(
                AheadAddress {
                    address: IpAddr::V4(address),
                    number,
                },
            ) => RowAddress::Short { address, number },
            Some(
                AheadAddress {
                    address: IpAddr::V6(address),
                    ..
                },
            ) => {
                *long = address;
                RowAddress::Long
            }
            None => address_alone(reading, text, long),
        }
    }

    // The same. It has what the call returns, so that no room for that is made where nothing is ahead.
    #[inline(always)]
    fn read_ahead(&mut self, reading: Reading, text: &[u8], long: &mut Ipv6Addr) -> RowAddress
        requires { IsAhead reading self.old }
        ensures spelled { ReadsAddress reading (Some text.now) (address_of_row result long.new) }
        ensures number { IsNumbered (ahead_of self.old) result }
        ensures is { IsAhead reading self.new }
        ensures same { ahead_of self.new ≡ ahead_of self.old }
    {
        self.read_next(reading, text, long)
    }

    /// The address in a text, and its number if it is the next one ahead. One of IPv6 is put into `long`.
    #[inline(always)]
    pub(crate) fn read(&mut self, reading: Reading, text: &[u8], long: &mut Ipv6Addr) -> RowAddress
        requires { IsAhead reading self.old }
        ensures spelled { ReadsAddress reading (Some text.now) (address_of_row result long.new) }
        ensures number { IsNumbered (ahead_of self.old) result }
        ensures is { IsAhead reading self.new }
        ensures same { ahead_of self.new ≡ ahead_of self.old }
    {
        if self.has_next() {
            self.read_ahead(reading, text, long)
        } else {
            address_alone(reading, text, long)
        }
    }
}
