//! What lookups find.
ghost use Rattle.std.specs.Prelude.{◌≡◌, ◌≤◌, ◌<◌, ◌^◌, ◌*◌, ◌/◌, ℕ, Some, None, false, ⊤, IfSome, IfNone, IsOkAnd, is_some, nat_eq};
ghost use Rattle.std.specs.Net.Addr.{is_ipv4};
ghost use Rattle.mmdb_net.specs.Address.{address_width};
ghost use Rattle.mmdb_reader.specs.File.{Database};
ghost use Rattle.mmdb_reader.specs.Lookup.{block_at};
ghost use Rattle.mmdb_reader.specs.Numbered.{numbered_block, HasZerosAfter};

use crate::reader::Reader;
use crate::record::Record;
use mmdb_format::error::MaxMindDbError;
use mmdb_net::{IpNetwork, mask_ip};
use std::alloc::AllocError;
use std::convert::AsSlice;
use std::net::{IpAddr, Ipv4Addr, Ipv6Addr};

/// An address as a number, and how many bits it has: 32 or 128.
#[derive(Clone, Copy)]
pub(crate) struct NumberedAddress {
    pub(crate) bits: u128,
    pub(crate) width: usize,
}

impl NumberedAddress {
    /// An IPv4 address of these bits.
    #[inline(always)]
    pub(crate) fn ipv4(bits: u32) -> NumberedAddress
        ensures { result ≡ record { bits = bits; width = 32 } }
    {
        NumberedAddress {
            bits: u128::from(bits),
            width: 32,
        }
    }

    /// An IPv6 address of these bits.
    #[inline(always)]
    pub(crate) fn ipv6(bits: u128) -> NumberedAddress
        ensures { result ≡ record { bits = bits; width = 128 } }
    {
        NumberedAddress { bits, width: 128 }
    }

    /// The address that it is.
    fn address(self) -> IpAddr
        requires width { nat_eq self.width 32 ≡ false → self.width ≡ 128 }
        requires fits { self.bits < 2 ^ self.width }
        ensures width { address_width result ≡ self.width }
        ensures kind { is_ipv4 result ≡ nat_eq self.width 32 }
        ensures block { (db : Database) (prefix : ℕ)
            → block_at db result prefix ≡ numbered_block db self.width self.bits prefix }
    {
        if self.width == 32 {
            IpAddr::V4(Ipv4Addr::from_bits(self.bits as u32))
        } else {
            IpAddr::V6(Ipv6Addr::from_bits(self.bits))
        }
    }
}

/// A network as numbers: its first address, how many bits an address has, 32 or 128, and how many of them all addresses of
/// the network share. The bits after those are 0.
#[derive(Clone, Copy)]
pub struct NumberedNetwork {
    pub first: u128,
    pub width: usize,
    pub prefix: usize,
}

/// A leaf of a database: its network, and the place of its value in the data section. Its fields fill it, as
/// far as they can: an `IpAddr` would be copied in pieces.
pub struct LookupResult<'a, S: AsSlice<u8> + Drop> {
    pub(crate) reader: &'a Reader<S>,
    pub(crate) offset: Option<usize>,
    pub(crate) address: NumberedAddress,
    pub(crate) prefix: usize,
    ghost is_width: { nat_eq address.width 32 ≡ false → address.width ≡ 128 },
    ghost fits: { address.bits < 2 ^ address.width },
    ghost is_prefix: { prefix ≤ address.width },
}

impl<'a, S: AsSlice<u8> + Drop> Copy for LookupResult<'a, S> {}

impl<'a, S: AsSlice<u8> + Drop> Clone for LookupResult<'a, S> {
    ghost is_clone = { λ s r. r ≡ s };

    ghost is_infallible = { λ _. ⊤ };

    fn clone(&self) -> Result<LookupResult<'a, S>, AllocError> {
        Ok(*self)
    }
}

// A number with its last bits 0.
#[inline(always)]
fn without_last(bits: u128, count: usize) -> u128
    requires { count ≤ 128 }
    ensures value { result ≡ bits / 2 ^ count * 2 ^ count }
    ensures bound { result ≤ bits }
{
    if count < 128 {
        bits >> count << count
    } else {
        0
    }
}

impl<'a, S: AsSlice<u8> + Drop> LookupResult<'a, S> {
    ghost use Rattle.mmdb_reader.specs.Found.{database_asked, section_asked, leaf_of, offset_found, shown_as_ipv4, section_of_record, place_of_record};
    ghost use Rattle.mmdb_reader.specs.Shown.{IsShownBy};

    /// Whether the database has data for the network.
    pub fn has_data(&self) -> bool
        ensures { result ≡ is_some (offset_found self.now) }
    {
        self.offset.is_some()
    }

    /// The place of the network's value, counted from the start of the data section, if it has one.
    pub fn offset(&self) -> Option<usize>
        ensures { result ≡ offset_found self.now }
    {
        self.offset
    }

    /// The record there, if there is one: it is read as from here.
    #[inline(always)]
    pub fn to_record(&self) -> Option<Record<'a, S>>
        ensures none { IfNone result (offset_found self.now ≡ None) }
        ensures section { IfSome result (λ r. section_of_record r ≡ section_asked self.now) }
        ensures place { IfSome result (λ r. offset_found self.now ≡ Some (place_of_record r)) }
    {
        match self.offset {
            Some(offset) => Some(Record {
                reader: self.reader,
                offset,
            }),
            None => None,
        }
    }

    /// The network of all addresses that share the answer, with a masked address. Never fails.
    ///
    /// For an IPv4 address it is an IPv4 network, save in an IPv6 database whose walk leaves the nodes
    /// among the 96 zero bits before IPv4: there it is the network `::/k` of the bits walked.
    pub fn network(&self) -> Result<IpNetwork, MaxMindDbError>
        ensures { IsOkAnd result
            (IsShownBy (database_asked self.now) (leaf_of self.now) (shown_as_ipv4 self.now)) }
    {
        let prefix = self.prefix as u8;
        let masked = mask_ip(self.address.address(), prefix);
        Ok(IpNetwork::new(masked, prefix)?)
    }

    /// The numbers of the network that `network` gives, for programs that reckon with many.
    #[inline(always)]
    pub fn numbered_network(&self) -> NumberedNetwork
        ensures kind { nat_eq result.width 32 ≡ shown_as_ipv4 self.now }
        ensures leaf { let db = database_asked self.now in
            numbered_block db result.width result.first result.prefix ≡ leaf_of self.now }
        ensures masked { HasZerosAfter result.width result.prefix result.first }
        ensures within { (result.prefix ≤ result.width) × (result.width ≤ 128) }
        ensures is_width { nat_eq result.width 32 ≡ false → result.width ≡ 128 }
        ensures fits { result.first < 2 ^ result.width }
    {
        let NumberedAddress { bits, width } = self.address;
        NumberedNetwork {
            first: without_last(bits, width - self.prefix),
            width,
            prefix: self.prefix,
        }
    }
}
