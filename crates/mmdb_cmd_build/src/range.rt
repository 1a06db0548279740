//! Ranges of addresses as networks.
use crate::error::Reason;
use mmdb_blocks::{Block, BlockKind};
use mmdb_net::IpNetwork;
use std::net::IpAddr;

/// What comes before the last 32 bits of an address of IPv4 that is written as one of IPv6.
pub(crate) const MAPPED: u128 = 0xffff;

/// The addresses from one to another one of its kind, as numbers. Those of IPv4 are below 2^32.
#[derive(Clone, Copy, Debug)]
pub struct AddressRange {
    first: u128,
    last: u128,
    is_ipv4: bool,
}

impl AddressRange {
    /// The addresses from one to another one, both with it.
    pub fn new(first: IpAddr, last: IpAddr) -> Result<AddressRange, Reason> {
        let (first, last, is_ipv4) = match (first, last) {
            (IpAddr::V4(first), IpAddr::V4(last)) => {
                (
                    u128::from(first.to_bits()),
                    u128::from(last.to_bits()),
                    true,
                )
            }
            (IpAddr::V6(first), IpAddr::V6(last)) => (first.to_bits(), last.to_bits(), false),
            _ => return Err(Reason::TwoKinds),
        };
        if first > last {
            return Err(Reason::Descending);
        }
        Ok(AddressRange {
            first,
            last,
            is_ipv4,
        })
    }

    /// The addresses of IPv4 that these are, if they lie within `::ffff:0:0/96`.
    pub(crate) fn mapped(self) -> Option<AddressRange> {
        if self.is_ipv4 || self.first >> 32 != MAPPED || self.last >> 32 != MAPPED {
            return None;
        }
        let last_bits = u128::from(u32::MAX);
        Some(AddressRange {
            first: self.first & last_bits,
            last: self.last & last_bits,
            is_ipv4: true,
        })
    }

    /// The fewest networks that have these addresses, ascending.
    pub fn networks(self) -> RangeNetworks {
        RangeNetworks { left: Some(self) }
    }
}

/// The fewest networks that have the addresses of a range, ascending.
#[derive(Clone, Copy, Debug, Drop)]
pub struct RangeNetworks {
    left: Option<AddressRange>,
}

// A number whose last `count` bits are 1.
fn low_bits(count: u32) -> u128 {
    if count == 0 {
        0
    } else {
        u128::MAX >> (128 - count.min(128))
    }
}

// How many last bits the addresses of a block may differ in that begins with the first one and ends no later than the last.
fn free_bits(first: u128, last: u128) -> u32 {
    let aligned = if first == 0 {
        128
    } else {
        first.trailing_zeros().min(128)
    };
    let span = last.wrapping_sub(first);
    let fitting = if span == u128::MAX {
        128
    } else {
        127u32.saturating_sub(span.wrapping_add(1).leading_zeros())
    };
    aligned.min(fitting)
}

impl RangeNetworks {
    /// The next network, none after the last.
    pub fn next_network(&mut self) -> Option<IpNetwork> {
        let range = self.left?;
        let free = free_bits(range.first, range.last).min(128);
        let end = range.first | low_bits(free);
        self.left = if end < range.last {
            Some(AddressRange {
                first: end.wrapping_add(1),
                ..range
            })
        } else {
            None
        };
        let kind = if range.is_ipv4 {
            BlockKind::Ipv4
        } else {
            BlockKind::Ipv6
        };
        let block = Block {
            first: range.first,
            prefix: 128 - free as u8,
        };
        kind.network_of(block).ok()
    }
}
