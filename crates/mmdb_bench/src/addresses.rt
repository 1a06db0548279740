//! The addresses that are looked up: pseudo-random, and the same in the programs of `bench/`.

use std::alloc::{AllocError, Global};
use std::net::{IpAddr, Ipv4Addr, Ipv6Addr};

/// The arguments of the generator xorshift64*.
#[derive(Clone, Copy)]
pub(crate) struct Random {
    state: u64,
}

impl Random {
    /// The generator at its start.
    pub(crate) fn new() -> Random {
        Random {
            state: 0x9E37_79B9_7F4A_7C15,
        }
    }

    fn next_word(&mut self) -> u64 {
        let mut state = self.state;
        state ^= state >> 12;
        state ^= state << 25;
        state ^= state >> 27;
        self.state = state;
        state.wrapping_mul(0x2545_F491_4F6C_DD1D)
    }

    // Any address.
    fn next_ipv4(&mut self) -> IpAddr {
        let bits = (self.next_word() >> 32) as u32;
        IpAddr::V4(Ipv4Addr::from_bits(bits))
    }

    // An address of 2000::/3, which are those that are given out.
    fn next_ipv6(&mut self) -> IpAddr {
        let high = (self.next_word() >> 3) | (1 << 61);
        let low = self.next_word();
        let bits = (u128::from(high) << 64) | u128::from(low);
        IpAddr::V6(Ipv6Addr::from_bits(bits))
    }

    /// So many IPv4 addresses.
    pub(crate) fn ipv4_addresses(
        &mut self,
        alloc: Global,
        count: usize,
    ) -> Result<Vec<IpAddr>, AllocError> {
        let mut addresses = Vec::with_capacity(alloc, count)?;
        for _ in 0..count {
            addresses.push(self.next_ipv4())?;
        }
        Ok(addresses)
    }

    /// So many IPv6 addresses.
    pub(crate) fn ipv6_addresses(
        &mut self,
        alloc: Global,
        count: usize,
    ) -> Result<Vec<IpAddr>, AllocError> {
        let mut addresses = Vec::with_capacity(alloc, count)?;
        for _ in 0..count {
            addresses.push(self.next_ipv6())?;
        }
        Ok(addresses)
    }
}
