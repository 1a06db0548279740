//! The two kinds of addresses, and blocks as networks of one.
ghost use Rattle.std.specs.Prelude.{◌≡◌, ◌≤◌, ◌↔◌, IsTrue, IsOk, IfOk};
ghost use Rattle.mmdb_blocks.specs.Kinds.{IsWanted, kind_of, kinds_asked, IsNetworkOf};

use crate::block::Block;
use mmdb_net::{IpNetwork, IpNetworkError};
use std::net::{IpAddr, Ipv4Addr, Ipv6Addr};

/// A kind of addresses.
#[derive(Clone, Copy, PartialEq, Eq)]
pub enum BlockKind {
    Ipv4,
    Ipv6,
}

/// Which kinds are wanted.
#[derive(Clone, Copy)]
pub enum Kinds {
    Both,
    One(BlockKind),
}

impl Kinds {
    /// The kinds that are asked for: both where both are, or neither.
    pub fn asked(ipv4: bool, ipv6: bool) -> Kinds
        ensures { result ≡ kinds_asked ipv4 ipv6 }
    {
        match (ipv4, ipv6) {
            (true, false) => Kinds::One(BlockKind::Ipv4),
            (false, true) => Kinds::One(BlockKind::Ipv6),
            (true, true) | (false, false) => Kinds::Both,
        }
    }

    /// Whether a kind is wanted.
    pub fn has(&self, kind: BlockKind) -> bool
        ensures { IsTrue result ↔ IsWanted self.now kind }
    {
        match self {
            Kinds::Both => true,
            Kinds::One(one) => *one == kind,
        }
    }
}

impl BlockKind {
    /// The kind of addresses of `width` bits, of 32 or 128.
    #[inline(always)]
    pub fn of_width(width: usize) -> BlockKind
        ensures { result ≡ kind_of width }
    {
        if width == 32 {
            BlockKind::Ipv4
        } else {
            BlockKind::Ipv6
        }
    }

    /// The network of a block of this kind. Addresses of IPv4 are numbers below 2^32, whose blocks have prefixes of 96
    /// and more.
    pub fn network_of(&self, block: Block) -> Result<IpNetwork, IpNetworkError>
        ensures ok { IsOk result ↔ (block.prefix ≤ 128) }
        ensures network { IfOk result (IsNetworkOf self.now block) }
    {
        match self {
            BlockKind::Ipv4 => ipv4_network_of(block),
            BlockKind::Ipv6 => ipv6_network_of(block),
        }
    }
}

// The network of IPv4 that a block is.
#[inline(always)]
fn ipv4_network_of(block: Block) -> Result<IpNetwork, IpNetworkError>
    ensures ok { IsOk result ↔ (block.prefix ≤ 128) }
    ensures network { IfOk result (IsNetworkOf BlockKind.Ipv4 block) }
{
    let address = Ipv4Addr::from_bits((block.first % (1 << 32)) as u32);
    IpNetwork::new(IpAddr::V4(address), block.prefix.saturating_sub(96))
}

// The network of IPv6 that a block is.
#[inline(always)]
fn ipv6_network_of(block: Block) -> Result<IpNetwork, IpNetworkError>
    ensures ok { IsOk result ↔ (block.prefix ≤ 128) }
    ensures network { IfOk result (IsNetworkOf BlockKind.Ipv6 block) }
{
    IpNetwork::new(IpAddr::V6(Ipv6Addr::from_bits(block.first)), block.prefix)
}
