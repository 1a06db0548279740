//! The blocks of networks.
ghost use Rattle.std.specs.Prelude.{◌≡◌, ◌+◌, ◌-◌, ◌≤◌, take};
ghost use Rattle.mmdb_net.specs.Bits.{bits_of};
ghost use Rattle.mmdb_net.specs.Network.{address_width, ip_of, prefix_of};
ghost use Rattle.mmdb_blocks.specs.Blocks.{IsBlock};
ghost use Rattle.mmdb_blocks.specs.Networks.{network_bits};

use crate::block::Block;
use mmdb_net::{IpNetwork, Ipv4Network, Ipv6Network};

// The block of an IPv4 network.
#[tactic(auto, using(crate::proofs::NetworkLaws::ipv4_is_block, crate::proofs::NetworkLaws::ipv4_has_bits))]
#[inline(always)]
fn of_ipv4(network: Ipv4Network) -> Block
    ensures block { IsBlock result }
    ensures prefix { result.prefix ≡ 96 + prefix_of (IpNetwork.V4 network) }
    ensures bits { take result.prefix (bits_of 128 result.first)
        ≡ network_bits (IpNetwork.V4 network) }
{
    Block {
        first: u128::from(network.network().to_bits()),
        prefix: 96 + network.prefix(),
    }
}

// The block of an IPv6 network.
#[tactic(auto, using(crate::proofs::NetworkLaws::ipv6_is_block, crate::proofs::NetworkLaws::ipv6_has_bits))]
#[inline(always)]
fn of_ipv6(network: Ipv6Network) -> Block
    ensures block { IsBlock result }
    ensures prefix { result.prefix ≡ prefix_of (IpNetwork.V6 network) }
    ensures bits { take result.prefix (bits_of 128 result.first)
        ≡ network_bits (IpNetwork.V6 network) }
{
    Block {
        first: network.network().to_bits(),
        prefix: network.prefix(),
    }
}

impl Block {
    /// The block of the addresses of `width` bits, 32 or 128, of which the first `prefix` are those of the first one.
    #[inline(always)]
    pub fn of_numbers(first: u128, width: usize, prefix: usize) -> Block
        requires prefix { prefix ≤ width }
        requires width { width ≤ 128 }
        ensures { result ≡ record { first = first; prefix = 128 - width + prefix } }
    {
        Block {
            first,
            prefix: (128 - width + prefix) as u8,
        }
    }

    /// The block of a network's addresses. IPv4 addresses are numbers below 2^32, whose blocks have prefixes of 96
    /// and more.
    #[inline(always)]
    pub fn of_network(network: IpNetwork) -> Block
        ensures block { IsBlock result }
        ensures prefix { result.prefix ≡ 128 - address_width (ip_of network) + prefix_of network }
        ensures bits { take result.prefix (bits_of 128 result.first) ≡ network_bits network }
    {
        match network {
            IpNetwork::V4(network) => of_ipv4(network),
            IpNetwork::V6(network) => of_ipv6(network),
        }
    }
}
