ghost use Rattle.std.specs.Prelude.{◌≡◌, ◌-◌, ◌*◌, ◌/◌, ◌^◌, ◌≤◌, ◌<◌};
ghost use Rattle.std.specs.Net.Addr.{ipv4_bits, ipv6_bits, IsIpv4OfBits, IsIpv6OfBits};
ghost use Rattle.mmdb_net.specs.Address.{address_width, IsMaskedIp};
ghost use Rattle.mmdb_net.specs.Working.{masked_bits};

use std::net::{IpAddr, Ipv4Addr, Ipv6Addr};

// The first `prefix` bits of the address, as a number.
pub(crate) fn ipv4_first_bits(address: Ipv4Addr, prefix: u8) -> u32
    requires { prefix ≤ 32 }
    ensures value { result ≡ ipv4_bits address / 2 ^ (32 - prefix) }
    ensures fits { ipv4_bits address < 2 ^ 32 }
{
    let bits = address.to_bits();
    if prefix == 0 {
        return 0;
    }
    bits >> (32 - prefix)
}

// The first `prefix` bits of an IPv6 address, as a number.
pub(crate) fn ipv6_first_bits(address: Ipv6Addr, prefix: u8) -> u128
    requires { prefix ≤ 128 }
    ensures value { result ≡ ipv6_bits address / 2 ^ (128 - prefix) }
    ensures fits { ipv6_bits address < 2 ^ 128 }
{
    let bits = address.to_bits();
    if prefix == 0 {
        return 0;
    }
    bits >> (128 - prefix)
}

// The address with the bits after the prefix cleared.
pub(crate) fn mask_ipv4(address: Ipv4Addr, prefix: u8) -> Ipv4Addr
    requires { prefix ≤ 32 }
    ensures made { IsIpv4OfBits result (masked_bits 32 prefix (ipv4_bits address)) }
    ensures fits { ipv4_bits address < 2 ^ 32 }
{
    let first = ipv4_first_bits(address, prefix);
    let bits = if prefix == 0 {
        0
    } else {
        first << (32 - prefix)
    };
    Ipv4Addr::from_bits(bits)
}

// The IPv6 address with the bits after the prefix cleared.
pub(crate) fn mask_ipv6(address: Ipv6Addr, prefix: u8) -> Ipv6Addr
    requires { prefix ≤ 128 }
    ensures made { IsIpv6OfBits result (masked_bits 128 prefix (ipv6_bits address)) }
    ensures fits { ipv6_bits address < 2 ^ 128 }
{
    let first = ipv6_first_bits(address, prefix);
    let bits = if prefix == 0 {
        0
    } else {
        first << (128 - prefix)
    };
    Ipv6Addr::from_bits(bits)
}

/// The address with the bits after its first `prefix` ones cleared. A prefix of the number of bits
/// of the address, or more, leaves the address as it is.
#[tactic(auto, using(crate::proofs::AddressLaws::masked_ipv4, crate::proofs::AddressLaws::masked_ipv6, crate::proofs::AddressLaws::masked_whole))]
pub fn mask_ip(addr: IpAddr, prefix: u8) -> IpAddr
    ensures masked { IsMaskedIp addr prefix result }
    ensures whole { address_width addr ≤ prefix → result ≡ addr }
{
    match addr {
        IpAddr::V4(address) if prefix < 32 => IpAddr::V4(mask_ipv4(address, prefix)),
        IpAddr::V6(address) if prefix < 128 => IpAddr::V6(mask_ipv6(address, prefix)),
        _ => addr,
    }
}
