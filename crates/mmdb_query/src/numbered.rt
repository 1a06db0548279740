//! The network of a found answer, which can't fail.
ghost use Rattle.std.specs.Prelude.{◌≡◌, ◌≤◌, ◌<◌, ◌^◌, nat_eq, false};
ghost use Rattle.std.specs.Net.Addr.{is_ipv4};
ghost use Rattle.mmdb_net.specs.Address.{address_width, bits_of_address};
ghost use Rattle.mmdb_net.specs.Bits.{bits_of};
ghost use Rattle.mmdb_net.specs.Network.{ip_of, prefix_of};

use mmdb_reader::{IpNetwork, NumberedNetwork};
use std::net::{IpAddr, Ipv4Addr, Ipv6Addr};

// The first address of a network of such numbers.
#[inline(always)]
fn address_of(numbers: NumberedNetwork) -> IpAddr
    requires is_width { nat_eq numbers.width 32 ≡ false → numbers.width ≡ 128 }
    requires fits { numbers.first < 2 ^ numbers.width }
    ensures kind { is_ipv4 result ≡ nat_eq numbers.width 32 }
    ensures width { address_width result ≡ numbers.width }
    ensures bits { bits_of_address result ≡ bits_of numbers.width numbers.first }
{
    if numbers.width == 32 {
        IpAddr::V4(Ipv4Addr::from_bits(numbers.first as u32))
    } else {
        IpAddr::V6(Ipv6Addr::from_bits(numbers.first))
    }
}

/// The network of such numbers. It is not masked again.
#[inline(always)]
pub(crate) fn network_of(numbers: NumberedNetwork) -> IpNetwork
    requires within { numbers.prefix ≤ numbers.width }
    requires small { numbers.width ≤ 128 }
    requires is_width { nat_eq numbers.width 32 ≡ false → numbers.width ≡ 128 }
    requires fits { numbers.first < 2 ^ numbers.width }
    ensures kind { is_ipv4 (ip_of result) ≡ nat_eq numbers.width 32 }
    ensures width { address_width (ip_of result) ≡ numbers.width }
    ensures bits { bits_of_address (ip_of result) ≡ bits_of numbers.width numbers.first }
    ensures prefix { prefix_of result ≡ numbers.prefix }
{
    let address = address_of(numbers);
    IpNetwork::new(address, numbers.prefix as u8).unwrap()
}
