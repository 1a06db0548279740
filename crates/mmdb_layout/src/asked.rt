//! The address that a database is asked for.
ghost use Rattle.std.specs.Prelude.{◌≡◌, ◌≢◌, false};
ghost use Rattle.std.specs.declared.net.ip_addr.IpAddr.TheVariants.{V6};
ghost use Rattle.std.specs.Net.Addr.{IsCanonicalOf};
ghost use Rattle.mmdb_layout.specs.Asked.{Asks};

use mmdb_reader::Reader;
use std::convert::AsSlice;
use std::net::{IpAddr, Ipv6Addr};

/// The version of addresses of a database without IPv6.
const IPV4: u16 = 4;

// The address of IPv4 to which one of IPv6 is mapped, or else this one. Most logs have few of them, so it is reckoned by a call.
#[cold]
#[inline(never)]
fn canonical_of(address: Ipv6Addr) -> IpAddr
    ensures { IsCanonicalOf address result }
{
    address.to_canonical()
}

// Whether an address of IPv6 may be mapped to one of IPv4.
#[inline(always)]
fn may_be_mapped(address: Ipv6Addr) -> bool
    ensures { result ≡ false → IsCanonicalOf address (V6 address) }
{
    address.segments()[0] == 0
}

// The address that a database with IPv6 is asked for in place of one that may be mapped to one of IPv4.
#[cold]
#[inline(never)]
fn mapped_asked<S: AsSlice<u8> + Drop>(reader: &Reader<S>, address: Ipv6Addr) -> IpAddr
    requires { reader.now.metadata.ip_version ≢ 4 }
    ensures { Asks reader.now (V6 address) result }
{
    let Ok(found) = reader.lookup(IpAddr::V6(address)) else {
        return IpAddr::V6(address);
    };
    match found.offset() {
        Some(_) => IpAddr::V6(address),
        None => canonical_of(address),
    }
}

/// The address that a database is asked for in place of this one: of an address of IPv6 that is mapped to one of IPv4, a
/// database is asked for that where it has no IPv6, or no record of the address as it is written.
#[inline(always)]
pub fn asked_of<S: AsSlice<u8> + Drop>(reader: &Reader<S>, address: IpAddr) -> IpAddr
    ensures { Asks reader.now address result }
{
    match address {
        IpAddr::V6(long) if reader.metadata().ip_version == IPV4 => canonical_of(long),
        IpAddr::V6(long) if may_be_mapped(long) => mapped_asked(reader, long),
        other => other,
    }
}
