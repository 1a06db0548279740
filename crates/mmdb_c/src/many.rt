//! Lookups of several addresses, whose walks go on side by side.
ghost use Rattle.std.specs.Prelude.{◌≡◌, ◌≤◌, ◌+◌, ◌*◌, ◌%◌, ◌^◌, length};
ghost use Rattle.mmdb_c.specs.Many.{ReportsGiven, ReportsEach};
ghost use Rattle.mmdb_c.specs.Working.{IsIpOf, AreIpsOf, HasBegun, HasEnded, HaveBegun, HaveEnded};

use crate::db::{Db, Found};
use crate::status::IPV6_IN_IPV4;
use mmdb_tree::FoundLeaf;
use std::net::{IpAddr, Ipv4Addr, Ipv6Addr};

/// How many addresses are walked side by side.
const GROUP: usize = 64;

/// An address: its bits in two halves of 64. One of IPv4 has the lowest 32 of them.
#[repr(C)]
#[derive(Clone, Copy)]
pub struct Address {
    pub high: u64,
    pub low: u64,
    pub is_ipv6: bool,
}

// The bits of an IPv4 address.
#[inline(always)]
fn ipv4_bits(address: Address) -> u32
    ensures { result ≡ address.low % 2 ^ 32 }
{
    (address.low % (1 << 32)) as u32
}

// The bits of an IPv6 address.
#[inline(always)]
fn ipv6_bits(address: Address) -> u128
    ensures { result ≡ address.high * 2 ^ 64 + address.low }
{
    u128::from(address.high) * (1 << 64) + u128::from(address.low)
}

// The address of these bits.
#[inline(always)]
fn ip_of(address: Address) -> IpAddr
    ensures { IsIpOf address result }
{
    if address.is_ipv6 {
        IpAddr::V6(Ipv6Addr::from_bits(ipv6_bits(address)))
    } else {
        IpAddr::V4(Ipv4Addr::from_bits(ipv4_bits(address)))
    }
}

// The addresses of these bits.
fn ips_of(addresses: &[Address], ips: &mut [IpAddr; 64])
    requires { length addresses.now ≤ 64 }
    ensures { AreIpsOf addresses.now ips.new }
{
    for i in 0..addresses.len() {
        ips[i] = ip_of(addresses[i]);
    }
}

impl Db<'_> {
    // Where the first sixteen bits of an address lead.
    #[inline(always)]
    fn begin(&self, address: Address) -> FoundLeaf
        ensures { HasBegun self.now.file.now self.now.facts address result }
    {
        if address.is_ipv6 {
            if self.facts.ip_version == 6 {
                let index = (ipv6_bits(address) >> 112) as usize;
                return FoundLeaf::entered(self.ipv6_numbers, self.ipv6_depths, index);
            }
        } else if self.facts.ipv4_start < self.facts.node_count {
            let index = (ipv4_bits(address) >> 16) as usize;
            return FoundLeaf::entered(self.ipv4_numbers, self.ipv4_depths, index);
        }
        FoundLeaf::default()
    }

    fn begin_all(&self, addresses: &[Address], leaves: &mut [FoundLeaf; 64])
        requires { length addresses.now ≤ 64 }
        ensures { HaveBegun self.now.file.now self.now.facts addresses.now leaves.new }
    {
        for i in 0..addresses.len() {
            leaves[i] = self.begin(addresses[i]);
        }
    }

    // Where the walks of addresses end.
    fn walk_all(&self, addresses: &[Address], leaves: &mut [FoundLeaf; 64])
        requires { length addresses.now ≤ 64 }
        ensures { HaveEnded self.now.file.now self.now.facts addresses.now leaves.new }
    {
        let mut ips = [IpAddr::V4(Ipv4Addr::UNSPECIFIED); GROUP];
        ips_of(addresses, &mut ips);
        self.begin_all(addresses, leaves);
        self.nodes().go_on(&ips[..addresses.len()], leaves);
    }

    // What the database has for an address, whose walk ends so.
    #[inline(always)]
    fn found_for(&self, address: Address, leaf: FoundLeaf) -> Found
        requires { HasEnded self.now.file.now self.now.facts address leaf }
        ensures { ReportsGiven self.now.file.now address result }
    {
        if address.is_ipv6 {
            if self.facts.ip_version != 6 {
                return Found {
                    status: IPV6_IN_IPV4,
                    netmask: 0,
                    offset: 0,
                };
            }
            return self.found(leaf.number as usize, leaf.taken);
        }
        if self.facts.ipv4_start >= self.facts.node_count {
            return self.found(self.facts.ipv4_start, u32::from(self.facts.ipv4_depth));
        }
        self.found(leaf.number as usize, self.before_ipv4() + leaf.taken)
    }
}

/// What the database has for each of up to 64 addresses, both kinds mixed: for one of IPv4 as `mmdb_c_lookup_v4`
/// reports it, for one of IPv6 as `mmdb_c_lookup_v6` does. The walks go on side by side.
#[unsafe(no_mangle)]
pub extern "C" fn mmdb_c_lookup_many(db: &Db<'_>, addresses: &[Address], found: &mut [Found])
    requires few { length addresses.now ≤ 64 }
    requires room { length addresses.now ≤ length found.old }
    ensures reported { ReportsEach db.now.file.now addresses.now found.new }
    ensures room { length found.new ≡ length found.old }
{
    let mut leaves = [FoundLeaf::default(); GROUP];
    db.walk_all(addresses, &mut leaves);
    for i in 0..addresses.len() {
        found[i] = db.found_for(addresses[i], leaves[i]);
    }
}
