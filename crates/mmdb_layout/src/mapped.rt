//! Ranges of IPv4 addresses as IPv6 has them, `::ffff:a.b.c.d`.
use crate::database::{Database, networks_in};
use mmdb_console::{Console, line_of};
use mmdb_reader::{IpNetwork, MaxMindDbError};
use std::alloc::Global;
use std::io::Write;
use std::net::{IpAddr, Ipv4Addr};

/// The prefix of `::ffff:0:0/96`, and what comes before its last 32 bits.
const MAPPED_PREFIX: u8 = 96;

const BEFORE_IPV4: u128 = 0xffff;

// The range of IPv4 that one within `::ffff:0:0/96` means.
fn ipv4_meant(range: IpNetwork) -> Option<IpNetwork> {
    let IpNetwork::V6(range) = range else {
        return None;
    };
    let bits = range.network().to_bits();
    if range.prefix() < MAPPED_PREFIX || bits >> 32 != BEFORE_IPV4 {
        return None;
    }
    let address = Ipv4Addr::from_bits((bits % (1 << 32)) as u32);
    IpNetwork::new(IpAddr::V4(address), range.prefix() - MAPPED_PREFIX).ok()
}

// Whether a database has networks of its own in a range. An `Err` is of memory.
fn has_networks(
    alloc: Global,
    database: &Database,
    range: IpNetwork,
) -> Result<bool, MaxMindDbError> {
    match networks_in(alloc, database, Some(range)) {
        Ok(mut networks) => Ok(networks.next().is_some()),
        Err(MaxMindDbError::Memory) => Err(MaxMindDbError::Memory),
        Err(_) => Ok(false),
    }
}

/// The range in which databases are asked: one within `::ffff:0:0/96` is read as one of IPv4, which is said, unless one of them
/// has networks of its own there. An `Err` is of memory.
pub fn range_asked<O: Write, E: Write>(
    databases: &[&Database],
    range: Option<IpNetwork>,
    console: &mut Console<'_, O, E>,
) -> Result<Option<IpNetwork>, MaxMindDbError> {
    let Some(written) = range else {
        return Ok(None);
    };
    let Some(meant) = ipv4_meant(written) else {
        return Ok(range);
    };
    for database in databases {
        if has_networks(console.alloc, *database, written)? {
            return Ok(range);
        }
    }
    let text = format!(in console.alloc; "mmdb: {written} is read as {meant}");
    console.note(line_of(console.alloc, text));
    Ok(Some(meant))
}
