//! What is measured.

use crate::addresses::Random;
use maxminddb::{Metadata, Reader};
use std::fs;
use std::net::IpAddr;

/// A database, and the addresses that are looked up in it.
#[derive(Drop)]
pub(crate) struct Subject<'a> {
    pub(crate) path: &'a str,
    pub(crate) bytes: Vec<u8>,
    pub(crate) reader: Reader<Vec<u8>>,
    pub(crate) ipv4: Vec<IpAddr>,
    /// None for an IPv4 database.
    pub(crate) ipv6: Vec<IpAddr>,
}

impl<'a> Subject<'a> {
    /// The database of a file, with so many addresses of each kind that it has.
    pub(crate) fn open(
        rt: &HostRuntime,
        path: &'a str,
        count: usize,
    ) -> anyhow::Result<Subject<'a>> {
        let alloc = rt.alloc();
        let reader = Reader::open_readfile(rt, alloc, path)?;
        let mut random = Random::new();
        let ipv4 = random.ipv4_addresses(alloc, count)?;
        let ipv6 = if reader.metadata().ip_version == 6 {
            random.ipv6_addresses(alloc, count)?
        } else {
            Vec::new(alloc)
        };
        Ok(Subject {
            path,
            bytes: fs::read(rt, path)?,
            reader,
            ipv4,
            ipv6,
        })
    }

    /// Whether its records are those of GeoIP2 City or Country.
    pub(crate) fn has_places(&self) -> bool {
        let name = self.reader.metadata().database_type.as_str();
        name.contains("City") || name.contains("Country")
    }

    /// The first fifth of the IPv4 addresses, one at least: decoding takes longer than a lookup.
    pub(crate) fn fewer(&self) -> &[IpAddr] {
        let count = (self.ipv4.len() / 5).max(1);
        self.ipv4.get(..count).unwrap_or_default()
    }
}

/// How many nodes the database has.
pub(crate) fn node_count(metadata: &Metadata) -> u64 {
    u64::from(metadata.node_count)
}
