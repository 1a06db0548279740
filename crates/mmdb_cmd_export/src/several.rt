//! Several databases side by side.
ghost use Rattle.std.specs.Prelude.{◌≡◌};

use crate::look::{Look, look_along};
use mmdb_blocks::{Block, BlockKind, Kinds};
use mmdb_compare::AskedDatabase;
use mmdb_console::{Console, ProgramError};
use mmdb_layout::{Database, NamedDatabase, networks_in};
use mmdb_query::{Many, One};
use mmdb_reader::{IpNetwork, MaxMindDbError};
use std::alloc::{AllocError, Global};
use std::io::Write;
use std::net::{IpAddr, Ipv4Addr, Ipv6Addr};

/// The version of addresses of a database with IPv6.
const IPV6: u16 = 6;

/// The prefix of the block of all IPv4 addresses.
const IPV4_PREFIX: u8 = 96;

/// Databases that are asked side by side.
#[derive(Drop)]
pub(crate) struct Several<'d> {
    databases: &'d [NamedDatabase<'d>],
    /// Those that are asked, each in the range in which it can be.
    asked: Vec<AskedDatabase<'d, Vec<u8>>>,
    /// The places of those among all.
    places: Vec<usize>,
    /// The range that was asked for, if one was.
    range: Option<IpNetwork>,
}

// Whether a database has networks of IPv6.
fn has_ipv6(database: &Database) -> bool {
    database.metadata().ip_version == IPV6
}

// Whether one of the databases has.
fn have_ipv6(databases: &[NamedDatabase<'_>]) -> bool {
    databases.iter().any(|named| has_ipv6(&named.database))
}

// All addresses of databases.
fn all_of(databases: &[NamedDatabase<'_>]) -> Result<IpNetwork, MaxMindDbError> {
    let first = if have_ipv6(databases) {
        IpAddr::V6(Ipv6Addr::UNSPECIFIED)
    } else {
        IpAddr::V4(Ipv4Addr::UNSPECIFIED)
    };
    Ok(IpNetwork::new(first, 0)?)
}

/// What a block has of the addresses of IPv4, which are those that begin with 96 zeros.
pub(crate) fn ipv4_part(block: Block) -> Option<Block> {
    if block.first >= 1 << 32 {
        return None;
    }
    Some(Block {
        first: block.first,
        prefix: block.prefix.max(IPV4_PREFIX),
    })
}

// What a range of IPv6 has of the addresses of IPv4.
fn ipv4_range(range: IpNetwork) -> Result<Option<IpNetwork>, MaxMindDbError> {
    match ipv4_part(Block::of_network(range)) {
        Some(part) => Ok(Some(BlockKind::Ipv4.network_of(part)?)),
        None => Ok(None),
    }
}

// The range in which a database is asked beside others: one without IPv6 for what it may have of it.
fn range_in(database: &Database, range: IpNetwork) -> Result<Option<IpNetwork>, MaxMindDbError> {
    match range {
        IpNetwork::V6(_) if !has_ipv6(database) => ipv4_range(range),
        _ => Ok(Some(range)),
    }
}

impl<'d> Several<'d> {
    // Databases, of which none is asked.
    fn of_none(
        alloc: Global,
        databases: &'d [NamedDatabase<'d>],
        range: Option<IpNetwork>,
    ) -> Several<'d> {
        Several {
            databases,
            asked: Vec::new(alloc),
            places: Vec::new(alloc),
            range,
        }
    }

    // Adds the database at a place among those that are asked.
    fn ask(
        &mut self,
        place: usize,
        reader: &'d Database,
        range: IpNetwork,
    ) -> Result<(), AllocError> {
        self.places.push(place)?;
        self.asked.push(AskedDatabase { reader, range })?;
        Ok(())
    }

    /// Databases in a range, or in all addresses. Beside one of IPv6 one without is asked for its part of a range, if it has one.
    pub(crate) fn new(
        alloc: Global,
        databases: &'d [NamedDatabase<'d>],
        range: Option<IpNetwork>,
    ) -> Result<Several<'d>, MaxMindDbError> {
        let mut several = Several::of_none(alloc, databases, range);
        let range = match range {
            Some(range) => range,
            None => all_of(databases)?,
        };
        let is_mixed = have_ipv6(databases);
        for (place, named) in databases.iter().enumerate() {
            let own = if is_mixed {
                range_in(&named.database, range)?
            } else {
                Some(range)
            };
            if let Some(own) = own {
                several.ask(place, &named.database, own)?;
            }
        }
        Ok(several)
    }

    /// The range that was asked for, if one was.
    pub(crate) fn range(&self) -> Option<IpNetwork>
        ensures { result ≡ self.now.range }
    {
        self.range
    }

    /// Looks at the networks of these kinds, as far as it is not known that their records were looked at.
    pub(crate) fn look<L: Look>(
        &self,
        alloc: Global,
        kinds: Kinds,
        looker: &mut L,
    ) -> Result<(), ProgramError> {
        if let Some(database) = self.alone() {
            let networks = networks_in(alloc, database, self.range)?;
            return look_along(alloc, One::new(networks), kinds, looker);
        }
        match Many::new(alloc, self.asked.as_slice()) {
            Ok(walk) => look_along(alloc, walk, kinds, looker),
            Err((_, error)) => Err(ProgramError::from(error)),
        }
    }

    /// Whether the databases can be asked side by side in the range. The first that can't is reported.
    pub(crate) fn can_be_asked<O: Write, E: Write>(
        &self,
        console: &mut Console<'_, O, E>,
    ) -> Result<bool, ProgramError> {
        match Many::new(console.alloc, self.asked.as_slice()) {
            Ok(_walk) => Ok(true),
            Err((_, MaxMindDbError::Memory)) => Err(ProgramError::Memory),
            Err((place, error)) => {
                console.report(self.name_at(place), &error);
                Ok(false)
            }
        }
    }

    /// All databases.
    pub(crate) fn databases(&self) -> &'d [NamedDatabase<'d>] {
        self.databases
    }

    /// Those that are asked, each in the range in which it can be.
    pub(crate) fn asked(&self) -> &[AskedDatabase<'d, Vec<u8>>]
        ensures { result.now ≡ self.now.asked.items }
    {
        self.asked.as_slice()
    }

    /// How many are asked.
    pub(crate) fn asked_count(&self) -> usize {
        self.asked.len()
    }

    /// Whether there are two or more.
    pub(crate) fn are_several(&self) -> bool {
        self.databases.len() > 1
    }

    /// The one database, if there is just one.
    pub(crate) fn alone(&self) -> Option<&'d Database> {
        match self.databases {
            [named] => Some(&named.database),
            _ => None,
        }
    }

    /// The place among those that are asked of the one at a place among all.
    pub(crate) fn place_of(&self, place: usize) -> Option<usize> {
        self.places.iter().position(|other| *other == place)
    }

    // The one at a place among those that are asked.
    fn named_at(&self, place: usize) -> Option<&'d NamedDatabase<'d>> {
        self.databases.get(*self.places.get(place)?)
    }

    /// The name of the one at a place among those that are asked.
    pub(crate) fn name_at(&self, place: usize) -> &'d str {
        match self.named_at(place) {
            Some(named) => named.name,
            None => "",
        }
    }

    /// The data section of the one at a place among those that are asked.
    pub(crate) fn section_at(&self, place: usize) -> &'d [u8] {
        match self.named_at(place) {
            Some(named) => named.database.data_section(),
            None => &[],
        }
    }
}
