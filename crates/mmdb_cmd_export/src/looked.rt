//! Which networks of databases are looked at for a list.
use crate::several::ipv4_part;
use crate::task::{ExportTask, Shape};
use mmdb_blocks::{Block, BlockKind, Kinds};
use mmdb_layout::{Database, NamedDatabase};
use mmdb_reader::{IpNetwork, MaxMindDbError};
use std::net::{IpAddr, Ipv4Addr};

/// The networks that are looked at: those in a range, or all, of some kinds.
#[derive(Clone, Copy)]
pub(crate) struct LookedAt {
    pub(crate) range: Option<IpNetwork>,
    pub(crate) kinds: Kinds,
}

// Whether lookups of IPv4 addresses find a network of IPv6.
fn has_no_ipv4_tree(database: &Database) -> bool {
    match database.lookup(IpAddr::V4(Ipv4Addr::UNSPECIFIED)) {
        Ok(found) => found.numbered_network().width != 32,
        Err(_) => false,
    }
}

// The range of IPv4 that a range of either kind has, or that all addresses have, if there is one.
fn ipv4_range(range: Option<IpNetwork>) -> Result<Option<IpNetwork>, MaxMindDbError> {
    let block = match range {
        Some(range) => Block::of_network(range),
        None => Block {
            first: 0,
            prefix: 0,
        },
    };
    match ipv4_part(block) {
        Some(part) => Ok(Some(BlockKind::Ipv4.network_of(part)?)),
        None => Ok(None),
    }
}

/// What of databases is looked at: for a list of IPv4 alone, where lookups of its addresses find a network of IPv6, that
/// network.
pub(crate) fn looked_at(
    databases: &[NamedDatabase<'_>],
    task: &ExportTask<'_>,
) -> Result<LookedAt, MaxMindDbError> {
    let (range, kinds) = (task.range, task.kinds);
    if let (Shape::List(_), Kinds::One(BlockKind::Ipv4)) = (&task.shape, kinds)
        && databases
            .iter()
            .any(|named| has_no_ipv4_tree(&named.database))
        && let Some(range) = ipv4_range(range)?
    {
        return Ok(LookedAt {
            range: Some(range),
            kinds: Kinds::Both,
        });
    }
    Ok(LookedAt { range, kinds })
}
