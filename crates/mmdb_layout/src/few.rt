//! Databases whose search tree may lead to networks without end.
use crate::database::Database;
use mmdb_console::{Console, line_of};
use mmdb_reader::{IpNetwork, MaxMindDbError};
use std::alloc::Global;
use std::io::Write;
use std::net::{IpAddr, Ipv4Addr, Ipv6Addr};

// All addresses of a database.
fn all_of(database: &Database) -> Result<IpNetwork, MaxMindDbError> {
    let first = if database.metadata().ip_version == 6 {
        IpAddr::V6(Ipv6Addr::UNSPECIFIED)
    } else {
        IpAddr::V4(Ipv4Addr::UNSPECIFIED)
    };
    Ok(IpNetwork::new(first, 0)?)
}

/// Whether the tree of a database leads to no more networks in a range, or in all, than its nodes can have: else going through
/// them might not end. A range that can't be asked has none. An `Err` is of memory.
pub fn has_few_networks_in(
    alloc: Global,
    database: &Database,
    range: Option<IpNetwork>,
) -> Result<bool, MaxMindDbError> {
    let range = match range {
        Some(range) => range,
        None => all_of(database)?,
    };
    match database.has_few_networks(alloc, range) {
        Err(MaxMindDbError::InvalidInput { .. }) => Ok(true),
        few => few,
    }
}

/// Whether the tree of a database leads to no more networks in a range, or in all, than its nodes can have; else that is
/// reported of its file: going through them might not end. An `Err` is of memory.
pub fn can_be_walked<O: Write, E: Write>(
    database: &Database,
    file: &str,
    range: Option<IpNetwork>,
    console: &mut Console<'_, O, E>,
) -> Result<bool, MaxMindDbError> {
    if has_few_networks_in(console.alloc, database, range)? {
        return Ok(true);
    }
    let text = format!(in console.alloc;
        "mmdb: {file}: its search tree leads to more networks than its nodes can have; see mmdb verify"
    );
    console.note(line_of(console.alloc, text));
    Ok(false)
}
