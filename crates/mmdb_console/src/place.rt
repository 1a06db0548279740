//! Places of a database.
use mmdb_net::IpNetwork;
use std::alloc::{AllocError, Global};

/// Where something of a database could not be read or written.
#[derive(Clone, Copy)]
pub enum Where {
    /// At this network.
    At(IpNetwork),
    /// At one that comes somewhere after this network in the list.
    Behind(IpNetwork),
    /// At one that comes before any other of the list.
    First,
}

impl Where {
    /// What a report names. An `Err` is of memory.
    pub fn name(self, alloc: Global) -> Result<String, AllocError> {
        match self {
            Where::At(network) => network.to_string(alloc),
            Where::Behind(network) => format!(in alloc; "a network behind {network}"),
            Where::First => String::from_str(alloc, "a network before any other"),
        }
    }
}
