//! What a row says.
use crate::error::{InputError, Reason};
use crate::range::{AddressRange, MAPPED};
use mmdb_blocks::{Block, BlockKind};
use mmdb_net::IpNetwork;
use mmdb_value::Value;
use std::alloc::Global;

/// The addresses that a row is of.
#[derive(Clone, Copy, Debug)]
pub enum RowAddresses {
    Network(IpNetwork),
    Range(AddressRange),
}

// The network of IPv4 that another one is, if it lies within `::ffff:0:0/96`.
fn mapped_network(network: IpNetwork) -> Option<IpNetwork> {
    let Block { first, prefix } = Block::of_network(network);
    if matches!(network, IpNetwork::V4(_)) || prefix < 96 || first >> 32 != MAPPED {
        return None;
    }
    let block = Block {
        first: first & u128::from(u32::MAX),
        prefix,
    };
    BlockKind::Ipv4.network_of(block).ok()
}

impl RowAddresses {
    /// The addresses of IPv4 that these are, if they lie within `::ffff:0:0/96`.
    pub(crate) fn mapped(self) -> Option<RowAddresses> {
        match self {
            RowAddresses::Network(network) => {
                Some(RowAddresses::Network(mapped_network(network)?))
            }
            RowAddresses::Range(range) => Some(RowAddresses::Range(range.mapped()?)),
        }
    }
}

/// Addresses, and the index of their value, or none where they have none.
#[derive(Clone, Copy, Debug)]
pub struct RowEntry {
    pub place: RowAddresses,
    pub value: Option<usize>,
}

/// What takes values.
pub trait Values {
    /// Whether a row of these addresses may be taken. It is asked before the row's value is added.
    fn check(&self, place: RowAddresses) -> Result<(), Reason>;

    /// Takes a value, and answers an index that stands for it.
    fn add(&mut self, alloc: Global, value: &Value<'_>) -> Result<usize, InputError>;
}
