//! Blocks as a person writes them: a network, an address, or the first address and the last one.
use mmdb_blocks::{Block, BlockKind, BlockRange};
use mmdb_reader::IpNetwork;
use std::net::IpAddr;

const NOT_A_BLOCK: &str = "not a network, an address or FIRST-LAST";

/// The addresses that a text spells.
#[derive(Clone, Copy)]
pub(crate) struct Spelt {
    pub(crate) kind: BlockKind,
    pub(crate) range: BlockRange,
    /// The addresses of IPv6 that it is written with, where those of IPv4 are meant.
    pub(crate) mapped: Option<BlockRange>,
    /// The network as which one is read that has address bits after its prefix.
    pub(crate) read_as: Option<IpNetwork>,
}

/// The addresses of `::ffff:0:0/96`, each of which is one of IPv4.
const MAPPED: BlockRange = BlockRange {
    first: 0xffff_0000_0000,
    last: 0xffff_ffff_ffff,
};

/// The bits of an IPv4 address.
const IPV4_BITS: u128 = 0xffff_ffff;

// The addresses that a range means: those of IPv4 where each of its addresses is one of `::ffff:0:0/96`.
fn meant_by(kind: BlockKind, written: BlockRange, read_as: Option<IpNetwork>) -> Spelt {
    if kind == BlockKind::Ipv4 || written.first < MAPPED.first || written.last > MAPPED.last {
        return Spelt {
            kind,
            range: written,
            mapped: None,
            read_as,
        };
    }
    Spelt {
        kind: BlockKind::Ipv4,
        range: BlockRange {
            first: written.first & IPV4_BITS,
            last: written.last & IPV4_BITS,
        },
        mapped: Some(written),
        read_as,
    }
}

// The kind and the number of an address.
fn number_of(address: IpAddr) -> (BlockKind, u128) {
    match address {
        IpAddr::V4(address) => (BlockKind::Ipv4, u128::from(address.to_bits())),
        IpAddr::V6(address) => (BlockKind::Ipv6, address.to_bits()),
    }
}

// The addresses from one to another one, as texts.
fn range_between(first: &str, last: &str) -> Result<Spelt, &'static str> {
    let (Ok(first), Ok(last)) = (
        first.trim().parse::<IpAddr>(),
        last.trim().parse::<IpAddr>(),
    ) else {
        return Err(NOT_A_BLOCK);
    };
    let ((kind, first), (other, last)) = (number_of(first), number_of(last));
    if kind != other {
        return Err("a range from IPv4 to IPv6 or back");
    }
    if first > last {
        return Err("the last address is below the first");
    }
    Ok(meant_by(kind, BlockRange { first, last }, None))
}

// The addresses of a network.
fn of_network(network: IpNetwork) -> Spelt {
    let kind = match network {
        IpNetwork::V4(_) => BlockKind::Ipv4,
        IpNetwork::V6(_) => BlockKind::Ipv6,
    };
    let block = Block::of_network(network);
    let is_exact = network.ip() == network.network();
    let range = BlockRange {
        first: block.first,
        last: block.last(),
    };
    meant_by(kind, range, (!is_exact).then_some(network))
}

/// The addresses that a text spells, or what is wrong with it.
pub(crate) fn block_in(text: &str) -> Result<Spelt, &'static str> {
    if let Some((first, last)) = text.split_once('-') {
        return range_between(first, last);
    }
    if text.contains('/') {
        return match text.parse::<IpNetwork>() {
            Ok(network) => Ok(of_network(network)),
            Err(_) => Err(NOT_A_BLOCK),
        };
    }
    range_between(text, text)
}
