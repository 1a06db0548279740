//! Networks that are reserved, so that no public address is in them.
use mmdb_blocks::Block;
use mmdb_net::IpNetwork;

/// The reserved networks, as MaxMind's writers leave them out: the number of the first address, and the prefix, ascending.
/// Those of IPv4 come after 96 zeros.
const RESERVED: &[(u128, u8)] = &[
    // 0.0.0.0/8, 10.0.0.0/8, 100.64.0.0/10, 127.0.0.0/8, 169.254.0.0/16, 172.16.0.0/12, 192.0.0.0/29, 192.0.2.0/24
    (0x0000_0000, 104),
    (0x0a00_0000, 104),
    (0x6440_0000, 106),
    (0x7f00_0000, 104),
    (0xa9fe_0000, 112),
    (0xac10_0000, 108),
    (0xc000_0000, 125),
    (0xc000_0200, 120),
    // 192.88.99.0/24, 192.168.0.0/16, 198.18.0.0/15, 198.51.100.0/24, 203.0.113.0/24, 224.0.0.0/4, 240.0.0.0/4
    (0xc058_6300, 120),
    (0xc0a8_0000, 112),
    (0xc612_0000, 111),
    (0xc633_6400, 120),
    (0xcb00_7100, 120),
    (0xe000_0000, 100),
    (0xf000_0000, 100),
    // 100::/64, 2001::/23 without Teredo's 2001::/32, 2001:db8::/32, fc00::/7, fe80::/10, ff00::/8
    (0x0100_0000_0000_0000_0000_0000_0000_0000, 64),
    (0x2001_0001_0000_0000_0000_0000_0000_0000, 32),
    (0x2001_0002_0000_0000_0000_0000_0000_0000, 31),
    (0x2001_0004_0000_0000_0000_0000_0000_0000, 30),
    (0x2001_0008_0000_0000_0000_0000_0000_0000, 29),
    (0x2001_0010_0000_0000_0000_0000_0000_0000, 28),
    (0x2001_0020_0000_0000_0000_0000_0000_0000, 27),
    (0x2001_0040_0000_0000_0000_0000_0000_0000, 26),
    (0x2001_0080_0000_0000_0000_0000_0000_0000, 25),
    (0x2001_0100_0000_0000_0000_0000_0000_0000, 24),
    (0x2001_0db8_0000_0000_0000_0000_0000_0000, 32),
    (0xfc00_0000_0000_0000_0000_0000_0000_0000, 7),
    (0xfe80_0000_0000_0000_0000_0000_0000_0000, 10),
    (0xff00_0000_0000_0000_0000_0000_0000_0000, 8),
];

// Whether a block lies in another one, of which the number and the prefix are given.
fn is_in(block: Block, first: u128, prefix: u8) -> bool {
    if block.prefix < prefix || prefix > 128 {
        return false;
    }
    match (block.first ^ first).checked_shr(128 - u32::from(prefix)) {
        Some(differing) => differing == 0,
        None => true,
    }
}

/// Whether a network lies in a reserved one.
pub(crate) fn is_reserved(network: IpNetwork) -> bool {
    let block = Block::of_network(network);
    let behind = RESERVED.partition_point(|reserved| reserved.0 <= block.first);
    match RESERVED[..behind].last() {
        Some(reserved) => is_in(block, reserved.0, reserved.1),
        None => false,
    }
}
