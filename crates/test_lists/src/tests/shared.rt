//! Two databases side by side, over trees that are made: the stretches beside the networks of each database.
use mmdb_blocks::Block;
use mmdb_compare::{AskedDatabase, Together, TogetherPart};
use mmdb_reader::{IpNetwork, Reader, WithinOptions};
use mmdb_vectors::builder::{Field, changed_file, nodes_24};
use std::alloc::{AllocError, Global};
use std::net::{IpAddr, Ipv4Addr, Ipv6Addr};
use std::process::Abort;
use test_runs::numbers::Numbers;

/// So many zeros stand behind one another in a data section.
const ZEROS: &[u8] = &[0xA0; 16];

/// What a record leads to that leads to no node is this and a number: 0 to nothing, 1 to 16 to a zero.
const LEAF: u32 = 1 << 20;

/// A node's two records.
type Node = (u32, u32);

// What a leaf has: mostly a zero.
fn leaf_of(numbers: &mut Numbers) -> u32 {
    match numbers.below(20) {
        0 | 1 | 2 => LEAF,
        other => LEAF + (other & 15) as u32 + 1,
    }
}

// Puts a node in the place of a leaf, if one is there.
fn split(nodes: &mut Vec<Node>, place: usize, right: bool, halves: Node) -> Result<(), AllocError> {
    let number = (nodes.len() & 0xff) as u32;
    let Some(node) = nodes.get_mut(place) else {
        return Ok(());
    };
    let record = if right { &mut node.1 } else { &mut node.0 };
    if *record >= LEAF {
        *record = number;
        nodes.push(halves)?;
    }
    Ok(())
}

// A tree of so many nodes at the most, with 96 zeros before IPv4 in one of IPv6.
fn tree_of(alloc: Global, numbers: &mut Numbers, is_ipv6: bool) -> Result<Vec<Node>, AllocError> {
    let mut nodes = Vec::new(alloc);
    nodes.push((leaf_of(numbers), leaf_of(numbers)))?;
    if is_ipv6 {
        for place in 0..96 {
            split(&mut nodes, place, false, (leaf_of(numbers), LEAF))?;
        }
    }
    let first = nodes.len().saturating_sub(1);
    for _ in 0..100 {
        let place = if numbers.below(4) == 0 {
            numbers.below(nodes.len())
        } else {
            first.saturating_add(numbers.below(nodes.len().saturating_sub(first)))
        };
        let halves = (leaf_of(numbers), leaf_of(numbers));
        split(&mut nodes, place, numbers.below(2) == 1, halves)?;
    }
    if is_ipv6 && numbers.below(2) == 1 {
        // an alias of IPv4
        if let Some(node) = nodes.get_mut(40) {
            node.1 = 96;
        }
    }
    Ok(nodes)
}

// Changes some leaves of a tree, and splits or cuts some.
fn change(nodes: &mut Vec<Node>, numbers: &mut Numbers) -> Result<(), AllocError> {
    for place in 0..nodes.len() {
        let halves = (leaf_of(numbers), leaf_of(numbers));
        match numbers.below(24) {
            0 => split(nodes, place, numbers.below(2) == 1, halves)?,
            1 => {
                if let Some(node) = nodes.get_mut(place) {
                    if node.1 >= LEAF {
                        node.1 = halves.0;
                    }
                }
            }
            2 => {
                if let Some(node) = nodes.get_mut(place) {
                    if node.1 >= LEAF || place > 96 {
                        node.1 = halves.1;
                    }
                }
            }
            _ => {}
        }
    }
    Ok(())
}

// The number in a file of so many nodes.
fn number_of(record: u32, count: u32) -> u32 {
    match record.checked_sub(LEAF) {
        Some(0) => count,
        Some(leaf) => count.saturating_add(15).saturating_add(leaf),
        None => record,
    }
}

fn file_of(alloc: Global, nodes: &[Node], is_ipv6: bool) -> Result<Vec<u8>, AllocError> {
    let count = (nodes.len() & 0xff) as u32;
    let mut numbered = Vec::new(alloc);
    for (left, right) in nodes {
        numbered.push((number_of(*left, count), number_of(*right, count)))?;
    }
    let tree = nodes_24(alloc, numbered.as_slice())?;
    let version: &[u8] = if is_ipv6 { b"\xA1\x06" } else { b"\xA1\x04" };
    let changes = [
        (Field::NodeCount, &[0xC1, count.min(255) as u8] as &[u8]),
        (Field::IpVersion, version),
    ];
    changed_file(alloc, tree.as_slice(), ZEROS, &changes)
}

/// A database whose bytes are in memory.
type Database = Reader<Vec<u8>>;

/// A network as much of it as lies in a range: its first and its last address, and where its record is.
type Network = (u128, u128, Option<usize>);

// The networks of a database in a range.
fn networks_of(
    rt: &impl Abort,
    alloc: Global,
    database: &Database,
    range: IpNetwork,
) -> Vec<Network> {
    let whole = Block::of_network(range);
    let mut networks = Vec::new(alloc);
    let found = database.within(alloc, range, WithinOptions::default());
    for item in found.expect(rt, "a list") {
        let found = item.expect(rt, "no fault");
        let block = Block::of_network(found.network().expect(rt, "a network"));
        let network = (
            block.first.max(whole.first),
            block.last().min(whole.last()),
            found.offset(),
        );
        networks.push(network).expect(rt, "memory");
    }
    networks
}

// What the networks have for all addresses of a block, if they have one.
fn offset_in(networks: &[Network], block: Block, last: u128) -> Option<usize> {
    let network = networks
        .iter()
        .find(|network| network.0 <= block.first && last <= network.1)?;
    network.2
}

// Whether a block is a whole network.
fn is_network(networks: &[Network], block: Block, last: u128) -> bool {
    networks
        .iter()
        .any(|network| network.0 == block.first && last == network.1)
}

/// How many stretches are no network of either database, one of the old database alone, one of the new one alone, and one
/// of both.
type Kinds = [usize; 4];

// How many addresses a network and another one have both.
fn shared_count(one: Network, other: Network) -> u128 {
    let (first, last) = (one.0.max(other.0), one.1.min(other.1));
    if first <= last {
        (last - first).wrapping_add(1)
    } else {
        0
    }
}

// How many addresses one of two lists of networks has, or both.
fn joint_count(old: &[Network], new: &[Network]) -> u128 {
    let mut count = 0u128;
    for network in old {
        count = count.wrapping_add(shared_count(*network, *network));
    }
    for network in new {
        count = count.wrapping_add(shared_count(*network, *network));
        for other in old {
            count = count.wrapping_sub(shared_count(*network, *other));
        }
    }
    count
}

// Asserts that each stretch has what the networks of the databases have, and that all their addresses are in stretches.
fn assert_of_networks<'a>(
    rt: &impl Abort,
    alloc: Global,
    databases: (&'a Database, &'a Database),
    range: IpNetwork,
    seed: u64,
    kinds: &mut Kinds,
) {
    let old = networks_of(rt, alloc, databases.0, range);
    let new = networks_of(rt, alloc, databases.1, range);
    let (mut addresses, mut next) = (0u128, Some(0u128));
    let asked = [
        AskedDatabase {
            reader: databases.0,
            range,
        },
        AskedDatabase {
            reader: databases.1,
            range,
        },
    ];
    let mut together = match Together::new(alloc, &asked) {
        Ok(together) => together,
        Err((_, error)) => {
            drop(error);
            return;
        }
    };
    for _ in 0..2000 {
        let Some(TogetherPart::Stretch(stretch)) = together.next_part() else {
            break;
        };
        let block = stretch.block;
        assert!(rt; block.is_block(), "{seed} {range}: {block:?} is no block");
        let last = block.last();
        let is_behind = next.is_some_and(|next| next <= block.first);
        assert!(rt;
            is_behind,
            "{seed} {range}: {block:?} is not behind the one before it"
        );
        let wanted = (offset_in(&old, block, last), offset_in(&new, block, last));
        let given = (together.offset(0), together.offset(1));
        assert!(rt;
            wanted == given,
            "{seed} {range} {block:?}: {given:?}, not {wanted:?}"
        );
        let kind = match (is_network(&old, block, last), is_network(&new, block, last)) {
            (false, false) => 0,
            (true, false) => 1,
            (false, true) => 2,
            (true, true) => 3,
        };
        kinds[kind] = kinds[kind].saturating_add(1);
        addresses = addresses.wrapping_add(last - block.first).wrapping_add(1);
        next = last.checked_add(1);
    }
    drop(together);
    let wanted = joint_count(&old, &new);
    assert!(rt;
        addresses == wanted,
        "{seed} {range}: {addresses} addresses, not {wanted}"
    );
}

// A range of some bits of an address.
fn range_of(rt: &impl Abort, numbers: &mut Numbers, is_ipv6: bool) -> IpNetwork {
    let prefix = (numbers.below(12) & 15) as u8;
    let bits = (numbers.below(1 << 20) as u64 & 0xf_ffff) << 12;
    let address = if is_ipv6 {
        IpAddr::V6(Ipv6Addr::from_bits(u128::from(bits) << 96))
    } else {
        IpAddr::V4(Ipv4Addr::from_bits((bits & 0xffff_ffff) as u32))
    };
    IpNetwork::new(address, prefix).expect(rt, "a network")
}

// Asserts of two made trees, of all their addresses and of some ranges.
fn assert_made(rt: &impl Abort, alloc: Global, seed: u64, kinds: &mut Kinds) {
    let mut numbers = Numbers { state: seed };
    let is_ipv6 = seed % 2 == 1;
    let mut nodes = tree_of(alloc, &mut numbers, is_ipv6).expect(rt, "a tree");
    let old = file_of(alloc, nodes.as_slice(), is_ipv6).expect(rt, "a file");
    change(&mut nodes, &mut numbers).expect(rt, "a tree");
    let new = file_of(alloc, nodes.as_slice(), is_ipv6).expect(rt, "a file");
    let old = Reader::from_source(alloc, old).expect(rt, "a database");
    let new = Reader::from_source(alloc, new).expect(rt, "a database");
    for turn in 0..6 {
        let of_ipv6 = is_ipv6 && turn < 3;
        let mut range = range_of(rt, &mut numbers, of_ipv6);
        if turn % 3 == 0 {
            range = IpNetwork::new(range.ip(), 0).expect(rt, "a network");
        }
        assert_of_networks(rt, alloc, (&old, &new), range, seed, kinds);
    }
}

#[test]
fn stretches_of_networks(rt: HostRuntime) {
    let mut kinds = [0; 4];
    for seed in 0..80u64 {
        assert_made(&rt, rt.alloc(), seed, &mut kinds);
    }
    for count in kinds {
        assert!(rt; count > 30, "{kinds:?}");
    }
}
