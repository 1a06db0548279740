//! Lists of the fewest blocks of what is chosen or added, less what is taken away, beside what Python's `ipaddress` gives of
//! the same blocks, which the rows have as data; and what one list has that another has not.
use super::blocks::blocks_of;
use mmdb_blocks::{Block, BlockRange, Ranges, RangesError, blocks_without, listed_blocks};
use std::alloc::Global;

/// Blocks with a space between them: what is chosen, added and taken away, and the blocks of the list.
type Row = (&'static str, [&'static str; 4]);

#[rattlefmt::skip]
const ROWS: &[Row] = &[
    ("nothing", ["", "", "", ""]),
    ("chosen alone", ["10.0.0.0/25 10.0.0.128/25", "", "", "10.0.0.0/24"]),
    ("added alone", ["", "10.0.0.0/25 10.0.0.128/25", "", "10.0.0.0/24"]),
    ("taken from nothing", ["", "", "10.0.0.0/8", ""]),
    ("all taken away", ["10.0.0.0/24", "10.0.1.0/24", "10.0.0.0/23", ""]),
    ("the first address taken", ["10.0.0.0/29", "", "10.0.0.0/32", "10.0.0.1/32 10.0.0.2/31 10.0.0.4/30"]),
    ("the last address taken", ["10.0.0.0/29", "", "10.0.0.7/32", "10.0.0.0/30 10.0.0.4/31 10.0.0.6/32"]),
    ("one in the middle taken", ["10.0.0.0/29", "", "10.0.0.3/32", "10.0.0.0/31 10.0.0.2/32 10.0.0.4/30"]),
    ("two taken in any order", ["10.0.0.0/28", "", "10.0.0.12/31 10.0.0.1/32", "10.0.0.0/32 10.0.0.2/31 10.0.0.4/30 10.0.0.8/30 10.0.0.14/31"]),
    ("taken twice and overlapping", ["10.0.0.0/28", "", "10.0.0.4/30 10.0.0.4/31 10.0.0.0/29", "10.0.0.8/29"]),
    ("added behind a wider one", ["10.0.0.0/24", "10.0.0.0/16 10.0.0.7/32 10.0.255.0/24", "", "10.0.0.0/16"]),
    ("added in any order", ["10.0.1.0/24", "10.0.3.0/24 10.0.0.0/24 10.0.2.0/24", "", "10.0.0.0/22"]),
    ("added between chosen ones", ["10.0.0.0/25 10.0.1.0/24", "10.0.0.128/25", "", "10.0.0.0/23"]),
    ("added and taken again", ["10.0.0.0/24", "10.0.1.0/24", "10.0.1.128/25", "10.0.0.0/24 10.0.1.0/25"]),
    ("taken from two", ["10.0.0.0/24 10.0.2.0/24", "", "10.0.0.128/25 10.0.1.0/24 10.0.2.0/25", "10.0.0.0/25 10.0.2.128/25"]),
    ("taken beyond the end", ["10.0.0.128/25", "", "10.0.0.0/24", ""]),
    ("taken beside", ["10.0.1.0/24", "", "10.0.0.0/24 10.0.2.0/24", "10.0.1.0/24"]),
    ("the end of IPv4 less its last", ["255.255.255.248/29", "", "255.255.255.255/32", "255.255.255.248/30 255.255.255.252/31 255.255.255.254/32"]),
    ("the end of IPv6 less its last", ["ffff:ffff:ffff:ffff:ffff:ffff:ffff:fff8/125", "", "ffff:ffff:ffff:ffff:ffff:ffff:ffff:ffff/128", "ffff:ffff:ffff:ffff:ffff:ffff:ffff:fff8/126 ffff:ffff:ffff:ffff:ffff:ffff:ffff:fffc/127 ffff:ffff:ffff:ffff:ffff:ffff:ffff:fffe/128"]),
    ("the start of IPv6 less its first", ["::/125", "", "::/128", "::1/128 ::2/127 ::4/126"]),
    ("all of IPv6", ["", "8000::/1 ::/1", "", "::/0"]),
    ("all of IPv6 taken", ["2001:db8::/32", "", "::/0", ""]),
    ("the last address added", ["", "ffff:ffff:ffff:ffff:ffff:ffff:ffff:ffff/128 ffff:ffff:ffff:ffff:ffff:ffff:ffff:fffe/128", "", "ffff:ffff:ffff:ffff:ffff:ffff:ffff:fffe/127"]),
];

// The ranges of blocks.
fn ranges_of(alloc: Global, texts: &str) -> Result<Ranges, RangesError> {
    let mut ranges = Ranges::new(alloc);
    for block in blocks_of(alloc, texts)? {
        ranges.add_block(block)?;
    }
    Ok(ranges)
}

// The blocks of a row's list.
fn listed(alloc: Global, row: &[&str; 4]) -> Result<Vec<Block>, RangesError> {
    let [chosen, also, except, _] = row;
    let chosen = ranges_of(alloc, *chosen)?;
    let also = ranges_of(alloc, *also)?;
    let except = ranges_of(alloc, *except)?;
    listed_blocks(alloc, &chosen, &also, &except)
}

// Whether a row's list is the one that it says.
fn is_listed(alloc: Global, row: &[&str; 4]) -> Result<bool, RangesError> {
    let [_, _, _, wanted] = row;
    Ok(listed(alloc, row)? == blocks_of(alloc, *wanted)?)
}

#[test]
fn listed_as_python_does(rt: HostRuntime) {
    for (name, row) in ROWS {
        assert!(rt; is_listed(rt.alloc(), row) == Ok(true), "{name}");
    }
}

/// The old list and the new one, with what the old one alone has.
const ALONE: &[[&str; 3]] = &[
    ["", "", ""],
    ["10.0.0.0/24", "", "10.0.0.0/24"],
    ["", "10.0.0.0/24", ""],
    ["10.0.0.0/24 10.0.2.0/24", "10.0.0.0/24 10.0.2.0/24", ""],
    ["10.0.0.0/24 10.0.2.0/24", "10.0.0.0/24", "10.0.2.0/24"],
    ["10.0.0.0/24 10.0.2.0/24", "10.0.2.0/24", "10.0.0.0/24"],
    ["10.0.0.0/24", "10.0.0.0/23", "10.0.0.0/24"],
    ["10.0.0.0/23", "10.0.0.0/24", "10.0.0.0/23"],
    [
        "10.0.0.0/24 10.0.4.0/24 10.0.8.0/24",
        "10.0.2.0/24 10.0.4.0/24 10.0.6.0/24",
        "10.0.0.0/24 10.0.8.0/24",
    ],
];

// What the old list of a row has that the new one has not.
fn alone(alloc: Global, row: &[&str; 3]) -> Result<Vec<Block>, RangesError> {
    let [old, newer, _] = row;
    let none = Ranges::new(alloc);
    let old = listed_blocks(alloc, &ranges_of(alloc, *old)?, &none, &none)?;
    let newer = listed_blocks(alloc, &ranges_of(alloc, *newer)?, &none, &none)?;
    blocks_without(alloc, &old, &newer)
}

// Whether the old list of a row alone has what the row says.
fn is_alone(alloc: Global, row: &[&str; 3]) -> Result<bool, RangesError> {
    let [_, _, wanted] = row;
    Ok(alone(alloc, row)? == blocks_of(alloc, *wanted)?)
}

#[test]
fn lists_side_by_side(rt: HostRuntime) {
    for row in ALONE {
        assert!(rt; is_alone(rt.alloc(), row) == Ok(true), "{row:?}");
    }
}

// A range of one address, of none, and with a gap behind another one.
fn are_added(alloc: Global) -> Result<bool, RangesError> {
    let mut ranges = Ranges::new(alloc);
    for (first, last) in [(7, 7), (9, 8), (9, 9)] {
        ranges.add(BlockRange { first, last })?;
    }
    let none = Ranges::new(alloc);
    let blocks = listed_blocks(alloc, &ranges, &none, &none)?;
    Ok(blocks == blocks_of(alloc, "::7/128 ::9/128")?)
}

#[test]
fn ranges_are_added(rt: HostRuntime) {
    assert!(rt; are_added(rt.alloc()) == Ok(true));
}

// The error of a block that is none.
fn rejected_block(alloc: Global) -> Result<(), RangesError> {
    Ranges::new(alloc).add_block(Block {
        first: 1,
        prefix: 0,
    })
}

#[test]
fn no_block_is_added(rt: HostRuntime) {
    assert!(rt; rejected_block(rt.alloc()) == Err(RangesError::OutOfOrder));
}
