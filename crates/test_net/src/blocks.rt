//! What no clause says: that a joiner is made where there is memory, and what Python's `ipaddress.collapse_addresses`
//! gives of the same blocks, which the rows have as data. Each public call runs once.
use mmdb_blocks::laws::{joined_form_is_fewest, joined_form_is_unique};
use mmdb_blocks::{Block, JoinError, Joiner};
use std::alloc::{AllocError, Global};
use std::net::IpAddr;

/// Blocks with a space between them, and the blocks that join them.
#[derive(Clone, Copy)]
struct Row {
    name: &'static str,
    blocks: &'static str,
    joined: &'static str,
}

const ROWS: &[Row] = &[
    Row {
        name: "nothing",
        blocks: "",
        joined: "",
    },
    Row {
        name: "one block",
        blocks: "192.0.2.0/24",
        joined: "192.0.2.0/24",
    },
    Row {
        name: "two halves",
        blocks: "10.0.0.0/25 10.0.0.128/25",
        joined: "10.0.0.0/24",
    },
    Row {
        name: "right half before a left half",
        blocks: "10.0.0.128/25 10.0.1.0/25",
        joined: "10.0.0.128/25 10.0.1.0/25",
    },
    Row {
        name: "halves of the IPv4 space",
        blocks: "0.0.0.0/1 128.0.0.0/1",
        joined: "0.0.0.0/0",
    },
    Row {
        name: "halves of the whole space",
        blocks: "::/1 8000::/1",
        joined: "::/0",
    },
    Row {
        name: "the whole space",
        blocks: "::/0",
        joined: "::/0",
    },
    Row {
        name: "last two addresses",
        blocks: "ffff:ffff:ffff:ffff:ffff:ffff:ffff:fffe/128 ffff:ffff:ffff:ffff:ffff:ffff:ffff:ffff/128",
        joined: "ffff:ffff:ffff:ffff:ffff:ffff:ffff:fffe/127",
    },
    Row {
        name: "first two addresses",
        blocks: "::/128 ::1/128",
        joined: "::/127",
    },
    Row {
        name: "second and third address",
        blocks: "::1/128 ::2/128",
        joined: "::1/128 ::2/128",
    },
    Row {
        name: "a gap between halves of halves",
        blocks: "10.0.0.0/26 10.0.0.128/26",
        joined: "10.0.0.0/26 10.0.0.128/26",
    },
    Row {
        name: "a gap of one address",
        blocks: "10.0.0.0/32 10.0.0.2/32",
        joined: "10.0.0.0/32 10.0.0.2/32",
    },
    Row {
        name: "four quarters",
        blocks: "10.0.0.0/26 10.0.0.64/26 10.0.0.128/26 10.0.0.192/26",
        joined: "10.0.0.0/24",
    },
    Row {
        name: "three quarters",
        blocks: "10.0.0.64/26 10.0.0.128/26 10.0.0.192/26",
        joined: "10.0.0.64/26 10.0.0.128/25",
    },
    Row {
        name: "three first quarters",
        blocks: "10.0.0.0/26 10.0.0.64/26 10.0.0.128/26",
        joined: "10.0.0.0/25 10.0.0.128/26",
    },
    Row {
        name: "a chain of ever smaller blocks that closes",
        blocks: "10.0.0.0/25 10.0.0.128/26 10.0.0.192/27 10.0.0.224/28 10.0.0.240/28",
        joined: "10.0.0.0/24",
    },
    Row {
        name: "a chain that does not close",
        blocks: "10.0.0.0/25 10.0.0.128/26 10.0.0.192/27 10.0.0.224/28 10.0.1.0/28",
        joined: "10.0.0.0/25 10.0.0.128/26 10.0.0.192/27 10.0.0.224/28 10.0.1.0/28",
    },
    Row {
        name: "a chain of larger blocks",
        blocks: "10.0.0.1/32 10.0.0.2/31 10.0.0.4/30 10.0.0.8/29",
        joined: "10.0.0.1/32 10.0.0.2/31 10.0.0.4/30 10.0.0.8/29",
    },
    Row {
        name: "a chain of larger blocks behind its first address",
        blocks: "10.0.0.0/32 10.0.0.1/32 10.0.0.2/31 10.0.0.4/30 10.0.0.8/29",
        joined: "10.0.0.0/28",
    },
    Row {
        name: "a settled left half whose right half comes too late",
        blocks: "10.0.0.0/26 10.0.0.64/27 10.0.0.128/25 10.0.1.0/24",
        joined: "10.0.0.0/26 10.0.0.64/27 10.0.0.128/25 10.0.1.0/24",
    },
    Row {
        name: "documentation",
        blocks: "2001:db8::/33 2001:db8:8000::/34 2001:db8:c000::/34 2001:db9::/32",
        joined: "2001:db8::/31",
    },
    Row {
        name: "seeded blocks 0",
        blocks: "10.0.0.0/29 10.0.0.8/29 10.0.0.16/28 10.0.0.32/29 10.0.0.40/29 10.0.0.48/28 10.0.0.64/26 10.0.0.128/29 10.0.0.144/29 10.0.0.152/29 10.0.0.160/29 10.0.0.176/28 10.0.0.208/29 10.0.0.216/29 10.0.0.224/29 10.0.0.232/29 10.0.0.240/29",
        joined: "10.0.0.0/25 10.0.0.128/29 10.0.0.144/28 10.0.0.160/29 10.0.0.176/28 10.0.0.208/28 10.0.0.224/28 10.0.0.240/29",
    },
    Row {
        name: "seeded blocks 1",
        blocks: "10.0.0.0/24",
        joined: "10.0.0.0/24",
    },
    Row {
        name: "seeded blocks 2",
        blocks: "10.0.0.0/29 10.0.0.16/29 10.0.0.40/29 10.0.0.48/29 10.0.0.56/29 10.0.0.80/28 10.0.0.104/29 10.0.0.112/29 10.0.0.120/29 10.0.0.144/28 10.0.0.168/29 10.0.0.176/29 10.0.0.184/29 10.0.0.192/27 10.0.0.224/29 10.0.0.232/29 10.0.0.240/29 10.0.0.248/29",
        joined: "10.0.0.0/29 10.0.0.16/29 10.0.0.40/29 10.0.0.48/28 10.0.0.80/28 10.0.0.104/29 10.0.0.112/28 10.0.0.144/28 10.0.0.168/29 10.0.0.176/28 10.0.0.192/26",
    },
    Row {
        name: "seeded blocks 3",
        blocks: "10.0.0.64/28 10.0.0.80/28 10.0.0.96/29 10.0.0.104/29 10.0.0.120/29 10.0.0.128/29 10.0.0.136/29 10.0.0.144/29 10.0.0.152/29 10.0.0.192/27 10.0.0.224/28 10.0.0.240/29 10.0.0.248/29",
        joined: "10.0.0.64/27 10.0.0.96/28 10.0.0.120/29 10.0.0.128/27 10.0.0.192/26",
    },
];

// The block that a text names: an IPv4 address stands for the number of its bits, with 96 zero bits before.
fn block_of(text: &str) -> Option<Block> {
    let (address, prefix) = text.split_once('/')?;
    let prefix: u8 = prefix.parse().ok()?;
    match address.parse::<IpAddr>().ok()? {
        IpAddr::V4(address) => Some(Block {
            first: u128::from(address.to_bits()),
            prefix: prefix.saturating_add(96),
        }),
        IpAddr::V6(address) => Some(Block {
            first: address.to_bits(),
            prefix,
        }),
    }
}

/// The blocks that texts name, with a space between them.
pub(crate) fn blocks_of(alloc: Global, texts: &str) -> Result<Vec<Block>, AllocError> {
    let mut blocks = Vec::new(alloc);
    for text in texts.split_whitespace() {
        let named = block_of(text).unwrap_or(Block {
            first: 1,
            prefix: 0,
        });
        blocks.push(named)?;
    }
    Ok(blocks)
}

fn hand_out(joiner: &Joiner, joined: &mut Vec<Block>) -> Result<(), AllocError> {
    joined.extend_from_slice(joiner.settled())
}

// What a joiner hands out of the blocks, in order, and the first error.
fn joined_by(
    joiner: &mut Joiner,
    alloc: Global,
    blocks: &[Block],
) -> Result<(Vec<Block>, Option<JoinError>), AllocError> {
    let mut joined = Vec::new(alloc);
    for block in blocks {
        if let Err(to_error) = joiner.push(*block) {
            return Ok((joined, Some(to_error)));
        }
        hand_out(joiner, &mut joined)?;
    }
    joiner.finish();
    hand_out(joiner, &mut joined)?;
    Ok((joined, None))
}

fn is_joined(joiner: &mut Joiner, alloc: Global, row: &Row) -> Result<bool, AllocError> {
    let (blocks, wanted) = (blocks_of(alloc, row.blocks)?, blocks_of(alloc, row.joined)?);
    let (joined, to_error) = joined_by(joiner, alloc, &blocks)?;
    Ok(to_error.is_none() && joined == wanted)
}

// The first row whose blocks are not joined as it says.
fn first_not_joined(alloc: Global) -> Result<Option<&'static str>, AllocError> {
    // One joiner for all rows: after `finish` it begins anew.
    let mut joiner = Joiner::new(alloc)?;
    for row in ROWS {
        if !is_joined(&mut joiner, alloc, row)? {
            return Ok(Some(row.name));
        }
    }
    Ok(None)
}

#[test]
fn joined_as_python_does(rt: HostRuntime) {
    let failed = first_not_joined(rt.alloc());
    assert!(rt; failed == Ok(None), "{failed:?}");
}

// The first error of blocks that are pushed.
fn error_of(alloc: Global, texts: &str) -> Result<Option<JoinError>, AllocError> {
    let mut joiner = Joiner::new(alloc)?;
    let blocks = blocks_of(alloc, texts)?;
    let (_, reported) = joined_by(&mut joiner, alloc, &blocks)?;
    Ok(reported)
}

/// Blocks the last of which is rejected.
const REJECTED: &[(&str, JoinError)] = &[
    ("10.0.0.0/25 10.0.0.0/25", JoinError::OutOfOrder),
    ("10.0.0.0/24 10.0.0.255/32", JoinError::OutOfOrder),
    ("10.0.1.0/24 10.0.0.0/24", JoinError::OutOfOrder),
    (
        "10.0.0.0/25 10.0.0.128/25 10.0.0.255/32",
        JoinError::OutOfOrder,
    ),
    ("10.0.1.0/24 10.0.0.0/16", JoinError::OutOfOrder),
    (
        "::/0 ffff:ffff:ffff:ffff:ffff:ffff:ffff:ffff/128",
        JoinError::OutOfOrder,
    ),
    ("10.0.0.1/24", JoinError::NotABlock),
    ("10.0.0.0/24 10.0.1.64/25", JoinError::NotABlock),
    ("::/129", JoinError::NotABlock),
    ("8000::/0", JoinError::NotABlock),
    ("::/255", JoinError::NotABlock),
];

#[test]
fn rejected_blocks(rt: HostRuntime) {
    for (texts, to_error) in REJECTED {
        let reported = error_of(rt.alloc(), texts);
        assert!(rt; reported == Ok(Some(*to_error)), "{texts}: {reported:?}");
    }
}

/// Blocks, and their last addresses.
const LAST: &[(&str, u128)] = &[
    ("10.0.0.0/24", 0x0a00_00ff),
    ("::/0", u128::MAX),
    ("::1/128", 1),
    ("::/127", 1),
];

// The last address of the block that a text names.
fn last_of(text: &str) -> Option<u128> {
    match block_of(text) {
        Some(block) if block.is_block() => Some(block.last()),
        _ => None,
    }
}

#[test]
fn last_addresses(rt: HostRuntime) {
    for (text, last) in LAST {
        assert!(rt; last_of(text) == Some(*last), "{text}");
    }
}

#[test]
fn laws_are_called() {
    joined_form_is_unique();
    joined_form_is_fewest();
}
