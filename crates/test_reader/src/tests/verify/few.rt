//! Trees that lead to more networks than their nodes can have.
use super::files::{alias_fan, ladder};
use mmdb_reader::{IpNetwork, MaxMindDbError, Reader};
use mmdb_vectors::builder::base_file;
use mmdb_vectors::failures::Failures;
use std::alloc::{AllocError, Global};

#[derive(Clone, Copy, Debug)]
enum Tree {
    /// One node.
    Base,
    /// So many nodes, each of which leads both ways to the next one.
    Ladder(u8),
    /// 117 nodes, with 2^20 aliases behind the first bit 1.
    AliasFan,
}

/// A tree, a range, and whether it has few networks there: none where it can't be asked for the range.
#[rattlefmt::skip]
const ROWS: &[(Tree, &str, Option<bool>)] = &[
    (Tree::Base, "0.0.0.0/0", Some(true)),
    (Tree::Base, "128.0.0.0/1", Some(true)),
    (Tree::Base, "1.2.3.4/32", Some(true)),
    (Tree::Base, "::/0", None),
    // 8 leaves, where 10 are few, and 16, where 13 are
    (Tree::Ladder(3), "0.0.0.0/0", Some(true)),
    (Tree::Ladder(4), "0.0.0.0/0", Some(false)),
    (Tree::Ladder(4), "0.0.0.0/1", Some(true)),
    // where 97 are few: 2^32 leaves, 128, and 64
    (Tree::Ladder(32), "0.0.0.0/0", Some(false)),
    (Tree::Ladder(32), "255.255.255.0/25", Some(false)),
    (Tree::Ladder(32), "255.255.255.0/26", Some(true)),
    (Tree::Ladder(32), "255.255.255.255/32", Some(true)),
    (Tree::AliasFan, "::/0", Some(false)),
    (Tree::AliasFan, "8000::/1", Some(false)),
    (Tree::AliasFan, "::/1", Some(true)),
    (Tree::AliasFan, "0.0.0.0/0", Some(true)),
];

fn file_of(alloc: Global, tree: Tree) -> Result<Vec<u8>, AllocError> {
    match tree {
        Tree::Base => base_file(alloc),
        Tree::Ladder(nodes) => ladder(alloc, nodes),
        Tree::AliasFan => alias_fan(alloc),
    }
}

// Whether a tree has few networks in a range.
fn has_few(alloc: Global, tree: Tree, range: &str) -> Result<Option<bool>, MaxMindDbError> {
    let reader = Reader::from_source(alloc, file_of(alloc, tree)?)?;
    let range: IpNetwork = range.parse()?;
    match reader.has_few_networks(alloc, range) {
        Ok(few) => Ok(Some(few)),
        Err(MaxMindDbError::InvalidInput { .. }) => Ok(None),
        Err(error) => Err(error),
    }
}

#[test]
fn trees_with_few_networks(rt: HostRuntime) -> Result<(), Failures> {
    let (alloc, mut failures) = (rt.alloc(), Failures::new(rt.alloc()));
    for (tree, range, few) in ROWS {
        let holds = has_few(alloc, *tree, range).ok() == Some(*few);
        failures.expect(&(*tree, *range), holds);
    }
    failures.verdict()
}
