//! The tree of a database, at hand for walks.
ghost use Rattle.std.specs.Prelude.{◌≡◌};
ghost use Rattle.mmdb_tree.specs.Walked.{walked_by};
ghost use Rattle.mmdb_reader.specs.Stops.{walked_tree};
ghost use Rattle.mmdb_reader.specs.Walked.{IsWalkerOf};

use crate::reader::Reader;
use mmdb_tree::Walker;
use std::convert::AsSlice;

impl<S: AsSlice<u8> + Drop> Reader<S> {
    // What a walk of the tree asks at each point, at hand.
    pub(crate) fn tree_walker(&self) -> Walker<'_>
        ensures walks { walked_by result ≡ walked_tree self.now }
        ensures are { IsWalkerOf self.now result }
    {
        let start = self.ipv4_start();
        Walker {
            nodes: self.nodes(),
            width: usize::from(self.width()),
            ipv4_start: if self.has_ipv4_subtree() && start != 0 {
                Some(start)
            } else {
                None
            },
            data_len: self.data_len(),
        }
    }

    // What such a walk asks, with the reader that makes an answer of what it finds.
    pub(crate) fn walker(&self) -> DatabaseWalker<'_, S>
        ensures { result.reader.now ≡ self.now }
    {
        DatabaseWalker {
            reader: self,
            tree: self.tree_walker(),
        }
    }
}

// A reader, and what a walk of its tree asks at each position, at hand.
#[derive(Drop)]
pub(crate) struct DatabaseWalker<'a, S: AsSlice<u8> + Drop> {
    pub(crate) reader: &'a Reader<S>,
    pub(crate) tree: Walker<'a>,
    pub(crate) ghost are: { IsWalkerOf reader.now tree },
}
