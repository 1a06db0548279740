//! Networks one after another.
ghost use Rattle.std.specs.Prelude.{◌≡◌, ℕ, List, [], IfSome, IfOk};
ghost use Rattle.mmdb_query.specs.Walks.{Item as SpecItem, IsStep, Goes};

use crate::answer::Answer;
use mmdb_reader::{IpNetwork, LookupResult, MaxMindDbError, Within};
use std::convert::AsSlice;

/// A leaf that can't be read: the place of its database, and the network before it, if there is one.
#[derive(Clone, Copy)]
pub struct UnreadLeaf {
    pub place: usize,
    pub behind: Option<IpNetwork>,
}

/// Hands out what databases have, network by network, ascending.
pub trait Walk {
    type Item: Answer;

    /// The data sections of the databases, in their order. They stay: what is kept of their records is sound for no others.
    ghost sections: { Self → List (List ℕ) };

    /// What may come.
    ghost comes: { Self → List SpecItem → Type 0 };

    /// The next network. An `Err` is one that can't be read, unless out of memory.
    fn next_item(&mut self) -> Option<Result<Self::Item, MaxMindDbError>>
        ensures sections { sections self.new ≡ sections self.old }
        ensures of { IfSome result (λ item. IfOk item
            (λ answer. Self.Item.sections answer ≡ sections self.old)) }
        ensures step { IsStep comes Self.Item.had self.old result self.new };

    /// Where the leaf is of which the last item said that it can't be read.
    fn unread_leaf(&self) -> UnreadLeaf;

    /// Takes back what was handed out, whose memory then serves what comes.
    fn give_back(&mut self, item: Self::Item)
        ensures sections { sections self.new ≡ sections self.old }
        ensures comes { Goes comes self.old [] self.new };
}

/// The networks of one database.
#[derive(Drop)]
pub struct One<'de, S: AsSlice<u8> + Drop> {
    pub(crate) within: Within<'de, S>,
    last: Option<LookupResult<'de, S>>,
}

impl<'de, S: AsSlice<u8> + Drop> One<'de, S> {
    /// Those that are listed.
    pub fn new(within: Within<'de, S>) -> One<'de, S>
        ensures { result.within ≡ within.entry }
    {
        One { within, last: None }
    }
}

/// Exactly the items that are listed come.
impl<'de, S: AsSlice<u8> + Drop> Walk for One<'de, S> {
    ghost use Rattle.mmdb_query.specs.Walks.{section_walked, comes_alone};

    type Item = LookupResult<'de, S>;

    ghost sections = { λ one. section_walked one.within };

    ghost comes = { λ one. comes_alone one.within };

    #[inline(always)]
    fn next_item(&mut self) -> Option<Result<LookupResult<'de, S>, MaxMindDbError>> {
        let item = self.within.next();
        if let Some(Ok(found)) = &item {
            self.last = Some(*found);
        }
        item
    }

    fn unread_leaf(&self) -> UnreadLeaf {
        UnreadLeaf {
            place: 0,
            behind: match &self.last {
                Some(found) => Some(Answer::network(found)),
                None => None,
            },
        }
    }

    #[inline(always)]
    fn give_back(&mut self, _item: LookupResult<'de, S>) {}
}
