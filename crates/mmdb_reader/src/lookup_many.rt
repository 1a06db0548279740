//! Lookups of many addresses, one answer after another.
ghost use Rattle.std.specs.Prelude.{◌≡◌, ℕ, ◌<◌, ◌≤◌, length, slice_index_or};
ghost use Rattle.std.specs.declared.net.ip_addr.IpAddr.{IpAddr as SpecIpAddr};

use crate::lookup_result::LookupResult;
use crate::many::Reached;
use crate::reader::Reader;
use mmdb_format::error::MaxMindDbError;
use mmdb_tree::FoundLeaf;
use std::convert::AsSlice;
use std::marker::Model;
use std::net::IpAddr;

/// The answers for addresses, in their order: each address with what `lookup` answers for it.
///
/// In a tree that outgrows the caches up to 64 addresses are walked together, side by side where one of them is of IPv4.
/// No item takes memory.
/// An address that can't be asked for is an error in its place, and the others come after it.
///
///     let mut with_data = 0usize;
///     for (_, answer) in reader.lookup_many(addresses) {
///         if answer?.has_data() {
///             with_data = with_data.saturating_add(1);
///         }
///     }
#[derive(Drop)]
pub struct LookupMany<'r, 'a, S: AsSlice<u8> + Drop> {
    reader: &'r Reader<S>,
    left: &'a [IpAddr],
    one_by_one: bool,
    leaves: [FoundLeaf; 64],
    next: usize,
    count: usize,
}

impl<'r, 'a, S: AsSlice<u8> + Drop> Model for LookupMany<'r, 'a, S> {
    ghost use Rattle.std.specs.Prelude.{◌≡◌, true};
    ghost use Rattle.mmdb_reader.specs.Many.{IsGroup, LookupsLeft};

    ghost Value = { LookupsLeft };

    ghost view = { λ l. record { database = l.reader.now; addresses = l.left.now } };

    ghost invariant = { λ l. (l.one_by_one ≡ true → l.next ≡ l.count)
        × IsGroup l.reader.now l.left.now l.leaves l.next l.count };
}

impl<S: AsSlice<u8> + Drop> Reader<S> {
    /// What `lookup` answers for each of these addresses, in their order; both kinds may be mixed.
    ///
    /// Where the tree does not fit the processor's caches, this is faster than lookups one by one, and else as fast.
    pub fn lookup_many<'r, 'a>(&'r self, addresses: &'a [IpAddr]) -> LookupMany<'r, 'a, S>
        ensures database { result.database ≡ self.now }
        ensures addresses { result.addresses ≡ addresses.now }
    {
        LookupMany {
            reader: self,
            left: addresses,
            one_by_one: !self.outgrows_caches(),
            leaves: [FoundLeaf::default(); 64],
            next: 0,
            count: 0,
        }
    }
}

impl<'r, 'a, S: AsSlice<u8> + Drop> Iterator for LookupMany<'r, 'a, S> {
    ghost use Rattle.std.specs.Iterator.{item_count};
    ghost use Rattle.mmdb_reader.specs.Many.{addresses_left, AnswersFirst};

    type Item = (IpAddr, Result<LookupResult<'r, S>, MaxMindDbError>);

    ghost next_gives = { AnswersFirst };

    ghost remaining = { item_count addresses_left };

    #[inline(always)]
    fn next(&mut self) -> Option<Self::Item> {
        let (first, rest) = self.left.split_first()?;
        let reader = self.reader;
        let found = if self.one_by_one {
            reader.walk_one(first)
        } else {
            if self.next == self.count {
                self.count = reader.find_group(self.left, &mut self.leaves);
                self.next = 0;
            }
            let leaf = self.leaves[self.next];
            self.next += 1;
            Reached::at(leaf)
        };
        self.left = rest;
        Some((*first, reader.answer_found(first, found)))
    }
}
