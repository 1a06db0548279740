//! The walks of any number of databases side by side.
ghost use Rattle.std.specs.Prelude.{◌≡◌, ◌≤◌, ◌<◌, ◌&&◌, ◌||◌, ℕ, true, min, map, length, get_or, MatchOption, IfOk};
ghost use Rattle.std.specs.List.{All};
ghost use Rattle.mmdb_blocks.specs.Blocks.{IsBlock};
ghost use Rattle.mmdb_net.specs.Network.{ip_of};
ghost use Rattle.mmdb_reader.specs.File.{Database};
ghost use Rattle.mmdb_reader.specs.Lookup.{CanAsk};
ghost use Rattle.mmdb_compare.specs.Listed.{all_of};
ghost use Rattle.mmdb_compare.specs.Walks.{left_of, IsFrom, last_here, is_record_here};
ghost use Rattle.mmdb_compare.specs.Together.{offset_in};
ghost use Rattle.mmdb_compare.specs.Found.{numbered_ip, IsFoundAt, AreFoundAt};
ghost use Rattle.mmdb_compare.specs.WalkList.{databases_of, AllGone, AllPassed, IsMetOf, AreHere, AreAt, AreNarrowest, AreShared, AreDone, is_known_here, held_at};

use crate::walk::{Here, UnreadLeaf, Walk};
use mmdb_blocks::Block;
use mmdb_reader::{IpNetwork, LookupResult, MaxMindDbError, Reader};
use std::alloc::{AllocError, Global};
use std::convert::AsSlice;

/// A database, and the range for which it is asked.
#[derive(Drop)]
pub struct AskedDatabase<'a, S: AsSlice<u8> + Drop> {
    pub reader: &'a Reader<S>,
    pub range: IpNetwork,
}

/// The walks of databases, one of each.
#[derive(Drop)]
pub(crate) struct WalkList<'a, S: AsSlice<u8> + Drop> {
    pub(crate) walks: Vec<Walk<'a, S>>,
}

/// What all databases have at an address, as far as the same holds.
#[derive(Clone, Copy)]
pub(crate) struct AllHere {
    pub(crate) last: u128,
    pub(crate) is_known: bool,
    pub(crate) has_record: bool,
}

/// What is handed out at an address.
#[derive(Clone, Copy)]
pub(crate) enum AllAt {
    /// A block that begins there. `are_even` says that all are at one network, of which nothing is left after the block.
    Shown { block: Block, are_even: bool },
    /// Nothing up to this address.
    Passed(u128),
}

// The narrowest of the networks that all are at, and whether they have one prefix.
#[derive(Clone, Copy)]
struct Narrowest {
    block: Block,
    are_even: bool,
}

impl Narrowest {
    // With one more network.
    #[inline(always)]
    fn and(self, block: Block) -> Narrowest
        requires of_these { IsBlock self.block }
        requires of_other { IsBlock block }
        ensures block { IsBlock result.block }
        ensures before { self.block.prefix ≤ result.block.prefix }
        ensures narrower { block.prefix ≤ result.block.prefix }
        ensures even { result.are_even ≡ true → self.are_even ≡ true }
        ensures same { result.are_even ≡ true → result.block.prefix ≡ self.block.prefix }
        ensures one { result.are_even ≡ true → block.prefix ≡ result.block.prefix }
    {
        if block.prefix == self.block.prefix {
            return self;
        }
        Narrowest {
            block: if block.prefix > self.block.prefix {
                block
            } else {
                self.block
            },
            are_even: false,
        }
    }
}

impl AllHere {
    // With what one more database has there.
    fn and(self, here: Here) -> AllHere
        ensures last { result.last ≡ min (last_here here) self.last }
        ensures known { result.is_known ≡ (self.is_known && is_known_here here) }
        ensures some { result.has_record ≡ (self.has_record || is_record_here here) }
    {
        let (last, is_known, has_record) = match here {
            Here::Record(last) => (last, true, true),
            Here::Nothing(last) => (last, true, false),
            Here::Unknown(last) => (last, false, false),
        };
        AllHere {
            last: last.min(self.last),
            is_known: self.is_known && is_known,
            has_record: self.has_record || has_record,
        }
    }

    // Whether it is handed out: what each database has is known, and one of them has a record.
    fn is_shown(self) -> bool
        ensures { result ≡ (self.is_known && self.has_record) }
    {
        self.is_known && self.has_record
    }
}

impl<'a, S: AsSlice<u8> + Drop> WalkList<'a, S> {
    /// The walks of databases, each in its range. An error, with the place of its database, where that can't be asked for the
    /// range, or memory is out.
    pub(crate) fn new(
        alloc: Global,
        databases: &[AskedDatabase<'a, S>],
    ) -> Result<WalkList<'a, S>, (usize, MaxMindDbError)>
        ensures left { IfOk result (λ list.
            map left_of list.walks.items ≡ map (λ d. all_of d.reader.now d.range) databases.now) }
        ensures databases { IfOk result (λ list.
            databases_of list.walks.items ≡ map (λ d. d.reader.now) databases.now) }
        ensures asked { IfOk result (λ _.
            All (λ d. CanAsk d.reader.now (ip_of d.range)) databases.now) }
    {
        let mut walks = Vec::new(alloc);
        for place in 0..databases.len() {
            let asked = &databases[place];
            let walk = match Walk::new(alloc, asked.reader, asked.range) {
                Ok(walk) => walk,
                Err(error) => return Err((place, error)),
            };
            if let Err(error) = walks.push(walk) {
                return Err((place, MaxMindDbError::from(error)));
            }
        }
        Ok(WalkList { walks })
    }

    /// Goes on to an address in all, or names the place of a leaf that can't be read.
    pub(crate) fn go_to(&mut self, at: u128) -> Option<usize>
        ensures databases { let before = self.entry.now.walks.items in
            databases_of self.exit.now.walks.items ≡ databases_of before }
        ensures step { MatchOption result
            (AllGone at self.entry.now.walks.items self.exit.now.walks.items)
            (λ place. IsMetOf place at self.entry.now.walks.items self.exit.now.walks.items) }
    {
        for place in 0..self.walks.len() {
            let walk = &mut self.walks[place];
            if !walk.go_to(at) {
                return Some(place);
            }
        }
        None
    }

    /// Goes on in all from where they are, or names the place of a leaf that can't be read.
    #[inline(always)]
    pub(crate) fn go_on(&mut self) -> Option<usize>
        ensures databases { let before = self.entry.now.walks.items in
            databases_of self.exit.now.walks.items ≡ databases_of before }
        ensures step { (at : ℕ) → AreDone at self.entry.now.walks.items
            → MatchOption result
            (AllPassed at self.entry.now.walks.items self.exit.now.walks.items)
            (λ place. IsMetOf place at self.entry.now.walks.items self.exit.now.walks.items) }
    {
        for place in 0..self.walks.len() {
            let walk = &mut self.walks[place];
            if !walk.pass() {
                return Some(place);
            }
        }
        None
    }

    /// The block of the networks that all are at, where that is one network, at an address or after it.
    #[inline(always)]
    pub(crate) fn shared_behind(&self, at: u128) -> Option<Block>
        ensures { MatchOption result Unit (AreShared self.now.walks.items at) }
    {
        if self.walks.is_empty() {
            return None;
        }
        let block = self.walks[0].block();
        for walk in &self.walks {
            if !walk.is_at(block) {
                return None;
            }
        }
        if at <= block.first { Some(block) } else { None }
    }

    // The narrowest of the networks that all are at, where it begins at an address and the others hold that.
    #[inline(always)]
    fn narrowest_at(&self, at: u128) -> Option<Narrowest>
        ensures { MatchOption result Unit (λ narrowest.
            AreNarrowest self.now.walks.items at narrowest.block narrowest.are_even) }
    {
        if self.walks.is_empty() {
            return None;
        }
        let mut all = Narrowest {
            block: self.walks[0].block(),
            are_even: true,
        };
        for walk in &self.walks {
            if !walk.has_begun(at) {
                return None;
            }
            all = all.and(walk.block());
        }
        if all.block.first == at {
            Some(all)
        } else {
            None
        }
    }

    // What all have at an address, one by one.
    fn each_at(&self, at: u128) -> AllHere
        requires { All (IsFrom at) self.now.walks.items }
        ensures { AreHere self.now.walks.items at result }
    {
        let mut all = AllHere {
            last: u128::MAX,
            is_known: true,
            has_record: false,
        };
        for walk in &self.walks {
            all = all.and(walk.at(at));
        }
        all
    }

    /// What is handed out at an address.
    #[inline(always)]
    pub(crate) fn at(&self, at: u128) -> AllAt
        requires { All (IsFrom at) self.now.walks.items }
        ensures { AreAt self.now.walks.items at result }
    {
        if let Some(Narrowest { block, are_even }) = self.narrowest_at(at) {
            return AllAt::Shown { block, are_even };
        }
        let here = self.each_at(at);
        if !here.is_shown() {
            return AllAt::Passed(here.last);
        }
        AllAt::Shown {
            block: Block::largest(at, here.last),
            are_even: false,
        }
    }

    /// Whether a network of IPv4 holds an address, in one of them.
    pub(crate) fn shows_ipv4(&self, at: u128) -> bool {
        for walk in &self.walks {
            if walk.has_begun(at) && walk.is_ipv4() {
                return true;
            }
        }
        false
    }

    /// How many there are.
    #[inline(always)]
    pub(crate) fn count(&self) -> usize
        ensures { result ≡ length self.now.walks.items }
    {
        self.walks.len()
    }

    /// Where the record is that the one at a place has for an address that it went on to, if it has one.
    #[inline(always)]
    pub(crate) fn offset(&self, place: usize, at: u128) -> Option<usize>
        ensures { result ≡ offset_in (map (held_at at) self.now.walks.items) place }
    {
        if place >= self.walks.len() {
            return None;
        }
        let walk = &self.walks[place];
        if walk.has_begun(at) {
            walk.offset()
        } else {
            None
        }
    }

    /// What each has for an address: none where it has no record for another one, which it went on to.
    pub(crate) fn found(
        &self,
        alloc: Global,
        at: u128,
        address: u128,
    ) -> Result<Vec<Option<LookupResult<'a, S>>>, AllocError>
        ensures { let walks = self.now.walks.items in
            let held = map (held_at at) walks in
            IfOk result (λ all.
            AreFoundAt (numbered_ip address) (databases_of walks) held all.items) }
    {
        let mut all = Vec::with_capacity(alloc, self.walks.len())?;
        for walk in &self.walks {
            all.push(walk.found_from(at, address))?;
        }
        Ok(all)
    }

    /// What the one at a place has for an address.
    pub(crate) fn found_in(&self, place: usize, address: u128) -> Option<LookupResult<'a, S>>
        ensures { (db : Database) → place < length self.now.walks.items
            → IsFoundAt (get_or (databases_of self.now.walks.items) place db)
            (numbered_ip address) result }
    {
        if place >= self.walks.len() {
            return None;
        }
        let walk = &self.walks[place];
        walk.found_at(address)
    }

    /// The last leaf that can't be read of the database at a place.
    pub(crate) fn take_unread(&mut self, place: usize) -> Option<UnreadLeaf>
        ensures { self.exit.now.walks.items ≡ self.entry.now.walks.items }
    {
        if place >= self.walks.len() {
            return None;
        }
        let walk = &mut self.walks[place];
        walk.take_unread()
    }
}
