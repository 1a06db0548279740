//! Any number of databases side by side.
ghost use Rattle.std.specs.Prelude.{MatchOption, IfOk, ◌≡◌, ◌+◌, ◌<◌, map, length, get_or};
ghost use Rattle.std.specs.List.{All};
ghost use Rattle.mmdb_blocks.specs.Blocks.{IsBlock, end};
ghost use Rattle.mmdb_net.specs.Network.{ip_of};
ghost use Rattle.mmdb_reader.specs.File.{Database};
ghost use Rattle.mmdb_reader.specs.Lookup.{CanAsk};
ghost use Rattle.mmdb_compare.specs.Listed.{all_of};
ghost use Rattle.mmdb_compare.specs.Parts.{start_of};
ghost use Rattle.mmdb_compare.specs.Found.{numbered_ip, IsFoundAt, AreFoundAt};
ghost use Rattle.mmdb_compare.specs.Together.{IsNextOfAll, AreOver, AreBegun, offset_in};
ghost use Rattle.mmdb_compare.specs.WalkList.{AreSameLeft};

use crate::walk::UnreadLeaf;
use crate::walk_list::{AllAt, AskedDatabase, WalkList};
use mmdb_blocks::Block;
use mmdb_reader::{IpNetwork, LookupResult, MaxMindDbError};
use std::alloc::{AllocError, Global};
use std::convert::AsSlice;
use std::marker::Model;

/// A block in which each database has one answer, and at least one of them a record.
#[derive(Clone, Copy)]
pub struct TogetherStretch {
    pub block: Block,
    pub is_ipv4: bool,
}

/// What comes next of the addresses.
#[derive(Clone, Copy)]
pub enum TogetherPart {
    Stretch(TogetherStretch),
    /// A leaf of the database at this place can't be read, which `take_unread` gives. What that database has up to its next
    /// network is not handed out.
    Unread(usize),
}

/// Any number of databases side by side. Memory is taken by `new` alone.
#[derive(Drop)]
pub struct Together<'a, S: AsSlice<u8> + Drop> {
    list: WalkList<'a, S>,
    /// Whether the ranges are ones of IPv4, so that all blocks are.
    is_ipv4: bool,
    /// The address up to which all was handed out, if there is one left.
    at: Option<u128>,
    /// The first address of the last stretch.
    shown_at: u128,
    /// Whether all are at one network, of which nothing is left.
    are_even: bool,
}

impl<'a, S: AsSlice<u8> + Drop> Model for Together<'a, S> {
    ghost use Rattle.mmdb_compare.specs.Together.{Abreast};
    ghost use Rattle.mmdb_compare.specs.WalkList.{abreast, AreAbreast};

    ghost Value = { Abreast };

    ghost view = { λ t. abreast t.at t.shown_at t.list.walks.items };

    ghost invariant = { λ t. AreAbreast t.at t.are_even t.list.walks.items };
}

// The address after another one, if there is one.
#[inline(always)]
fn next_to(last: u128) -> Option<u128>
    ensures { start_of result ≡ last + 1 }
{
    last.checked_add(1)
}

// The address after a block, if there is one.
#[inline(always)]
fn behind(block: Block) -> Option<u128>
    requires { IsBlock block }
    ensures { start_of result ≡ end block }
{
    next_to(block.last())
}

// Whether all databases are asked for networks of IPv4.
fn are_all_ipv4<S: AsSlice<u8> + Drop>(databases: &[AskedDatabase<'_, S>]) -> bool {
    databases
        .iter()
        .all(|asked| matches!(asked.range, IpNetwork::V4(_)))
}

impl<'a, S: AsSlice<u8> + Drop> Together<'a, S> {
    /// Databases, each in its range. An error, with the place of its database, where that can't be asked for the range, or
    /// memory is out.
    pub fn new(
        alloc: Global,
        databases: &[AskedDatabase<'a, S>],
    ) -> Result<Together<'a, S>, (usize, MaxMindDbError)>
        ensures begun { IfOk result (λ together.
            AreBegun (map (λ d. all_of d.reader.now d.range) databases.now) together) }
        ensures databases { IfOk result (λ together.
            together.databases ≡ map (λ d. d.reader.now) databases.now) }
        ensures asked { IfOk result (λ _.
            All (λ d. CanAsk d.reader.now (ip_of d.range)) databases.now) }
    {
        Ok(Together {
            list: WalkList::new(alloc, databases)?,
            is_ipv4: are_all_ipv4(databases),
            at: Some(0),
            shown_at: 0,
            are_even: false,
        })
    }

    // The next part, where all databases had the same network before it: mostly they have the same next one, which is found
    // in fewer steps than any other part.
    #[inline(always)]
    fn next_shared(&mut self) -> Option<TogetherPart>
        ensures next { MatchOption result (AreSameLeft self.entry.now self.exit.now)
            (λ part. IsNextOfAll self.entry.now self.exit.now part) }
        ensures databases { self.exit.now.databases ≡ self.entry.now.databases }
    {
        if !self.are_even {
            return None;
        }
        self.are_even = false;
        let at = self.at?;
        if let Some(place) = self.list.go_on() {
            return Some(TogetherPart::Unread(place));
        }
        let block = self.list.shared_behind(at)?;
        self.at = behind(block);
        self.shown_at = block.first;
        self.are_even = true;
        let is_ipv4 = self.is_ipv4 || self.list.shows_ipv4(block.first);
        Some(TogetherPart::Stretch(TogetherStretch { block, is_ipv4 }))
    }

    // The next part, address by address.
    #[inline(never)]
    fn next_apart(&mut self) -> Option<TogetherPart>
        ensures next { MatchOption result (AreOver self.entry.now self.exit.now)
            (λ part. IsNextOfAll self.entry.now self.exit.now part) }
        ensures databases { self.exit.now.databases ≡ self.entry.now.databases }
    {
        self.are_even = false;
        while let Some(at) = self.at {
            if let Some(place) = self.list.go_to(at) {
                return Some(TogetherPart::Unread(place));
            }
            match self.list.at(at) {
                AllAt::Passed(last) => self.at = next_to(last),
                AllAt::Shown { block, are_even } => {
                    self.at = behind(block);
                    self.shown_at = at;
                    self.are_even = are_even;
                    let is_ipv4 = self.is_ipv4 || self.list.shows_ipv4(at);
                    return Some(TogetherPart::Stretch(TogetherStretch { block, is_ipv4 }));
                }
            }
        }
        None
    }

    /// The next part. A stretch begins where the one before ends, or later. None where all is handed out.
    #[inline(always)]
    pub fn next_part(&mut self) -> Option<TogetherPart>
        ensures next { MatchOption result (AreOver self.entry.now self.exit.now)
            (λ part. IsNextOfAll self.entry.now self.exit.now part) }
        ensures databases { self.exit.now.databases ≡ self.entry.now.databases }
    {
        match self.next_shared() {
            Some(part) => Some(part),
            None => self.next_apart(),
        }
    }

    /// The leaf that can't be read of the database at a place, where the last part names one.
    pub fn take_unread(&mut self, place: usize) -> Option<UnreadLeaf>
        ensures { self.exit.now ≡ self.entry.now }
    {
        self.list.take_unread(place)
    }

    /// How many databases there are.
    #[inline(always)]
    pub fn count(&self) -> usize
        ensures answers { result ≡ length self.now.answers }
        ensures databases { result ≡ length self.now.databases }
    {
        self.list.count()
    }

    /// Where the record is of the database at a place in the last stretch, if it has one.
    #[inline(always)]
    pub fn offset(&self, place: usize) -> Option<usize>
        ensures { result ≡ offset_in self.now.answers place }
    {
        self.list.offset(place, self.shown_at)
    }

    /// What each database has in the last stretch, in their order: what a lookup of its first address finds, and none where
    /// the database has no record there.
    pub fn answers(
        &self,
        alloc: Global,
        stretch: TogetherStretch,
    ) -> Result<Vec<Option<LookupResult<'a, S>>>, AllocError>
        ensures { let address = numbered_ip stretch.block.first in
            IfOk result
            (λ all. AreFoundAt address self.now.databases self.now.answers all.items) }
    {
        self.list.found(alloc, self.shown_at, stretch.block.first)
    }

    /// What the database at a place has for the first address of a stretch: what a lookup of that finds.
    pub fn found(&self, place: usize, stretch: TogetherStretch) -> Option<LookupResult<'a, S>>
        ensures { (db : Database) → place < length self.now.databases → IsFoundAt
            (get_or self.now.databases place db) (numbered_ip stretch.block.first) result }
    {
        self.list.found_in(place, stretch.block.first)
    }
}
