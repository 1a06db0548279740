//! Several databases side by side.
ghost use Rattle.std.specs.Prelude.{◌≡◌, ◌↔◌, IsTrue, IfOk, IfErr, MatchOption, map};
ghost use Rattle.mmdb_format.specs.Error.{OfMemory, kind_of};
ghost use Rattle.mmdb_blocks.specs.Blocks.{IsBlock};
ghost use Rattle.mmdb_reader.specs.File.{data_section};
ghost use Rattle.mmdb_compare.specs.Listed.{all_of};
ghost use Rattle.mmdb_compare.specs.Together.{AreBegun, AreOver, IsNextOfAll};
ghost use Rattle.mmdb_query.specs.Abreast.{IsOfIpv4, offsets_said};

use crate::segment::{DatabaseRecord, Segment};
use crate::walk::{UnreadLeaf, Walk};
use mmdb_compare::{AskedDatabase, Together, TogetherPart, TogetherStretch};
use mmdb_format::message::{Message, Text};
use mmdb_reader::MaxMindDbError;
use std::alloc::{AllocError, Global};
use std::convert::AsSlice;
use std::mem;

/// Several databases side by side, as the largest blocks in which each has one answer and one of them a record.
#[derive(Drop)]
pub struct Many<'a, S: AsSlice<u8> + Drop> {
    alloc: Global,
    pub(crate) databases: &'a [AskedDatabase<'a, S>],
    pub(crate) together: Together<'a, S>,
    unread: UnreadLeaf,
    /// What was given back, whose memory serves the next stretch.
    spare: Vec<DatabaseRecord<'a, S>>,
    ghost of_these: { together.databases ≡ map (λ d. d.reader.now) databases.now },
}

impl<'a, S: AsSlice<u8> + Drop> Many<'a, S> {
    /// Databases, each in its range. An error, with the place of its database, where that can't be asked for the range, or
    /// memory is out.
    pub fn new(
        alloc: Global,
        databases: &'a [AskedDatabase<'a, S>],
    ) -> Result<Many<'a, S>, (usize, MaxMindDbError)>
        ensures databases { IfOk result (λ many. many.databases.now ≡ databases.now) }
        ensures begun { IfOk result (λ many.
            AreBegun (map (λ d. all_of d.reader.now d.range) databases.now) many.together) }
    {
        Ok(Many {
            alloc,
            databases,
            together: Together::new(alloc, databases)?,
            unread: UnreadLeaf {
                place: 0,
                behind: None,
            },
            spare: Vec::new(alloc),
        })
    }

    // The next part.
    #[inline(always)]
    fn next_part(&mut self) -> Option<TogetherPart>
        ensures next { MatchOption result (AreOver self.old.together self.new.together)
            (IsNextOfAll self.old.together self.new.together) }
        ensures databases { self.new.databases.now ≡ self.old.databases.now }
    {
        self.together.next_part()
    }

    // Where each database has its record in the last stretch.
    fn records(&mut self) -> Result<Vec<DatabaseRecord<'a, S>>, AllocError>
        ensures sections { IfOk result (λ records. map (λ r. data_section r.reader.now)
            records.items ≡ map (λ d. data_section d.reader.now) self.old.databases.now) }
        ensures offsets { IfOk result (λ records. map (λ r. r.offset) records.items
            ≡ offsets_said self.old.together.answers) }
        ensures databases { self.new.databases.now ≡ self.old.databases.now }
        ensures together { self.new.together ≡ self.old.together }
    {
        let count = self.together.count();
        let mut records = mem::replace(&mut self.spare, Vec::new(self.alloc));
        records.clear();
        for place in 0..count {
            records.push(DatabaseRecord {
                reader: self.databases[place].reader,
                offset: self.together.offset(place),
            })?;
        }
        Ok(records)
    }

    // What the databases have in the last stretch.
    fn segment(&mut self, stretch: TogetherStretch) -> Result<Segment<'a, S>, MaxMindDbError>
        requires { IsBlock stretch.block }
        ensures kind { IfOk result (λ s. IsTrue s.at.is_ipv4
            ↔ IsOfIpv4 stretch.is_ipv4 stretch.block) }
        ensures block { IfOk result (λ s. s.at.block ≡ stretch.block) }
        ensures sections { IfOk result (λ s. map (λ r. data_section r.reader.now)
            s.records.items ≡ map (λ d. data_section d.reader.now) self.old.databases.now) }
        ensures offsets { IfOk result (λ s. map (λ r. r.offset) s.records.items
            ≡ offsets_said self.old.together.answers) }
        ensures memory { IfErr result (λ e. kind_of e ≡ OfMemory) }
        ensures databases { self.new.databases.now ≡ self.old.databases.now }
        ensures together { self.new.together ≡ self.old.together }
    {
        let records = self.records()?;
        Ok(Segment::new(stretch.block, stretch.is_ipv4, records))
    }

    // Why a leaf of the database at a place can't be read.
    fn error_at(&mut self, place: usize) -> MaxMindDbError
        ensures databases { self.new.databases.now ≡ self.old.databases.now }
        ensures together { self.new.together ≡ self.old.together }
    {
        match self.together.take_unread(place) {
            Some(leaf) => {
                self.unread = UnreadLeaf {
                    place,
                    behind: leaf.behind,
                };
                leaf.error
            }
            None => MaxMindDbError::InvalidDatabase {
                message: Message::Fixed(Text::InvalidLocation),
                offset: None,
            },
        }
    }
}

/// Several databases: a block in which each has one answer comes, or a leaf of one that can't be read.
impl<'a, S: AsSlice<u8> + Drop> Walk for Many<'a, S> {
    ghost use Rattle.mmdb_query.specs.Abreast.{ComesAbreast};

    type Item = Segment<'a, S>;

    ghost sections = { λ m. map (λ d. data_section d.reader.now) m.databases.now };

    ghost comes = { λ m. ComesAbreast m.together };

    #[inline(always)]
    fn next_item(&mut self) -> Option<Result<Segment<'a, S>, MaxMindDbError>> {
        match self.next_part() {
            Some(TogetherPart::Stretch(stretch)) => Some(self.segment(stretch)),
            Some(TogetherPart::Unread(place)) => Some(Err(self.error_at(place))),
            None => None,
        }
    }

    fn unread_leaf(&self) -> UnreadLeaf {
        self.unread
    }

    #[inline(always)]
    fn give_back(&mut self, item: Segment<'a, S>) {
        self.spare = item.records;
    }
}
