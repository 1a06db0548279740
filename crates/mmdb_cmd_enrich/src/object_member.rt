//! A member of objects.
ghost use Rattle.std.specs.Prelude.{◌≡◌, IfOk, MatchOption};
ghost use Rattle.mmdb_objects.specs.Objects.{ReadsLine};
ghost use Rattle.mmdb_cmd_enrich.specs.Objects.{IsTooLong};
ghost use Rattle.mmdb_cmd_enrich.specs.Working.{IsPlaceIn};

use crate::ahead::{RowAddress, row_address};
use crate::found::{FoundRecords, ReadRecords, note_field};
use crate::members::{MemberForm, MemberKind, NamedField, null_member, put_member_text};
use crate::notes::Notes;
use crate::place::{ReadRow, RowPlace, put_at};
use crate::template::Template;
use json::Scratch;
use mmdb_addresses::Reading;
use mmdb_filter::{MOST_ASKED, MOST_SEEN, Outcome};
use mmdb_net::IpNetwork;
use mmdb_objects::{Line, PathStep, ReadLine, read_line};
use std::alloc::{AllocError, Global};
use std::net::{IpAddr, Ipv6Addr};

/// Fields as the last member of each object, and before them, where it is wanted, the network of the address; or records.
#[derive(Drop)]
pub struct ObjectMember<'f> {
    /// Where in a string the address is.
    pub reading: Reading,
    /// The path to the address in an object.
    pub path: Vec<PathStep<'f>>,
    /// The name of the member.
    pub name: &'f str,
    /// Whether an object without a record gets the member too, with every field null.
    pub nulls: bool,
    /// What the member has: with the network it is the smallest in which a database has the address.
    pub kind: MemberKind,
    /// Whether objects of more bytes than rows mostly have are read.
    pub reads_long: bool,
    /// The fields.
    pub fields: Vec<NamedField<'f>>,
}

/// What is used again from line to line, and the address of the line.
#[derive(Drop)]
pub struct ObjectScratch {
    scratch: Scratch,
    address: Option<IpAddr>,
}

// Where an object gets its member, unless it has one of the name.
#[inline(always)]
fn place_in(line: Line) -> ReadRow
    ensures { IsPlaceIn line result }
{
    if line.is_taken {
        return ReadRow::Passed(Outcome::Occupied);
    }
    ReadRow::Place(RowPlace {
        behind: line.behind,
        has_comma: !line.is_empty,
        is_empty: false,
    })
}

impl<'f> ObjectMember<'f> {
    // What a line is. One that goes on is too long, and so is one of more bytes than rows mostly have for which there is no
    // memory.
    #[inline(always)]
    fn line_read(
        &self,
        alloc: Global,
        text: &[u8],
        is_long: bool,
        scratch: &mut Scratch,
    ) -> Result<Option<ReadLine>, AllocError>
        ensures { IfOk result (λ line. MatchOption line (IsTooLong text.now is_long)
            (ReadsLine self.now.reading text.now is_long self.now.path.items self.now.name.now)) }
    {
        if is_long {
            return Ok(None);
        }
        let path = self.path.as_slice();
        match read_line(alloc, self.reading, text, is_long, path, self.name, scratch) {
            Ok(line) => Ok(Some(line)),
            Err(_) if text.len() > MOST_SEEN => Ok(None),
            Err(error) => Err(error),
        }
    }

    // What the member is.
    #[inline(always)]
    fn form(&self) -> MemberForm<'_>
        ensures kind { result.kind ≡ self.now.kind }
        ensures name { result.name.now ≡ self.now.name.now }
        ensures fields { result.fields.now ≡ self.now.fields.items }
    {
        MemberForm {
            kind: self.kind,
            name: self.name,
            fields: self.fields.as_slice(),
        }
    }
}

impl<'f> Template for ObjectMember<'f> {
    ghost use Rattle.std.specs.Prelude.{[], ⊤};
    ghost use Rattle.mmdb_cmd_enrich.specs.Template.{ReadsPlace, member};

    type Scratch = ObjectScratch;

    ghost ahead = { λ _. [] };

    ghost fits = { λ _ _. ⊤ };

    ghost reads = { λ w scratch text goes_on place. ReadsPlace (member w.kind w.reads_long
        w.reading w.path.items w.nulls w.name.now w.fields.items) text goes_on place
        scratch.address };

    ghost template = { λ w. member w.kind w.reads_long w.reading w.path.items w.nulls w.name.now
        w.fields.items };

    #[inline(always)]
    fn most_seen(&self) -> usize {
        if self.reads_long {
            MOST_ASKED
        } else {
            MOST_SEEN
        }
    }

    fn new_scratch(&self, alloc: Global) -> ObjectScratch {
        ObjectScratch {
            scratch: Scratch::new(alloc),
            address: None,
        }
    }

    fn look(&self, _scratch: &mut ObjectScratch, _bytes: &[u8]) {}

    fn addresses<'s>(&self, _scratch: &'s ObjectScratch) -> &'s [IpAddr] {
        &[]
    }

    #[inline(always)]
    fn read(
        &self,
        alloc: Global,
        scratch: &mut ObjectScratch,
        text: &[u8],
        is_long: bool,
    ) -> Result<ReadRow, AllocError> {
        match self.line_read(alloc, text, is_long, &mut scratch.scratch)? {
            Some(ReadLine::Object(line)) => {
                scratch.address = line.address;
                Ok(place_in(line))
            }
            Some(ReadLine::NoObject) => Ok(ReadRow::Passed(Outcome::Malformed)),
            None => Ok(ReadRow::Passed(Outcome::TooLong)),
        }
    }

    #[inline(always)]
    #[tactic(auto, using(crate::proofs::AheadLaws::unnumbered))]
    fn address(
        &self,
        scratch: &mut ObjectScratch,
        _text: &[u8],
        _is_long: bool,
        _place: &RowPlace,
        long: &mut Ipv6Addr,
    ) -> RowAddress {
        row_address(scratch.address, long)
    }

    #[inline(always)]
    fn put_lead(
        &self,
        _text: &[u8],
        _is_long: bool,
        _notes: &mut Notes,
        _out: &mut Vec<u8>,
    ) -> Result<(), AllocError> {
        Ok(())
    }

    #[inline(always)]
    fn shows_network(&self) -> bool {
        self.kind == MemberKind::NetworkAndFields
    }

    #[inline(always)]
    fn is_kept(&self) -> bool {
        self.kind != MemberKind::NetworkAndFields
    }

    fn put_front(
        &self,
        _alloc: Global,
        _network: Option<IpNetwork>,
        _out: &mut Vec<u8>,
    ) -> Result<(), AllocError> {
        Ok(())
    }

    fn put_text<A: ReadRecords>(
        &self,
        alloc: Global,
        found: &A,
        network: Option<IpNetwork>,
        text: &mut Vec<u8>,
    ) -> Result<Outcome, AllocError> {
        put_member_text(alloc, self.form(), found, network, text)
    }

    fn none_text(&self, alloc: Global) -> Result<Vec<u8>, AllocError> {
        if self.nulls {
            null_member(alloc, self.form())
        } else {
            Ok(Vec::new(alloc))
        }
    }

    fn put_rejected(&self, _none: &[u8], _out: &mut Vec<u8>) -> Result<(), AllocError> {
        Ok(())
    }

    fn put_unread(
        &self,
        place: RowPlace,
        none: &[u8],
        out: &mut Vec<u8>,
    ) -> Result<(), AllocError> {
        put_at(place.has_comma, none, Outcome::Unreadable, out)?;
        Ok(())
    }

    fn count(&self) -> usize {
        self.fields.len()
    }

    fn note<A: FoundRecords>(&self, alloc: Global, found: &A, are_read: bool, notes: &mut Notes) {
        if self.kind == MemberKind::Records || self.fields.is_empty() {
            if !are_read {
                found.note_unread(alloc, notes);
            }
            return;
        }
        for at in 0..self.fields.len() {
            let path = self.fields[at].path.as_slice();
            note_field(alloc, found, at, path, are_read, notes);
        }
    }
}
