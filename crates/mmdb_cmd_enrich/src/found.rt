//! What databases have for an address.
ghost use Rattle.std.specs.Prelude.{◌≡◌, ℕ, [], ◌∷◌, List, Option, Some, IfSome};
ghost use Rattle.mmdb_format.specs.Unfolding.{Tree};
ghost use Rattle.mmdb_layout.specs.Reading.{IsReadAs};
ghost use Rattle.mmdb_net.specs.declared.network.IpNetwork.{IpNetwork as SpecIpNetwork};
ghost use Rattle.mmdb_reader.specs.File.{Database};
ghost use Rattle.mmdb_reader.specs.declared.path.PathElement.{PathElement as SpecPathElement};
ghost use Rattle.mmdb_cmd_enrich.specs.Layers.{AreKeys, digit_of, first_read, has_record as spec_has_record, read_in_first, value_only};
ghost use Rattle.mmdb_cmd_enrich.specs.Records.{answer_read, each_read};

use crate::cache::RecordKeys;
use crate::notes::Notes;
use mmdb_format::message::{Message, Text};
use mmdb_layout::ReadAlong;
use mmdb_net::IpNetwork;
use mmdb_reader::{LookupResult, MaxMindDbError, PathElement};
use mmdb_value::Value;
use std::alloc::Global;
use std::convert::AsSlice;

/// What has values along paths, and records of databases by their numbers.
pub trait ReadRecords: ReadAlong {
    /// What is read along a path whose first step is the number of a database, in the record there.
    ghost each: { Self → List SpecPathElement → Option (Option Tree) };

    /// The value at the end of a path whose first step is the number of a database, in the record there, or none where there is
    /// none. Fails, unless out of memory, where the way or the value can't be read.
    fn read_each(
        &self,
        alloc: Global,
        path: &[PathElement<'_>],
    ) -> Result<Option<Value<'_>>, MaxMindDbError>
        ensures { IsReadAs (each self.now path.now) result };
}

/// What databases have for an address: of one the result of its lookup.
pub trait FoundRecords: ReadRecords {
    /// The record of one of them.
    type Record: ReadAlong;

    /// Where the records are, of each database.
    ghost offsets: { Self → List (Option ℕ) };

    /// It is one of these databases.
    ghost is_of: { Self → List Database → Type 0 };

    /// This network is shown of the address.
    ghost shows: { Self → Option SpecIpNetwork → Type 0 };

    /// Whether one of them has a record.
    fn has_record(&self) -> bool
        ensures { result ≡ spec_has_record (offsets self.now) };

    /// The numbers of where the records are.
    fn keys(&self) -> RecordKeys
        ensures { (dbs : List Database) → is_of self.now dbs
            → AreKeys dbs (offsets self.now) result };

    /// The first database's record, where others are asked after it.
    fn first(&self) -> Option<&Self::Record>
        ensures { IfSome result (λ first. (dbs : List Database) → is_of self.now dbs
            → (path : List SpecPathElement) → value_only (Self.Record.reads first.now path)
            ≡ read_in_first dbs (offsets self.now) path) };

    /// The network that is shown: the smallest that has the address, where one of the databases has a record.
    fn shown_network(&self) -> Option<IpNetwork>
        ensures { shows self.now result };

    /// Notes where the records are.
    fn note_records(&self, notes: &mut Notes);

    /// Notes whether there is a value at a field, or why it can't be read.
    fn note_field(&self, alloc: Global, field: usize, path: &[PathElement<'_>], notes: &mut Notes);

    /// Notes which record can't be read, where one can't.
    fn note_unread(&self, alloc: Global, notes: &mut Notes);

    /// What is read along paths is read in the first record that has a value there.
    ghost reads_first: { (found : Self) (dbs : List Database) → is_of found dbs
        → Self.reads found ≡ first_read dbs (offsets found) };

    /// What is read of each is read in its record.
    ghost reads_each: { (found : Self) (dbs : List Database) → is_of found dbs
        → Self.each found ≡ each_read dbs (offsets found) };
}

/// Notes whether there is a value at a field, or why it can't be read. Where all of the records was read, a field at which a record
/// had a value is not read again.
pub(crate) fn note_field<A: FoundRecords>(
    alloc: Global,
    found: &A,
    field: usize,
    path: &[PathElement<'_>],
    are_read: bool,
    notes: &mut Notes,
) {
    if !are_read || !notes.has_met(field) {
        found.note_field(alloc, field, path, notes);
    }
}

/// The number of where one record is, unless it is too large.
#[inline(always)]
pub(crate) fn key_of(offset: Option<usize>) -> Option<usize>
    ensures { IfSome result (λ key. key ≡ digit_of offset) }
{
    match offset {
        Some(offset) => offset.checked_add(1),
        None => Some(0),
    }
}

/// A record in which each value has to be: it can't be read along a path that leads nowhere.
#[derive(Drop)]
pub(crate) struct WholeRecord<'r, R: ReadAlong> {
    pub(crate) record: &'r R,
}

// The value that was read, or an error, which is shown nowhere, where there is none.
#[inline(always)]
fn value_of<'v>(
    read: Result<Option<Value<'v>>, MaxMindDbError>,
) -> Result<Option<Value<'v>>, MaxMindDbError>
    ensures { (answer : Option (Option Tree)) → IsReadAs answer read.entry
        → IsReadAs (value_only answer) result }
{
    match read {
        Ok(None) => Err(MaxMindDbError::InvalidInput {
            message: Message::Fixed(Text::InvalidLocation),
        }),
        other => other,
    }
}

impl<'r, R: ReadAlong> ReadAlong for WholeRecord<'r, R> {
    ghost reads = { λ whole path. value_only (R.reads whole.«record».now path) };

    ghost outlines = { λ whole path. value_only (R.outlines whole.«record».now path) };

    #[inline(always)]
    fn read_along(
        &self,
        alloc: Global,
        path: &[PathElement<'_>],
    ) -> Result<Option<Value<'_>>, MaxMindDbError> {
        value_of(self.record.read_along(alloc, path))
    }

    fn outline_along(
        &self,
        alloc: Global,
        path: &[PathElement<'_>],
    ) -> Result<Option<Value<'_>>, MaxMindDbError> {
        value_of(self.record.outline_along(alloc, path))
    }
}

/// Records of other databases are not there to be read.
impl<'r, R: ReadAlong> ReadRecords for WholeRecord<'r, R> {
    ghost use Rattle.std.specs.Prelude.{None};

    ghost each = { λ _ _. None };

    fn read_each(
        &self,
        _alloc: Global,
        _path: &[PathElement<'_>],
    ) -> Result<Option<Value<'_>>, MaxMindDbError> {
        value_of(Ok(None))
    }
}

// The value at the end of a path in the record of a result, where that has this number, and else none.
fn read_alone<'x, S: AsSlice<u8> + Drop>(
    alloc: Global,
    found: &'x LookupResult<'_, S>,
    number: usize,
    path: &[PathElement<'_>],
) -> Result<Option<Value<'x>>, MaxMindDbError>
    ensures { IsReadAs (answer_read (Some found.now ∷ []) number path.now) result }
{
    if number > 0 {
        return Ok(None);
    }
    found.read_along(alloc, path)
}

/// Of one database.
impl<'a, S: AsSlice<u8> + Drop> ReadRecords for LookupResult<'a, S> {
    ghost use Rattle.mmdb_cmd_enrich.specs.Records.{each_read_of};

    ghost each = { λ found. each_read_of (Some found ∷ []) };

    fn read_each(
        &self,
        alloc: Global,
        path: &[PathElement<'_>],
    ) -> Result<Option<Value<'_>>, MaxMindDbError> {
        match path {
            [PathElement::Index(number), rest @ ..] => read_alone(alloc, self, *number, rest),
            _ => Ok(None),
        }
    }
}

/// Of one database.
impl<'a, S: AsSlice<u8> + Drop> FoundRecords for LookupResult<'a, S> {
    ghost use Rattle.mmdb_reader.specs.Found.{database_asked, offset_found};
    ghost use Rattle.mmdb_cmd_enrich.specs.Same.{one_reads_each, one_reads_first};
    ghost use Rattle.mmdb_cmd_enrich.specs.Working.{IsShownOf};

    type Record = LookupResult<'a, S>;

    ghost offsets = { λ found. offset_found found ∷ [] };

    ghost is_of = { λ found dbs. dbs ≡ (database_asked found ∷ []) };

    ghost shows = { λ found. IsShownOf (Some found ∷ []) };

    ghost reads_first = { λ found dbs is. one_reads_first found dbs is };

    ghost reads_each = { λ found dbs is. one_reads_each found dbs is };

    #[inline(always)]
    fn has_record(&self) -> bool {
        self.offset().is_some()
    }

    #[inline(always)]
    fn keys(&self) -> RecordKeys {
        RecordKeys {
            all: key_of(self.offset()),
            first: None,
        }
    }

    #[inline(always)]
    fn first(&self) -> Option<&LookupResult<'a, S>> {
        None
    }

    fn shown_network(&self) -> Option<IpNetwork> {
        let network = self.network().unwrap();
        if self.offset().is_some() {
            Some(network)
        } else {
            None
        }
    }

    fn note_records(&self, notes: &mut Notes) {
        if let Some(offset) = self.offset() {
            notes.note_record(0, offset);
        }
    }

    fn note_field(&self, alloc: Global, field: usize, path: &[PathElement<'_>], notes: &mut Notes) {
        let read = self.read_along(alloc, path);
        let _ = notes.note_read(alloc, None, field, &read);
    }

    fn note_unread(&self, alloc: Global, notes: &mut Notes) {
        if let Err(error) = self.read_along(alloc, &[]) {
            notes.note_failure(alloc, None, &error);
        }
    }
}
