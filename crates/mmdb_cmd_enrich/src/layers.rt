//! What several databases have for an address.
ghost use Rattle.std.specs.Prelude.{◌≡◌, ◌∷◌, Option, None, IfOk, IfSome, OnErr, IsTrue, true, is_some, map, List};
ghost use Rattle.std.specs.declared.net.ip_addr.IpAddr.{IpAddr as SpecIpAddr};
ghost use Rattle.std.specs.Bool.{MatchBool};
ghost use Rattle.mmdb_layout.specs.Reading.{IsReadAs, reads_of};
ghost use Rattle.mmdb_reader.specs.File.{Database};
ghost use Rattle.mmdb_reader.specs.Lookup.{CanAsk};
ghost use Rattle.mmdb_reader.specs.Many.{IsFoundFor};
ghost use Rattle.mmdb_cmd_enrich.specs.Ahead.{IsNumberOf, AreFoundIn};
ghost use Rattle.mmdb_cmd_enrich.specs.Layers.{CanAskAny, CanAskNone, Rejects, AnyRejects, has_record as spec_has_record, IsFirstKey, IsKey};
ghost use Rattle.mmdb_cmd_enrich.specs.Networks.{smaller as spec_smaller, depth_of as spec_depth_of};
ghost use Rattle.mmdb_cmd_enrich.specs.Records.{answer_read};
ghost use Rattle.mmdb_cmd_enrich.specs.Working.{IsAnswer, AreAnswers, IsKeyAfter, IsNetworkOf, IsSmallest, IsShownOf, offset_in};

use crate::ask::Ask;
use crate::cache::RecordKeys;
use crate::found::{FoundRecords, ReadRecords};
use crate::leaves::{Leaves, look_up_found};
use crate::notes::{Notes, note_rejected_by};
use mmdb_layout::{ReadAlong, asked_of};
use mmdb_net::IpNetwork;
use mmdb_reader::{FoundLeaf, LookupResult, MaxMindDbError, PathElement, Reader};
use mmdb_value::Value;
use std::alloc::{AllocError, Global};
use std::convert::AsSlice;
use std::net::IpAddr;

/// The version of addresses of a database with IPv6.
const IPV6: u16 = 6;

/// Several databases, of which the first is asked first.
#[derive(Drop)]
pub struct Databases<'a, S: AsSlice<u8> + Drop> {
    pub readers: &'a [Reader<S>],
    /// What they are called where a record of one can't be read.
    pub names: &'a [&'a str],
}

/// What databases have for an address, in their order: nothing where one can't be asked for it.
#[derive(Drop)]
pub struct Layers<'a, S: AsSlice<u8> + Drop> {
    pub(crate) readers: &'a [Reader<S>],
    pub(crate) names: &'a [&'a str],
    pub(crate) answers: Vec<Option<LookupResult<'a, S>>>,
    /// The number of where the records are, unless it is too large.
    pub(crate) key: Option<usize>,
}

/// What is used again from one question to the next.
#[derive(Drop)]
pub struct LayersRoom<'a, S: AsSlice<u8> + Drop> {
    layers: Layers<'a, S>,
    is_found: bool,
    /// Where the walks of addresses end in the first databases.
    leaves: Vec<Leaves>,
}

// Whether a database can be asked for an address.
#[inline(always)]
fn can_ask<S: AsSlice<u8> + Drop>(reader: &Reader<S>, asked: IpAddr) -> bool
    ensures { MatchBool result (CanAsk reader.now asked) (¬ (CanAsk reader.now asked)) }
{
    match asked {
        IpAddr::V4(_) => true,
        IpAddr::V6(_) => reader.metadata().ip_version == IPV6,
    }
}

/// Whether one of the databases can be asked for an address.
#[inline(always)]
pub(crate) fn can_ask_any<S: AsSlice<u8> + Drop>(readers: &[Reader<S>], address: IpAddr) -> bool
    ensures { MatchBool result (CanAskAny readers.now address) (CanAskNone readers.now address) }
{
    for reader in readers {
        if can_ask(reader, asked_of(reader, address)) {
            return true;
        }
    }
    false
}

// What a database has for an address, of which it may be known where its walk ends: nothing where it can't be asked for it.
#[inline(always)]
fn answer_of<'a, S: AsSlice<u8> + Drop>(
    reader: &'a Reader<S>,
    address: IpAddr,
    leaf: Option<FoundLeaf>,
) -> Result<Option<LookupResult<'a, S>>, MaxMindDbError>
    requires { IfSome leaf (IsFoundFor reader.now address) }
    ensures answered { IfOk result (λ answer. IsAnswer reader.now address answer) }
    ensures rejected { OnErr result (Rejects reader.now address) }
{
    let asked = asked_of(reader, address);
    if !can_ask(reader, asked) {
        return Ok(None);
    }
    Ok(Some(look_up_found(reader, address, asked, leaf)?))
}

// Where the walk of an address ends in the next database, by the address's number, where that is known. Those of the databases
// after it are left.
#[inline(always)]
fn next_leaf(left: &mut &[Leaves], number: Option<usize>) -> Option<FoundLeaf>
    ensures found { (db : Database) (dbs : List Database) (addresses : List SpecIpAddr)
        (address : SpecIpAddr) → AreFoundIn (db ∷ dbs) addresses left.old.now
        → IsNumberOf addresses number address → IfSome result (IsFoundFor db address) }
    ensures left { (db : Database) (dbs : List Database) (addresses : List SpecIpAddr)
        → AreFoundIn (db ∷ dbs) addresses left.old.now → AreFoundIn dbs addresses left.new.now }
{
    match *left {
        [first, others @ ..] => {
            *left = others;
            first.at(number)
        }
        [] => None,
    }
}

// Where the record of an answer is, if there is one.
#[inline(always)]
fn offset_of<S: AsSlice<u8> + Drop>(answer: &Option<LookupResult<'_, S>>) -> Option<usize>
    ensures { result ≡ offset_in answer.now }
{
    match answer {
        Some(found) => found.offset(),
        None => None,
    }
}

// The network of an answer, if there is one.
#[inline(always)]
fn network_of<S: AsSlice<u8> + Drop>(answer: &Option<LookupResult<'_, S>>) -> Option<IpNetwork>
    ensures { IsNetworkOf answer.now result }
{
    match answer {
        Some(found) => Some(found.network().unwrap()),
        None => None,
    }
}

// How many of the 128 bits of an address of IPv6 those of a network share; one of IPv4 comes after 96 bits.
fn depth_of(network: IpNetwork) -> u8
    ensures { result ≡ spec_depth_of network }
{
    match network {
        IpNetwork::V4(inner) => 96 + inner.prefix(),
        IpNetwork::V6(inner) => inner.prefix(),
    }
}

// The smaller of two networks, and the first of equal ones.
fn smaller(first: Option<IpNetwork>, second: Option<IpNetwork>) -> Option<IpNetwork>
    ensures { result ≡ spec_smaller first second }
{
    match (first, second) {
        (Some(one), Some(other)) if depth_of(one) < depth_of(other) => second,
        (Some(_), _) => first,
        (None, _) => second,
    }
}

// A number with one more digit, which says where a database has a record; none where it is too large.
#[inline(always)]
fn longer_key<S: AsSlice<u8> + Drop>(
    reader: &Reader<S>,
    key: Option<usize>,
    offset: Option<usize>,
) -> Option<usize>
    ensures { IfSome result (IsKeyAfter key reader.now offset) }
{
    let length = reader.data_section().len();
    let digit = match offset {
        Some(offset) if offset < length => offset + 1,
        Some(_) => return None,
        None => 0,
    };
    key?.checked_mul(length.checked_add(1)?)?.checked_add(digit)
}

// The numbers of where no record is known to be.
#[inline(always)]
fn no_keys() -> RecordKeys
    ensures all { result.all ≡ None }
    ensures first { result.first ≡ None }
{
    RecordKeys {
        all: None,
        first: None,
    }
}

impl<'a, S: AsSlice<u8> + Drop> Layers<'a, S> {
    // The number of where the first database has its record.
    #[inline(always)]
    fn first_key(&self) -> Option<usize>
        ensures { IfSome result (IsFirstKey (map offset_in self.now.answers.items)) }
    {
        let answers = self.answers.as_slice();
        if answers.is_empty() {
            return None;
        }
        offset_of(&answers[0])
    }

    /// Whether one of the databases has a record.
    pub(crate) fn has_record(&self) -> bool
        ensures { result ≡ spec_has_record (map offset_in self.now.answers.items) }
    {
        for answer in &self.answers {
            if offset_of(answer).is_some() {
                return true;
            }
        }
        false
    }

    // The smallest of the networks that have the address, and the first of equal ones.
    fn smallest_network(&self) -> Option<IpNetwork>
        ensures { IsSmallest self.now.answers.items result }
    {
        let mut smallest = None;
        for answer in &self.answers {
            smallest = smaller(smallest, network_of(answer));
        }
        smallest
    }

    /// The network that is shown: the smallest that has the address, where one of the databases has a record.
    pub(crate) fn shown_network(&self) -> Option<IpNetwork>
        ensures { IsShownOf self.now.answers.items result }
    {
        let smallest = self.smallest_network();
        if self.has_record() { smallest } else { None }
    }

    /// Looks an address up in each database, of the first of which it may be known where its walk ends, and says whether no lookup
    /// failed.
    #[inline(always)]
    pub(crate) fn look_up(
        &mut self,
        readers: &'a [Reader<S>],
        address: IpAddr,
        number: Option<usize>,
        leaves: &[Leaves],
    ) -> Result<bool, AllocError>
        requires { (addresses : List SpecIpAddr) × AreFoundIn readers.now addresses leaves.now
            × IsNumberOf addresses number address }
        ensures readers { self.new.readers.now ≡ readers.now }
        ensures found { IfOk result (λ is_done. MatchBool is_done
            (AreAnswers readers.now address self.new.answers.items
            × IfSome self.new.key (IsKey readers.now (map offset_in self.new.answers.items)))
            (AnyRejects readers.now address)) }
    {
        self.readers = readers;
        self.answers.clear();
        self.key = Some(0);
        let mut left = leaves;
        for reader in readers {
            let leaf = next_leaf(&mut left, number);
            let Ok(answer) = answer_of(reader, address, leaf) else {
                return Ok(false);
            };
            self.key = longer_key(reader, self.key, offset_of(&answer));
            self.answers.push(answer)?;
        }
        Ok(true)
    }
}

// The value at the end of a path in the record of an answer, or none where there is no record.
fn read_answer<'x, S: AsSlice<u8> + Drop>(
    alloc: Global,
    answer: &'x Option<LookupResult<'_, S>>,
    path: &[PathElement<'_>],
) -> Result<Option<Value<'x>>, MaxMindDbError>
    ensures { IsReadAs (reads_of answer.now path.now) result }
{
    match answer {
        Some(found) => found.read_along(alloc, path),
        None => Ok(None),
    }
}

// The value at the end of a path in the record of the answer of a number, or none where there is none.
fn read_numbered<'x, S: AsSlice<u8> + Drop>(
    alloc: Global,
    answers: &'x [Option<LookupResult<'_, S>>],
    number: usize,
    path: &[PathElement<'_>],
) -> Result<Option<Value<'x>>, MaxMindDbError>
    ensures { IsReadAs (answer_read answers.now number path.now) result }
{
    if number >= answers.len() {
        return Ok(None);
    }
    read_answer(alloc, &answers[number], path)
}

impl<'a, S: AsSlice<u8> + Drop> ReadAlong for Layers<'a, S> {
    ghost use Rattle.mmdb_layout.specs.Reading.{first_read_of, first_outline_of};

    ghost reads = { λ layers. first_read_of layers.answers.items };

    ghost outlines = { λ layers. first_outline_of layers.answers.items };

    #[inline(always)]
    fn read_along(
        &self,
        alloc: Global,
        path: &[PathElement<'_>],
    ) -> Result<Option<Value<'_>>, MaxMindDbError> {
        self.answers.read_along(alloc, path)
    }

    fn outline_along(
        &self,
        alloc: Global,
        path: &[PathElement<'_>],
    ) -> Result<Option<Value<'_>>, MaxMindDbError> {
        self.answers.outline_along(alloc, path)
    }
}

/// Of several databases.
impl<'a, S: AsSlice<u8> + Drop> ReadRecords for Layers<'a, S> {
    ghost use Rattle.mmdb_cmd_enrich.specs.Records.{each_read_of};

    ghost each = { λ layers. each_read_of layers.answers.items };

    fn read_each(
        &self,
        alloc: Global,
        path: &[PathElement<'_>],
    ) -> Result<Option<Value<'_>>, MaxMindDbError> {
        let answers = self.answers.as_slice();
        match path {
            [PathElement::Index(number), rest @ ..] => read_numbered(alloc, answers, *number, rest),
            _ => Ok(None),
        }
    }
}

/// Of several databases.
impl<'a, S: AsSlice<u8> + Drop> FoundRecords for Layers<'a, S> {
    ghost use Rattle.mmdb_cmd_enrich.specs.Same.{all_read_first, each_same};
    ghost use Rattle.mmdb_cmd_enrich.specs.Working.{AreAnswersOf};

    type Record = LookupResult<'a, S>;

    ghost offsets = { λ layers. map offset_in layers.answers.items };

    ghost is_of = { λ layers dbs. AreAnswersOf dbs layers.answers.items
        × IfSome layers.key (IsKey dbs (map offset_in layers.answers.items)) };

    ghost shows = { λ layers. IsShownOf layers.answers.items };

    ghost reads_first = { λ layers dbs is. all_read_first dbs layers.answers.items is.0 };

    ghost reads_each = { λ layers dbs is. each_same dbs layers.answers.items is.0 };

    #[inline(always)]
    fn has_record(&self) -> bool {
        Layers::has_record(self)
    }

    #[inline(always)]
    fn keys(&self) -> RecordKeys {
        RecordKeys {
            all: self.key,
            first: self.first_key(),
        }
    }

    fn first(&self) -> Option<&LookupResult<'a, S>> {
        let answers = self.answers.as_slice();
        if answers.is_empty() {
            return None;
        }
        answers[0].as_ref()
    }

    fn shown_network(&self) -> Option<IpNetwork> {
        Layers::shown_network(self)
    }

    fn note_records(&self, notes: &mut Notes) {
        for (at, answer) in self.answers.iter().enumerate() {
            if let Some(offset) = offset_of(answer) {
                notes.note_record(at, offset);
            }
        }
    }

    fn note_unread(&self, alloc: Global, notes: &mut Notes) {
        for (at, answer) in self.answers.iter().enumerate() {
            if let Some(found) = answer
                && let Err(error) = found.read_along(alloc, &[])
            {
                notes.note_failure(alloc, self.names.get(at).copied(), &error);
                return;
            }
        }
    }

    fn note_field(&self, alloc: Global, field: usize, path: &[PathElement<'_>], notes: &mut Notes) {
        for (at, answer) in self.answers.iter().enumerate() {
            if let Some(found) = answer {
                let read = found.read_along(alloc, path);
                if notes.note_read(alloc, self.names.get(at).copied(), field, &read) {
                    return;
                }
            }
        }
    }
}

impl<'a, S: AsSlice<u8> + Drop> Ask for Databases<'a, S> {
    ghost use Rattle.std.specs.Prelude.{Some, if◌then◌else◌};
    ghost use Rattle.mmdb_cmd_enrich.specs.Answered.{IsAnswered};
    ghost use Rattle.mmdb_cmd_enrich.specs.Working.{AreAnswersOf};

    type Found = Layers<'a, S>;

    type Room = LayersRoom<'a, S>;

    ghost databases = { λ all. all.readers.now };

    ghost knows = { λ all room addresses.
        AreFoundIn all.readers.now addresses room.leaves.items };

    ghost has = { λ all room address. IsAnswered
        (λ layers dbs. AreAnswersOf dbs layers.answers.items
        × IfSome layers.key (IsKey dbs (map offset_in layers.answers.items)))
        (λ layers. map offset_in layers.answers.items)
        (λ layers. IsShownOf layers.answers.items) all.readers.now address
        (if room.is_found then Some room.layers else None) };

    ghost answer = { λ room. if room.is_found then Some room.layers else None };

    fn new_room(&self, alloc: Global) -> LayersRoom<'a, S> {
        LayersRoom {
            layers: Layers {
                readers: self.readers,
                names: self.names,
                answers: Vec::new(alloc),
                key: None,
            },
            is_found: false,
            leaves: Vec::new(alloc),
        }
    }

    fn is_large(&self) -> bool {
        self.readers.iter().any(|reader| reader.outgrows_caches())
    }

    // Where there is no memory, of the databases up to there alone.
    fn find(&self, room: &mut LayersRoom<'a, S>, addresses: &[IpAddr]) {
        room.leaves.clear();
        for reader in self.readers {
            let mut leaves = Leaves::none();
            leaves.find(reader, addresses);
            if room.leaves.push(leaves).is_err() {
                return;
            }
        }
    }

    #[inline(always)]
    fn keys(
        &self,
        room: &mut LayersRoom<'a, S>,
        address: &IpAddr,
        number: Option<usize>,
    ) -> Result<RecordKeys, AllocError> {
        room.is_found = false;
        if !can_ask_any(self.readers, *address) {
            return Ok(no_keys());
        }
        let leaves = room.leaves.as_slice();
        if !room.layers.look_up(self.readers, *address, number, leaves)? {
            return Ok(no_keys());
        }
        room.is_found = true;
        Ok(FoundRecords::keys(&room.layers))
    }

    #[inline(always)]
    fn ask(&self, _room: &mut LayersRoom<'a, S>, _address: &IpAddr, _number: Option<usize>) {}

    #[inline(always)]
    fn found<'r>(&self, room: &'r LayersRoom<'a, S>) -> Option<&'r Layers<'a, S>> {
        if room.is_found {
            Some(&room.layers)
        } else {
            None
        }
    }

    #[inline(never)]
    fn note_rejected(&self, alloc: Global, address: IpAddr, notes: &mut Notes) {
        note_rejected_by(alloc, self.readers, self.names, address, notes);
    }
}
