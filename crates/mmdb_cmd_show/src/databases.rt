//! Databases that are asked in turn.
ghost use Rattle.std.specs.Prelude.{◌≡◌, [], Some, None, Ok, Err, option_map, IfOk, IfErr, OnOk};
ghost use Rattle.std.specs.Bool.{MatchBool};
ghost use Rattle.std.specs.declared.net.ip_addr.IpAddr.{IpAddr as SpecIpAddr};
ghost use Rattle.mmdb_format.specs.Error.{MemoryApart};
ghost use Rattle.mmdb_value.specs.Values.{value_tree};
ghost use Rattle.mmdb_reader.specs.Many.{IsLookup};
ghost use Rattle.mmdb_layout.specs.Asked.{Asks};
ghost use Rattle.mmdb_cmd_show.specs.Asked.{Reads, CanBeAsked, IsPassed, Has, FindsFirst, OfName};
ghost use Rattle.mmdb_cmd_show.specs.Answers.{IsAnswer, AreAnswers, AddsAnswer, named_errors};

use crate::answer::DatabaseAnswer;
use mmdb_found::value_along;
use mmdb_layout::{Database, Found, NamedDatabase, asked_of};
use mmdb_reader::{MaxMindDbError, PathElement};
use mmdb_value::Value;
use std::alloc::{AllocError, Global};
use std::net::IpAddr;

/// The version of addresses of a database without IPv6.
const IPV4: u16 = 4;

/// A database whose answers are shown.
#[derive(Clone, Copy)]
pub(crate) struct ShownDatabase<'d> {
    /// What its answers are called beside those of others.
    pub(crate) key: &'d str,
    /// Its name as it was given.
    pub(crate) name: &'d str,
    pub(crate) database: &'d Database,
}

/// Why a value of databases can't be had.
#[derive(Drop)]
pub(crate) enum ReadError<'d> {
    Memory,
    /// The name of a database, and its error.
    Unread(&'d str, MaxMindDbError),
}

impl From<AllocError> for ReadError<'_> {
    ghost use Rattle.std.specs.Prelude.{◌≡◌};
    ghost use Rattle.mmdb_cmd_show.specs.declared.databases.ReadError.TheVariants.{Memory};

    ghost from_gives = { λ _ e. e ≡ Memory };

    fn from(_: AllocError) -> Self {
        ReadError::Memory
    }
}

/// The databases with what their answers are called.
pub(crate) fn shown_databases<'d>(
    alloc: Global,
    open: &'d [NamedDatabase<'d>],
    keys: &'d [String],
) -> Result<Vec<ShownDatabase<'d>>, AllocError> {
    let mut shown = Vec::new(alloc);
    for (named, key) in open.iter().zip(keys) {
        shown.push(ShownDatabase {
            key: key.as_str(),
            name: named.name,
            database: &named.database,
        })?;
    }
    Ok(shown)
}

// Whether a database can be asked for an address: for one of IPv6 only where it has such, or where that is mapped to one of IPv4.
fn can_be_asked(database: &Database, address: IpAddr) -> bool
    ensures { MatchBool result (CanBeAsked database.now address)
        (¬ CanBeAsked database.now address) }
{
    address.to_canonical().is_ipv4() || database.metadata().ip_version != IPV4
}

/// What a database has for an address. One that is mapped to one of IPv4 (`::ffff:1.2.3.4`) is asked as it is written, and as
/// that where the database has no IPv6, or no record of it.
pub(crate) fn lookup_in(database: &Database, address: IpAddr) -> Result<Found<'_>, MaxMindDbError>
    ensures { (asked : SpecIpAddr) × Asks database.now address asked
        × IsLookup database.now asked result }
{
    database.lookup(asked_of(database, address))
}

// Whether a database is passed over: it can't be asked for an address, and another one can.
fn is_passed(database: &Database, others: &[ShownDatabase<'_>], address: IpAddr) -> bool
    ensures { MatchBool result (IsPassed others.now database.now address)
        (¬ IsPassed others.now database.now address) }
{
    !can_be_asked(database, address)
        && others
            .iter()
            .any(|other| can_be_asked(other.database, address))
}

// The value at a path in a database.
fn read_in<'d>(
    alloc: Global,
    database: &'d Database,
    address: IpAddr,
    path: &[PathElement<'_>],
) -> Result<Option<Value<'d>>, MaxMindDbError>
    ensures read { IfOk result (λ value. Reads database.now address path.now
        (Some (option_map value_tree value))) }
    ensures unread { IfErr result (λ e. MemoryApart e (Reads database.now address path.now None)) }
{
    let found = lookup_in(database, address)?;
    value_along(alloc, &found, path)
}

// The value at a path in one of the databases, which has none where it is passed over.
fn value_in<'d>(
    alloc: Global,
    databases: &[ShownDatabase<'d>],
    shown: &ShownDatabase<'d>,
    address: IpAddr,
    path: &[PathElement<'_>],
) -> Result<Option<Value<'d>>, ReadError<'d>>
    ensures value { IfOk result (λ value. Has databases.now shown.now address path.now
        (Some (option_map value_tree value))) }
    ensures unread { IfErr result (λ e. OfName e (λ name. (name ≡ shown.now.name.now)
        × Has databases.now shown.now address path.now None)) }
{
    if is_passed(shown.database, databases, address) {
        return Ok(None);
    }
    match read_in(alloc, shown.database, address, path) {
        Ok(value) => Ok(value),
        Err(MaxMindDbError::Memory) => Err(ReadError::Memory),
        Err(error) => Err(ReadError::Unread(shown.name, error)),
    }
}

/// The value at a path in the first of the databases that has one there. Fails where one that is asked before can't be read so,
/// with its name.
pub(crate) fn first_value<'d>(
    alloc: Global,
    databases: &[ShownDatabase<'d>],
    address: IpAddr,
    path: &[PathElement<'_>],
) -> Result<Option<Value<'d>>, ReadError<'d>>
    ensures value { IfOk result (λ value. FindsFirst databases.now address path.now
        (Ok (option_map value_tree value))) }
    ensures unread { IfErr result (λ e. OfName e (λ name.
        FindsFirst databases.now address path.now (Err name))) }
{
    for shown in databases {
        let value = value_in(alloc, databases, shown, address, path)?;
        if value.is_some() {
            return Ok(value);
        }
    }
    Ok(None)
}

// What a database has for an address.
fn answer_of<'d>(
    alloc: Global,
    database: &'d Database,
    address: IpAddr,
) -> Result<DatabaseAnswer<'d>, MaxMindDbError>
    ensures answer { IfOk result (IsAnswer database.now address) }
    ensures unread { IfErr result (λ e. MemoryApart e (Reads database.now address [] None)) }
{
    let found = lookup_in(database, address)?;
    Ok(DatabaseAnswer {
        network: found.network()?,
        record: value_along(alloc, &found, &[])?,
    })
}

/// What databases have for an address, each its answer, or none where it is passed over or there is an error.
#[derive(Drop)]
pub(crate) struct Answers<'d> {
    pub(crate) answers: Vec<Option<DatabaseAnswer<'d>>>,
    /// The errors, each with the name of its database.
    pub(crate) errors: Vec<(&'d str, MaxMindDbError)>,
}

impl<'d> Answers<'d> {
    // Adds what one of the databases has for an address. An `Err` is of memory.
    fn add(
        &mut self,
        alloc: Global,
        databases: &[ShownDatabase<'d>],
        shown: &ShownDatabase<'d>,
        address: IpAddr,
    ) -> Result<(), AllocError>
        ensures { OnOk result (AddsAnswer databases.now shown.now address self.old self.new) }
    {
        if is_passed(shown.database, databases, address) {
            self.answers.push(None)?;
            return Ok(());
        }
        match answer_of(alloc, shown.database, address) {
            Ok(answer) => self.answers.push(Some(answer))?,
            Err(error) => {
                self.answers.push(None)?;
                self.errors.push((shown.name, error))?;
            }
        }
        Ok(())
    }
}

/// What each of several databases has for an address. An `Err` is of memory.
pub(crate) fn answers_of<'d>(
    alloc: Global,
    databases: &[ShownDatabase<'d>],
    address: IpAddr,
) -> Result<Answers<'d>, AllocError>
    ensures { IfOk result (λ answers. AreAnswers databases.now databases.now address
        answers.answers.items (named_errors answers)) }
{
    let mut answers = Answers {
        answers: Vec::new(alloc),
        errors: Vec::new(alloc),
    };
    for shown in databases {
        answers.add(alloc, databases, shown, address)?;
    }
    Ok(answers)
}
