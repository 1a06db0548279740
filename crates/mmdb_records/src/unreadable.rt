//! Whether a database is whole and all its records can be read as values, and which can't.
ghost use Rattle.std.specs.Prelude.{IfOk, IfNone};
ghost use Rattle.mmdb_reader.specs.Whole.{IsWhole, HasReadableRecords};

use mmdb_costs::KeptCosts;
use mmdb_reader::{IpNetwork, LookupResult, MaxMindDbError, Reader, WithinOptions};
use mmdb_value::Value;
use std::alloc::Global;
use std::collections::HashSet;
use std::convert::AsSlice;

/// Records of a database that can't be read.
#[derive(Drop)]
pub struct Unreadable {
    /// How many there are.
    pub count: u64,
    /// The first network that has one.
    pub network: IpNetwork,
    /// Why that one can't be read.
    pub error: MaxMindDbError,
}

/// What is known of the records that were met.
#[derive(Drop)]
struct Records<'a> {
    alloc: Global,
    met: HashSet<usize>,
    /// The offset that was met last: neighbours often have one record.
    last: Option<usize>,
    costs: KeptCosts<'a>,
    unreadable: Option<Unreadable>,
}

// Why a record can't be read as a value, if it can't.
fn error_of<S: AsSlice<u8> + Drop>(
    alloc: Global,
    found: &LookupResult<'_, S>,
) -> Result<(), MaxMindDbError> {
    let record: Option<Value<'_>> = found.decode(alloc)?;
    drop(record);
    Ok(())
}

impl<'a> Records<'a> {
    // Whether the record at an offset was not met before.
    fn is_new(&mut self, offset: usize) -> Result<bool, MaxMindDbError> {
        if self.last == Some(offset) {
            return Ok(false);
        }
        self.last = Some(offset);
        Ok(self.met.insert(offset)?)
    }

    // Notes the record of a network that can't be read. The first one is read, which says why.
    fn note<S: AsSlice<u8> + Drop>(
        &mut self,
        found: &LookupResult<'_, S>,
    ) -> Result<(), MaxMindDbError> {
        if let Some(unreadable) = &mut self.unreadable {
            unreadable.count = unreadable.count.saturating_add(1);
            return Ok(());
        }
        match error_of(self.alloc, found) {
            Ok(()) => Ok(()),
            Err(MaxMindDbError::Memory) => Err(MaxMindDbError::Memory),
            Err(error) => {
                self.unreadable = Some(Unreadable {
                    count: 1,
                    network: found.network().unwrap(),
                    error,
                });
                Ok(())
            }
        }
    }

    // Meets the record of a network.
    fn meet<S: AsSlice<u8> + Drop>(
        &mut self,
        found: &LookupResult<'_, S>,
    ) -> Result<(), MaxMindDbError> {
        let Some(offset) = found.offset() else {
            return Ok(());
        };
        if !self.is_new(offset)? || self.costs.fits(offset)? {
            return Ok(());
        }
        self.note(found)
    }
}

// The records of a database that can't be read, if it is whole. Each is passed once, and one of them is read.
fn counted<S: AsSlice<u8> + Drop>(
    alloc: Global,
    database: &Reader<S>,
) -> Result<Option<Unreadable>, MaxMindDbError> {
    database.verify(alloc)?;
    let mut records = Records {
        alloc,
        met: HashSet::new(alloc),
        last: None,
        costs: KeptCosts::new(alloc, database.data_section())?,
        unreadable: None,
    };
    for item in database.networks(alloc, WithinOptions::default())? {
        records.meet(&item?)?;
    }
    let Records { unreadable, .. } = records;
    Ok(unreadable)
}

/// The records of a whole database that can't be read as values within a reader's limits, if there are some: with a key of
/// another type, say, or with a key that a pointer to a pointer leads to. An `Err` is that of `Reader::verify` where the
/// database is not whole.
pub fn unreadable_records<S: AsSlice<u8> + Drop>(
    alloc: Global,
    database: &Reader<S>,
) -> Result<Option<Unreadable>, MaxMindDbError>
    ensures whole { IfOk result (λ records. IfNone records (IsWhole database.now)) }
    ensures readable { IfOk result (λ records. IfNone records (HasReadableRecords database.now)) }
{
    let error = match database.verify_records(alloc) {
        Ok(()) => return Ok(None),
        Err(error) => error,
    };
    match counted(alloc, database) {
        Ok(Some(unreadable)) => {
            drop(error);
            Ok(Some(unreadable))
        }
        Ok(None) => Err(error),
        Err(other) => {
            drop(error);
            Err(other)
        }
    }
}
