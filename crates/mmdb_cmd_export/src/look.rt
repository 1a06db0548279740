//! Networks that are looked at before or after they are written.
use crate::several::Several;
use mmdb_blocks::Kinds;
use mmdb_cache::Cache;
use mmdb_console::ProgramError;
use mmdb_layout::{MOST_RECORDS, RecordAt};
use mmdb_query::{Answer, Part, Walk};
use mmdb_reader::MaxMindDbError;
use std::alloc::{AllocError, Global};

/// What of records was looked at is known of so many at most.
const MOST_KNOWN: usize = 65_536;

/// Looks at what databases have in networks.
pub(crate) trait Look {
    /// Looks at a network. Whether to go on.
    fn look<A: Answer>(&mut self, answer: &A) -> Result<bool, ProgramError>;
}

// Whether the records of a network were looked at, as far as that is known; now they were.
fn is_known<A: Answer>(known: &mut Cache<()>, answer: &A) -> bool {
    let Some(key) = answer.key() else {
        return false;
    };
    if known.get(key).is_some() {
        return true;
    }
    known.put(key, (), 1);
    false
}

/// Looks at the networks of a walk that are of these kinds, as far as it is not known that their records were looked at. Those that
/// can't be read are passed.
pub(crate) fn look_along<W: Walk + Drop, L: Look>(
    alloc: Global,
    walk: W,
    kinds: Kinds,
    looker: &mut L,
) -> Result<(), ProgramError> {
    let mut part = Part {
        walk,
        kinds,
        range: None,
    };
    let mut known = Cache::new(alloc, MOST_KNOWN);
    for _ in 0..u64::MAX {
        match part.next_item() {
            Some(Ok(answer)) => {
                if !is_known(&mut known, &answer) && !looker.look(&answer)? {
                    return Ok(());
                }
                part.give_back(answer);
            }
            Some(Err(MaxMindDbError::Memory)) => return Err(ProgramError::Memory),
            Some(Err(_error)) => {}
            None => return Ok(()),
        }
    }
    Ok(())
}

/// Where the first records are that were looked at.
#[derive(Drop)]
pub(crate) struct FirstRecords<'d> {
    /// The data sections of the databases that are asked.
    sections: Vec<&'d [u8]>,
    /// The place of the database and the offset of each record.
    places: Vec<(usize, usize)>,
    records: Vec<RecordAt<'d>>,
}

impl<'d> FirstRecords<'d> {
    /// None yet, of these databases, or of the first of them where there is no memory for more.
    pub(crate) fn new(alloc: Global, several: &Several<'d>) -> FirstRecords<'d> {
        let mut sections = Vec::new(alloc);
        for place in 0..several.asked_count() {
            if sections.push(several.section_at(place)).is_err() {
                break;
            }
        }
        FirstRecords {
            sections,
            places: Vec::new(alloc),
            records: Vec::new(alloc),
        }
    }

    // Adds where a record of the database at a place is, unless that is there, or there are enough.
    fn add_record(&mut self, place: usize, offset: usize) -> Result<(), AllocError> {
        let Some(section) = self.sections.get(place).copied() else {
            return Ok(());
        };
        if self.are_enough() || self.places.contains(&(place, offset)) {
            return Ok(());
        }
        self.places.push((place, offset))?;
        self.records.push(RecordAt { section, offset })?;
        Ok(())
    }

    /// Adds where the records of a network are, as long as they are few.
    pub(crate) fn add<A: Answer>(&mut self, answer: &A) -> Result<(), AllocError> {
        for place in 0..self.sections.len() {
            if let Some(offset) = answer.offset(place) {
                self.add_record(place, offset)?;
            }
        }
        Ok(())
    }

    /// Whether no more are added.
    pub(crate) fn are_enough(&self) -> bool {
        self.records.len() >= MOST_RECORDS
    }

    /// Those that were looked at.
    pub(crate) fn records(&self) -> &[RecordAt<'d>] {
        self.records.as_slice()
    }
}
