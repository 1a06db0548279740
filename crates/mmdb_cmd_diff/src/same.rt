//! Two files with the same bytes: nothing differs where all that they have can be read.
use mmdb_compare::SideBySide;
use mmdb_found::value_along;
use mmdb_layout::{ChosenFields, Database, Found, Layout};
use mmdb_reader::{IpNetwork, MaxMindDbError, PathElement, WithinOptions};
use std::alloc::{AllocError, Global};

// The records of a range that were met. Of each the fields that are shown are read where it is met first; whole records
// are read after that, one after another as they are in the file.
#[derive(Drop)]
struct RecordsMet<'a> {
    alloc: Global,
    layout: &'a Layout<'a>,
    /// A bit for each offset of the data section.
    met: Vec<u64>,
}

// Whether something was read.
fn is_read<T: Drop, E: Drop>(read: Result<T, E>) -> bool {
    read.is_ok()
}

// Whether the value at a path of a record can be read.
fn can_read_value(alloc: Global, found: &Found<'_>, path: &[PathElement<'_>]) -> bool {
    is_read(value_along(alloc, found, path))
}

// Whether the values at some paths of a record can be read.
fn can_read_values(alloc: Global, fields: &ChosenFields<'_>, found: &Found<'_>) -> bool {
    for path in &fields.paths {
        if !can_read_value(alloc, found, path.as_slice()) {
            return false;
        }
    }
    true
}

// Whether the records at those of 64 offsets whose bits are 1 are seen to be readable.
fn can_read_some(records: &mut SideBySide<'_>, first: usize, bits: u64) -> bool {
    let mut left = bits;
    for _ in 0..bits.count_ones() {
        let offset = first.saturating_add(left.trailing_zeros() as usize);
        if !records.have_equal(offset, offset) {
            return false;
        }
        left &= left.wrapping_sub(1);
    }
    true
}

// Whether the records at the offsets whose bits are 1 are seen to be readable: each is equal to itself.
fn can_read_all(alloc: Global, section: &[u8], met: &[u64]) -> bool {
    let Ok(mut records) = SideBySide::of_one(alloc, section) else {
        return false;
    };
    for (index, bits) in met.iter().enumerate() {
        if !can_read_some(&mut records, index.saturating_mul(64), *bits) {
            return false;
        }
    }
    true
}

impl<'a> RecordsMet<'a> {
    // None yet.
    fn new(
        alloc: Global,
        database: &Database,
        layout: &'a Layout<'a>,
    ) -> Result<RecordsMet<'a>, AllocError> {
        let words = database.data_section().len() / 64 + 1;
        Ok(RecordsMet {
            alloc,
            layout,
            met: vec![in alloc; 0u64; words]?,
        })
    }

    // Whether the record at an offset was not yet met. From now on it was.
    #[inline(always)]
    fn is_new(&mut self, offset: usize) -> bool {
        let bit = 1u64 << (offset % 64);
        match self.met.get_mut(offset / 64) {
            Some(word) => {
                let is_new = *word & bit == 0;
                *word |= bit;
                is_new
            }
            None => true,
        }
    }

    // Whether the fields that are shown of a record can be read. Whole records are read later.
    #[inline(never)]
    fn can_show(&self, found: Found<'_>) -> bool {
        match self.layout {
            Layout::Records => true,
            Layout::Values(fields) | Layout::Cells(fields) => {
                can_read_values(self.alloc, fields, &found)
            }
        }
    }

    // Whether the fields that are shown of a network's record can be read, which is asked once of each.
    #[inline(always)]
    fn takes(&mut self, found: Found<'_>) -> bool {
        match found.offset() {
            Some(offset) => !self.is_new(offset) || self.can_show(found),
            None => true,
        }
    }

    // Whether a network was read, and the fields that are shown of its record can be.
    #[inline(always)]
    fn takes_item(&mut self, item: Result<Found<'_>, MaxMindDbError>) -> bool {
        match item {
            Ok(found) => self.takes(found),
            Err(error) => {
                drop(error);
                false
            }
        }
    }

    // Meets all records of a range. Whether the range can be asked, and the fields that are shown can be read.
    fn takes_all(&mut self, database: &Database, range: IpNetwork) -> bool {
        let Ok(networks) = database.within(self.alloc, range, WithinOptions::default()) else {
            return false;
        };
        for item in networks {
            if !self.takes_item(item) {
                return false;
            }
        }
        true
    }

    // Whether the records that were met are seen to be readable, as far as they are shown.
    fn can_show_all(&self, database: &Database) -> bool {
        match self.layout {
            Layout::Records => can_read_all(
                self.alloc,
                database.data_section(),
                self.met.as_slice(),
            ),
            Layout::Values(_) | Layout::Cells(_) => true,
        }
    }
}

/// Whether a range of a database can be asked, and all that is shown of it is seen to be readable. Where memory is out it
/// is not seen.
pub(crate) fn are_all_readable<'a>(
    alloc: Global,
    database: &Database,
    range: IpNetwork,
    layout: &'a Layout<'a>,
) -> bool {
    match RecordsMet::new(alloc, database, layout) {
        Ok(mut records) => records.takes_all(database, range) && records.can_show_all(database),
        Err(_) => false,
    }
}
