//! How often the values of a section are used.
use crate::moved::NotMoved;
use mmdb_format::content::passed_end;
use mmdb_format::header::{header_at, pointer_at};
use mmdb_format::kind::{ARRAY, MAP, POINTER};
use std::alloc::Global;

/// How often a pointer leads to each offset of a section, and twice for a value that is to stand by itself.
#[derive(Drop)]
pub(crate) struct Uses {
    counts: Vec<u8>,
}

impl Uses {
    // Counts one use of the value at an offset.
    fn add(&mut self, offset: usize) {
        if let Some(count) = self.counts.get_mut(offset) {
            *count = count.saturating_add(1);
        }
    }

    // Counts the uses in values that follow one another, none of which is in another, and answers where they end.
    fn add_parts(&mut self, section: &[u8], at: usize, count: usize) -> Result<usize, NotMoved> {
        let mut at = at;
        for _ in 0..count {
            let header = header_at(section, at)?;
            if header.kind == POINTER {
                let pointer = pointer_at(section, header.body, header.size as u8)?;
                self.add(pointer.target);
            }
            at = passed_end(section, header)?;
        }
        Ok(at)
    }

    // Counts the uses in the value at an offset, and answers where it ends.
    fn add_value(&mut self, section: &[u8], at: usize) -> Result<usize, NotMoved> {
        let header = header_at(section, at)?;
        match header.kind {
            ARRAY => self.add_parts(section, header.body, header.size),
            MAP => self.add_parts(section, header.body, 2 * header.size),
            _ => Ok(passed_end(section, header)?),
        }
    }

    /// The uses in a section, some values of which are to stand by themselves.
    pub(crate) fn of(alloc: Global, section: &[u8], whole: &[u32]) -> Result<Uses, NotMoved> {
        let mut uses = Uses {
            counts: vec![in alloc; 0u8; section.len()]?,
        };
        for offset in whole {
            uses.add(*offset as usize);
            uses.add(*offset as usize);
        }
        let mut at = 0;
        // There are no more values than bytes.
        for _ in 0..section.len() {
            if at < section.len() {
                at = uses.add_value(section, at)?;
            }
        }
        Ok(uses)
    }

    /// Whether the value at an offset is used once.
    pub(crate) fn is_once(&self, offset: usize) -> bool {
        self.counts.get(offset) == Some(&1)
    }
}
