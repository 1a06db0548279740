//! Which records can be counted by the parts that they are made of.
use crate::parts::{Part, part_at};
use mmdb_costs::KeptCosts;
use mmdb_format::content::key_bytes_at;
use mmdb_format::header::{Header, MAX_LEVELS};
use std::alloc::{AllocError, Global};
use std::collections::BTreeSet;

/// Finds out which records can be read, and have no key twice in a map. What pointers lead to is looked at once.
#[derive(Drop)]
pub(crate) struct Countable<'s> {
    alloc: Global,
    section: &'s [u8],
    costs: KeptCosts<'s>,
    /// Where pointers lead to values in which nothing is against it.
    good: BTreeSet<usize>,
}

impl<'s> Countable<'s> {
    /// Of the records of a data section.
    pub(crate) fn new(alloc: Global, section: &'s [u8]) -> Result<Countable<'s>, AllocError> {
        Ok(Countable {
            alloc,
            section,
            costs: KeptCosts::new(alloc, section)?,
            good: BTreeSet::new(alloc),
        })
    }

    // Whether a pointer leads to a value in which nothing is against it.
    #[cycle(countable)]
    fn is_good(&mut self, target: usize, levels: usize) -> Result<bool, AllocError> {
        if self.good.contains(&target) {
            return Ok(true);
        }
        if self.end_at(target, levels)?.is_none() {
            return Ok(false);
        }
        self.good.insert(target)?;
        Ok(true)
    }

    // The offset behind the items of an array, if nothing is against them.
    #[cycle(countable)]
    fn end_of_items(&mut self, array: Header, levels: usize) -> Result<Option<usize>, AllocError> {
        let mut at = array.body;
        for _ in 0..array.size {
            match self.end_at(at, levels)? {
                Some(end) => at = end,
                None => return Ok(None),
            }
        }
        Ok(Some(at))
    }

    // The offset behind the pairs of a map, if nothing is against them.
    #[cycle(countable)]
    fn end_of_pairs(&mut self, map: Header, levels: usize) -> Result<Option<usize>, AllocError> {
        let mut keys = BTreeSet::new(self.alloc);
        let mut at = map.body;
        for _ in 0..map.size {
            let Ok((key, behind)) = key_bytes_at(self.section, at) else {
                return Ok(None);
            };
            if str::from_utf8(key).is_err() || !keys.insert(key)? {
                return Ok(None);
            }
            match self.end_at(behind, levels)? {
                Some(end) => at = end,
                None => return Ok(None),
            }
        }
        Ok(Some(at))
    }

    // The offset behind what stands at an offset, if nothing is against it.
    #[cycle(countable)]
    fn end_at(&mut self, offset: usize, levels: usize) -> Result<Option<usize>, AllocError> {
        if levels == 0 {
            return Ok(None);
        }
        match part_at(self.section, offset) {
            Some(Part::Scalar(scalar)) if str::from_utf8(scalar.text).is_ok() => {
                Ok(Some(scalar.end))
            }
            Some(Part::Pointer(pointer)) => Ok(if self.is_good(pointer.target, levels - 1)? {
                Some(pointer.next)
            } else {
                None
            }),
            Some(Part::Map(map)) => self.end_of_pairs(map, levels - 1),
            Some(Part::Array(array)) => self.end_of_items(array, levels - 1),
            _ => Ok(None),
        }
    }

    /// Whether the record at an offset can be read, and has no key twice in a map.
    pub(crate) fn has(&mut self, offset: usize) -> Result<bool, AllocError> {
        Ok(self.costs.fits(offset)? && self.end_at(offset, usize::from(MAX_LEVELS))?.is_some())
    }
}
