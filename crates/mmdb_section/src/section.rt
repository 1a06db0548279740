//! Sections, made value by value.
ghost use Rattle.std.specs.Prelude.{◌≡◌, [], ℕ, List, ◌++◌, IfOk, IfErr, OnOk, OnErr, IfSome, IsSome, Some, length, if◌then◌else◌};
ghost use Rattle.std.specs.Str.{bytes_eq};
ghost use Rattle.mmdb_section.specs.Bytes.{shape_bytes};
ghost use Rattle.mmdb_section.specs.Sections.{Tile, Shape, shape_of, start_of, IsSection, IsValue, IsTooLarge, HoldsAt};
ghost use Rattle.mmdb_section.specs.Working.{StandAt};
ghost use Rattle.mmdb_format.specs.Unfolding.{Tree};

use crate::header::MOST_SIZE;
use crate::value::WrittenValue;
use crate::write::push_value;
use std::alloc::{AllocError, AllocFailed, Global};
use std::collections::BTreeMap;
use std::marker::Model;

/// Why a value is not added.
#[derive(Clone, Copy, Debug, PartialEq, Eq)]
pub enum SectionError {
    /// Out of memory.
    Memory,
    /// A text, a byte string, an array or a map is larger than a header can say, or the section than pointers can lead.
    TooLarge,
}

impl From<AllocError> for SectionError {
    ghost use Rattle.mmdb_section.specs.declared.section.SectionError.TheVariants.{Memory};

    ghost from_gives = { λ _ e. e ≡ Memory };

    fn from(_error: AllocError) -> SectionError {
        SectionError::Memory
    }
}

impl<T: Drop> From<AllocFailed<T>> for SectionError {
    ghost use Rattle.mmdb_section.specs.declared.section.SectionError.TheVariants.{Memory};

    ghost from_gives = { λ _ e. e ≡ Memory };

    fn from(_error: AllocFailed<T>) -> SectionError {
        SectionError::Memory
    }
}

/// A data section that grows by a value at a time. A value is added after its parts. One that was added before is not written
/// again.
#[derive(Drop)]
pub struct Section {
    bytes: Vec<u8>,
    /// From the bytes of each value that was added to where it begins.
    known: BTreeMap<Vec<u8>, u32>,
}

impl Model for Section {
    ghost use Rattle.mmdb_section.specs.Sections.{SectionView};
    ghost use Rattle.mmdb_section.specs.Working.{added_in, AreStarts};

    ghost Value = { SectionView };

    ghost view = { λ s. record { bytes = s.bytes.items; added = added_in s.known } };

    ghost invariant = { λ s. AreStarts s.bytes.items s.known };
}

impl Section {
    /// A section without values.
    pub fn new(alloc: Global) -> Section
        ensures bytes { result.bytes ≡ [] }
        ensures added { result.added ≡ [] }
    {
        Section {
            bytes: Vec::new(alloc),
            known: BTreeMap::new(alloc),
        }
    }

    // Where a value with these bytes begins, if it was added.
    fn find(&self, bytes: &[u8]) -> Option<u32>
        ensures stands { IfSome result (λ start. StandAt self.now.bytes start bytes.now) }
        ensures known { (shape : Shape) → bytes.now ≡ shape_bytes shape
            → result ≡ start_of self.now shape }
    {
        self.known.get(bytes).copied()
    }

    // Puts the bytes of a value after the others.
    fn put(&mut self, start: u32, bytes: Vec<u8>) -> Result<(), AllocError>
        requires { start ≡ length self.old.bytes }
        ensures bytes { OnOk result (self.new.bytes ≡ self.old.bytes ++ bytes.items) }
        ensures known { OnOk result ((shape : Shape) → start_of self.new shape
            ≡ (if bytes_eq bytes.items (shape_bytes shape)
            then Some start else start_of self.old shape)) }
        ensures kept { OnErr result (self.new ≡ self.old) }
    {
        self.bytes.extend_from_slice(&bytes)?;
        if let Err(failed) = self.known.insert(bytes, start) {
            self.bytes.truncate(start as usize);
            return Err(AllocError::from(failed));
        }
        Ok(())
    }

    /// Adds a value, unless it was added before, and answers the offset at which it begins. An error changes nothing.
    pub fn add(&mut self, alloc: Global, value: WrittenValue<'_>) -> Result<u32, SectionError>
        ensures value { IfOk result (λ offset. (tiles : List Tile) (v : Tree)
            → IsSection tiles self.old → IsValue tiles value.entry v
            → HoldsAt tiles v self.new offset) }
        ensures known { IfOk result (λ offset.
            start_of self.new (shape_of value.entry) ≡ Some offset) }
        ensures stays_known { (shape : Shape) (offset : ℕ) → start_of self.old shape ≡ Some offset
            → start_of self.new shape ≡ Some offset }
        ensures once { IsSome (start_of self.old (shape_of value.entry)) → self.new ≡ self.old }
        ensures kept { OnErr result (self.new ≡ self.old) }
        ensures too_large { IfErr result (λ e. e ≡ SectionError.TooLarge
            → IsTooLarge self.old value.entry) }
    {
        if value.size() > MOST_SIZE {
            return Err(SectionError::TooLarge);
        }
        let Ok(start) = u32::try_from(self.bytes.len()) else {
            return Err(SectionError::TooLarge);
        };
        let mut added = Vec::new(alloc);
        push_value(&mut added, value)?;
        if let Some(earlier) = self.find(&added) {
            return Ok(earlier);
        }
        self.put(start, added)?;
        Ok(start)
    }

    /// The bytes of the section.
    pub fn bytes(&self) -> &[u8]
        ensures { result.now ≡ self.now.bytes }
    {
        &self.bytes
    }

    /// The bytes of the section, without what is kept to find values by.
    pub fn into_bytes(self) -> Vec<u8>
        ensures { result.items ≡ self.bytes }
    {
        self.bytes
    }
}
