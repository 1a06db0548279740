//! The costs of values, kept for the offsets that pointers lead to.
ghost use Rattle.std.specs.Prelude.{◌≡◌, ◌<◌, ◌^◌, ℕ, true, Some, IfOk, IfSome};
ghost use Rattle.mmdb_format.specs.Header.{header_at as spec_header_at};
ghost use Rattle.mmdb_costs.specs.Readable.{Fits};
ghost use Rattle.mmdb_costs.specs.Working.{HasCost, HasCostBehind, HasKeyCost, ElementsHaveCost, PairsHaveCost, HasSomeCost, IsKnown};

use crate::cost::{Cost, PartCost};
use mmdb_decode::failed::Failed;
use mmdb_format::content::{content_at, content_end, key_bytes_at};
use mmdb_format::header::{Header, MAX_LEVELS, header_at, pointer_at};
use mmdb_format::kind::{ARRAY, MAP, POINTER};
use mmdb_offsets::OffsetSet;
use std::alloc::{AllocError, Global};
use std::collections::BTreeMap;
use std::marker::Model;

/// What is known of an offset that a pointer led to.
#[derive(Clone, Copy)]
pub(crate) enum KnownCost {
    /// What the value there costs.
    Costs(Cost),
    /// No value that a reading can take is there.
    Unreadable,
}

/// A section of a file, and what values in it cost a reading. The cost of a container that pointers lead to is kept from the
/// second time on: one that is shared is passed twice, and of one that is not a bit alone is kept.
#[derive(Drop)]
pub struct KeptCosts<'s> {
    section: &'s [u8],
    // Where pointers led to.
    met: OffsetSet,
    // Ordered, since whoever makes a file chooses its offsets, and could choose ones whose hashes collide.
    known: BTreeMap<usize, KnownCost>,
}

impl<'s> Model for KeptCosts<'s> {
    ghost use Rattle.std.specs.Prelude.{◌≡◌, ℕ, List, length};
    ghost use Rattle.std.specs.Ordering.{nat_cmp};
    ghost use Rattle.std.specs.BTreeMap.{get};
    ghost use Rattle.mmdb_costs.specs.Working.{AreKnown};

    ghost Value = { List ℕ };

    ghost view = { λ c. c.section.now };

    ghost invariant = { λ c. (length c.met ≡ length c.section.now)
        × AreKnown c.section.now (get nat_cmp c.known) };
}

// The header at an offset.
#[inline(always)]
fn header_here(section: &[u8], offset: usize) -> Result<Header, Failed>
    ensures header { IfOk result (λ header. spec_header_at section.now offset ≡ Some header) }
    ensures bound { IfOk result (λ header. (header.size < 2 ^ 25)
        × (header.kind ≡ 1 → header.size < 32)) }
{
    match header_at(section, offset) {
        Ok(header) => Ok(header),
        Err(_) => Err(Failed::Unreadable),
    }
}

// What a value after a header costs that holds no others.
#[inline(always)]
fn scalar_part(section: &[u8], header: Header) -> Result<PartCost, Failed>
    ensures { IfOk result (HasCostBehind section.now header) }
{
    let Ok(content) = content_at(section, header) else {
        return Err(Failed::Unreadable);
    };
    Ok(PartCost {
        end: content_end(header),
        cost: Cost::of(1, content.payload())?,
    })
}

// What a map's key costs.
#[inline(always)]
fn key_part(section: &[u8], offset: usize) -> Result<PartCost, Failed>
    ensures { IfOk result (HasKeyCost section.now offset) }
{
    let Ok((key, end)) = key_bytes_at(section, offset) else {
        return Err(Failed::Unreadable);
    };
    Ok(PartCost {
        end,
        cost: Cost::of(1, key.len())?,
    })
}

// Whether a value after a header holds others, or leads to another.
#[inline(always)]
fn has_parts(header: Header) -> bool {
    header.kind == MAP || header.kind == ARRAY || header.kind == POINTER
}

impl<'s> KeptCosts<'s> {
    /// Of a section of which nothing is known yet, unless out of memory.
    pub fn new(alloc: Global, section: &'s [u8]) -> Result<KeptCosts<'s>, AllocError>
        ensures { IfOk result (λ costs. costs ≡ section.now) }
    {
        Ok(KeptCosts {
            section,
            met: OffsetSet::new(alloc, section.len())?,
            known: BTreeMap::new(alloc),
        })
    }

    // Whether a pointer led to an offset before. From now on one did.
    #[inline(always)]
    fn was_met(&mut self, offset: usize) -> bool
        ensures { self.new ≡ self.old }
    {
        if offset >= self.section.len() {
            return false;
        }
        let was_met = self.met.contains(offset);
        self.met.insert(offset);
        was_met
    }

    // What is known of an offset.
    #[inline(always)]
    fn known_at(&self, offset: usize) -> Option<KnownCost>
        ensures { IfSome result (IsKnown self.now offset) }
    {
        self.known.get(&offset).copied()
    }

    // Keeps what is known of an offset.
    fn keep(&mut self, offset: usize, known: KnownCost) -> Result<(), Failed>
        requires { IsKnown self.old offset known }
        ensures { self.new ≡ self.old }
    {
        self.known.insert(offset, known)?;
        Ok(())
    }

    // What a value after a header costs, below which `levels` levels are left.
    #[cycle(cost)]
    fn part_behind(&mut self, header: Header, levels: usize) -> Result<PartCost, Failed>
        requires size { (header.size < 2 ^ 25) × (header.kind ≡ 1 → header.size < 32) }
        ensures cost { IfOk result (HasCostBehind self.old header) }
        ensures same { self.new ≡ self.old }
    {
        match header.kind {
            POINTER => self.part_of_pointer(header, levels),
            MAP => self.part_of_map(header, levels),
            ARRAY => self.part_of_array(header, levels),
            _ => scalar_part(self.section, header),
        }
    }

    #[cycle(cost)]
    fn part_of_pointer(&mut self, header: Header, levels: usize) -> Result<PartCost, Failed>
        requires kind { header.kind ≡ 1 }
        requires size { header.size < 32 }
        ensures cost { IfOk result (HasCostBehind self.old header) }
        ensures same { self.new ≡ self.old }
    {
        if levels == 0 {
            return Err(Failed::Unreadable);
        }
        let Ok(pointer) = pointer_at(self.section, header.body, header.size as u8) else {
            return Err(Failed::Unreadable);
        };
        Ok(PartCost {
            end: pointer.next,
            cost: self.cost_at(pointer.target, levels - 1)?,
        })
    }

    #[cycle(cost)]
    fn part_of_map(&mut self, header: Header, levels: usize) -> Result<PartCost, Failed>
        requires { header.kind ≡ 7 }
        ensures cost { IfOk result (HasCostBehind self.old header) }
        ensures same { self.new ≡ self.old }
    {
        if levels == 0 {
            return Err(Failed::Unreadable);
        }
        self.pairs(header.size, header.body, levels - 1)?
            .contained()
    }

    #[cycle(cost)]
    fn part_of_array(&mut self, header: Header, levels: usize) -> Result<PartCost, Failed>
        requires { header.kind ≡ 11 }
        ensures cost { IfOk result (HasCostBehind self.old header) }
        ensures same { self.new ≡ self.old }
    {
        if levels == 0 {
            return Err(Failed::Unreadable);
        }
        self.elements(header.size, header.body, levels - 1)?
            .contained()
    }

    // What `count` elements of an array cost.
    #[cycle(cost)]
    fn elements(&mut self, count: usize, start: usize, levels: usize) -> Result<PartCost, Failed>
        ensures cost { IfOk result (ElementsHaveCost self.old start count) }
        ensures same { self.new ≡ self.old }
    {
        let mut all = PartCost::nothing(start);
        for _i in 0..count {
            all = all.and(self.part_at(all.end, levels)?)?;
        }
        Ok(all)
    }

    // What `count` pairs of a map cost.
    #[cycle(cost)]
    fn pairs(&mut self, count: usize, start: usize, levels: usize) -> Result<PartCost, Failed>
        ensures cost { IfOk result (PairsHaveCost self.old start count) }
        ensures same { self.new ≡ self.old }
    {
        let mut all = PartCost::nothing(start);
        for _i in 0..count {
            let key = key_part(self.section, all.end)?;
            let value = self.part_at(key.end, levels)?;
            all = all.and(key)?.and(value)?;
        }
        Ok(all)
    }

    // What the value at an offset costs.
    #[cycle(cost)]
    fn part_at(&mut self, offset: usize, levels: usize) -> Result<PartCost, Failed>
        ensures cost { IfOk result (HasCost self.old offset) }
        ensures same { self.new ≡ self.old }
    {
        let header = header_here(self.section, offset)?;
        self.part_behind(header, levels)
    }

    // What the value costs that a pointer leads to. What holds no others is read again, and the rest is kept when it is met
    // again.
    #[cycle(cost)]
    fn cost_at(&mut self, offset: usize, levels: usize) -> Result<Cost, Failed>
        ensures cost { IfOk result (HasSomeCost self.old offset) }
        ensures same { self.new ≡ self.old }
    {
        let header = header_here(self.section, offset)?;
        if !has_parts(header) {
            return Ok(scalar_part(self.section, header)?.cost);
        }
        if !self.was_met(offset) {
            return Ok(self.part_behind(header, levels)?.cost);
        }
        match self.known_at(offset) {
            Some(KnownCost::Costs(cost)) => return Ok(cost),
            Some(KnownCost::Unreadable) => return Err(Failed::Unreadable),
            None => {}
        }
        match self.part_behind(header, levels) {
            Ok(part) => {
                self.keep(offset, KnownCost::Costs(part.cost))?;
                Ok(part.cost)
            }
            Err(Failed::Unreadable) => {
                self.keep(offset, KnownCost::Unreadable)?;
                Err(Failed::Unreadable)
            }
            Err(Failed::OutOfMemory) => Err(Failed::OutOfMemory),
        }
    }

    /// Whether the value at an offset is seen to be within the limits of a reading, with texts for keys. Whether its texts
    /// are UTF-8 is not looked at.
    pub fn fits(&mut self, offset: usize) -> Result<bool, AllocError>
        ensures fits { IfOk result (λ yes. yes ≡ true → Fits self.old offset) }
        ensures section { self.new ≡ self.old }
    {
        match self.part_at(offset, usize::from(MAX_LEVELS)) {
            Ok(_) => Ok(true),
            Err(Failed::Unreadable) => Ok(false),
            Err(Failed::OutOfMemory) => Err(AllocError),
        }
    }
}
