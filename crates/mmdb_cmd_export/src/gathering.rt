//! The addresses of chosen networks, gathered.
ghost use Rattle.std.specs.Prelude.{◌≡◌, ◌↔◌, ◌⊎◌, ◌<◌, ◌^◌, ℕ, IfOk};
ghost use Rattle.mmdb_blocks.specs.Blocks.{IsIn, IsJoined};
ghost use Rattle.mmdb_blocks.specs.Ranges.{IsAmong};
ghost use Rattle.mmdb_query.specs.Parts.{ComesInPart};
ghost use Rattle.mmdb_query.specs.Sets.{IsGathered};
ghost use Rattle.mmdb_cmd_export.specs.Gathered.{IsMapped, IsListedOf, gathered_of};
ghost use Rattle.mmdb_cmd_export.specs.Listed.{ranges_error};

use crate::missing::are_values_met;
use crate::reports::{AskedOfRecords, Reports, apart};
use crate::rows::of_query;
use crate::several::Several;
use crate::task::ExportTask;
use mmdb_blocks::{Block, BlockKind, BlockRange, Kinds, Ranges, RangesError, listed_blocks};
use mmdb_console::{Console, Pace, ProgramError};
use mmdb_layout::networks_in;
use mmdb_query::{Addresses as Chosen, Many, One, QueryError, Walk, gather_part};
use mmdb_query_forms::AllOf;
use mmdb_reader::IpNetwork;
use std::alloc::{AllocError, Global};
use std::io::{self, Write};

/// Addresses of both kinds.
#[derive(Drop)]
pub(crate) struct Addresses {
    ipv4: Ranges,
    ipv6: Ranges,
}

/// What ranges answered, as the program reports it.
pub(crate) fn of_ranges(error: RangesError) -> ProgramError
    ensures { result ≡ ranges_error error }
{
    match error {
        RangesError::OutOfOrder => ProgramError::OutOfOrder,
        RangesError::Memory => ProgramError::Memory,
    }
}

impl Addresses {
    pub(crate) fn new(alloc: Global) -> Addresses {
        Addresses {
            ipv4: Ranges::new(alloc),
            ipv6: Ranges::new(alloc),
        }
    }

    /// Adds the addresses of a range of a kind.
    pub(crate) fn add(&mut self, kind: BlockKind, range: BlockRange) -> Result<(), AllocError> {
        match kind {
            BlockKind::Ipv4 => self.ipv4.add(range),
            BlockKind::Ipv6 => self.ipv6.add(range),
        }
    }
}

// The addresses of blocks.
fn ranges_of_blocks(alloc: Global, blocks: &[Block]) -> Result<Ranges, RangesError>
    ensures { IfOk result (λ ranges. (address : ℕ) → IsAmong address ranges
        ↔ IsIn address blocks.now) }
{
    let mut ranges = Ranges::new(alloc);
    for block in blocks {
        ranges.add_block(*block)?;
    }
    Ok(ranges)
}

/// Which addresses a list has beside those of the chosen networks, and which it has not.
#[derive(Drop)]
pub(crate) struct Adjustment {
    pub(crate) also: Addresses,
    pub(crate) except: Addresses,
}

impl Adjustment {
    /// By which nothing is added and nothing taken away.
    pub(crate) fn of_nothing(alloc: Global) -> Adjustment {
        Adjustment {
            also: Addresses::new(alloc),
            except: Addresses::new(alloc),
        }
    }

    // What a list has of IPv4 beside the chosen addresses of IPv4: what is added, and what chosen networks of IPv6 have of it, which
    // lookups of IPv4 find where a database has no tree of it.
    fn also_ipv4(&self, alloc: Global, chosen: &Chosen) -> Result<Ranges, RangesError>
        ensures { IfOk result (λ also. (address : ℕ) → address < 2 ^ 128 → IsAmong address also
            ↔ (IsMapped chosen.now address ⊎ IsAmong address self.now.also.ipv4)) }
    {
        let nothing = Ranges::new(alloc);
        let mut beyond = Ranges::new(alloc);
        beyond.add(BlockRange {
            first: 1 << 32,
            last: u128::MAX,
        })?;
        let mapped = listed_blocks(alloc, chosen.ipv6(), &nothing, &beyond)?;
        let mapped = ranges_of_blocks(alloc, mapped.as_slice())?;
        let all = listed_blocks(alloc, &mapped, &self.also.ipv4, &nothing)?;
        ranges_of_blocks(alloc, all.as_slice())
    }

    /// The fewest blocks of a kind that have the chosen addresses, with what is added and without what is taken away.
    pub(crate) fn blocks_of(
        &self,
        alloc: Global,
        chosen: &Chosen,
        kind: BlockKind,
    ) -> Result<Vec<Block>, RangesError>
        ensures exact { IfOk result (λ blocks. (address : ℕ) → address < 2 ^ 128
            → IsIn address blocks.items ↔ IsListedOf kind chosen.now self.now address) }
        ensures fewest { IfOk result (λ blocks. IsJoined blocks.items blocks.items) }
    {
        match kind {
            BlockKind::Ipv4 => {
                let also = self.also_ipv4(alloc, chosen)?;
                listed_blocks(alloc, chosen.ipv4(), &also, &self.except.ipv4)
            }
            BlockKind::Ipv6 => {
                listed_blocks(alloc, chosen.ipv6(), &self.also.ipv6, &self.except.ipv6)
            }
        }
    }
}

/// The addresses of the chosen networks, and how many networks could not be read.
#[derive(Drop)]
pub(crate) struct Gathered {
    pub(crate) chosen: Chosen,
    pub(crate) faults: u64,
}

/// What a list is of: the networks of databases that are of some kinds, and what is asked of them.
#[derive(Clone, Copy)]
pub(crate) struct Listed<'x, 'd> {
    /// The databases in the range that is looked at for it.
    pub(crate) several: &'x Several<'d>,
    /// The same in the range that was asked for, where it is looked for what may be meant.
    pub(crate) whole: &'x Several<'d>,
    pub(crate) task: &'x ExportTask<'x>,
    pub(crate) kinds: Kinds,
}

impl<'x, 'd> Listed<'x, 'd> {
    /// What is asked of the records: the conditions alone.
    pub(crate) fn asked(&self) -> AskedOfRecords<'x> {
        AskedOfRecords {
            conditions: self.task.conditions.as_slice(),
            columns: &[],
        }
    }

    // Gathers the addresses of the chosen networks of a walk: exactly these, of which so many can't be read.
    fn gather_along<W: Walk + Drop, E: Pace>(
        &self,
        alloc: Global,
        walk: W,
        range: Option<IpNetwork>,
        reports: &mut Reports<'_, '_, '_, E>,
    ) -> Result<(Chosen, u64), QueryError>
        ensures { IfOk result (λ found. IsGathered (ComesInPart self.now.kinds range (W.comes walk))
            (gathered_of self.now.task.now.conditions.items (W.sections walk))
            found.0 found.1) }
    {
        let conditions = AllOf {
            conditions: self.task.conditions.as_slice(),
        };
        gather_part(alloc, walk, self.kinds, range, &conditions, reports)
    }

    // Gathers the addresses of the chosen networks of the databases.
    fn gather_all<E: Pace>(
        &self,
        alloc: Global,
        reports: &mut Reports<'_, '_, '_, E>,
    ) -> Result<Chosen, ProgramError> {
        let range = self.several.range();
        let gathered = match self.several.alone() {
            Some(database) => {
                let walk = One::new(networks_in(alloc, database, range)?);
                self.gather_along(alloc, walk, range, reports)
            }
            None => match Many::new(alloc, self.several.asked()) {
                Ok(walk) => self.gather_along(alloc, walk, None, reports),
                Err((_, error)) => return Err(ProgramError::from(error)),
            },
        };
        match gathered {
            Ok((chosen, _)) => Ok(chosen),
            Err(error) => Err(of_query(error)),
        }
    }

    /// Gathers the addresses of the chosen networks, and reports each network that can't be read.
    pub(crate) fn gather<O: Write, E: Pace>(
        &self,
        console: &mut Console<'_, O, E>,
    ) -> Result<Gathered, ProgramError> {
        let alloc = console.alloc;
        let mut nowhere = io::sink();
        let (_, errors) = apart(console, &mut nowhere);
        let mut reports = Reports::new(errors, self.several, self.asked())?;
        let chosen = self.gather_all(alloc, &mut reports);
        reports.clear_progress();
        Ok(Gathered {
            chosen: chosen?,
            faults: reports.count,
        })
    }

    /// The same, where networks have the values of the conditions or may lack them; none where the list may not be written, which
    /// is reported.
    pub(crate) fn gather_met<O: Write, E: Pace>(
        &self,
        console: &mut Console<'_, O, E>,
    ) -> Result<Option<Gathered>, ProgramError> {
        if !self.may_be_written(console)? {
            return Ok(None);
        }
        Ok(Some(self.gather(console)?))
    }

    /// Whether networks have the values of the conditions, or may lack them. What none has is reported.
    pub(crate) fn may_be_written<O: Write, E: Pace>(
        &self,
        console: &mut Console<'_, O, E>,
    ) -> Result<bool, ProgramError> {
        if self.task.conditions.is_empty() {
            return Ok(true);
        }
        are_values_met(self, console)
    }
}
