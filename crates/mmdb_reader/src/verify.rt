//! Verification of a whole database.
ghost use Rattle.std.specs.Prelude.{◌≡◌, ◌≤◌, ◌<◌, ◌+◌, ◌*◌, ◌^◌, length, IfOk, IfErr, IfSome, OnOk};
ghost use Rattle.mmdb_format.specs.Error.{OfDatabase, MemoryApart, IsOfOrMemory};
ghost use Rattle.mmdb_check.specs.Checking.{CanAddAll, none};
ghost use Rattle.mmdb_reader.specs.File.{data_section};
ghost use Rattle.mmdb_tree.specs.Stops.{offsets};
ghost use Rattle.mmdb_reader.specs.Stops.{stops, walk_cost};
ghost use Rattle.mmdb_reader.specs.Working.{HoldsOffsets, IsWalkOf};
ghost use Rattle.mmdb_reader.specs.Whole.{HasWholeMetadata, HasWholeTree, HasZeroSeparator, IsWhole, HasReadableRecords};
ghost use Rattle.mmdb_reader.specs.WholeLaws.{AnswersAll};

use crate::offsets::counted_from_start;
use crate::reader::Reader;
use crate::steps::Steps;
use crate::within::invalid;
use mmdb_check::checked::{Checked, check_offsets};
use mmdb_check::first_value;
use mmdb_costs::check_records;
use mmdb_format::error::MaxMindDbError;
use mmdb_format::message::{Message, Text};
use mmdb_offsets::OffsetSet;
use mmdb_tree::{WalkEnd, Walked};
use std::alloc::{AllocError, Global};
use std::convert::AsSlice;

fn too_many_stops_text(alloc: Global, most: usize) -> Result<Message, AllocError> {
    Message::of_text(
        alloc,
        format!(in alloc;
            "search tree appears to have a cycle or invalid structure (exceeded {most} iterations)"
        )?,
    )
}

// The error for a tree whose walk stops more often than allowed.
fn too_many_stops(alloc: Global, most: usize) -> MaxMindDbError
    ensures { IsOfOrMemory OfDatabase result }
{
    match too_many_stops_text(alloc, most) {
        Ok(message) => MaxMindDbError::InvalidDatabase {
            message,
            offset: None,
        },
        Err(_) => MaxMindDbError::Memory,
    }
}

impl<S: AsSlice<u8> + Drop> Reader<S> {
    // Whether the metadata name the type of the database and describe it, and unfold.
    fn verify_metadata(&self, alloc: Global) -> Result<(), MaxMindDbError>
        ensures ok { OnOk result (HasWholeMetadata self.now) }
        ensures err { IfErr result (λ e. MemoryApart e (¬ HasWholeMetadata self.now)) }
    {
        let section = self.metadata_section();
        match first_value::verify(alloc, section) {
            Ok(()) => {}
            Err(error) => return Err(counted_from_start(error, self.metadata_start())),
        }
        let metadata = self.metadata();
        if metadata.database_type.is_empty() {
            return Err(invalid(Text::EmptyType));
        }
        if metadata.description.is_empty() {
            return Err(invalid(Text::EmptyDescription));
        }
        Ok(())
    }

    // What the sweep finds of the tree, unless it fails or may fail. It stays out of line and keeps its stack and its set
    // to itself, so that they are in registers.
    #[inline(never)]
    fn sweep_tree(&self, alloc: Global) -> Result<Option<(Walked, OffsetSet)>, AllocError>
        requires few { self.now.metadata.node_count < 2 ^ 32 }
        ensures { IfOk result (λ swept. IfSome swept (λ w. IsWalkOf self.now w.0 w.1)) }
    {
        let walker = self.tree_walker();
        let mut stack = Vec::with_capacity(alloc, usize::from(self.width()))?;
        let mut set = OffsetSet::new(alloc, self.data_len())?;
        let Some(taken) = walker.sweep(&mut stack, &mut set) else {
            return Ok(None);
        };
        let walked = Walked {
            taken,
            end: WalkEnd::Whole,
        };
        Ok(Some((walked, set)))
    }

    // What the walk in order finds of the tree.
    fn walk_in_order(&self, alloc: Global) -> Result<(Walked, OffsetSet), AllocError>
        requires few { self.now.metadata.node_count < 2 ^ 32 }
        ensures { IfOk result (λ w. IsWalkOf self.now w.0 w.1) }
    {
        let mut stack = Vec::with_capacity(alloc, usize::from(self.width()))?;
        let mut set = OffsetSet::new(alloc, self.data_len())?;
        let walked = self.tree_walker().walk(&mut stack, &mut set);
        Ok((walked, set))
    }

    // What is found of the tree: by the sweep, if one is wanted, and where that fails by the walk in order.
    fn walk_once<const SWEEPS: bool>(
        &self,
        alloc: Global,
    ) -> Result<(Walked, OffsetSet), AllocError>
        requires few { self.now.metadata.node_count < 2 ^ 32 }
        ensures { IfOk result (λ w. IsWalkOf self.now w.0 w.1) }
    {
        if SWEEPS {
            if let Some(swept) = self.sweep_tree(alloc)? {
                return Ok(swept);
            }
        }
        self.walk_in_order(alloc)
    }

    // The offsets of walked leaves, if no walked leaf is faulty and there are not too many stops. Where a sweep comes before
    // the walk in order, its positions are not counted.
    #[tactic(auto, using(crate::proofs::WholeLemmas::clean_of_tree))]
    fn walk_tree<const SWEEPS: bool>(
        &self,
        alloc: Global,
        node_count: usize,
        steps: &mut Steps,
    ) -> Result<OffsetSet, MaxMindDbError>
        requires count { node_count ≡ self.now.metadata.node_count }
        requires few { node_count < 2 ^ 32 }
        requires room { steps.old + (6 * self.now.metadata.node_count + 130) < 2 ^ 64 }
        ensures ok { IfOk result (λ set. HasWholeTree self.now × HoldsOffsets self.now set) }
        ensures err { IfErr result (λ e. MemoryApart e (¬ HasWholeTree self.now)) }
        ensures bound { steps.new ≤ steps.old + (6 * self.now.metadata.node_count + 130) }
        ensures counted { OnOk result ((steps.new ≡ steps.old + walk_cost self.now)
            × (steps.new + 1 ≡ steps.old + 2 * length (stops self.now))) }
        ensures rejected { IfErr result
            (λ e. MemoryApart e (steps.new ≡ steps.old + walk_cost self.now)) }
        ensures most { steps.new ≤ steps.old + walk_cost self.now }
    {
        let (walked, set) = self.walk_once::<SWEEPS>(alloc)?;
        steps.add(walked.taken);
        match walked.end {
            WalkEnd::Whole => Ok(set),
            WalkEnd::AtFault(number) if number < node_count => { Err(invalid(Text::TreeTooDeep)) }
            WalkEnd::AtFault(_) => Err(invalid(Text::InvalidLocation)),
            WalkEnd::TooMany => Err(too_many_stops(alloc, 3 * node_count)),
        }
    }

    // Whether the separator is zero.
    fn verify_separator(&self) -> Result<(), MaxMindDbError>
        ensures ok { OnOk result (HasZeroSeparator self.now) }
        ensures err { IfErr result (λ e. MemoryApart e (¬ HasZeroSeparator self.now)) }
    {
        for byte in self.separator() {
            if *byte != 0 {
                return Err(invalid(Text::ByteInSeparator));
            }
        }
        Ok(())
    }

    // Whether the values at these set unfold together.
    fn verify_values(&self, alloc: Global, set: &OffsetSet) -> Result<(), MaxMindDbError>
        requires { HoldsOffsets self.now set.now }
        ensures ok { OnOk result
            (CanAddAll (data_section self.now) none (offsets (stops self.now))) }
        ensures err { IfErr result
            (λ e. MemoryApart e (¬ CanAddAll (data_section self.now) none
            (offsets (stops self.now)))) }
    {
        let mut checked = Checked::new(alloc, self.data_section())?;
        match check_offsets(alloc, &mut checked, set) {
            Ok(()) => Ok(()),
            Err(error) => Err(counted_from_start(error, self.data_start())),
        }
    }

    // The offsets of the tree's values, if the metadata, the tree of `node_count` nodes, the separator and the values are
    // whole.
    fn verify_whole<const SWEEPS: bool>(
        &self,
        alloc: Global,
        node_count: usize,
        steps: &mut Steps,
    ) -> Result<OffsetSet, MaxMindDbError>
        requires count { node_count ≡ self.now.metadata.node_count }
        requires few { node_count < 2 ^ 32 }
        requires room { steps.old + (6 * self.now.metadata.node_count + 130) < 2 ^ 64 }
        ensures whole { OnOk result (IsWhole self.now) }
        ensures offsets { IfOk result (HoldsOffsets self.now) }
        ensures answers { OnOk result (AnswersAll self.now) }
        ensures rejected { IfErr result (λ e. MemoryApart e (¬ IsWhole self.now)) }
        ensures bound { steps.new ≤ steps.old + (6 * self.now.metadata.node_count + 130) }
        ensures counted { OnOk result ((steps.new ≡ steps.old + walk_cost self.now)
            × (steps.new + 1 ≡ steps.old + 2 * length (stops self.now))) }
        ensures counted_rejected { IfErr result
            (λ e. MemoryApart e (HasWholeMetadata self.now
            → steps.new ≡ steps.old + walk_cost self.now)) }
        ensures most { steps.new ≤ steps.old + walk_cost self.now }
    {
        self.verify_metadata(alloc)?;
        let set = self.walk_tree::<SWEEPS>(alloc, node_count, steps)?;
        self.verify_separator()?;
        self.verify_values(alloc, &set)?;
        Ok(set)
    }

    /// `verify`, which adds the positions of the tree that it takes to `steps`.
    ///
    /// They are at most six for each node and 130 more: each node and each leaf on the way, and each alias, below which
    /// it does not go. Where the metadata are whole, or `verify` succeeds, they are exactly those up to the last leaf or
    /// alias, or up to the one at which it fails. The tree is walked in order, once, and each position that is looked at
    /// is counted. `verify` sweeps the tree, which is faster.
    pub fn verify_counted(&self, alloc: Global, steps: &mut Steps) -> Result<(), MaxMindDbError>
        requires { steps.old + (6 * self.now.metadata.node_count + 130) < 2 ^ 64 }
        ensures whole { OnOk result (IsWhole self.now) }
        ensures answers { OnOk result (AnswersAll self.now) }
        ensures rejected { IfErr result (λ e. MemoryApart e (¬ IsWhole self.now)) }
        ensures bound { steps.new ≤ steps.old + (6 * self.now.metadata.node_count + 130) }
        ensures counted { OnOk result ((steps.new ≡ steps.old + walk_cost self.now)
            × (steps.new + 1 ≡ steps.old + 2 * length (stops self.now))) }
        ensures counted_rejected { IfErr result
            (λ e. MemoryApart e (HasWholeMetadata self.now
            → steps.new ≡ steps.old + walk_cost self.now)) }
        ensures most { steps.new ≤ steps.old + walk_cost self.now }
    {
        let _offsets = self.verify_whole::<false>(alloc, self.nodes().node_count, steps)?;
        Ok(())
    }

    /// Checks the whole database: its metadata, its tree, the separator after it, and the values of all leaves that
    /// are below no alias, ascending by their offsets, each once.
    ///
    /// Accepted are, unless out of memory, exactly the whole files. Each lookup of an accepted one succeeds, below aliases
    /// too, and at each offset that it answers a finite tree of valid texts unfolds. Rejected are, as `InvalidDatabase`,
    /// metadata without a database type or a description, a tree with a leaf that leads nowhere or with more than three
    /// leaves and aliases for each node, a separator that is not zero, and the values that `check_value` rejects so; as
    /// `ResourceLimit` values that cost more than `check_value` allows.
    pub fn verify(&self, alloc: Global) -> Result<(), MaxMindDbError>
        ensures whole { OnOk result (IsWhole self.now) }
        ensures answers { OnOk result (AnswersAll self.now) }
        ensures rejected { IfErr result (λ e. MemoryApart e (¬ IsWhole self.now)) }
    {
        let node_count = self.nodes().node_count;
        let _offsets = self.verify_whole::<true>(alloc, node_count, &mut Steps::new())?;
        Ok(())
    }

    // Whether a `Value` can be read at each offset of the tree's values.
    fn verify_readable(&self, alloc: Global, set: &OffsetSet) -> Result<(), MaxMindDbError>
        requires offsets { HoldsOffsets self.now set.now }
        requires whole { IsWhole self.now }
        ensures ok { OnOk result (HasReadableRecords self.now) }
        ensures err { IfErr result (λ e. MemoryApart e (¬ HasReadableRecords self.now)) }
    {
        match check_records(alloc, self.data_section(), set) {
            Ok(()) => Ok(()),
            Err(error) => Err(counted_from_start(error, self.data_start())),
        }
    }

    /// Checks the whole database as `verify` does, and that `decode::<Value>` of each record succeeds.
    ///
    /// Accepted are, unless out of memory, exactly the whole files at each of whose data offsets there is a `Value`
    /// within the limits of a reading. A whole file may have what a `Value` may not: keys that are no texts, or that are
    /// reached through two pointers, and records of more than 65,536 values or 2,097,152 bytes of texts and byte
    /// strings, what pointers share counted each time. An error is that of `verify`, or of reading the first record, by
    /// its offset, that can't be read. Containers that records share are passed once.
    pub fn verify_records(&self, alloc: Global) -> Result<(), MaxMindDbError>
        ensures whole { OnOk result (IsWhole self.now) }
        ensures answers { OnOk result (AnswersAll self.now) }
        ensures readable { OnOk result (HasReadableRecords self.now) }
        ensures rejected { IfErr result
            (λ e. MemoryApart e (IsWhole self.now → ¬ HasReadableRecords self.now)) }
    {
        let node_count = self.nodes().node_count;
        let set = self.verify_whole::<true>(alloc, node_count, &mut Steps::new())?;
        self.verify_readable(alloc, &set)
    }
}
