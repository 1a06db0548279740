//! What differs, written as the fewest networks: neighbours with the same two values are joined.
ghost use Rattle.std.specs.Prelude.{◌≡◌, Bool, ℕ, true, false, None, IfOk, IfErr, IfSome, OnOk, IsSomeAnd};
ghost use Rattle.mmdb_blocks.specs.Joining.{settled_of, waiting_of};
ghost use Rattle.mmdb_blocks.specs.Kinds.{IsNetworkOf};
ghost use Rattle.mmdb_cmd_diff.specs.Showing.{Showing, IsShownPair, offset_at, offset_in};
ghost use Rattle.mmdb_cmd_diff.specs.Lines.{WritesNone, is_of_output, kind_of as spec_kind_of, kind_of_run, WritesOf, WritesBlock, WritesBlocks, Both, HasThere, Joins, Tells, AreWaiting, GoesOnAs, GoesOnWith, none, with_stretch, waiting_in};

use crate::counts::{ABSENT, ChangeCounts, Presence};
use crate::differences::{FoundInBoth, PairOfNetwork, Pairs, put_difference};
use crate::shown::ShownPair;
use mmdb_blocks::{Block, BlockKind, Joiner};
use mmdb_compare::TogetherStretch;
use mmdb_console::ProgramError;
use mmdb_layout::{Found, Layout};
use mmdb_reader::{IpNetwork, MaxMindDbError};
use std::alloc::{AllocError, Global};
use std::io::Write;

/// How many zero bits an address can end with: none to all.
const ENDINGS: usize = 129;

// Stretches side by side whose two values are shown the same.
#[derive(Drop)]
struct ShownRun<'r> {
    /// What the last of them has.
    old: Option<Found<'r>>,
    new: Option<Found<'r>>,
    shown: ShownPair,
    is_ipv4: bool,
    /// Its last address.
    last: u128,
}

impl<'r> ShownRun<'r> {
    fn answers(&self) -> FoundInBoth<'_, 'r>
        ensures old { offset_at result.old ≡ offset_in self.now.old }
        ensures new { offset_at result.new ≡ offset_in self.now.new }
    {
        FoundInBoth {
            old: self.old.as_ref(),
            new: self.new.as_ref(),
        }
    }

    // Whether a stretch begins right after it, and is of the same kind of addresses.
    fn is_before(&self, stretch: TogetherStretch) -> bool
        ensures { result ≡ true → self.now.is_ipv4 ≡ stretch.is_ipv4 }
    {
        let first = stretch.block.first;
        self.is_ipv4 == stretch.is_ipv4 && first > 0 && first - 1 == self.last
    }
}

/// The changes of a comparison. Those of a run are written where the next one begins, or by `finish`.
#[derive(Drop)]
pub(crate) struct Changes<'r> {
    alloc: Global,
    joiner: Joiner,
    run: Option<ShownRun<'r>>,
    /// What the first address of each block that waits in the joiner has, by how many zero bits that address ends
    /// with. It is another number for each: they are side by side, and each is smaller than the one before.
    presences: [Presence; ENDINGS],
    /// What the beginning of a line is put together in.
    line: Vec<u8>,
    /// What was written.
    pub(crate) counts: ChangeCounts,
}

/// The kind of addresses of IPv4 or not.
pub(crate) fn kind_of(is_ipv4: bool) -> BlockKind
    ensures { result ≡ spec_kind_of is_ipv4 }
{
    if is_ipv4 {
        BlockKind::Ipv4
    } else {
        BlockKind::Ipv6
    }
}

/// The network of a block.
pub(crate) fn network_of(block: Block, is_ipv4: bool) -> Result<IpNetwork, ProgramError>
    ensures { IfOk result (IsNetworkOf (spec_kind_of is_ipv4) block) }
{
    match kind_of(is_ipv4).network_of(block) {
        Ok(network) => Ok(network),
        Err(_) => Err(ProgramError::OutOfOrder),
    }
}

// Whether memory was out.
fn is_memory(error: &ProgramError) -> bool
    ensures { result ≡ true → is_of_output error.now ≡ false }
{
    match error {
        ProgramError::Memory | ProgramError::Database(MaxMindDbError::Memory) => true,
        _ => false,
    }
}

impl<'r> Changes<'r> {
    /// No changes yet.
    pub(crate) fn new(alloc: Global) -> Result<Changes<'r>, AllocError>
        ensures { (showing : Showing) (both : Both) → IfOk result (AreWaiting showing both) }
    {
        Ok(Changes {
            alloc,
            joiner: Joiner::new(alloc)?,
            run: None,
            presences: [ABSENT; ENDINGS],
            line: Vec::new(alloc),
            counts: ChangeCounts::new(),
        })
    }

    // What the first address of a block has that waited.
    fn presence_at(&self, first: u128) -> Presence {
        let zeros = first.trailing_zeros() as usize;
        self.presences.get(zeros).copied().unwrap_or(ABSENT)
    }

    // Keeps what the first address of a stretch has.
    fn keep_presence(&mut self, stretch: TogetherStretch, answers: FoundInBoth<'_, '_>)
        ensures run { self.new.run ≡ self.old.run }
        ensures joiner { self.new.joiner ≡ self.old.joiner }
    {
        let zeros = stretch.block.first.trailing_zeros() as usize;
        if let Some(presence) = self.presences.get_mut(zeros) {
            *presence = Presence {
                in_old: answers.old.is_some(),
                in_new: answers.new.is_some(),
            };
        }
    }

    // The network of a block of the run.
    fn network_of(&self, block: Block) -> Result<IpNetwork, ProgramError>
        ensures { IfOk result (IsNetworkOf (kind_of_run self.now.run) block) }
    {
        match &self.run {
            Some(run) => network_of(block, run.is_ipv4),
            None => network_of(block, false),
        }
    }

    // Writes the line of a network of the run, as far as there is memory.
    fn try_network<O: Write>(
        &mut self,
        network: IpNetwork,
        layout: &Layout<'_>,
        out: &mut O,
    ) -> Result<(), ProgramError>
        ensures written { OnOk result (WritesOf layout.now network self.old.run
            (O.contents out.old) (O.contents out.new)) }
        ensures failed { IfErr result (WritesNone (O.contents out.old) (O.contents out.new)) }
        ensures run { self.new.run ≡ self.old.run }
        ensures joiner { self.new.joiner ≡ self.old.joiner }
    {
        match &self.run {
            Some(run) => put_difference(
                self.alloc,
                layout,
                network,
                PairOfNetwork {
                    answers: run.answers(),
                    shown: &run.shown,
                },
                &mut self.line,
                out,
            ),
            None => Ok(()),
        }
    }

    // Writes the line of a network of the run. Where there is no memory, all that is kept as text is let go, and it is tried
    // once more: a line that has no memory has written nothing.
    #[inline(always)]
    fn put_network<O: Write>(
        &mut self,
        network: IpNetwork,
        pairs: &mut Pairs<'_, '_>,
        out: &mut O,
    ) -> Result<(), ProgramError>
        ensures written { OnOk result (WritesOf pairs.entry.now.layout.now network self.old.run
            (O.contents out.old) (O.contents out.new)) }
        ensures run { self.new.run ≡ self.old.run }
        ensures joiner { self.new.joiner ≡ self.old.joiner }
        ensures shown { pairs.exit.now.shown ≡ pairs.entry.now.shown }
        ensures layout { pairs.exit.now.layout ≡ pairs.entry.now.layout }
        ensures kept { pairs.exit.now.kept ≡ pairs.entry.now.kept }
    {
        match self.try_network(network, pairs.layout, out) {
            Err(error) if is_memory(&error) => {
                drop(error);
                pairs.let_go();
                self.try_network(network, pairs.layout, out)
            }
            done => done,
        }
    }

    // Writes and counts a block of the run.
    fn put_block<O: Write>(
        &mut self,
        block: Block,
        pairs: &mut Pairs<'_, '_>,
        out: &mut O,
    ) -> Result<(), ProgramError>
        ensures written { OnOk result (WritesBlock pairs.entry.now.layout.now self.old.run block
            (O.contents out.old) (O.contents out.new)) }
        ensures run { self.new.run ≡ self.old.run }
        ensures joiner { self.new.joiner ≡ self.old.joiner }
        ensures shown { pairs.exit.now.shown ≡ pairs.entry.now.shown }
        ensures layout { pairs.exit.now.layout ≡ pairs.entry.now.layout }
        ensures kept { pairs.exit.now.kept ≡ pairs.entry.now.kept }
    {
        let network = self.network_of(block)?;
        let presence = self.presence_at(block.first);
        self.counts.count(network, presence);
        self.put_network(network, pairs, out)
    }

    // Writes the blocks that nothing can join any more.
    fn put_settled<O: Write>(
        &mut self,
        pairs: &mut Pairs<'_, '_>,
        out: &mut O,
    ) -> Result<(), ProgramError>
        ensures written { OnOk result (WritesBlocks pairs.entry.now.layout.now self.old.run
            (settled_of self.old.joiner) (O.contents out.old) (O.contents out.new)) }
        ensures run { self.new.run ≡ self.old.run }
        ensures joiner { self.new.joiner ≡ self.old.joiner }
        ensures shown { pairs.exit.now.shown ≡ pairs.entry.now.shown }
        ensures layout { pairs.exit.now.layout ≡ pairs.entry.now.layout }
        ensures kept { pairs.exit.now.kept ≡ pairs.entry.now.kept }
    {
        for index in 0..self.joiner.settled().len() {
            let block = self.joiner.settled()[index];
            self.put_block(block, pairs, out)?;
        }
        Ok(())
    }

    /// Writes what waits.
    pub(crate) fn finish<O: Write>(
        &mut self,
        pairs: &mut Pairs<'_, '_>,
        out: &mut O,
    ) -> Result<(), ProgramError>
        ensures written { OnOk result (WritesBlocks pairs.entry.now.layout.now self.old.run
            (waiting_of self.old.joiner) (O.contents out.old) (O.contents out.new)) }
        // Whatever both databases have: where what waits says so, what is written says so, of each address that waits.
        ensures told { (both : Both) → AreWaiting pairs.entry.now.shown both self.old → OnOk result
            (Tells pairs.entry.now.layout.now pairs.entry.now.shown both (waiting_in self.old) none
            (O.contents out.old) (O.contents out.new)) }
        ensures waiting { (both : Both) → AreWaiting pairs.entry.now.shown both self.old
            → OnOk result (AreWaiting pairs.entry.now.shown both self.new) }
        ensures run { self.new.run ≡ None }
        ensures shown { pairs.exit.now.shown ≡ pairs.entry.now.shown }
        ensures layout { pairs.exit.now.layout ≡ pairs.entry.now.layout }
        ensures kept { pairs.exit.now.kept ≡ pairs.entry.now.kept }
    {
        if self.run.is_none() {
            return Ok(());
        }
        self.joiner.finish();
        let written = self.put_settled(pairs, out);
        self.run = None;
        written
    }

    // Whether the run goes on with what was found in a stretch at the same places of both files.
    fn has_same_records(&self, stretch: TogetherStretch, answers: FoundInBoth<'_, 'r>) -> bool
        ensures { result ≡ true → IsSomeAnd self.now.run (GoesOnAs stretch.is_ipv4
            (offset_at answers.entry.old) (offset_at answers.entry.new)) }
    {
        match &self.run {
            Some(run) => run.is_before(stretch) && run.answers().are_same_records(answers),
            None => false,
        }
    }

    // Whether the run goes on with values that are shown so.
    fn has_same_values(&self, stretch: TogetherStretch, shown: &ShownPair) -> bool
        ensures { result ≡ true → IsSomeAnd self.now.run (GoesOnWith stretch.is_ipv4 shown.now) }
    {
        match &self.run {
            Some(run) => {
                run.is_before(stretch) && run.shown.old == shown.old && run.shown.new == shown.new
            }
            None => false,
        }
    }

    // Writes what waits, unless it is shown so too.
    fn finish_others<O: Write>(
        &mut self,
        stretch: TogetherStretch,
        shown: &ShownPair,
        pairs: &mut Pairs<'_, '_>,
        out: &mut O,
    ) -> Result<(), ProgramError>
        ensures told { (both : Both) → AreWaiting pairs.entry.now.shown both self.old → OnOk result
            (Tells pairs.entry.now.layout.now pairs.entry.now.shown both
            (waiting_in self.old) (waiting_in self.new)
            (O.contents out.old) (O.contents out.new)) }
        ensures waiting { (both : Both) → AreWaiting pairs.entry.now.shown both self.old
            → OnOk result (AreWaiting pairs.entry.now.shown both self.new) }
        ensures ready { OnOk result
            (IfSome self.new.run (GoesOnWith stretch.is_ipv4 shown.now)) }
        ensures shown { pairs.exit.now.shown ≡ pairs.entry.now.shown }
        ensures layout { pairs.exit.now.layout ≡ pairs.entry.now.layout }
        ensures kept { pairs.exit.now.kept ≡ pairs.entry.now.kept }
    {
        if self.has_same_values(stretch, shown) {
            return Ok(());
        }
        self.finish(pairs, out)
    }

    // Begins a run with what is shown in a stretch, or goes on with one that shows the same.
    fn show(&mut self, stretch: TogetherStretch, answers: FoundInBoth<'_, 'r>, shown: ShownPair)
        requires { IfSome self.old.run (GoesOnWith stretch.is_ipv4 shown) }
        ensures waiting { (showing : Showing) (both : Both) → AreWaiting showing both self.old
            → IsShownPair showing (offset_at answers.entry.old) (offset_at answers.entry.new)
            shown → AreWaiting showing both self.new }
        ensures kept { (showing : Showing) (both : Both) → AreWaiting showing both self.old
            → (is_ipv4 : Bool) (address : ℕ) → waiting_in self.old is_ipv4 address
            → waiting_in self.new is_ipv4 address }
        ensures run { IsSomeAnd self.new.run (GoesOnAs stretch.is_ipv4
            (offset_at answers.entry.old) (offset_at answers.entry.new)) }
    {
        self.run = Some(ShownRun {
            old: answers.old.copied(),
            new: answers.new.copied(),
            shown,
            is_ipv4: stretch.is_ipv4,
            last: stretch.block.first,
        });
    }

    // Goes on with other values: where they are not shown as the run's own, what waits is written, and another run begins.
    fn change_to<O: Write>(
        &mut self,
        stretch: TogetherStretch,
        answers: FoundInBoth<'_, 'r>,
        pairs: &mut Pairs<'_, '_>,
        out: &mut O,
    ) -> Result<(), ProgramError>
        ensures told { (both : Both) → AreWaiting pairs.entry.now.shown both self.old → OnOk result
            (Tells pairs.entry.now.layout.now pairs.entry.now.shown both
            (waiting_in self.old) (waiting_in self.new)
            (O.contents out.old) (O.contents out.new)) }
        ensures waiting { (both : Both) → AreWaiting pairs.entry.now.shown both self.old
            → OnOk result (AreWaiting pairs.entry.now.shown both self.new) }
        ensures run { OnOk result (IsSomeAnd self.new.run (GoesOnAs stretch.is_ipv4
            (offset_at answers.entry.old) (offset_at answers.entry.new))) }
        ensures shown { pairs.exit.now.shown ≡ pairs.entry.now.shown }
        ensures layout { pairs.exit.now.layout ≡ pairs.entry.now.layout }
        ensures kept { pairs.exit.now.kept ≡ pairs.entry.now.kept }
    {
        let shown = pairs.shown_by(self.alloc, answers)?;
        self.finish_others(stretch, &shown, pairs, out)?;
        self.show(stretch, answers, shown);
        Ok(())
    }

    // Goes on with what was found in a stretch.
    fn turn_to<O: Write>(
        &mut self,
        stretch: TogetherStretch,
        answers: FoundInBoth<'_, 'r>,
        pairs: &mut Pairs<'_, '_>,
        out: &mut O,
    ) -> Result<(), ProgramError>
        ensures told { (both : Both) → AreWaiting pairs.entry.now.shown both self.old → OnOk result
            (Tells pairs.entry.now.layout.now pairs.entry.now.shown both
            (waiting_in self.old) (waiting_in self.new)
            (O.contents out.old) (O.contents out.new)) }
        ensures waiting { (both : Both) → AreWaiting pairs.entry.now.shown both self.old
            → OnOk result (AreWaiting pairs.entry.now.shown both self.new) }
        ensures run { OnOk result (IsSomeAnd self.new.run (GoesOnAs stretch.is_ipv4
            (offset_at answers.entry.old) (offset_at answers.entry.new))) }
        ensures shown { pairs.exit.now.shown ≡ pairs.entry.now.shown }
        ensures layout { pairs.exit.now.layout ≡ pairs.entry.now.layout }
        ensures kept { pairs.exit.now.kept ≡ pairs.entry.now.kept }
    {
        if self.has_same_records(stretch, answers) {
            return Ok(());
        }
        self.change_to(stretch, answers, pairs, out)
    }

    // Joins a block with what waits.
    fn join(&mut self, block: Block) -> Result<(), ProgramError>
        ensures joined { OnOk result (Joins self.old.joiner block self.new.joiner) }
        ensures run { self.new.run ≡ self.old.run }
    {
        match self.joiner.push(block) {
            Ok(()) => Ok(()),
            Err(_) => Err(ProgramError::OutOfOrder),
        }
    }

    // Notes the last address of the run.
    fn note_last(&mut self, last: u128)
        ensures waiting { (showing : Showing) (both : Both) → AreWaiting showing both self.old
            → AreWaiting showing both self.new }
        ensures kept { (is_ipv4 : Bool) (address : ℕ) → waiting_in self.old is_ipv4 address
            → waiting_in self.new is_ipv4 address }
    {
        if let Some(run) = &mut self.run {
            run.last = last;
        }
    }

    // Adds the block of a stretch to the run.
    fn add<O: Write>(
        &mut self,
        stretch: TogetherStretch,
        answers: FoundInBoth<'_, '_>,
        pairs: &mut Pairs<'_, '_>,
        out: &mut O,
    ) -> Result<(), ProgramError>
        requires { IsSomeAnd self.old.run (GoesOnAs stretch.is_ipv4
            (offset_at answers.old) (offset_at answers.new)) }
        ensures told { (both : Both) → AreWaiting pairs.entry.now.shown both self.old
            → HasThere both stretch (offset_at answers.entry.old) (offset_at answers.entry.new)
            → OnOk result (Tells pairs.entry.now.layout.now pairs.entry.now.shown both
            (with_stretch stretch (waiting_in self.old)) (waiting_in self.new)
            (O.contents out.old) (O.contents out.new)) }
        ensures waiting { (both : Both) → AreWaiting pairs.entry.now.shown both self.old
            → HasThere both stretch (offset_at answers.entry.old) (offset_at answers.entry.new)
            → OnOk result (AreWaiting pairs.entry.now.shown both self.new) }
        ensures shown { pairs.exit.now.shown ≡ pairs.entry.now.shown }
        ensures layout { pairs.exit.now.layout ≡ pairs.entry.now.layout }
        ensures kept { pairs.exit.now.kept ≡ pairs.entry.now.kept }
    {
        let block = stretch.block;
        if !block.is_block() {
            return Err(ProgramError::OutOfOrder);
        }
        self.join(block)?;
        self.put_settled(pairs, out)?;
        self.keep_presence(stretch, answers);
        self.note_last(block.last());
        Ok(())
    }

    /// Takes a stretch whose values differ, after those that were taken.
    #[inline(never)]
    pub(crate) fn push<O: Write>(
        &mut self,
        stretch: TogetherStretch,
        answers: FoundInBoth<'_, 'r>,
        pairs: &mut Pairs<'_, '_>,
        out: &mut O,
    ) -> Result<(), ProgramError>
        // Whatever both databases have: where what waits says so, and they have the answers' records in the stretch. Each
        // address that waited and each of the stretch is in a line, or waits.
        ensures told { (both : Both) → AreWaiting pairs.entry.now.shown both self.old
            → HasThere both stretch (offset_at answers.entry.old) (offset_at answers.entry.new)
            → OnOk result (Tells pairs.entry.now.layout.now pairs.entry.now.shown both
            (with_stretch stretch (waiting_in self.old)) (waiting_in self.new)
            (O.contents out.old) (O.contents out.new)) }
        ensures waiting { (both : Both) → AreWaiting pairs.entry.now.shown both self.old
            → HasThere both stretch (offset_at answers.entry.old) (offset_at answers.entry.new)
            → OnOk result (AreWaiting pairs.entry.now.shown both self.new) }
        ensures shown { pairs.exit.now.shown ≡ pairs.entry.now.shown }
        ensures layout { pairs.exit.now.layout ≡ pairs.entry.now.layout }
        ensures kept { pairs.exit.now.kept ≡ pairs.entry.now.kept }
    {
        self.turn_to(stretch, answers, pairs, out)?;
        self.add(stretch, answers, pairs, out)
    }
}
