//! Lists of the fewest networks that have the addresses of those that are pushed.
ghost use Rattle.std.specs.Prelude.{◌≡◌, ◌+◌, ◌<◌, ◌≤◌, [], ◌∷◌, ◌++◌, None, Some, not, nat_eq, IsOk, IfOk, IfErr, OnOk};
ghost use Rattle.std.specs.List.{AllByRecursion};
ghost use Rattle.std.specs.Io.KnownBytes.{Appends};
ghost use Rattle.mmdb_net.specs.Network.{short_text_of};
ghost use Rattle.mmdb_blocks.specs.Blocks.{IsBlock};
ghost use Rattle.mmdb_blocks.specs.Joining.{waiting_of, settled_of};
ghost use Rattle.mmdb_blocks.specs.Kinds.{prefix_in};
ghost use Rattle.mmdb_blocks.specs.Lists.{lower_half, upper_half, written_for, page_of, listing_of, begun, beginning_left, headed, heading_of, noted, with_network, printed_one, printed_lines, with_lines, printed, with_blocks, printed_rest, with_rest, closing_left, changed_text, changed_page, changed_waiting, IsTaken, IsPushed, finished_text, finished_page, rest_waiting, settled_text, with_settled, no_networks, Prints, IsOfOutput, WritesNone, BreaksOff, PushFails, IsEndOf};
ghost use Rattle.mmdb_blocks.specs.Texts.{network_text, breaking_of};

use crate::block::Block;
use crate::joiner::Joiner;
use crate::kind::{BlockKind, Kinds};
use crate::ranges::RangesError;
use crate::syntax::{Action, Filled, Syntax};
use mmdb_net::{IpNetwork, IpNetworkError};
use std::alloc::{AllocError, Global};
use std::io::{self, Write};

/// Why a list is not written.
#[derive(Debug, Drop)]
pub enum BlocksError {
    /// The output failed.
    Write(io::Error),
    /// The networks do not ascend.
    OutOfOrder,
    /// Out of memory.
    Memory,
}

impl From<AllocError> for BlocksError {
    ghost use Rattle.mmdb_blocks.specs.declared.list.BlocksError.TheVariants.{Memory};

    ghost from_gives = { λ _ e. e ≡ Memory };

    fn from(_error: AllocError) -> BlocksError {
        BlocksError::Memory
    }
}

impl From<RangesError> for BlocksError {
    fn from(error: RangesError) -> BlocksError {
        match error {
            RangesError::OutOfOrder => BlocksError::OutOfOrder,
            RangesError::Memory => BlocksError::Memory,
        }
    }
}

impl From<IpNetworkError> for BlocksError {
    ghost use Rattle.mmdb_blocks.specs.declared.list.BlocksError.TheVariants.{OutOfOrder};

    ghost from_gives = { λ _ e. e ≡ OutOfOrder };

    fn from(_error: IpNetworkError) -> BlocksError {
        BlocksError::OutOfOrder
    }
}

/// What became of a network that a list was given.
#[derive(Clone, Copy)]
pub enum Taken {
    /// It is of the list, and nothing is to be written.
    Whole,
    /// It is of the list, and blocks are to be written that nothing can join any more.
    Settled,
    /// It is not taken: `push` takes it, or says why not.
    Not,
}

/// Of how many kinds networks are written at most: each is taken out, and put in.
const MOST_FILLED: usize = 4;

/// A list of networks, of which IPv4 and IPv6 networks are joined apart. Their blocks are pushed in ascending order, those of
/// a kind together.
#[derive(Drop)]
pub struct List<'a> {
    alloc: Global,
    syntax: Syntax<'a>,
    action: Action,
    kinds: Kinds,
    joiner: Joiner,
    /// The kind of the last network.
    kind: Option<BlockKind>,
    /// Whether a network of that kind was written.
    has_written: bool,
    /// Whether what comes before all networks was written.
    has_begun: bool,
    /// Of which kinds networks were written, and what is done with them.
    filled: Vec<Filled>,
    /// What a network's line is put together in. Its room is enough, so that no network takes memory.
    line: Vec<u8>,
}

// Writes a text.
fn put<O: Write>(text: &[u8], out: &mut O) -> Result<(), BlocksError>
    ensures written { OnOk result (Appends (O.contents out.old) (O.contents out.new) text.now) }
    ensures failed { IfErr result IsOfOutput }
{
    match out.write_all(text) {
        Ok(()) => Ok(()),
        Err(error) => Err(BlocksError::Write(error)),
    }
}

// Whether a block has all addresses of a kind.
fn has_all(kind: BlockKind, block: Block) -> bool
    ensures { result ≡ nat_eq (prefix_in kind block.prefix) 0 }
{
    match kind {
        BlockKind::Ipv4 => block.prefix <= 96,
        BlockKind::Ipv6 => block.prefix == 0,
    }
}

// The lower and the upper half of a block.
fn halves_of(block: Block) -> (Block, Block)
    requires block { IsBlock block }
    requires prefix { block.prefix < 128 }
    ensures lower { result.0 ≡ lower_half block }
    ensures upper { result.1 ≡ upper_half block }
{
    let prefix = block.prefix + 1;
    let lower = Block {
        first: block.first,
        prefix,
    };
    let upper = Block {
        first: block.first + (1 << (128 - prefix)),
        prefix,
    };
    (lower, upper)
}

impl<'a> List<'a> {
    /// A list without networks. All memory but that of what comes before networks is taken here.
    pub fn new(alloc: Global, syntax: Syntax<'a>, kinds: Kinds) -> Result<List<'a>, AllocError>
        ensures { IfOk result
            (λ list. listing_of list ≡ no_networks syntax.entry kinds Action.Fill) }
    {
        List::of_action(alloc, syntax, Action::Fill, kinds)
    }

    /// A list of changes without networks, which are to be taken out of sets. Nothing comes before them.
    pub fn of_changes(
        alloc: Global,
        syntax: Syntax<'a>,
        kinds: Kinds,
    ) -> Result<List<'a>, AllocError>
        ensures { IfOk result
            (λ list. listing_of list ≡ no_networks syntax.entry kinds Action.Remove) }
    {
        List::of_action(alloc, syntax, Action::Remove, kinds)
    }

    // A list without networks, which says what is done with those that come.
    fn of_action(
        alloc: Global,
        syntax: Syntax<'a>,
        action: Action,
        kinds: Kinds,
    ) -> Result<List<'a>, AllocError>
        ensures { IfOk result (λ list. listing_of list ≡ no_networks syntax.entry kinds action) }
    {
        Ok(List {
            alloc,
            syntax,
            action,
            kinds,
            joiner: Joiner::new(alloc)?,
            kind: None,
            has_written: false,
            has_begun: action != Action::Fill,
            filled: Vec::with_capacity(alloc, MOST_FILLED)?,
            line: Vec::with_capacity(alloc, syntax.most_bytes())?,
        })
    }

    /// Whether nothing was written yet. After `finish` the list has no networks then.
    pub fn is_empty(&self) -> bool
        ensures { result ≡ not self.now.has_begun }
    {
        !self.has_begun
    }

    /// Writes what comes before all networks, once. The first network does that too, so that a list without networks writes
    /// nothing.
    pub fn begin<O: Write>(&mut self, out: &mut O) -> Result<(), BlocksError>
        ensures written { OnOk result (Appends (O.contents out.old) (O.contents out.new)
            (beginning_left (page_of self.old))) }
        ensures page { OnOk result (page_of self.new ≡ begun (page_of self.old)) }
        ensures kind { self.new.kind ≡ self.old.kind }
        ensures joiner { self.new.joiner ≡ self.old.joiner }
        ensures failed { IfErr result (WritesNone (O.contents out.old) (O.contents out.new)) }
    {
        if self.has_begun {
            return Ok(());
        }
        let text = self.syntax.beginning(self.alloc, self.kinds)?;
        self.has_begun = true;
        put(text.as_bytes(), out)
    }

    // Writes what comes before the first network of a kind.
    fn open<O: Write>(&mut self, kind: BlockKind, out: &mut O) -> Result<(), BlocksError>
        ensures written { OnOk result (Appends (O.contents out.old) (O.contents out.new)
            (heading_of (page_of self.old) kind)) }
        ensures page { OnOk result (page_of self.new ≡ headed (page_of self.old)) }
        ensures kind { self.new.kind ≡ self.old.kind }
        ensures joiner { self.new.joiner ≡ self.old.joiner }
        ensures failed { IfErr result (BreaksOff (heading_of (page_of self.old) kind)
            (O.contents out.old) (O.contents out.new)) }
    {
        if self.has_written {
            return Ok(());
        }
        self.begin(out)?;
        let text = self.syntax.opening(self.alloc, kind, self.action)?;
        put(text.as_bytes(), out)
    }

    // Notes that a network of a kind is written.
    fn note_filled(&mut self, kind: BlockKind) -> Result<(), AllocError>
        ensures page { OnOk result (page_of self.new ≡ noted (page_of self.old) kind) }
        ensures kind { self.new.kind ≡ self.old.kind }
        ensures joiner { self.new.joiner ≡ self.old.joiner }
        ensures line { self.new.line ≡ self.old.line }
    {
        if !self.has_written {
            let action = self.action;
            self.filled.push(Filled { action, kind })?;
        }
        self.has_written = true;
        Ok(())
    }

    // Writes a network.
    fn put_network<O: Write>(
        &mut self,
        kind: BlockKind,
        network: IpNetwork,
        out: &mut O,
    ) -> Result<(), BlocksError>
        ensures written { OnOk result (Appends (O.contents out.old) (O.contents out.new)
            (printed_one (page_of self.old) kind (short_text_of network))) }
        ensures page { OnOk result (page_of self.new ≡ with_network (page_of self.old) kind) }
        ensures kind { self.new.kind ≡ self.old.kind }
        ensures joiner { self.new.joiner ≡ self.old.joiner }
        ensures failed { IfErr result (BreaksOff
            (printed_one (page_of self.old) kind (short_text_of network))
            (O.contents out.old) (O.contents out.new)) }
    {
        self.open(kind, out)?;
        self.line.clear();
        self.syntax.push_network(
            kind,
            self.action,
            !self.has_written,
            network,
            &mut self.line,
        )?;
        self.note_filled(kind)?;
        put(self.line.as_slice(), out)
    }

    // Writes the network of a block.
    fn put_whole<O: Write>(
        &mut self,
        kind: BlockKind,
        block: Block,
        out: &mut O,
    ) -> Result<(), BlocksError>
        requires { block.prefix ≤ 128 }
        ensures written { OnOk result (Appends (O.contents out.old) (O.contents out.new)
            (printed_one (page_of self.old) kind (network_text kind block))) }
        ensures page { OnOk result (page_of self.new ≡ with_network (page_of self.old) kind) }
        ensures kind { self.new.kind ≡ self.old.kind }
        ensures joiner { self.new.joiner ≡ self.old.joiner }
        ensures failed { IfErr result (BreaksOff
            (printed_one (page_of self.old) kind (network_text kind block))
            (O.contents out.old) (O.contents out.new)) }
    {
        let network = kind.network_of(block)?;
        self.put_network(kind, network, out)
    }

    // Writes the halves of a block.
    fn put_halves<O: Write>(
        &mut self,
        kind: BlockKind,
        block: Block,
        out: &mut O,
    ) -> Result<(), BlocksError>
        requires block { IsBlock block }
        requires prefix { block.prefix < 128 }
        ensures written { OnOk result (Appends (O.contents out.old) (O.contents out.new)
            (printed_lines (page_of self.old) kind (lower_half block ∷ upper_half block ∷ []))) }
        ensures page { OnOk result (page_of self.new
            ≡ with_lines (page_of self.old) kind (lower_half block ∷ upper_half block ∷ [])) }
        ensures kind { self.new.kind ≡ self.old.kind }
        ensures joiner { self.new.joiner ≡ self.old.joiner }
        ensures failed { IfErr result (BreaksOff
            (printed_lines (page_of self.old) kind (lower_half block ∷ upper_half block ∷ []))
            (O.contents out.old) (O.contents out.new)) }
    {
        let (lower, upper) = halves_of(block);
        self.put_whole(kind, lower, out)?;
        self.put_whole(kind, upper, out)
    }

    // Writes a block, or its halves where it has all addresses and those may not be written as one.
    fn put_block<O: Write>(
        &mut self,
        kind: BlockKind,
        block: Block,
        out: &mut O,
    ) -> Result<(), BlocksError>
        requires { IsBlock block }
        ensures written { OnOk result (Appends (O.contents out.old) (O.contents out.new)
            (printed_lines (page_of self.old) kind (written_for self.old.syntax kind block))) }
        ensures page { OnOk result (page_of self.new
            ≡ with_lines (page_of self.old) kind (written_for self.old.syntax kind block)) }
        ensures kind { self.new.kind ≡ self.old.kind }
        ensures joiner { self.new.joiner ≡ self.old.joiner }
        ensures failed { IfErr result (BreaksOff
            (printed_lines (page_of self.old) kind (written_for self.old.syntax kind block))
            (O.contents out.old) (O.contents out.new)) }
    {
        if self.syntax.halves_all() && has_all(kind, block) {
            self.put_halves(kind, block, out)
        } else {
            self.put_whole(kind, block, out)
        }
    }

    // Writes the blocks of a kind that nothing can join any more.
    fn put_settled<O: Write>(&mut self, kind: BlockKind, out: &mut O) -> Result<(), BlocksError>
        ensures written { OnOk result (Appends (O.contents out.old) (O.contents out.new)
            (printed (page_of self.old) kind (settled_of self.old.joiner))) }
        ensures page { OnOk result (page_of self.new
            ≡ with_blocks (page_of self.old) kind (settled_of self.old.joiner)) }
        ensures kind { self.new.kind ≡ self.old.kind }
        ensures joiner { self.new.joiner ≡ self.old.joiner }
        ensures failed { IfErr result (BreaksOff
            (printed (page_of self.old) kind (settled_of self.old.joiner))
            (O.contents out.old) (O.contents out.new)) }
    {
        for index in 0..self.joiner.settled().len() {
            let block = self.joiner.settled()[index];
            self.put_block(kind, block, out)?;
        }
        Ok(())
    }

    // Writes what is left of a kind.
    fn end_kind<O: Write>(&mut self, kind: BlockKind, out: &mut O) -> Result<(), BlocksError>
        ensures written { OnOk result (Appends (O.contents out.old) (O.contents out.new)
            (printed_rest (page_of self.old) kind (waiting_of self.old.joiner))) }
        ensures page { OnOk result (page_of self.new
            ≡ with_rest (page_of self.old) kind (waiting_of self.old.joiner)) }
        ensures kind { self.new.kind ≡ self.old.kind }
        ensures waiting { waiting_of self.new.joiner ≡ [] }
        ensures failed { IfErr result (BreaksOff
            (printed_rest (page_of self.old) kind (waiting_of self.old.joiner))
            (O.contents out.old) (O.contents out.new)) }
    {
        self.joiner.finish();
        self.put_settled(kind, out)?;
        if self.has_written {
            put(self.syntax.closing().as_bytes(), out)?;
        }
        self.has_written = false;
        Ok(())
    }

    // Writes what is left of the kind before, where there was one.
    fn change_to<O: Write>(&mut self, kind: BlockKind, out: &mut O) -> Result<(), BlocksError>
        ensures written { OnOk result (Appends (O.contents out.old) (O.contents out.new)
            (changed_text (page_of self.old) self.old.kind kind (waiting_of self.old.joiner))) }
        ensures page { OnOk result (page_of self.new
            ≡ changed_page (page_of self.old) self.old.kind kind (waiting_of self.old.joiner)) }
        ensures waiting { OnOk result (waiting_of self.new.joiner
            ≡ changed_waiting self.old.kind kind (waiting_of self.old.joiner)) }
        ensures kind { OnOk result (self.new.kind ≡ Some kind) }
        ensures failed { IfErr result (BreaksOff
            (changed_text (page_of self.old) self.old.kind kind (waiting_of self.old.joiner))
            (O.contents out.old) (O.contents out.new)) }
    {
        if let Some(before) = self.kind {
            if before != kind {
                self.end_kind(before, out)?;
            }
        }
        self.kind = Some(kind);
        Ok(())
    }

    /// Takes the next network, if it is of the kind of the last one, and writes nothing.
    #[inline(always)]
    pub fn take(&mut self, kind: BlockKind, block: Block) -> Taken
        ensures { IsTaken result kind block (listing_of self.old) (listing_of self.new) }
    {
        if self.kind != Some(kind) {
            return Taken::Not;
        }
        match self.joiner.push(block) {
            Ok(()) if self.joiner.settled().is_empty() => Taken::Whole,
            Ok(()) => Taken::Settled,
            Err(_) => Taken::Not,
        }
    }

    /// Writes the blocks that nothing can join any more.
    #[inline(never)]
    pub fn write_settled<O: Write>(&mut self, out: &mut O) -> Result<(), BlocksError>
        ensures written { OnOk result (Appends (O.contents out.old) (O.contents out.new)
            (settled_text (listing_of self.old))) }
        ensures list { OnOk result
            (listing_of self.new ≡ with_settled (listing_of self.old)) }
        ensures failed { IfErr result (BreaksOff (settled_text (listing_of self.old))
            (O.contents out.old) (O.contents out.new)) }
    {
        match self.kind {
            Some(kind) => self.put_settled(kind, out),
            None => Ok(()),
        }
    }

    /// Takes the next network, if its kind is wanted, and writes those that nothing can join any more.
    pub fn push<O: Write>(
        &mut self,
        kind: BlockKind,
        block: Block,
        out: &mut O,
    ) -> Result<(), BlocksError>
        ensures pushed { OnOk result (Prints
            (λ text. IsPushed kind block (listing_of self.old) text (listing_of self.new))
            (O.contents out.old) (O.contents out.new)) }
        ensures failed { IfErr result (PushFails kind block (listing_of self.old)
            (O.contents out.old) (O.contents out.new)) }
    {
        if !self.kinds.has(kind) {
            return Ok(());
        }
        self.change_to(kind, out)?;
        match self.take(kind, block) {
            Taken::Whole => Ok(()),
            Taken::Settled => self.put_settled(kind, out),
            Taken::Not => Err(BlocksError::OutOfOrder),
        }
    }

    /// Writes what is left of the networks.
    pub fn finish<O: Write>(&mut self, out: &mut O) -> Result<(), BlocksError>
        ensures written { OnOk result (Appends (O.contents out.old) (O.contents out.new)
            (finished_text (listing_of self.old))) }
        ensures page { OnOk result (page_of self.new ≡ finished_page (listing_of self.old)) }
        ensures kind { OnOk result (self.new.kind ≡ None) }
        ensures waiting { OnOk result (waiting_of self.new.joiner
            ≡ rest_waiting self.old.kind (waiting_of self.old.joiner)) }
        ensures failed { IfErr result (BreaksOff (finished_text (listing_of self.old))
            (O.contents out.old) (O.contents out.new)) }
    {
        match self.kind.take() {
            Some(kind) => self.end_kind(kind, out),
            None => Ok(()),
        }
    }

    /// Writes what is left of the networks that are taken out of sets: those that come next are put in.
    pub fn go_on_to_add<O: Write>(&mut self, out: &mut O) -> Result<(), BlocksError>
        ensures written { OnOk result (Appends (O.contents out.old) (O.contents out.new)
            (finished_text (listing_of self.old))) }
        ensures page { OnOk result (page_of self.new
            ≡ record (finished_page (listing_of self.old)) { action = Action.Add }) }
        ensures kind { OnOk result (self.new.kind ≡ None) }
        ensures waiting { OnOk result (waiting_of self.new.joiner
            ≡ rest_waiting self.old.kind (waiting_of self.old.joiner)) }
        ensures failed { IfErr result (BreaksOff (finished_text (listing_of self.old))
            (O.contents out.old) (O.contents out.new)) }
    {
        self.finish(out)?;
        self.action = Action::Add;
        Ok(())
    }

    /// Writes what comes after all networks of a list that is whole: without it no program loads it, but for one network a
    /// line. Of changes without networks that is nothing.
    pub fn end<O: Write>(&mut self, out: &mut O) -> Result<(), BlocksError>
        ensures written { OnOk result (Prints (IsEndOf (page_of self.old))
            (O.contents out.old) (O.contents out.new)) }
        ensures failed { IfErr result (WritesNone (O.contents out.old) (O.contents out.new)) }
        ensures list { listing_of self.new ≡ listing_of self.old }
    {
        if self.action != Action::Fill && self.filled.is_empty() {
            return Ok(());
        }
        let text = self.syntax.ending(self.alloc, self.kinds, self.action, self.filled.as_slice())?;
        put(text.as_bytes(), out)
    }

    /// Writes what comes after the networks of a list that is not whole, in place of `end`: no program loads it, but for one
    /// network a line.
    pub fn break_off<O: Write>(&mut self, out: &mut O) -> Result<(), BlocksError>
        ensures written { OnOk result (Appends (O.contents out.old) (O.contents out.new)
            (breaking_of self.old.syntax)) }
        ensures failed { IfErr result IsOfOutput }
        ensures list { listing_of self.new ≡ listing_of self.old }
    {
        put(self.syntax.breaking().as_bytes(), out)
    }
}
