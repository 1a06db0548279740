//! Lists of the addresses of chosen networks, written while those come.
ghost use Rattle.std.specs.Prelude.{◌≡◌, ◌∷◌, [], true, IfOk, IfErr, OnOk};
ghost use Rattle.std.specs.Io.KnownBytes.{Appends};
ghost use Rattle.mmdb_blocks.specs.Lists.{listing_of, no_networks, settled_text, with_settled, Prints};
ghost use Rattle.mmdb_blocks.specs.declared.syntax.Action.TheVariants.{Fill};
ghost use Rattle.mmdb_query.specs.Ends.{Leaves, StopsBy};
ghost use Rattle.mmdb_query.specs.Listings.{ipv4_part as spec_ipv4_part, kind_as as spec_kind_as, has_ipv4_part as spec_has_ipv4_part, HasBits, blocks_of, of_list as spec_of_list, Puts, PutsAll, PutsBits, Begins, LeavesOne, LeavesAll, LeavesBits, puts_listed, leaves_listed};
ghost use Rattle.mmdb_query.specs.Parts.{ComesInPart};
ghost use Rattle.mmdb_query.specs.Rows.{nothing};
ghost use Rattle.mmdb_query.specs.Sets.{needs_nothing};
ghost use Rattle.mmdb_query.specs.Taking.{asks, Takes, IsDoneOrNot};
ghost use Rattle.mmdb_query.specs.declared.error.QueryError.TheVariants.{Memory};

use crate::answer::{Answer, NetworkBlock};
use crate::choice::Conditions;
use crate::each::put_each;
use crate::error::{Faults, QueryError, WriteError};
use crate::part::Part;
use crate::sink::Sink;
use crate::walk::Walk;
use mmdb_blocks::laws::taken_is_pushed;
use mmdb_blocks::{Block, BlockKind, BlocksError, Kinds, List, Syntax, Taken};
use mmdb_reader::MaxMindDbError;
use std::alloc::{AllocError, Global};
use std::io::Write;

/// A list of the addresses of networks.
#[derive(Drop)]
pub struct Listing<'a> {
    pub list: List<'a>,
}

// What a list answered, as a query does.
#[cold]
#[inline(never)]
fn of_list(error: BlocksError) -> QueryError
    ensures { result ≡ spec_of_list error }
{
    match error {
        BlocksError::Write(error) => QueryError::Write(WriteError::of(error)),
        BlocksError::OutOfOrder => QueryError::OutOfOrder,
        BlocksError::Memory => QueryError::Memory,
    }
}

// Writes the next block, if its kind is wanted.
fn push<O: Write>(
    kind: BlockKind,
    block: Block,
    list: &mut List<'_>,
    out: &mut O,
) -> Result<(), QueryError>
    ensures pushed { OnOk result (Prints
        (λ text. Puts (kind, block) (listing_of list.old) text (listing_of list.new))
        (O.contents out.old) (O.contents out.new)) }
    ensures failed { IfErr result (Leaves (LeavesOne (kind, block) (listing_of list.old))
        (O.contents out.old) (O.contents out.new)) }
{
    match list.push(kind, block, out) {
        Ok(()) => Ok(()),
        Err(error) => Err(of_list(error)),
    }
}

// The kind of networks of IPv4, or of IPv6.
#[inline(always)]
fn kind_as(is_ipv4: bool) -> BlockKind
    ensures { result ≡ spec_kind_as is_ipv4 }
{
    if is_ipv4 {
        BlockKind::Ipv4
    } else {
        BlockKind::Ipv6
    }
}

// Whether a block of IPv6 has addresses of IPv4.
#[inline(always)]
fn has_ipv4_part(is_ipv4: bool, block: Block) -> bool
    ensures { result ≡ spec_has_ipv4_part is_ipv4 block }
{
    !is_ipv4 && block.first < 1 << 32
}

// What a block has of the addresses of IPv4.
fn ipv4_part(block: Block) -> Block
    ensures { result ≡ spec_ipv4_part block }
{
    Block {
        first: block.first,
        prefix: block.prefix.max(96),
    }
}

// Writes the next block of IPv6, and before that what it has of the addresses of IPv4.
fn push_both<O: Write>(block: Block, list: &mut List<'_>, out: &mut O) -> Result<(), QueryError>
    ensures pushed { OnOk result (Prints
        (λ text. PutsAll ((BlockKind.Ipv4, spec_ipv4_part block) ∷ (BlockKind.Ipv6, block) ∷ [])
        (listing_of list.old) text (listing_of list.new))
        (O.contents out.old) (O.contents out.new)) }
    ensures failed { IfErr result (Leaves
        (LeavesAll ((BlockKind.Ipv4, spec_ipv4_part block) ∷ (BlockKind.Ipv6, block) ∷ [])
        (listing_of list.old)) (O.contents out.old) (O.contents out.new)) }
{
    match push(BlockKind::Ipv4, ipv4_part(block), list, out) {
        Ok(()) => push(BlockKind::Ipv6, block, list, out),
        Err(error) => Err(error),
    }
}

// Writes the next blocks, which are those of a network.
#[inline(never)]
fn push_all<O: Write>(
    is_ipv4: bool,
    block: Block,
    list: &mut List<'_>,
    out: &mut O,
) -> Result<(), QueryError>
    ensures pushed { OnOk result (Prints
        (λ text. PutsAll (blocks_of is_ipv4 block) (listing_of list.old) text
        (listing_of list.new)) (O.contents out.old) (O.contents out.new)) }
    ensures failed { IfErr result (Leaves (LeavesAll (blocks_of is_ipv4 block)
        (listing_of list.old)) (O.contents out.old) (O.contents out.new)) }
{
    if has_ipv4_part(is_ipv4, block) {
        push_both(block, list, out)
    } else {
        push(kind_as(is_ipv4), block, list, out)
    }
}

// Writes the blocks that nothing can join any more, after a block was taken.
#[inline(never)]
fn write_settled<O: Write>(list: &mut List<'_>, out: &mut O) -> Result<bool, QueryError>
    ensures written { IfOk result (λ is_done. (is_done ≡ true)
        × Appends (O.contents out.old) (O.contents out.new) (settled_text (listing_of list.old))
        × (listing_of list.new ≡ with_settled (listing_of list.old))) }
    ensures failed { IfErr result (Leaves (λ part e.
        (e ≡ Memory) × Begins part (settled_text (listing_of list.old)))
        (O.contents out.old) (O.contents out.new)) }
{
    match list.write_settled(out) {
        Ok(()) => Ok(true),
        Err(error) => Err(of_list(error)),
    }
}

// Takes the next block, if it is of the kind of the last one. Else nothing is done.
#[inline(always)]
fn take<O: Write>(
    kind: BlockKind,
    block: Block,
    list: &mut List<'_>,
    out: &mut O,
) -> Result<bool, QueryError>
    ensures taken { IfOk result (λ is_done. IsDoneOrNot (Puts (kind, block)) is_done
        (listing_of list.old) (listing_of list.new) (O.contents out.old) (O.contents out.new)) }
    ensures failed { IfErr result (Leaves (LeavesOne (kind, block) (listing_of list.old))
        (O.contents out.old) (O.contents out.new)) }
{
    taken_is_pushed();
    match list.take(kind, block) {
        Taken::Whole => Ok(true),
        Taken::Settled => write_settled(list, out),
        Taken::Not => Ok(false),
    }
}

impl<'a> Listing<'a> {
    /// A list without networks.
    pub fn new(alloc: Global, syntax: Syntax<'a>, kinds: Kinds) -> Result<Listing<'a>, AllocError>
        ensures { IfOk result
            (λ listing. listing_of listing.list ≡ no_networks syntax.entry kinds Fill) }
    {
        Ok(Listing {
            list: List::new(alloc, syntax, kinds)?,
        })
    }

    // Takes the addresses of a network at once, where all that this needs is at hand, as for most.
    #[inline(always)]
    fn take_network<O: Write>(&mut self, at: NetworkBlock, out: &mut O) -> Result<bool, QueryError>
        ensures taken { IfOk result (λ is_done. (bits : _) → HasBits at.block bits
            → IsDoneOrNot (PutsBits at.is_ipv4 bits) is_done
            (listing_of self.old.list) (listing_of self.new.list)
            (O.contents out.old) (O.contents out.new)) }
        ensures failed { IfErr result (λ e. (bits : _) → HasBits at.block bits
            → Leaves (LeavesBits at.is_ipv4 bits (listing_of self.old.list))
            (O.contents out.old) (O.contents out.new) e) }
    {
        if has_ipv4_part(at.is_ipv4, at.block) {
            return Ok(false);
        }
        take(kind_as(at.is_ipv4), at.block, &mut self.list, out)
    }

    // Takes the addresses of a network.
    fn push_network<O: Write>(&mut self, at: NetworkBlock, out: &mut O) -> Result<(), QueryError>
        ensures pushed { OnOk result ((bits : _) → HasBits at.block bits
            → Prints (λ text. PutsBits at.is_ipv4 bits (listing_of self.old.list) text
            (listing_of self.new.list)) (O.contents out.old) (O.contents out.new)) }
        ensures failed { IfErr result (λ e. (bits : _) → HasBits at.block bits
            → Leaves (LeavesBits at.is_ipv4 bits (listing_of self.old.list))
            (O.contents out.old) (O.contents out.new) e) }
    {
        push_all(at.is_ipv4, at.block, &mut self.list, out)
    }
}

impl<'a> Sink for Listing<'a> {
    ghost use Rattle.mmdb_blocks.specs.Lists.{Listing as SpecListing};

    ghost Form = { Unit {0} };

    ghost form = { λ _. nothing };

    ghost Took = { SpecListing };

    ghost took = { λ listing. listing_of listing.list };

    ghost puts = { puts_listed };

    ghost is_unread = { needs_nothing };

    ghost leaves = { leaves_listed };

    ghost fits = { λ _ _. Unit {0} };

    #[inline(always)]
    fn put_kept<A: Answer, O: Write>(
        &mut self,
        answer: &A,
        out: &mut O,
    ) -> Result<bool, QueryError> {
        self.take_network(answer.block(), out)
    }

    #[inline(never)]
    fn put<A: Answer, O: Write>(
        &mut self,
        answer: &A,
        out: &mut O,
    ) -> Result<Option<MaxMindDbError>, QueryError> {
        match self.push_network(answer.block(), out) {
            Ok(()) => Ok(None),
            Err(error) => Err(error),
        }
    }

    fn drop_caches(&mut self) -> bool {
        false
    }
}

/// Adds the networks of a part of a walk that meet all conditions to a list, reports each that can't be read, and says how many
/// can't. They come ascending. An `Err` is as that of `put_each`.
pub fn list_part<W: Walk + Drop, C: Conditions, O: Write, F: Faults>(
    alloc: Global,
    part: &mut Part<W>,
    conditions: &C,
    listing: &mut Listing<'_>,
    out: &mut O,
    faults: &mut F,
) -> Result<u64, QueryError>
    ensures listed { IfOk result (λ unread. Takes
        (ComesInPart part.old.kinds part.old.range (W.comes part.old.walk))
        (asks C.says C.is_unread puts_listed needs_nothing leaves_listed conditions.now nothing
        (W.sections part.old.walk)) (listing_of listing.old.list) (listing_of listing.new.list)
        (O.contents out.old) (O.contents out.new) unread) }
    ensures failed { IfErr result (StopsBy ⟦<Part<W> as Walk>⟧.comes
        (asks C.says C.is_unread puts_listed needs_nothing leaves_listed conditions.now nothing
        (W.sections part.old.walk)) part.old (listing_of listing.old.list)
        (O.contents out.old) (O.contents out.new)) }
{
    if let (Kinds::Both, None) = (part.kinds, part.range) {
        return put_each(alloc, &mut part.walk, conditions, listing, out, faults);
    }
    put_each(alloc, part, conditions, listing, out, faults)
}
