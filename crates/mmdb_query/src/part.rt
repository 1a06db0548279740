//! A walk of which only a part is wanted.
ghost use Rattle.std.specs.Prelude.{◌≡◌, ◌≤◌, ◌||◌, length, take, true, false, Some, IfSome, IfNone};
ghost use Rattle.std.specs.Bool.{beq};
ghost use Rattle.std.specs.List.{starts_with};
ghost use Rattle.std.specs.Option.{ForSome};
ghost use Rattle.std.specs.Net.Addr.{is_ipv4 as spec_is_ipv4};
ghost use Rattle.mmdb_net.specs.Address.{IsMaskedIp};
ghost use Rattle.mmdb_net.specs.Bits.{bits_of};
ghost use Rattle.mmdb_net.specs.Network.{ip_of, prefix_of};
ghost use Rattle.mmdb_blocks.specs.Blocks.{IsBlock};
ghost use Rattle.mmdb_query.specs.Had.{Had, IsNetworkOf, network_bits};
ghost use Rattle.mmdb_query.specs.Listings.{HasBits};
ghost use Rattle.mmdb_query.specs.Parts.{is_wanted as spec_is_wanted, clipped, handed, IsHanded};

use crate::answer::{Answer, NetworkBlock, block_of};
use crate::segment::network_of_block;
use crate::walk::{UnreadLeaf, Walk};
use mmdb_blocks::{Block, BlockKind, Kinds};
use mmdb_reader::{IpNetwork, MaxMindDbError, PathElement};
use mmdb_value::Value;
use std::alloc::Global;

/// Whether a network is one of IPv4.
#[inline(always)]
pub(crate) fn is_ipv4(network: IpNetwork) -> bool
    ensures { result ≡ spec_is_ipv4 (ip_of network) }
{
    match network {
        IpNetwork::V4(_) => true,
        IpNetwork::V6(_) => false,
    }
}

// Whether one of two networks is.
fn is_one_ipv4(some: IpNetwork, other: IpNetwork) -> bool
    ensures { result ≡ spec_is_ipv4 (ip_of some) || spec_is_ipv4 (ip_of other) }
{
    is_ipv4(some) || is_ipv4(other)
}

// How many bits the addresses of a network begin with at most.
fn depth_of(network: IpNetwork) -> u8
    ensures { length (network_bits network) ≤ result }
{
    match network {
        IpNetwork::V4(network) => 96 + network.prefix(),
        IpNetwork::V6(network) => network.prefix(),
    }
}

// Whether networks of a kind are wanted: of IPv4, or of IPv6.
fn is_wanted(kinds: Kinds, is_ipv4: bool) -> bool
    ensures { result ≡ spec_is_wanted kinds is_ipv4 }
{
    match kinds {
        Kinds::Both => true,
        Kinds::One(BlockKind::Ipv4) => is_ipv4,
        Kinds::One(BlockKind::Ipv6) => !is_ipv4,
    }
}

// Whether a block has all addresses of another one.
fn has_block(whole: Block, part: Block) -> bool
    requires whole { IsBlock whole }
    requires part { IsBlock part }
    ensures { result ≡ starts_with beq (take part.prefix (bits_of 128 part.first))
        (take whole.prefix (bits_of 128 whole.first)) }
{
    if whole.prefix > part.prefix || whole.first > part.first {
        return false;
    }
    part.first <= whole.last()
}

// The range, where a network has all addresses of it, so that no more is handed out.
fn clip_to(range: IpNetwork, network: IpNetwork) -> Option<IpNetwork>
    ensures { (had : Had) → IsNetworkOf had network
        → IsHanded (clipped (Some range) had) had result }
{
    let part = Block::of_network(range);
    if has_block(Block::of_network(network), part) {
        Some(network_of_block(part, is_one_ipv4(range, network)))
    } else {
        None
    }
}

// The same where there may be no range. Most networks have fewer addresses than the range.
#[inline(always)]
fn clip<A: Answer>(range: Option<IpNetwork>, whole: &A, block: Block) -> Option<IpNetwork>
    requires { HasBits block (A.had whole.now).bits }
    ensures { IsHanded (clipped range (A.had whole.now)) (A.had whole.now) result }
{
    let range = range?;
    if block.prefix > depth_of(range) {
        return None;
    }
    clip_to(range, whole.network())
}

/// What databases have in a network, of which no more than a part may be wanted.
#[derive(Drop)]
pub struct Clipped<A: Answer> {
    pub(crate) whole: A,
    /// Of which network, where that is not the whole.
    pub(crate) part: Option<IpNetwork>,
    ghost masked: { ForSome part (λ n. IsMaskedIp (ip_of n) (prefix_of n) (ip_of n)) },
}

/// The same as in the whole network.
impl<A: Answer> Answer for Clipped<A> {
    ghost sections = { λ c. A.sections c.whole };

    ghost had = { λ c. handed c.part (A.had c.whole) };

    #[inline(always)]
    fn network(&self) -> IpNetwork {
        match self.part {
            Some(part) => part,
            None => self.whole.network(),
        }
    }

    #[inline(always)]
    fn block(&self) -> NetworkBlock {
        match self.part {
            Some(part) => block_of(part),
            None => self.whole.block(),
        }
    }

    #[inline(always)]
    fn key(&self) -> Option<usize> {
        self.whole.key()
    }

    #[inline(always)]
    fn offset(&self, place: usize) -> Option<usize> {
        self.whole.offset(place)
    }

    #[inline(always)]
    fn has_record(&self) -> bool {
        self.whole.has_record()
    }

    #[inline(always)]
    fn read_along(
        &self,
        alloc: Global,
        path: &[PathElement<'_>],
    ) -> Result<Option<Value<'_>>, MaxMindDbError> {
        self.whole.read_along(alloc, path)
    }

    #[inline(always)]
    fn outline_along(
        &self,
        alloc: Global,
        path: &[PathElement<'_>],
    ) -> Result<Option<Value<'_>>, MaxMindDbError> {
        self.whole.outline_along(alloc, path)
    }

    #[inline(always)]
    fn read_at(
        &self,
        alloc: Global,
        place: usize,
        path: &[PathElement<'_>],
    ) -> Result<Option<Value<'_>>, MaxMindDbError> {
        self.whole.read_at(alloc, place, path)
    }
}

// What is handed out of an answer. None where its network is not wanted.
#[inline(always)]
fn part_of<A: Answer>(kinds: Kinds, range: Option<IpNetwork>, whole: A) -> Option<Clipped<A>>
    ensures left_out { IfNone result (spec_is_wanted kinds (A.had whole).as_ipv4 ≡ false) }
    ensures wanted { IfSome result (λ _. spec_is_wanted kinds (A.had whole).as_ipv4 ≡ true) }
    ensures sections { IfSome result (λ part. A.sections part.whole ≡ A.sections whole) }
    ensures had { IfSome result (λ part. ⟦<Clipped<A> as Answer>⟧.had part
        ≡ clipped range (A.had whole)) }
{
    let at = whole.block();
    if !is_wanted(kinds, at.is_ipv4) {
        return None;
    }
    let part = clip(range, &whole, at.block);
    Some(Clipped { whole, part })
}

/// A walk of which only networks of some kinds are wanted, and of one that has a range no more than the range. Whether a network
/// is wanted is asked of its own kind; what is handed out of it is of IPv4, where the range is. One that hasn't all of the range
/// is handed out as it is: a walk within the range has no others than those that lie there.
#[derive(Drop)]
pub struct Part<W: Walk + Drop> {
    pub walk: W,
    pub kinds: Kinds,
    pub range: Option<IpNetwork>,
}

/// What is left of the items of the walk.
impl<W: Walk + Drop> Walk for Part<W> {
    ghost use Rattle.mmdb_query.specs.Parts.{ComesInPart};

    type Item = Clipped<W::Item>;

    ghost sections = { λ p. W.sections p.walk };

    ghost comes = { λ p. ComesInPart p.kinds p.range (W.comes p.walk) };

    #[inline(always)]
    fn next_item(&mut self) -> Option<Result<Clipped<W::Item>, MaxMindDbError>> {
        for _ in 0..u64::MAX {
            match self.walk.next_item()? {
                Ok(whole) => {
                    if let Some(part) = part_of(self.kinds, self.range, whole) {
                        return Some(Ok(part));
                    }
                }
                Err(error) => return Some(Err(error)),
            }
        }
        // not reached: nobody waits for as many networks that are left out one after another
        Some(Err(MaxMindDbError::Memory))
    }

    fn unread_leaf(&self) -> UnreadLeaf {
        self.walk.unread_leaf()
    }

    #[inline(always)]
    fn give_back(&mut self, item: Clipped<W::Item>) {
        self.walk.give_back(item.whole);
    }
}
