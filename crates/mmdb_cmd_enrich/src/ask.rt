//! How databases are asked for an address.
ghost use Rattle.std.specs.Prelude.{◌≡◌, ◌≤◌, [], List, Option, IfOk, IfSome, OnOk, length, option_map};
ghost use Rattle.std.specs.declared.net.ip_addr.IpAddr.{IpAddr as SpecIpAddr};
ghost use Rattle.mmdb_reader.specs.File.{Database};
ghost use Rattle.mmdb_reader.specs.Many.{IsFoundFor};
ghost use Rattle.mmdb_cmd_enrich.specs.Ahead.{IsNumberOf};
ghost use Rattle.mmdb_cmd_enrich.specs.Answered.{IsAnswered};
ghost use Rattle.mmdb_cmd_enrich.specs.Layers.{AreKeysFor, IsKeyFor};

use crate::cache::RecordKeys;
use crate::found::{FoundRecords, key_of};
use crate::leaves::{Leaves, look_up_found};
use crate::notes::{Notes, note_rejected};
use mmdb_layout::asked_of;
use mmdb_reader::{FoundLeaf, LookupResult, Reader};
use std::alloc::{AllocError, Global};
use std::convert::AsSlice;
use std::net::{IpAddr, Ipv4Addr, Ipv6Addr};

/// Databases that are asked for addresses.
pub trait Ask {
    /// What they have for an address.
    type Found: FoundRecords + Drop;

    /// What is used again from one question to the next.
    type Room: Drop;

    /// The databases, in the order in which they are asked.
    ghost databases: { Self → List Database };

    /// It is known where the walks of these addresses end.
    ghost knows: { Self → Self.Room → List SpecIpAddr → Type 0 };

    /// What `keys` leaves is of this address.
    ghost has: { Self → Self.Room → SpecIpAddr → Type 0 };

    /// What they had for the address that was asked last.
    ghost answer: { Self.Room → Option Self.Found };

    /// Of no question.
    fn new_room(&self, alloc: Global) -> Self::Room
        ensures { knows self.now result [] };

    /// Whether it pays to find where the walks of many addresses end at once.
    fn is_large(&self) -> bool;

    /// Finds where the walks of addresses end.
    fn find(&self, room: &mut Self::Room, addresses: &[IpAddr])
        requires { length addresses.now ≤ 64 }
        ensures { knows self.now room.new addresses.now };

    /// The numbers of where the records of an address are; none where none can be asked for it, or one rejects it. The
    /// address may have a number among those of which it is known where their walks end.
    fn keys(
        &self,
        room: &mut Self::Room,
        address: &IpAddr,
        number: Option<usize>,
    ) -> Result<RecordKeys, AllocError>
        requires { (addresses : List SpecIpAddr) × knows self.now room.old addresses
            × IsNumberOf addresses number address.now }
        ensures keys { IfOk result (AreKeysFor (databases self.now) address.now) }
        ensures has { OnOk result (has self.now room.new address.now) }
        ensures knows { (addresses : List SpecIpAddr) → knows self.now room.old addresses
            → knows self.now room.new addresses };

    /// What they have for the address of which `keys` was asked last, or nothing where none can be asked for it or one rejects it.
    fn ask(&self, room: &mut Self::Room, address: &IpAddr, number: Option<usize>)
        requires numbered { (addresses : List SpecIpAddr) × knows self.now room.old addresses
            × IsNumberOf addresses number address.now }
        requires has { has self.now room.old address.now }
        ensures answered { IsAnswered Self.Found.is_of Self.Found.offsets Self.Found.shows
            (databases self.now) address.now (answer room.new) }
        ensures knows { (addresses : List SpecIpAddr) → knows self.now room.old addresses
            → knows self.now room.new addresses };

    /// What they had for the address that was asked last.
    fn found<'r>(&self, room: &'r Self::Room) -> Option<&'r Self::Found>
        ensures { option_map (λ found. found.now) result ≡ answer room.now };

    /// Notes why an address is rejected.
    fn note_rejected(&self, alloc: Global, address: IpAddr, notes: &mut Notes);
}

/// One database.
#[derive(Drop)]
pub struct OneDatabase<'a, S: AsSlice<u8> + Drop> {
    pub reader: &'a Reader<S>,
}

/// What is used again from one question to the next.
#[derive(Drop)]
pub struct OneRoom<'a, S: AsSlice<u8> + Drop> {
    leaves: Leaves,
    found: Option<LookupResult<'a, S>>,
}

impl<'a, S: AsSlice<u8> + Drop> OneDatabase<'a, S> {
    ghost use Rattle.std.specs.Prelude.{◌∷◌};
    ghost use Rattle.std.specs.declared.net.ip_addr.IpAddr.TheVariants.{V4, V6};

    // The number of where the record of an address of IPv4 is.
    #[inline(always)]
    fn key_short(&self, short: Ipv4Addr, leaf: Option<FoundLeaf>) -> Option<usize>
        requires { IfSome leaf (IsFoundFor self.now.reader.now (V4 short)) }
        ensures { IfSome result (IsKeyFor (self.now.reader.now ∷ []) (V4 short)) }
    {
        let address = IpAddr::V4(short);
        let Ok(found) = look_up_found(self.reader, address, address, leaf) else {
            return None;
        };
        key_of(found.offset())
    }

    // The same of one of IPv6.
    #[inline(always)]
    fn key_long(&self, long: Ipv6Addr) -> Option<usize>
        ensures { IfSome result (IsKeyFor (self.now.reader.now ∷ []) (V6 long)) }
    {
        let asked = asked_of(self.reader, IpAddr::V6(long));
        let Ok(found) = self.reader.lookup(asked) else {
            return None;
        };
        key_of(found.offset())
    }
}

impl<'a, S: AsSlice<u8> + Drop> Ask for OneDatabase<'a, S> {
    ghost use Rattle.std.specs.Prelude.{◌∷◌, ⊤};
    ghost use Rattle.mmdb_cmd_enrich.specs.Ahead.{AreFound};

    type Found = LookupResult<'a, S>;

    type Room = OneRoom<'a, S>;

    ghost databases = { λ one. one.reader.now ∷ [] };

    ghost knows = { λ one room addresses.
        AreFound one.reader.now addresses room.leaves.leaves };

    ghost has = { λ _ _ _. ⊤ };

    ghost answer = { λ room. room.found };

    fn new_room(&self, _alloc: Global) -> OneRoom<'a, S> {
        OneRoom {
            leaves: Leaves::none(),
            found: None,
        }
    }

    fn is_large(&self) -> bool {
        self.reader.outgrows_caches()
    }

    fn find(&self, room: &mut OneRoom<'a, S>, addresses: &[IpAddr]) {
        room.leaves.find(self.reader, addresses);
    }

    #[inline(always)]
    fn keys(
        &self,
        room: &mut OneRoom<'a, S>,
        address: &IpAddr,
        number: Option<usize>,
    ) -> Result<RecordKeys, AllocError> {
        let all = match address {
            IpAddr::V4(short) => self.key_short(*short, room.leaves.at(number)),
            IpAddr::V6(long) => self.key_long(*long),
        };
        Ok(RecordKeys { all, first: None })
    }

    #[inline(always)]
    fn ask(&self, room: &mut OneRoom<'a, S>, address: &IpAddr, number: Option<usize>) {
        let asked = asked_of(self.reader, *address);
        let leaf = room.leaves.at(number);
        let Ok(found) = look_up_found(self.reader, *address, asked, leaf) else {
            room.found = None;
            return;
        };
        room.found = Some(found);
    }

    #[inline(always)]
    fn found<'r>(&self, room: &'r OneRoom<'a, S>) -> Option<&'r LookupResult<'a, S>> {
        room.found.as_ref()
    }

    #[inline(never)]
    fn note_rejected(&self, alloc: Global, address: IpAddr, notes: &mut Notes) {
        note_rejected(alloc, self.reader, asked_of(self.reader, address), notes);
    }
}
