//! How much of two databases differs.
use mmdb_compare::{
    AskedDatabase, KnownPairs, Offsets, Side, SideBySide, Together, TogetherPart, TogetherStretch,
};
use mmdb_reader::{IpNetwork, LookupResult, MaxMindDbError, Reader};
use mmdb_value::Value;
use std::alloc::Global;
use std::net::{IpAddr, Ipv4Addr, Ipv6Addr};

/// How many of what is counted have a record in one of two databases, and in how many the records differ.
#[derive(Clone, Copy)]
pub(crate) struct Share {
    pub(crate) all: u64,
    pub(crate) changed: u64,
}

impl Share {
    // Counts some more.
    fn count(&mut self, count: u64, is_same: bool) {
        self.all = self.all.saturating_add(count);
        if !is_same {
            self.changed = self.changed.saturating_add(count);
        }
    }
}

/// How much of two databases differs: of addresses of IPv4, and of networks of IPv6 with a prefix of 48, of which one has
/// changed where any of it did.
#[derive(Clone, Copy)]
pub(crate) struct Change {
    pub(crate) ipv4: Share,
    pub(crate) ipv6: Share,
    /// The network of the prefix 48 of which a part was counted last, and whether it has changed.
    last: Option<(u128, bool)>,
}

/// How many bits are behind a prefix of 48.
const BEHIND_48: u32 = 80;

// The bits of a stretch's addresses that differ among them.
fn free_bits(stretch: TogetherStretch) -> u32 {
    128u32.saturating_sub(u32::from(stretch.block.prefix))
}

impl Change {
    // Nothing yet.
    fn none() -> Change {
        let none = Share { all: 0, changed: 0 };
        Change {
            ipv4: none,
            ipv6: none,
            last: None,
        }
    }

    // Counts the network with the prefix 48 of which a stretch is a part, once.
    fn count_part(&mut self, first: u128, is_same: bool) {
        let network = first >> BEHIND_48;
        let had_changed = match self.last {
            Some((last, has_changed)) if last == network => has_changed,
            _ => {
                self.ipv6.count(1, true);
                false
            }
        };
        if !is_same && !had_changed {
            self.ipv6.changed = self.ipv6.changed.saturating_add(1);
        }
        self.last = Some((network, had_changed || !is_same));
    }

    // Counts the addresses or networks of a stretch, which is behind those before it.
    fn count(&mut self, stretch: TogetherStretch, is_same: bool) {
        let bits = free_bits(stretch);
        if stretch.is_ipv4 {
            self.ipv4
                .count(1u64.checked_shl(bits.min(32)).unwrap_or(0), is_same);
        } else if bits >= BEHIND_48 {
            self.ipv6
                .count(1u64.checked_shl(bits - BEHIND_48).unwrap_or(0), is_same);
        } else {
            self.count_part(stretch.block.first, is_same);
        }
    }
}

// The record that was found.
fn record_of<'r>(
    alloc: Global,
    found: Option<LookupResult<'r, &'r [u8]>>,
) -> Result<Option<Value<'r>>, MaxMindDbError> {
    match found {
        Some(found) => found.decode(alloc),
        None => Ok(None),
    }
}

/// Why a database can't be compared, and which of the two.
pub(crate) type SideError = (Side, MaxMindDbError);

// What was got of a side.
fn of_side<T>(side: Side, got: Result<T, MaxMindDbError>) -> Result<T, SideError> {
    match got {
        Ok(value) => Ok(value),
        Err(error) => Err((side, error)),
    }
}

/// Two databases side by side, and what is known of their records.
#[derive(Drop)]
struct OldAndNew<'r> {
    together: Together<'r, &'r [u8]>,
    records: SideBySide<'r>,
    known: KnownPairs,
}

impl<'r> OldAndNew<'r> {
    // Whether both records of a stretch are equal, by their values.
    fn have_same_values(&self, alloc: Global, stretch: TogetherStretch) -> Result<bool, SideError> {
        let old = of_side(
            Side::Old,
            record_of(alloc, self.together.found(Side::Old.place(), stretch)),
        )?;
        let new = of_side(
            Side::New,
            record_of(alloc, self.together.found(Side::New.place(), stretch)),
        )?;
        Ok(old == new)
    }

    // Whether both records at some offsets of a stretch are equal.
    fn have_same(
        &mut self,
        alloc: Global,
        stretch: TogetherStretch,
        offsets: Offsets,
    ) -> Result<bool, SideError> {
        if let Some(is_same) = self.known.kept(offsets) {
            return Ok(is_same);
        }
        let is_seen = match offsets.both() {
            Some((old, new)) => self.records.have_equal(old, new),
            None => false,
        };
        let is_same = is_seen || self.have_same_values(alloc, stretch)?;
        self.known.keep(offsets, is_same);
        Ok(is_same)
    }

    // Whether both databases have the same in a stretch.
    fn is_same(&mut self, alloc: Global, stretch: TogetherStretch) -> Result<bool, SideError> {
        let old = self.together.offset(Side::Old.place());
        let new = self.together.offset(Side::New.place());
        if old.is_none() || new.is_none() {
            return Ok(false);
        }
        match Offsets::of(old, new) {
            Some(offsets) => self.have_same(alloc, stretch, offsets),
            None => self.have_same_values(alloc, stretch),
        }
    }

    // The error of a leaf that can't be read.
    fn unread(&mut self, side: Side) -> MaxMindDbError {
        match self.together.take_unread(side.place()) {
            Some(leaf) => leaf.error,
            None => MaxMindDbError::Memory,
        }
    }

    // Compares all.
    fn change(&mut self, alloc: Global) -> Result<Change, SideError> {
        let mut change = Change::none();
        for _ in 0..u64::MAX {
            match self.together.next_part() {
                Some(TogetherPart::Stretch(stretch)) => {
                    let is_same = self.is_same(alloc, stretch)?;
                    change.count(stretch, is_same);
                }
                Some(TogetherPart::Unread(place)) => {
                    let side = Side::at(place);
                    return Err((side, self.unread(side)));
                }
                None => break,
            }
        }
        Ok(change)
    }
}

// All addresses that a database may have.
fn all_of(database: &Reader<&[u8]>) -> Result<IpNetwork, MaxMindDbError> {
    let first = if database.metadata().ip_version == 4 {
        IpAddr::V4(Ipv4Addr::UNSPECIFIED)
    } else {
        IpAddr::V6(Ipv6Addr::UNSPECIFIED)
    };
    Ok(IpNetwork::new(first, 0)?)
}

// What is kept of two databases that are compared.
fn kept_of<'r>(
    alloc: Global,
    old: &'r Reader<&'r [u8]>,
    new: &'r Reader<&'r [u8]>,
) -> Result<(SideBySide<'r>, KnownPairs), MaxMindDbError> {
    let records = SideBySide::new(alloc, old.data_section(), new.data_section())?;
    Ok((records, KnownPairs::new(alloc)?))
}

/// How much of two databases of one IP version differs. An `Err` where one of them can't be read, or out of memory.
pub(crate) fn change_between<'r>(
    alloc: Global,
    old: &'r Reader<&'r [u8]>,
    new: &'r Reader<&'r [u8]>,
) -> Result<Change, SideError> {
    let range = of_side(Side::Old, all_of(old))?;
    let (records, known) = of_side(Side::Old, kept_of(alloc, old, new))?;
    let asked = [
        AskedDatabase { reader: old, range },
        AskedDatabase { reader: new, range },
    ];
    let together = match Together::new(alloc, &asked) {
        Ok(together) => together,
        Err((place, error)) => return Err((Side::at(place), error)),
    };
    let mut both = OldAndNew {
        together,
        records,
        known,
    };
    let change = both.change(alloc);
    drop(both);
    change
}
