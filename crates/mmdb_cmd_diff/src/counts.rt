//! How much of two files differs.
ghost use Rattle.std.specs.Prelude.{◌≡◌, ◌↔◌, IsTrue};
ghost use Rattle.mmdb_cmd_diff.specs.Counts.{HasNone, IsCounted, IsOneMore};

use mmdb_reader::IpNetwork;
use std::alloc::{AllocError, Global};

/// Which of two files have a record somewhere.
#[derive(Clone, Copy)]
pub(crate) struct Presence {
    pub(crate) in_old: bool,
    pub(crate) in_new: bool,
}

/// Neither of them.
pub(crate) const ABSENT: Presence = Presence {
    in_old: false,
    in_new: false,
};

// How many networks there are, and how many addresses those of IPv4 have.
#[derive(Clone, Copy)]
struct NetworkTally {
    networks: u64,
    addresses: u64,
}

const NONE: NetworkTally = NetworkTally {
    networks: 0,
    addresses: 0,
};

impl NetworkTally {
    fn count(&mut self, network: IpNetwork)
        ensures { IsOneMore self.old self.new }
    {
        self.networks = self.networks.saturating_add(1);
        if let IpNetwork::V4(network) = network {
            let bits = 32 - u32::from(network.prefix());
            self.addresses = self.addresses.saturating_add(1 << bits);
        }
    }
}

/// What changed, as the networks that were written.
#[derive(Clone, Copy)]
pub(crate) struct ChangeCounts {
    added: NetworkTally,
    removed: NetworkTally,
    changed: NetworkTally,
}

impl ChangeCounts {
    /// Nothing changed yet.
    pub(crate) fn new() -> ChangeCounts
        ensures { HasNone result }
    {
        ChangeCounts {
            added: NONE,
            removed: NONE,
            changed: NONE,
        }
    }

    /// Counts a network by what its first address has.
    pub(crate) fn count(&mut self, network: IpNetwork, presence: Presence)
        ensures { IsCounted presence self.old self.new }
    {
        match (presence.in_old, presence.in_new) {
            (false, _) => self.added.count(network),
            (_, false) => self.removed.count(network),
            _ => self.changed.count(network),
        }
    }

    /// Whether nothing changed.
    pub(crate) fn are_same(&self) -> bool
        ensures { IsTrue result ↔ HasNone self.now }
    {
        self.added.networks == 0 && self.removed.networks == 0 && self.changed.networks == 0
    }

    /// The line on them.
    pub(crate) fn text(&self, alloc: Global) -> Result<String, AllocError> {
        let (added, removed, changed) = (self.added, self.removed, self.changed);
        let (a, a_addresses) = (added.networks, added.addresses);
        let (r, r_addresses) = (removed.networks, removed.addresses);
        let (c, c_addresses) = (changed.networks, changed.addresses);
        format!(in alloc;
            "mmdb: networks (IPv4 addresses): {a} ({a_addresses}) added, {r} ({r_addresses}) removed, {c} ({c_addresses}) changed\n"
        )
    }
}
