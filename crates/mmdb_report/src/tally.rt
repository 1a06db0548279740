//! The counts so far.
ghost use Rattle.std.specs.Prelude.{ℕ, ◌≤◌, slice_index, Some, OnOk, IfErr};
ghost use Rattle.mmdb_reader.specs.File.{Database};
ghost use Rattle.mmdb_reader.specs.Found.{database_asked, leaf_of, shown_as_ipv4};
ghost use Rattle.mmdb_reader.specs.Items.{item_view, IsItemOf};
ghost use Rattle.mmdb_reader.specs.Shown.{IsShownBy};

use crate::report::{Report, ReportError};
use mmdb_reader::{IpNetwork, LookupResult, MaxMindDbError};
use std::alloc::Global;
use std::collections::HashSet;
use std::convert::AsSlice;

// The network of an item that is no error.
fn network_of<S: AsSlice<u8> + Drop>(found: &LookupResult<'_, S>) -> IpNetwork
    ensures { IsShownBy (database_asked found.now) (leaf_of found.now)
        (shown_as_ipv4 found.now) result }
{
    match found.network() {
        Ok(network) => network,
        Err(_) => unreachable!(),
    }
}

/// What was counted of the items so far: how many there were, and what a report has of them.
#[derive(Drop)]
pub(crate) struct Tally {
    items: u32,
    by_prefix_v4: [u32; 33],
    by_prefix_v6: [u32; 129],
    without_data: u32,
    faults: u32,
    offsets: HashSet<usize>,
    ghost within_v4: { (prefix : ℕ) → slice_index by_prefix_v4 prefix ≤ items },
    ghost within_v6: { (prefix : ℕ) → slice_index by_prefix_v6 prefix ≤ items },
    ghost within_without_data: { without_data ≤ items },
    ghost within_faults: { faults ≤ items },
}

impl Tally {
    ghost use Rattle.mmdb_report.specs.Working.{IsEmpty, Adds, IsFullOrMemory, Makes};

    /// Nothing counted.
    pub(crate) fn new(alloc: Global) -> Tally
        ensures { IsEmpty result }
    {
        Tally {
            items: 0,
            by_prefix_v4: [0; 33],
            by_prefix_v6: [0; 129],
            without_data: 0,
            faults: 0,
            offsets: HashSet::new(alloc),
        }
    }

    /// Counts an item, unless one more does not fit.
    pub(crate) fn add<S: AsSlice<u8> + Drop>(
        &mut self,
        item: Result<LookupResult<'_, S>, MaxMindDbError>,
    ) -> Result<(), ReportError>
        ensures added { OnOk result ((db : Database) → IsItemOf db (Some item.entry)
            → Adds db (item_view item.entry) self.old self.new) }
        ensures no_other { IfErr result (IsFullOrMemory self.old) }
    {
        if self.items == u32::MAX {
            return Err(ReportError::TooMany);
        }
        self.items += 1;
        let Ok(found) = item else {
            self.faults += 1;
            return Ok(());
        };
        match found.offset() {
            Some(offset) => match self.offsets.insert(offset) {
                Ok(_) => {}
                Err(_) => return Err(ReportError::Database(MaxMindDbError::Memory)),
            },
            None => self.without_data += 1,
        }
        let network = network_of(&found);
        let prefix = usize::from(network.prefix());
        match network {
            IpNetwork::V4(_) => self.by_prefix_v4[prefix] += 1,
            IpNetwork::V6(_) => self.by_prefix_v6[prefix] += 1,
        }
        Ok(())
    }

    /// The report of what was counted.
    pub(crate) fn into_report(self) -> Report
        ensures { Makes self result }
    {
        Report {
            by_prefix_v4: self.by_prefix_v4,
            by_prefix_v6: self.by_prefix_v6,
            without_data: self.without_data,
            faults: self.faults,
            distinct_offsets: self.offsets.len() as u64,
        }
    }
}
