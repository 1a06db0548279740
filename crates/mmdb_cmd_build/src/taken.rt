//! What was taken of rows.
use crate::entry::{RowAddresses, RowEntry, Values};
use crate::error::{InputError, Reason};
use crate::kept::{KeptRow, KeptRows, print_of};
use crate::range::AddressRange;
use crate::reserved::is_reserved;
use crate::task::BuildTask;
use crate::types::Types;
use mmdb_arguments::Reserved;
use mmdb_blocks::Block;
use mmdb_net::IpNetwork;
use mmdb_value::Value;
use mmdb_writer::{IpVersion, Row, ValueError, WriteError, Writer};
use std::alloc::{AllocError, Global};
use std::collections::HashSet;

/// A range has at most two networks for each bit of its addresses.
const MOST_NETWORKS: u32 = 256;

/// A network that was taken.
#[derive(Clone, Copy, PartialEq, Eq, Hash)]
struct Met {
    first: u128,
    prefix: u8,
}

// A network, to be looked for.
fn met_of(block: Block) -> Met {
    Met {
        first: block.first,
        prefix: block.prefix,
    }
}

/// What was taken of rows: the file in the making, and how many networks there are.
#[derive(Drop)]
pub(crate) struct TakenRows {
    pub(crate) writer: Writer,
    /// The types of the values.
    pub(crate) found: Types,
    /// How many networks were taken.
    pub(crate) networks: u64,
    /// Whether one of them has a value.
    pub(crate) has_value: bool,
    /// How many of them lie in reserved ones, or were left out since they do.
    pub(crate) reserved: u64,
    /// How many rows have addresses of IPv4 that are written as ones of IPv6.
    pub(crate) mapped: u64,
    is_ipv4_alone: bool,
    reserved_are: Reserved,
    /// The networks, where equal ones are an error.
    met: Option<HashSet<Met>>,
    /// What the rows said, where it is to be compared with the file.
    pub(crate) kept: Option<KeptRows>,
}

// Why a value is not taken.
fn reason_of(error: ValueError) -> Reason {
    match error {
        ValueError::TooManyValues => Reason::TooManyValues,
        ValueError::TooManyBytes => Reason::TooManyBytes,
        ValueError::TooDeep => Reason::TooDeep,
        ValueError::KeyTwice => Reason::KeyTwice,
    }
}

// An error of the writer, as one of a row.
fn error_of(error: WriteError) -> InputError {
    match error {
        WriteError::Memory => InputError::Memory,
        WriteError::Value { error, .. } => InputError::from(reason_of(error)),
        WriteError::Row { .. } => InputError::from(Reason::Ipv6),
        WriteError::TooLarge | WriteError::Options(_) | WriteError::NotAsMeant => {
            InputError::TooLarge
        }
    }
}

impl Values for TakenRows {
    fn check(&self, place: RowAddresses) -> Result<(), Reason> {
        match place.mapped().unwrap_or(place) {
            RowAddresses::Network(network) => self.check_network(network),
            RowAddresses::Range(range) => self.check_range(range),
        }
    }

    fn add(&mut self, alloc: Global, value: &Value<'_>) -> Result<usize, InputError> {
        match self.writer.add_value(alloc, value) {
            Ok(index) => {
                self.found.learn(alloc, value)?;
                self.keep_value(alloc, value)?;
                Ok(index)
            }
            Err(error) => Err(error_of(error)),
        }
    }
}

impl TakenRows {
    /// Nothing yet.
    pub(crate) fn new(
        alloc: Global,
        task: &BuildTask<'_>,
        version: IpVersion,
        writer: Writer,
    ) -> TakenRows {
        TakenRows {
            writer,
            found: Types::bounded(alloc),
            networks: 0,
            has_value: false,
            reserved: 0,
            mapped: 0,
            is_ipv4_alone: version == IpVersion::V4,
            reserved_are: task.reserved,
            met: if task.equal_is_error {
                Some(HashSet::new(alloc))
            } else {
                None
            },
            kept: if task.check {
                Some(KeptRows::new(alloc))
            } else {
                None
            },
        }
    }

    // Keeps a value, where it is to be compared with the file.
    fn keep_value(&mut self, alloc: Global, value: &Value<'_>) -> Result<(), AllocError> {
        match &mut self.kept {
            Some(kept) => Ok(kept.prints.push(print_of(alloc, value)?)?),
            None => Ok(()),
        }
    }

    // Keeps a network, where it is to be compared with the file.
    fn keep_row(&mut self, block: Block, value: Option<usize>) -> Result<(), AllocError> {
        match &mut self.kept {
            Some(kept) => Ok(kept.rows.push(KeptRow { block, value })?),
            None => Ok(()),
        }
    }

    // Whether an earlier line has a network, where that is an error.
    fn is_met(&self, network: IpNetwork) -> bool {
        match &self.met {
            Some(met) => met.contains(&met_of(Block::of_network(network))),
            None => false,
        }
    }

    // Whether a network may be taken.
    fn check_network(&self, network: IpNetwork) -> Result<(), Reason> {
        if self.is_ipv4_alone && matches!(network, IpNetwork::V6(_)) {
            Err(Reason::Ipv6)
        } else if self.reserved_are == Reserved::Error && is_reserved(network) {
            Err(Reason::Reserved)
        } else if self.is_met(network) {
            Err(Reason::Equal)
        } else {
            Ok(())
        }
    }

    // Whether all networks of a range may be taken.
    fn check_range(&self, range: AddressRange) -> Result<(), Reason> {
        let mut networks = range.networks();
        for _ in 0..MOST_NETWORKS {
            match networks.next_network() {
                Some(network) => self.check_network(network)?,
                None => break,
            }
        }
        Ok(())
    }

    // Notes a network, where equal ones are an error.
    fn note(&mut self, block: Block) -> Result<(), AllocError> {
        if let Some(met) = &mut self.met {
            met.insert(met_of(block))?;
        }
        Ok(())
    }

    // Takes a network, unless it lies in a reserved one and those are skipped.
    fn put(&mut self, network: IpNetwork, value: Option<usize>) -> Result<(), InputError> {
        if is_reserved(network) {
            self.reserved = self.reserved.saturating_add(1);
            if self.reserved_are == Reserved::Skip {
                return Ok(());
            }
        }
        let block = Block::of_network(network);
        self.note(block)?;
        self.keep_row(block, value)?;
        self.networks = self.networks.saturating_add(1);
        self.has_value = self.has_value || value.is_some();
        match self.writer.add_row(Row { network, value }) {
            Ok(()) => Ok(()),
            Err(error) => Err(error_of(error)),
        }
    }

    // Takes the networks of a range.
    fn put_range(&mut self, range: AddressRange, value: Option<usize>) -> Result<(), InputError> {
        let mut networks = range.networks();
        for _ in 0..MOST_NETWORKS {
            match networks.next_network() {
                Some(network) => self.put(network, value)?,
                None => break,
            }
        }
        Ok(())
    }

    /// Takes what a row says: all its networks or none, but for those in reserved ones that are skipped.
    pub(crate) fn take(&mut self, entry: RowEntry) -> Result<(), InputError> {
        self.check(entry.place)?;
        let place = match entry.place.mapped() {
            Some(mapped) => {
                self.mapped = self.mapped.saturating_add(1);
                mapped
            }
            None => entry.place,
        };
        match place {
            RowAddresses::Network(network) => self.put(network, entry.value),
            RowAddresses::Range(range) => self.put_range(range, entry.value),
        }
    }
}
