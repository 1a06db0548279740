//! What is counted of the networks of a range.
ghost use Rattle.std.specs.Prelude.{◌≡◌, ◌↔◌, IfOk};
ghost use Rattle.mmdb_net.specs.Network.{ip_of};
ghost use Rattle.mmdb_reader.specs.Lookup.{CanAsk};
ghost use Rattle.mmdb_report.specs.Reports.{ReportsOn, HasTooMany, IsOfRange, NamesRangeOrMemory};

use crate::tally::Tally;
use mmdb_reader::{IpNetwork, MaxMindDbError, Reader, WithinOptions};
use std::alloc::Global;
use std::convert::AsSlice;
use thiserror::Error;

/// What is counted of the networks of a range.
#[derive(Debug, Drop)]
pub struct Report {
    /// How many IPv4 networks there are of each prefix, from 0 to 32.
    pub by_prefix_v4: [u32; 33],
    /// How many IPv6 networks there are of each prefix, from 0 to 128.
    pub by_prefix_v6: [u32; 129],
    /// How many of these networks have no data.
    pub without_data: u32,
    /// How many leaves are faulty, and so counted nowhere else.
    pub faults: u32,
    /// How many distinct offsets the values of these networks have.
    pub distinct_offsets: u64,
}

/// Why there is no report.
#[derive(Debug, Drop, Error)]
pub enum ReportError {
    /// The database failed, or memory ran out.
    #[error("{0}")]
    Database(MaxMindDbError),
    /// There are more than 4,294,967,295 networks and faults.
    #[error("too many networks")]
    TooMany,
}

impl From<MaxMindDbError> for ReportError {
    ghost use Rattle.mmdb_report.specs.declared.report.ReportError.TheVariants.{Database};

    ghost from_gives = { λ error e. e ≡ Database error };

    fn from(error: MaxMindDbError) -> ReportError {
        ReportError::Database(error)
    }
}

/// Counts the networks of a range that `within` hands out: those that are no faults by kind and prefix,
/// those without data, the faults, and the distinct offsets.
///
/// Takes memory for the walk, and for each distinct offset. `Database` is `InvalidInput` exactly where
/// `within` fails so; else it is `Memory`. `TooMany` is answered where a 4,294,967,296th item
/// comes, if memory did not run out before.
pub fn report_on<S: AsSlice<u8> + Drop>(
    alloc: Global,
    reader: &Reader<S>,
    range: IpNetwork,
    options: WithinOptions,
) -> Result<Report, ReportError>
    ensures counts { IfOk result (ReportsOn reader.now options range) }
    ensures too_many { result ≡ Err ReportError.TooMany → HasTooMany reader.now options range }
    ensures of_range { IsOfRange result ↔ ¬ (CanAsk reader.now (ip_of range)) }
    ensures no_other { NamesRangeOrMemory result }
{
    let mut tally = Tally::new(alloc);
    for item in reader.within(alloc, range, options)? {
        tally.add(item)?;
    }
    Ok(tally.into_report())
}
