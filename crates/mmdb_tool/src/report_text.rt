//! The text of a report.
use mmdb_report::Report;
use std::alloc::{AllocError, Global};

// A line for each prefix that has networks, with their number.
fn push_counts(
    alloc: Global,
    text: &mut String,
    kind: &str,
    counts: &[u32],
) -> Result<(), AllocError> {
    for (prefix, count) in counts.iter().enumerate() {
        if *count != 0 {
            let line = format!(in alloc; "{kind}/{prefix} {count}\n")?;
            text.push_str(line.as_str())?;
        }
    }
    Ok(())
}

/// The text of a report: how many networks there are of each kind and prefix of which there are any, IPv4
/// before IPv6 and ascending, how many have no data, how many faults and distinct offsets there are.
pub(crate) fn report_text(alloc: Global, report: &Report) -> Result<String, AllocError> {
    let mut text = String::new(alloc);
    push_counts(alloc, &mut text, "v4", &report.by_prefix_v4)?;
    push_counts(alloc, &mut text, "v6", &report.by_prefix_v6)?;
    let empty = report.without_data;
    let faults = report.faults;
    let offsets = report.distinct_offsets;
    let totals = format!(in alloc; "empty {empty}\nfaults {faults}\noffsets {offsets}\n")?;
    text.push_str(totals.as_str())?;
    Ok(text)
}
