//! Ranges as a person writes them.
use crate::output::{Console, line_of};
use mmdb_arguments::NoRequest;
use mmdb_net::IpNetwork;
use std::alloc::Global;
use std::io::Write;

/// The range that a text spells, where there is one. An `Err` where it is not a network.
pub fn range_of(alloc: Global, text: Option<&str>) -> Result<Option<IpNetwork>, NoRequest> {
    let Some(text) = text else {
        return Ok(None);
    };
    match text.parse::<IpNetwork>() {
        Ok(range) => Ok(Some(range)),
        Err(_) => Err(NoRequest::bad_argument(alloc, text, "not a network")),
    }
}

/// Says of a range with address bits after its prefix as which network it is read.
pub fn note_range<O: Write, E: Write>(range: Option<IpNetwork>, console: &mut Console<'_, O, E>) {
    let Some(range) = range else {
        return;
    };
    if range.ip() == range.network() {
        return;
    }
    let (alloc, ip, network, prefix) = (console.alloc, range.ip(), range.network(), range.prefix());
    let text = format!(in alloc; "mmdb: {ip}/{prefix} is read as {network}/{prefix}");
    console.note(line_of(alloc, text));
}
