//! The lines of networks.
ghost use Rattle.std.specs.Prelude.{◌≡◌, ◌⊎◌, ◌↔◌, ◌++◌, Some, IfOk, IfErr, OnOk, string_bytes};
ghost use Rattle.mmdb_format.specs.Error.{OfInput, OfDatabase, OfMemory, kind_of, FailsAs};
ghost use Rattle.mmdb_reader.specs.Lookup.{CanAsk, IsInvalidAt};
ghost use Rattle.mmdb_reader.specs.File.{Database};
ghost use Rattle.mmdb_reader.specs.Items.{item_view, IsItemOf};
ghost use Rattle.mmdb_tool.specs.Lines.{line_of, IsLookupLine};
ghost use Rattle.mmdb_tool.specs.Working.{network_line};

use itoa::Buffer;
use mmdb_reader::{IpNetwork, LookupResult, MaxMindDbError, Reader};
use std::alloc::{AllocError, Global};
use std::convert::AsSlice;
use std::net::IpAddr;

/// What is in the place of a faulty leaf's line.
const FAULT: &str = "fault\n";

// The line of a network.
fn line(alloc: Global, network: IpNetwork, offset: Option<usize>) -> Result<String, AllocError>
    ensures { IfOk result (λ text. string_bytes text ≡ network_line network offset) }
{
    let text = network.full_text(alloc)?;
    match offset {
        Some(offset) => format!(in alloc; "{text} {offset}\n"),
        None => format!(in alloc; "{text} -\n"),
    }
}

/// The line of an address: the full text of the network that shares its answer, a space, the offset of
/// its value in the data section or `-`, and a newline.
///
/// Fails as `lookup` does, or as `Memory`.
pub fn lookup_line<S: AsSlice<u8> + Drop>(
    alloc: Global,
    reader: &Reader<S>,
    address: IpAddr,
) -> Result<String, MaxMindDbError>
    ensures line { IfOk result (λ text. IsLookupLine reader.now address (string_bytes text)) }
    ensures of_input { FailsAs OfInput result ↔ ¬ (CanAsk reader.now address) }
    ensures of_database { FailsAs OfDatabase result ↔ IsInvalidAt reader.now address }
    ensures no_other { IfErr result (λ e. (kind_of e ≡ OfInput)
        ⊎ ((kind_of e ≡ OfDatabase) ⊎ (kind_of e ≡ OfMemory))) }
{
    let found = reader.lookup(address)?;
    let network = found.network()?;
    Ok(line(alloc, network, found.offset())?)
}

// Appends the line of a network.
fn put_line(network: IpNetwork, offset: Option<usize>, out: &mut Vec<u8>) -> Result<(), AllocError>
    ensures { OnOk result (out.new.items ≡ out.old.items ++ network_line network offset) }
{
    network.push_full_text(out)?;
    out.push(b' ')?;
    match offset {
        Some(offset) => out.extend_from_slice(Buffer::new().format(offset).as_bytes())?,
        None => out.push(b'-')?,
    }
    out.push(b'\n')?;
    Ok(())
}

/// Appends the line of an item of a list.
#[tactic(auto, unfolding(crate::specs::Lines::line_of), using(crate::proofs::LineLemmas::line_of_shown))]
pub(crate) fn put_item_line<S: AsSlice<u8> + Drop>(
    item: Result<LookupResult<'_, S>, MaxMindDbError>,
    out: &mut Vec<u8>,
) -> Result<(), AllocError>
    ensures { (db : Database) → IsItemOf db (Some item.entry)
        → OnOk result (out.new.items ≡ out.old.items ++ line_of db (item_view item.entry)) }
{
    let Ok(found) = item else {
        return out.extend_from_slice(FAULT.as_bytes());
    };
    match found.network() {
        Ok(network) => put_line(network, found.offset(), out),
        Err(_) => unreachable!(),
    }
}
