//! Where walks of addresses end.
ghost use Rattle.std.specs.Prelude.{◌≤◌, IfSome, List, length};
ghost use Rattle.std.specs.List.{slice_get};
ghost use Rattle.std.specs.declared.net.ip_addr.IpAddr.{IpAddr as SpecIpAddr};
ghost use Rattle.mmdb_reader.specs.File.{Database};
ghost use Rattle.mmdb_reader.specs.Many.{IsFoundFor, IsLookup};
ghost use Rattle.mmdb_layout.specs.Asked.{Asks};

use mmdb_reader::{FoundLeaf, LookupResult, MaxMindDbError, Reader};
use std::convert::AsSlice;
use std::net::IpAddr;

/// Of how many addresses it is known.
const MOST: usize = 64;

/// Where the walks of addresses end in a database.
#[derive(Clone, Copy)]
pub struct Leaves {
    leaves: [FoundLeaf; MOST],
}

impl Leaves {
    ghost use Rattle.mmdb_cmd_enrich.specs.Ahead.{AreFound, IsNumberOf};

    /// Of no address.
    pub(crate) fn none() -> Leaves {
        Leaves {
            leaves: [FoundLeaf::default(); MOST],
        }
    }

    /// Finds where the walks of addresses end.
    pub(crate) fn find<S: AsSlice<u8> + Drop>(&mut self, reader: &Reader<S>, addresses: &[IpAddr])
        requires { length addresses.now ≤ 64 }
        ensures { AreFound reader.now addresses.now self.new.leaves }
    {
        reader.find_leaves(addresses, &mut self.leaves[..addresses.len()]);
    }

    /// Where the walk of an address ends, by its number.
    #[inline(always)]
    pub(crate) fn at(&self, number: Option<usize>) -> Option<FoundLeaf>
        ensures { (db : Database) (addresses : List SpecIpAddr) (address : SpecIpAddr)
            → AreFound db addresses self.now.leaves → IsNumberOf addresses number address
            → IfSome result (IsFoundFor db address) }
    {
        let number = number?;
        if number < MOST {
            Some(self.leaves[number])
        } else {
            None
        }
    }
}

/// What a database has for an address in place of which it is asked for this one, of which it may be known where its walk ends.
#[inline(always)]
pub(crate) fn look_up_found<'a, S: AsSlice<u8> + Drop>(
    reader: &'a Reader<S>,
    address: IpAddr,
    asked: IpAddr,
    leaf: Option<FoundLeaf>,
) -> Result<LookupResult<'a, S>, MaxMindDbError>
    requires asks { Asks reader.now address asked }
    requires found { IfSome leaf (IsFoundFor reader.now address) }
    ensures { IsLookup reader.now asked result }
{
    if let IpAddr::V4(_) = address
        && let Some(leaf) = leaf
    {
        return reader.lookup_found(asked, leaf);
    }
    reader.lookup(asked)
}
