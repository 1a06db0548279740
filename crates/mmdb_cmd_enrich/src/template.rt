//! What is added to rows.
ghost use Rattle.std.specs.Prelude.{◌≡◌, ◌≤◌, [], ℕ, Bool, List, IfOk, OnOk, length};
ghost use Rattle.std.specs.declared.net.ip_addr.IpAddr.{IpAddr as SpecIpAddr};
ghost use Rattle.mmdb_cmd_enrich.specs.Added.{PutsLead, PutsFrontText, PutsRejected, PutsUnread};
ghost use Rattle.mmdb_cmd_enrich.specs.Ahead.{IsNumbered, address_of_row};
ghost use Rattle.mmdb_cmd_enrich.specs.declared.place.RowPlace.{RowPlace as SpecRowPlace};
ghost use Rattle.mmdb_cmd_enrich.specs.Template.{Template as SpecTemplate, IsReadTo, ReadsPlace, IsTextOf, IsNoneText, is_kept as spec_is_kept, most_of, shows_network as spec_shows_network};

use crate::ahead::RowAddress;
use crate::found::{FoundRecords, ReadRecords};
use crate::notes::Notes;
use crate::place::{ReadRow, RowPlace};
use mmdb_filter::Outcome;
use mmdb_net::IpNetwork;
use std::alloc::{AllocError, Global};
use std::net::{IpAddr, Ipv6Addr};

/// What is added to rows, and where the address of a row is.
pub trait Template {
    /// What is used again from row to row.
    type Scratch: Drop;

    /// The addresses of rows ahead.
    ghost ahead: { Self.Scratch → List SpecIpAddr };

    /// What is used again is right.
    ghost fits: { Self → Self.Scratch → Type 0 };

    /// What is added.
    ghost template: { Self → SpecTemplate };

    /// How many bytes of a row are seen at most.
    fn most_seen(&self) -> usize
        ensures most { result ≡ most_of (template self.now) }
        ensures few { result ≤ 1048576 };

    /// Of no row.
    fn new_scratch(&self, alloc: Global) -> Self::Scratch
        ensures fits { fits self.now result }
        ensures none { ahead result ≡ [] };

    /// Remembers the addresses that the first rows of some bytes have, at most 64, where it can.
    fn look(&self, scratch: &mut Self::Scratch, bytes: &[u8])
        requires { fits self.now scratch.old }
        ensures { fits self.now scratch.new };

    /// The addresses of rows ahead.
    fn addresses<'s>(&self, scratch: &'s Self::Scratch) -> &'s [IpAddr]
        requires { fits self.now scratch.now }
        ensures same { result.now ≡ ahead scratch.now }
        ensures few { length result.now ≤ 64 };

    /// This place in a row, of which such a text is seen, that may go on, was read.
    ghost reads: { Self → Self.Scratch → List ℕ → Bool → SpecRowPlace → Type 0 };

    /// Where something is added to a row.
    fn read(
        &self,
        alloc: Global,
        scratch: &mut Self::Scratch,
        text: &[u8],
        is_long: bool,
    ) -> Result<ReadRow, AllocError>
        requires { fits self.now scratch.old }
        ensures read { IfOk result (IsReadTo (reads self.now scratch.new text.now is_long)
            (template self.now) text.now is_long) }
        ensures same { ahead scratch.new ≡ ahead scratch.old }
        ensures fits { fits self.now scratch.new };

    /// The address of that row. One of IPv6 is put into `long`.
    fn address(
        &self,
        scratch: &mut Self::Scratch,
        text: &[u8],
        is_long: bool,
        place: &RowPlace,
        long: &mut Ipv6Addr,
    ) -> RowAddress
        requires fits { fits self.now scratch.old }
        requires read { reads self.now scratch.old text.now is_long place.now }
        ensures read { ReadsPlace (template self.now) text.now is_long place.now
            (address_of_row result long.new) }
        ensures numbered { IsNumbered (ahead scratch.old) result }
        ensures same { ahead scratch.new ≡ ahead scratch.old }
        ensures fits { fits self.now scratch.new };

    /// Puts what comes before all that is added to a row.
    fn put_lead(
        &self,
        text: &[u8],
        is_long: bool,
        notes: &mut Notes,
        out: &mut Vec<u8>,
    ) -> Result<(), AllocError>
        ensures { OnOk result (PutsLead (template self.now) text.now is_long
            out.old.items out.new.items) };

    /// Whether the network of an address is shown.
    fn shows_network(&self) -> bool
        ensures { result ≡ spec_shows_network (template self.now) };

    /// Whether the text of records may be kept.
    fn is_kept(&self) -> bool
        ensures { result ≡ spec_is_kept (template self.now) };

    /// Puts what comes before the text of records: the network of the address, where it is shown.
    fn put_front(
        &self,
        alloc: Global,
        network: Option<IpNetwork>,
        out: &mut Vec<u8>,
    ) -> Result<(), AllocError>
        ensures { OnOk result
            (PutsFrontText (template self.now) network out.old.items out.new.items) };

    /// Puts the text of records in place of nothing, and says how the row fares.
    fn put_text<A: ReadRecords>(
        &self,
        alloc: Global,
        found: &A,
        network: Option<IpNetwork>,
        text: &mut Vec<u8>,
    ) -> Result<Outcome, AllocError>
        requires { text.old.items ≡ [] }
        ensures { IfOk result (IsTextOf (template self.now) (A.reads found.now)
            (A.each found.now) network text.new.items) };

    /// The text where there is no record.
    fn none_text(&self, alloc: Global) -> Result<Vec<u8>, AllocError>
        ensures { IfOk result (λ text. IsNoneText (template self.now) text.items) };

    /// Puts what is added for an address that is rejected, where this is the text where there is no record.
    fn put_rejected(&self, none: &[u8], out: &mut Vec<u8>) -> Result<(), AllocError>
        requires { IsNoneText (template self.now) none.now }
        ensures { OnOk result (PutsRejected (template self.now) out.old.items out.new.items) };

    /// Puts what is added to a row without an address, where this is the text where there is no record.
    fn put_unread(&self, place: RowPlace, none: &[u8], out: &mut Vec<u8>) -> Result<(), AllocError>
        requires { IsNoneText (template self.now) none.now }
        ensures { OnOk result
            (PutsUnread (template self.now) place out.old.items out.new.items) };

    /// How many fields there are.
    fn count(&self) -> usize;

    /// Notes of which fields a record had a value, or why one can't be read.
    fn note<A: FoundRecords>(&self, alloc: Global, found: &A, are_read: bool, notes: &mut Notes);
}
