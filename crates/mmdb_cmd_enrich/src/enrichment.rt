//! What is added to a row.
ghost use Rattle.std.specs.Prelude.{◌≡◌, ◌++◌, ℕ, List, Option, IfOk, IfSome, None, true, false};
ghost use Rattle.std.specs.declared.net.ip_addr.IpAddr.{IpAddr as SpecIpAddr};
ghost use Rattle.std.specs.declared.net.ip_addr.IpAddr.TheVariants.{V4, V6};
ghost use Rattle.mmdb_net.specs.declared.network.IpNetwork.{IpNetwork as SpecIpNetwork};
ghost use Rattle.mmdb_filter.specs.Lines.{StandsBehind};
ghost use Rattle.mmdb_filter.specs.declared.counts.Outcome.TheVariants.{Failed, Found, Unreadable};
ghost use Rattle.mmdb_cmd_enrich.specs.Added.{Adds, AddsAt, PutsFor, PutsForAddress, PutsFound, PutsRecords, PutsRejected, PutsUnread};
ghost use Rattle.mmdb_cmd_enrich.specs.Ahead.{IsNumberOf, IsNumbered, address_of_row};
ghost use Rattle.mmdb_cmd_enrich.specs.Layers.{AreKeysFor, has_record as spec_has_record};
ghost use Rattle.mmdb_cmd_enrich.specs.Remembers.{Remembers};
ghost use Rattle.mmdb_cmd_enrich.specs.Template.{is_kept as spec_is_kept};

use crate::ahead::{AheadAddress, RowAddress, ShortAddress};
use crate::ask::Ask;
use crate::cache::{AddedCache, Keeping, KeptBy, RecordKeys};
use crate::found::{FoundRecords, WholeRecord};
use crate::memory::{EnrichMemory, KeptTexts};
use crate::notes::Notes;
use crate::place::{ReadRow, RowPlace, put_at, put_text};
use crate::template::Template;
use mmdb_cache::Worth;
use mmdb_filter::{Added, Additions, Outcome};
use mmdb_net::IpNetwork;
use std::alloc::{AllocError, Global};
use std::net::{IpAddr, Ipv6Addr};

/// What a template adds to rows of what databases have for their addresses.
#[derive(Drop)]
pub struct Enrichment<D, W> {
    pub alloc: Global,
    /// Where addresses are looked up.
    pub from: D,
    /// What is added.
    pub what: W,
}

impl<D: Ask, W: Template> Enrichment<D, W> {
    /// A memory of no row, with what is noted of records that were read before. It takes memory for the texts of records at once.
    pub fn memory(&self, notes: Notes) -> Result<EnrichMemory<D::Room, W::Scratch>, AllocError>
        ensures texts { IfOk result (λ memory.
            Remembers (W.template self.now.what) (D.databases self.now.from) memory.kept) }
        ensures scratch { IfOk result (λ memory. W.fits self.now.what memory.scratch) }
        ensures room { IfOk result (λ memory.
            D.knows self.now.from memory.room (W.ahead memory.scratch)) }
    {
        let none = self.what.none_text(self.alloc)?;
        let kept = KeptTexts {
            cache: AddedCache::new(self.alloc)?,
            none,
            text: Vec::new(self.alloc),
            firsts: Worth::new(),
            notes,
        };
        Ok(EnrichMemory {
            kept,
            room: self.from.new_room(self.alloc),
            scratch: self.what.new_scratch(self.alloc),
        })
    }

    // Notes the records that were read, or were not, until all is noted.
    #[inline(always)]
    fn note(&self, found: &D::Found, are_read: bool, notes: &mut Notes) {
        if !are_read || !notes.are_full(self.what.count()) {
            self.note_more(found, are_read, notes);
        }
    }

    // Notes the records that were read, or were not.
    #[inline(never)]
    fn note_more(&self, found: &D::Found, are_read: bool, notes: &mut Notes) {
        found.note_records(notes);
        self.what.note(self.alloc, found, are_read, notes);
    }

    // Keeps the text of records that was made, where it may be kept, unless one can't be read and rows with such records are still
    // named.
    #[inline(always)]
    fn keep(&self, found: &D::Found, outcome: Outcome, texts: &mut KeptTexts)
        requires of { D.Found.is_of found.now (D.databases self.now.from) }
        requires made { spec_is_kept (W.template self.now.what) ≡ true
            → (shown : Option SpecIpNetwork) → AddsAt (W.template self.now.what)
            (D.databases self.now.from) shown (D.Found.offsets found.now)
            texts.old.text.items outcome }
        requires fits { Remembers (W.template self.now.what) (D.databases self.now.from)
            texts.old }
        ensures same { texts.new.text ≡ texts.old.text }
        ensures fits { Remembers (W.template self.now.what) (D.databases self.now.from)
            texts.new }
    {
        if !self.what.is_kept() {
            return;
        }
        let are_read = outcome == Outcome::Found;
        let keeping = texts.notes.keeping(self.what.count(), are_read);
        texts.cache.keep(
            found.keys().by_all(),
            texts.text.as_slice(),
            outcome,
            keeping,
        );
    }

    // Whether the text of the first database's record alone is made: where all is noted, and that is mostly the text of all records.
    #[inline(always)]
    fn tries_first(&self, texts: &mut KeptTexts) -> bool
        ensures kept { result ≡ true → spec_is_kept (W.template self.now.what) ≡ true }
        ensures cache { texts.new.cache ≡ texts.old.cache }
        ensures none { texts.new.none ≡ texts.old.none }
    {
        self.what.is_kept() && texts.notes.are_full(self.what.count()) && texts.firsts.keeps()
    }

    // Adds the text of records where that is the text of the first database's, since it has a value of each field, keeps it for all
    // records with that one, and says whether it does.
    fn put_first(
        &self,
        has_comma: bool,
        found: &D::Found,
        texts: &mut KeptTexts,
        out: &mut Vec<u8>,
    ) -> Result<bool, AllocError>
        requires of { D.Found.is_of found.now (D.databases self.now.from) }
        requires fits { Remembers (W.template self.now.what) (D.databases self.now.from)
            texts.old }
        ensures added { IfOk result (λ is_put. is_put ≡ true → (network : Option SpecIpNetwork)
            → PutsRecords (W.template self.now.what) (D.databases self.now.from) has_comma network
            (D.Found.offsets found.now) Found out.old.items out.new.items) }
        ensures none { IfOk result (λ is_put. is_put ≡ false → out.new.items ≡ out.old.items) }
        ensures fits { Remembers (W.template self.now.what) (D.databases self.now.from)
            texts.new }
    {
        let (Some(first), Some(number)) = (found.first(), found.keys().first) else {
            return Ok(false);
        };
        if !self.tries_first(texts) {
            return Ok(false);
        }
        texts.text.clear();
        let whole = WholeRecord { record: first };
        let outcome = self
            .what
            .put_text(self.alloc, &whole, None, &mut texts.text)?;
        let Outcome::Found = outcome else {
            return Ok(false);
        };
        texts.firsts.find();
        let keeping = texts.notes.keeping(self.what.count(), true);
        let text = texts.text.as_slice();
        texts
            .cache
            .keep(KeptBy::First(number), text, Outcome::Found, keeping);
        put_at(has_comma, text, Outcome::Found, out)?;
        Ok(true)
    }

    // Adds the text of records that was not kept, and keeps it.
    #[inline(never)]
    fn put_records(
        &self,
        has_comma: bool,
        found: &D::Found,
        network: Option<IpNetwork>,
        texts: &mut KeptTexts,
        out: &mut Vec<u8>,
    ) -> Result<Outcome, AllocError>
        requires of { D.Found.is_of found.now (D.databases self.now.from) }
        requires there { spec_has_record (D.Found.offsets found.now) ≡ true }
        requires fits { Remembers (W.template self.now.what) (D.databases self.now.from)
            texts.old }
        ensures added { IfOk result (λ fares. PutsRecords (W.template self.now.what)
            (D.databases self.now.from) has_comma network (D.Found.offsets found.now) fares
            out.old.items out.new.items) }
        ensures fits { Remembers (W.template self.now.what) (D.databases self.now.from)
            texts.new }
    {
        let is_put = self.put_first(has_comma, found, texts, out)?;
        if is_put {
            return Ok(Outcome::Found);
        }
        texts.text.clear();
        let outcome = self
            .what
            .put_text(self.alloc, found, network, &mut texts.text)?;
        self.keep(found, outcome, texts);
        self.note(found, outcome == Outcome::Found, &mut texts.notes);
        put_at(has_comma, texts.text.as_slice(), outcome, out)
    }

    // Adds the text where there is no record, and keeps it.
    #[inline(never)]
    fn put_absent(
        &self,
        has_comma: bool,
        found: &D::Found,
        network: Option<IpNetwork>,
        texts: &mut KeptTexts,
        out: &mut Vec<u8>,
    ) -> Result<Outcome, AllocError>
        requires of { D.Found.is_of found.now (D.databases self.now.from) }
        requires absent { spec_has_record (D.Found.offsets found.now) ≡ false }
        requires fits { Remembers (W.template self.now.what) (D.databases self.now.from)
            texts.old }
        ensures added { IfOk result (λ fares. PutsRecords (W.template self.now.what)
            (D.databases self.now.from) has_comma network (D.Found.offsets found.now) fares
            out.old.items out.new.items) }
        ensures fits { Remembers (W.template self.now.what) (D.databases self.now.from)
            texts.new }
    {
        let none = texts.none.as_slice();
        texts.cache.keep(
            found.keys().by_all(),
            none,
            Outcome::Absent,
            Keeping::Always,
        );
        put_text(has_comma, texts.none.as_slice(), Outcome::Absent, out)
    }

    // Adds the text of what was found, or that where there is no record.
    fn put_answer(
        &self,
        has_comma: bool,
        found: &D::Found,
        network: Option<IpNetwork>,
        texts: &mut KeptTexts,
        out: &mut Vec<u8>,
    ) -> Result<Outcome, AllocError>
        requires of { D.Found.is_of found.now (D.databases self.now.from) }
        requires fits { Remembers (W.template self.now.what) (D.databases self.now.from)
            texts.old }
        ensures added { IfOk result (λ fares. PutsRecords (W.template self.now.what)
            (D.databases self.now.from) has_comma network (D.Found.offsets found.now) fares
            out.old.items out.new.items) }
        ensures fits { Remembers (W.template self.now.what) (D.databases self.now.from)
            texts.new }
    {
        if found.has_record() {
            self.put_records(has_comma, found, network, texts, out)
        } else {
            self.put_absent(has_comma, found, network, texts, out)
        }
    }

    // Adds the text of what was found: the one that is kept, or a new one.
    fn put_found(
        &self,
        has_comma: bool,
        found: &D::Found,
        network: Option<IpNetwork>,
        texts: &mut KeptTexts,
        out: &mut Vec<u8>,
    ) -> Result<Outcome, AllocError>
        requires of { D.Found.is_of found.now (D.databases self.now.from) }
        requires fits { Remembers (W.template self.now.what) (D.databases self.now.from)
            texts.old }
        ensures added { IfOk result (λ fares. PutsRecords (W.template self.now.what)
            (D.databases self.now.from) has_comma network (D.Found.offsets found.now) fares
            out.old.items out.new.items) }
        ensures fits { Remembers (W.template self.now.what) (D.databases self.now.from)
            texts.new }
    {
        if let Some(kept) = texts.cache.kept_of(found.keys()) {
            return put_at(has_comma, kept.cells, kept.outcome, out);
        }
        self.put_answer(has_comma, found, network, texts, out)
    }

    // Adds the text of what was found, after the network of the address where that is shown.
    fn put_whole(
        &self,
        has_comma: bool,
        found: &D::Found,
        texts: &mut KeptTexts,
        out: &mut Vec<u8>,
    ) -> Result<Outcome, AllocError>
        requires of { D.Found.is_of found.now (D.databases self.now.from) }
        requires fits { Remembers (W.template self.now.what) (D.databases self.now.from)
            texts.old }
        ensures added { IfOk result (λ fares. PutsFound (W.template self.now.what)
            (D.databases self.now.from) has_comma (D.Found.shows found.now)
            (D.Found.offsets found.now) fares out.old.items out.new.items) }
        ensures fits { Remembers (W.template self.now.what) (D.databases self.now.from)
            texts.new }
    {
        if !self.what.shows_network() {
            return self.put_answer(has_comma, found, None, texts, out);
        }
        let network = found.shown_network();
        self.what.put_front(self.alloc, network, out)?;
        self.put_found(has_comma, found, network, texts, out)
    }

    // Adds what is added to a row without an address.
    #[inline(always)]
    fn put_unread(
        &self,
        place: RowPlace,
        texts: &KeptTexts,
        out: &mut Vec<u8>,
    ) -> Result<Outcome, AllocError>
        requires { Remembers (W.template self.now.what) (D.databases self.now.from) texts.now }
        ensures { IfOk result (λ fares. PutsUnread (W.template self.now.what) place
            out.old.items out.new.items × (fares ≡ Unreadable)) }
    {
        self.what.put_unread(place, texts.none.as_slice(), out)?;
        Ok(Outcome::Unreadable)
    }

    // Adds what is added for an address that is rejected.
    #[inline(never)]
    fn put_rejected(
        &self,
        address: IpAddr,
        texts: &mut KeptTexts,
        out: &mut Vec<u8>,
    ) -> Result<Outcome, AllocError>
        requires fits { Remembers (W.template self.now.what) (D.databases self.now.from)
            texts.old }
        ensures added { IfOk result (λ fares. PutsRejected (W.template self.now.what)
            out.old.items out.new.items × (fares ≡ Failed)) }
        ensures fits { Remembers (W.template self.now.what) (D.databases self.now.from)
            texts.new }
    {
        self.from
            .note_rejected(self.alloc, address, &mut texts.notes);
        self.what.put_rejected(texts.none.as_slice(), out)?;
        Ok(Outcome::Failed)
    }

    // Adds the text of an address that is not kept, and keeps it.
    #[inline(always)]
    fn put_new(
        &self,
        has_comma: bool,
        asked: AheadAddress,
        texts: &mut KeptTexts,
        room: &mut D::Room,
        out: &mut Vec<u8>,
    ) -> Result<Outcome, AllocError>
        requires numbered { (addresses : List SpecIpAddr)
            × D.knows self.now.from room.old addresses
            × IsNumberOf addresses asked.number asked.address }
        requires has { D.has self.now.from room.old asked.address }
        requires fits { Remembers (W.template self.now.what) (D.databases self.now.from)
            texts.old }
        ensures added { IfOk result (λ fares. PutsForAddress (W.template self.now.what)
            (D.databases self.now.from) has_comma asked.address fares out.old.items out.new.items) }
        ensures fits { Remembers (W.template self.now.what) (D.databases self.now.from)
            texts.new }
        ensures knows { (addresses : List SpecIpAddr)
            → D.knows self.now.from room.old addresses
            → D.knows self.now.from room.new addresses }
    {
        self.from.ask(room, &asked.address, asked.number);
        match self.from.found(room) {
            Some(found) => self.put_whole(has_comma, found, texts, out),
            None => self.put_rejected(asked.address, texts, out),
        }
    }

    // The same of one of IPv4.
    #[inline(never)]
    fn put_new_short(
        &self,
        has_comma: bool,
        short: ShortAddress,
        texts: &mut KeptTexts,
        room: &mut D::Room,
        out: &mut Vec<u8>,
    ) -> Result<Outcome, AllocError>
        requires numbered { (addresses : List SpecIpAddr)
            × D.knows self.now.from room.old addresses
            × IsNumberOf addresses short.number (V4 short.address) }
        requires has { D.has self.now.from room.old (V4 short.address) }
        requires fits { Remembers (W.template self.now.what) (D.databases self.now.from)
            texts.old }
        ensures added { IfOk result (λ fares. PutsForAddress (W.template self.now.what)
            (D.databases self.now.from) has_comma (V4 short.address) fares
            out.old.items out.new.items) }
        ensures fits { Remembers (W.template self.now.what) (D.databases self.now.from)
            texts.new }
        ensures knows { (addresses : List SpecIpAddr)
            → D.knows self.now.from room.old addresses
            → D.knows self.now.from room.new addresses }
    {
        let asked = AheadAddress {
            address: IpAddr::V4(short.address),
            number: short.number,
        };
        self.put_new(has_comma, asked, texts, room, out)
    }

    // The same of one of IPv6.
    #[inline(never)]
    fn put_new_long(
        &self,
        has_comma: bool,
        address: &Ipv6Addr,
        texts: &mut KeptTexts,
        room: &mut D::Room,
        out: &mut Vec<u8>,
    ) -> Result<Outcome, AllocError>
        requires knows { (addresses : List SpecIpAddr)
            × D.knows self.now.from room.old addresses }
        requires has { D.has self.now.from room.old (V6 address.now) }
        requires fits { Remembers (W.template self.now.what) (D.databases self.now.from)
            texts.old }
        ensures added { IfOk result (λ fares. PutsForAddress (W.template self.now.what)
            (D.databases self.now.from) has_comma (V6 address.now) fares
            out.old.items out.new.items) }
        ensures fits { Remembers (W.template self.now.what) (D.databases self.now.from)
            texts.new }
        ensures knows { (addresses : List SpecIpAddr)
            → D.knows self.now.from room.old addresses
            → D.knows self.now.from room.new addresses }
    {
        let asked = AheadAddress {
            address: IpAddr::V6(*address),
            number: None,
        };
        self.put_new(has_comma, asked, texts, room, out)
    }

    // Adds the text that is kept of records, by their numbers, if there is one, and says how the row fares then. With the network
    // none is kept whole.
    #[inline(always)]
    fn put_kept(
        &self,
        has_comma: bool,
        keys: RecordKeys,
        texts: &mut KeptTexts,
        out: &mut Vec<u8>,
    ) -> Result<Option<Outcome>, AllocError>
        requires fits { Remembers (W.template self.now.what) (D.databases self.now.from)
            texts.old }
        ensures added { IfOk result (λ put. IfSome put (λ fares. (address : SpecIpAddr)
            → AreKeysFor (D.databases self.now.from) address keys
            → PutsForAddress (W.template self.now.what) (D.databases self.now.from) has_comma
            address fares out.old.items out.new.items)) }
        ensures none { IfOk result (λ put. put ≡ None → out.new.items ≡ out.old.items) }
        ensures fits { Remembers (W.template self.now.what) (D.databases self.now.from)
            texts.new }
    {
        if !self.what.shows_network()
            && let Some(kept) = texts.cache.kept_of(keys)
        {
            let outcome = put_at(has_comma, kept.cells, kept.outcome, out)?;
            texts.cache.note_found();
            return Ok(Some(outcome));
        }
        Ok(None)
    }

    // Adds the text of an address of IPv4: the one that is kept, or a new one.
    #[inline(always)]
    fn put_short(
        &self,
        has_comma: bool,
        short: ShortAddress,
        texts: &mut KeptTexts,
        room: &mut D::Room,
        out: &mut Vec<u8>,
    ) -> Result<Outcome, AllocError>
        requires numbered { (addresses : List SpecIpAddr)
            × D.knows self.now.from room.old addresses
            × IsNumberOf addresses short.number (V4 short.address) }
        requires fits { Remembers (W.template self.now.what) (D.databases self.now.from)
            texts.old }
        ensures added { IfOk result (λ fares. PutsForAddress (W.template self.now.what)
            (D.databases self.now.from) has_comma (V4 short.address) fares
            out.old.items out.new.items) }
        ensures fits { Remembers (W.template self.now.what) (D.databases self.now.from)
            texts.new }
        ensures knows { (addresses : List SpecIpAddr)
            → D.knows self.now.from room.old addresses
            → D.knows self.now.from room.new addresses }
    {
        let keys = self
            .from
            .keys(room, &IpAddr::V4(short.address), short.number)?;
        match self.put_kept(has_comma, keys, texts, out)? {
            Some(outcome) => Ok(outcome),
            None => self.put_new_short(has_comma, short, texts, room, out),
        }
    }

    // The same of one of IPv6.
    #[inline(never)]
    fn put_long(
        &self,
        has_comma: bool,
        address: &Ipv6Addr,
        texts: &mut KeptTexts,
        room: &mut D::Room,
        out: &mut Vec<u8>,
    ) -> Result<Outcome, AllocError>
        requires knows { (addresses : List SpecIpAddr)
            × D.knows self.now.from room.old addresses }
        requires fits { Remembers (W.template self.now.what) (D.databases self.now.from)
            texts.old }
        ensures added { IfOk result (λ fares. PutsForAddress (W.template self.now.what)
            (D.databases self.now.from) has_comma (V6 address.now) fares
            out.old.items out.new.items) }
        ensures fits { Remembers (W.template self.now.what) (D.databases self.now.from)
            texts.new }
        ensures knows { (addresses : List SpecIpAddr)
            → D.knows self.now.from room.old addresses
            → D.knows self.now.from room.new addresses }
    {
        let keys = self.from.keys(room, &IpAddr::V6(*address), None)?;
        match self.put_kept(has_comma, keys, texts, out)? {
            Some(outcome) => Ok(outcome),
            None => self.put_new_long(has_comma, address, texts, room, out),
        }
    }

    // Adds the text of the address in a row; one of IPv6 is this one.
    #[inline(always)]
    fn put_row(
        &self,
        place: RowPlace,
        row: RowAddress,
        long: &Ipv6Addr,
        memory: &mut EnrichMemory<D::Room, W::Scratch>,
        out: &mut Vec<u8>,
    ) -> Result<Outcome, AllocError>
        requires numbered { (addresses : List SpecIpAddr)
            × D.knows self.now.from memory.old.room addresses × IsNumbered addresses row }
        requires fits { Remembers (W.template self.now.what) (D.databases self.now.from)
            memory.old.kept }
        ensures added { IfOk result (λ fares. PutsFor (W.template self.now.what)
            (D.databases self.now.from) place (address_of_row row long.now) fares
            out.old.items out.new.items) }
        ensures fits { Remembers (W.template self.now.what) (D.databases self.now.from)
            memory.new.kept }
        ensures knows { (addresses : List SpecIpAddr)
            → D.knows self.now.from memory.old.room addresses
            → D.knows self.now.from memory.new.room addresses }
        ensures scratch { memory.new.scratch ≡ memory.old.scratch }
    {
        let (texts, room) = (&mut memory.kept, &mut memory.room);
        match row {
            RowAddress::Short { address, number } => {
                let short = ShortAddress { address, number };
                self.put_short(place.has_comma, short, texts, room, out)
            }
            RowAddress::Long => self.put_long(place.has_comma, long, texts, room, out),
            RowAddress::Nothing => self.put_unread(place, texts, out),
        }
    }

    // Adds to a row at a place.
    #[inline(always)]
    fn put_place(
        &self,
        place: RowPlace,
        memory: &mut EnrichMemory<D::Room, W::Scratch>,
        text: &[u8],
        is_long: bool,
        out: &mut Vec<u8>,
    ) -> Result<Added, AllocError>
        requires read { W.reads self.now.what memory.old.scratch text.now is_long place }
        requires texts { Remembers (W.template self.now.what) (D.databases self.now.from)
            memory.old.kept }
        requires scratch { W.fits self.now.what memory.old.scratch }
        requires room { D.knows self.now.from memory.old.room (W.ahead memory.old.scratch) }
        ensures added { IfOk result (λ addition. (extra : List ℕ)
            × Adds (W.template self.now.what) (D.databases self.now.from) text.now is_long extra
            addition.behind addition.outcome × (out.new.items ≡ out.old.items ++ extra)) }
        ensures behind { IfOk result (λ addition.
            StandsBehind text.now is_long addition.behind) }
        ensures texts { Remembers (W.template self.now.what) (D.databases self.now.from)
            memory.new.kept }
        ensures scratch { W.fits self.now.what memory.new.scratch }
        ensures room { D.knows self.now.from memory.new.room (W.ahead memory.new.scratch) }
    {
        self.what
            .put_lead(text, is_long, &mut memory.kept.notes, out)?;
        let mut long = Ipv6Addr::UNSPECIFIED;
        let row = self
            .what
            .address(&mut memory.scratch, text, is_long, &place, &mut long);
        let outcome = self.put_row(place, row, &long, memory, out)?;
        Ok(Added {
            outcome,
            behind: place.behind,
        })
    }
}

impl<D: Ask, W: Template> Additions for Enrichment<D, W> {
    ghost use Rattle.mmdb_cmd_enrich.specs.Template.{most_of};

    type Memory = EnrichMemory<D::Room, W::Scratch>;

    ghost adds = { λ e. record {
      most = most_of (W.template e.what);
      adds = λ text goes_on extra behind outcome.
          Adds (W.template e.what) (D.databases e.from) text goes_on extra behind outcome;
    } };

    ghost fits = { λ e memory. Remembers (W.template e.what) (D.databases e.from) memory.kept
        × W.fits e.what memory.scratch × D.knows e.from memory.room (W.ahead memory.scratch) };

    #[inline(always)]
    fn most_seen(&self) -> usize {
        self.what.most_seen()
    }

    fn add(
        &self,
        memory: &mut EnrichMemory<D::Room, W::Scratch>,
        text: &[u8],
        is_long: bool,
        out: &mut Vec<u8>,
    ) -> Result<Added, AllocError> {
        memory.kept.notes.pass_row();
        match self
            .what
            .read(self.alloc, &mut memory.scratch, text, is_long)?
        {
            ReadRow::Place(place) => self.put_place(place, memory, text, is_long, out),
            ReadRow::Passed(outcome) => Ok(Added { outcome, behind: 0 }),
        }
    }

    fn foresee(&self, memory: &mut EnrichMemory<D::Room, W::Scratch>, bytes: &[u8]) {
        if self.from.is_large() {
            self.what.look(&mut memory.scratch, bytes);
            let addresses = self.what.addresses(&memory.scratch);
            self.from.find(&mut memory.room, addresses);
        }
    }
}
