//! Readers, and lookups of addresses.
ghost use Rattle.std.specs.Prelude.{◌≡◌, ℕ, ◌+◌, ◌^◌, ◌<◌, ◌≤◌, ◌⊎◌, ◌↔◌, IfOk, IfErr, IfSome, OnOk, MatchOption, MatchResult, length, slice_index, nat_eq, false};
ghost use Rattle.mmdb_format.specs.Error.{OfDatabase, OfInput, kind_of, MemoryApart, FailsAs};
ghost use Rattle.mmdb_reader.specs.Metadata.{metadata_datum};
ghost use Rattle.mmdb_reader.specs.File.{database, IsSupported, HasRoom, data_start, data_length, data_section, marker_bytes, metadata_section, separator, tree_len};

use crate::file_layout::FileLayout;
use crate::lookup_result::{LookupResult, NumberedAddress};
use crate::marker::MARKER;
use crate::metadata::Metadata;
use crate::record::Record;
use crate::steps::Steps;
use mmdb_format::error::MaxMindDbError;
use mmdb_format::message::{Message, Text};
use mmdb_tree::{Nodes, SEPARATOR, Table, TreeRecord};
use std::alloc::{AllocError, Global};
use std::convert::AsSlice;
use std::marker::Model;
use std::net::IpAddr;

// A leaf as the network that shows it, with the number to which its walk leads.
#[derive(Clone, Copy)]
pub(crate) struct Leaf {
    pub(crate) number: usize,
    pub(crate) address: NumberedAddress,
    pub(crate) prefix: usize,
    pub(crate) ghost is_width: { nat_eq address.width 32 ≡ false → address.width ≡ 128 },
    pub(crate) ghost fits: { address.bits < 2 ^ address.width },
    pub(crate) ghost is_prefix: { prefix ≤ address.width },
}

/// A database over the bytes that a source holds or lends.
///
///     let reader = Reader::open_readfile(&rt, rt.alloc(), file.as_str())?;
///
///     let address: IpAddr = "200.0.0.1".parse()?;
///     let found = reader.lookup(address)?;
///     let value: Option<Value<'_>> = found.decode(rt.alloc())?;
#[derive(Drop)]
pub struct Reader<S: AsSlice<u8> + Drop> {
    source: S,
    marker: usize,
    pub(crate) metadata: Metadata,
    data_start: usize,
    pub(crate) ipv4_start: usize,
    pub(crate) ipv4_depth: u8,
    pub(crate) ipv4_table: Table,
    pub(crate) ipv6_table: Table,
}

impl<S: AsSlice<u8> + Drop> Model for Reader<S> {
    ghost use Rattle.mmdb_reader.specs.Metadata.{metadata_datum};
    ghost use Rattle.mmdb_reader.specs.File.{Database, database};
    ghost use Rattle.mmdb_reader.specs.Kept.{IsReader};

    ghost Value = { Database };

    ghost view = { λ r. database (S.items r.source) r.marker (metadata_datum r.metadata) };

    ghost invariant = { λ r. IsReader
        (database (S.items r.source) r.marker (metadata_datum r.metadata)) r.data_start r.ipv4_start r.ipv4_depth r.ipv4_table r.ipv6_table };
}

impl<S: AsSlice<u8> + Drop> Reader<S> {
    ghost use Rattle.mmdb_reader.specs.Found.{database_asked, leaf_of, offset_found, shown_as_ipv4, section_of_record, place_of_record};
    ghost use Rattle.mmdb_reader.specs.Counting.{CountsAnswer, CountsNodes};
    ghost use Rattle.mmdb_reader.specs.Kept.{IsLayoutOf, database_of};
    ghost use Rattle.mmdb_reader.specs.Lookup.{CanAsk, Answers, IsInvalidAt, outcome_of, outcome_at, record_at};
    ghost use Rattle.mmdb_reader.specs.Many.{IsLookup};
    ghost use Rattle.mmdb_reader.specs.Working.{IsLeafAt, block_of};
    ghost use Rattle.mmdb_reader.specs.Shown.{is_shown_as_ipv4, has_ipv4_subtree, ipv4_start};
    ghost use Rattle.mmdb_tree.specs.Nodes.{tree_in};
    ghost use Rattle.mmdb_tree.specs.declared.record.TreeRecord.TheVariants.{Invalid};
    ghost use Rattle.mmdb_reader.specs.File.{tree_of, width, data_section};

    // A reader of a source with this layout.
    pub(crate) fn from_layout(
        alloc: Global,
        source: S,
        layout: FileLayout,
    ) -> Result<Reader<S>, AllocError>
        requires { IsLayoutOf (S.items source) layout }
        ensures { IfOk result (λ r. r ≡ database_of (S.items source) layout) }
    {
        let nodes = layout.nodes(source.as_slice());
        let ipv4_table = nodes.table(alloc, layout.ipv4_start)?;
        let ipv6_table = if layout.metadata.ip_version == 6 {
            nodes.table(alloc, 0)?
        } else {
            Table::empty(alloc)
        };
        Ok(Reader {
            source,
            marker: layout.marker,
            data_start: layout.data_start,
            ipv4_start: layout.ipv4_start,
            ipv4_depth: layout.ipv4_depth,
            ipv4_table,
            ipv6_table,
            metadata: layout.metadata,
        })
    }

    /// What the database says of itself.
    pub fn metadata(&self) -> &Metadata
        ensures { metadata_datum result.now ≡ self.now.metadata }
    {
        &self.metadata
    }

    // All bytes of the file.
    pub(crate) fn bytes(&self) -> &[u8]
        ensures { result.now ≡ self.now.bytes }
    {
        self.source.as_slice()
    }

    // Where the data section begins.
    pub(crate) fn data_start(&self) -> usize
        ensures { result ≡ data_start self.now }
    {
        self.data_start
    }

    /// The data section: from what follows the separator up to the metadata's marker. The offsets of answers are places
    /// of it.
    pub fn data_section(&self) -> &[u8]
        ensures { result.now ≡ data_section self.now }
    {
        &self.source.as_slice()[self.data_start..self.marker]
    }

    /// The record at an offset of the data section, as answers have it. Nothing is read before its value is asked for.
    #[inline(always)]
    pub fn stored_record(&self, offset: usize) -> Record<'_, S>
        ensures section { section_of_record result ≡ data_section self.now }
        ensures place { place_of_record result ≡ offset }
    {
        Record {
            reader: self,
            offset,
        }
    }

    // How many bytes the data section has.
    pub(crate) fn data_len(&self) -> usize
        ensures { result ≡ data_length self.now }
    {
        self.marker - self.data_start
    }

    // Where the metadata section begins.
    pub(crate) fn metadata_start(&self) -> usize
        ensures { result ≡ self.now.marker + length marker_bytes }
    {
        self.source.as_slice().len() - self.metadata_section().len()
    }

    // The metadata section.
    pub(crate) fn metadata_section(&self) -> &[u8]
        ensures { result.now ≡ metadata_section self.now.bytes self.now.marker }
    {
        &self.source.as_slice()[self.marker + MARKER.len()..]
    }

    // The bytes between the tree and the data section.
    pub(crate) fn separator(&self) -> &[u8]
        ensures length { length result.now ≡ separator }
        ensures bytes { (j : ℕ) → j < separator
            → slice_index result.now j ≡ slice_index self.now.bytes (tree_len self.now + j) }
    {
        &self.source.as_slice()[self.data_start - SEPARATOR..self.data_start]
    }

    // The nodes of the search tree.
    #[inline(always)]
    pub(crate) fn nodes(&self) -> Nodes<'_>
        ensures tree { tree_in result ≡ tree_of self.now }
        ensures count { result.node_count ≡ self.now.metadata.node_count }
        ensures few { result.node_count < 2 ^ 32 }
    {
        Nodes {
            bytes: self.source.as_slice(),
            node_count: self.metadata.node_count as usize,
            record_size: self.metadata.record_size,
        }
    }

    // How many bits a full address has.
    pub(crate) fn width(&self) -> u8
        ensures value { result ≡ width self.now }
        ensures within { result ≤ 128 }
    {
        if self.metadata.ip_version == 6 {
            128
        } else {
            32
        }
    }

    // Whether IPv4 begins on a node of an IPv6 database.
    pub(crate) fn has_ipv4_subtree(&self) -> bool
        ensures { result ≡ has_ipv4_subtree self.now }
    {
        self.metadata.ip_version == 6 && self.ipv4_start() < self.metadata.node_count as usize
    }

    // Where IPv4 begins.
    pub(crate) fn ipv4_start(&self) -> usize
        ensures { result ≡ ipv4_start self.now }
    {
        self.ipv4_start
    }

    // The leaf on an address's bits, or none where IPv6 is asked of an IPv4 database. Where the first
    // sixteen bits lead is read from a table.
    #[inline(always)]
    fn find_leaf(&self, address: &IpAddr, steps: &mut Steps) -> Option<Leaf>
        requires room { steps.old + 128 < 2 ^ 64 }
        ensures found { MatchOption result
            (¬ (CanAsk self.now address.now))
            (λ leaf. IsLeafAt self.now address.now (block_of self.now leaf) leaf.number) }
        ensures shown { IfSome result
            (λ leaf. nat_eq leaf.address.width 32 ≡ is_shown_as_ipv4 self.now address.now) }
        ensures counted { MatchOption result (steps.new ≡ steps.old)
            (λ leaf. CountsNodes self.now address.now (block_of self.now leaf) steps.old steps.new) }
    {
        let nodes = self.nodes();
        match address {
            IpAddr::V4(_) if self.ipv4_start >= nodes.node_count => Some(Leaf {
                number: self.ipv4_start,
                address: NumberedAddress::ipv6(0),
                prefix: usize::from(self.ipv4_depth),
            }),
            IpAddr::V4(v4) => {
                let (bits, table) = (v4.to_bits(), &self.ipv4_table);
                let descent = nodes.descend_ipv4(&table.numbers, &table.depths, bits);
                steps.add(descent.read);
                Some(Leaf {
                    number: descent.number,
                    address: NumberedAddress::ipv4(bits),
                    prefix: descent.taken,
                })
            }
            IpAddr::V6(_) if self.metadata.ip_version != 6 => None,
            IpAddr::V6(v6) => {
                let (bits, table) = (v6.to_bits(), &self.ipv6_table);
                let descent = nodes.descend_ipv6(&table.numbers, &table.depths, bits);
                steps.add(descent.read);
                Some(Leaf {
                    number: descent.number,
                    address: NumberedAddress::ipv6(bits),
                    prefix: descent.taken,
                })
            }
        }
    }

    // Where a number of the tree leads.
    #[inline(always)]
    pub(crate) fn record_at(&self, number: usize) -> TreeRecord
        ensures { result ≡ record_at self.now number }
    {
        let data_len = self.marker - self.data_start;
        TreeRecord::of(number, self.metadata.node_count as usize, data_len)
    }

    // The offset in the data section to which a number of the tree leads, if it has data, or the error for a number
    // that leads nowhere.
    #[tactic(auto, unfolding(crate::specs::Lookup::outcome_of))]
    #[inline(always)]
    pub(crate) fn offset_at(&self, number: usize) -> Result<Option<usize>, MaxMindDbError>
        ensures { MatchResult result
            (λ offset. outcome_of self.now number ≡ outcome_at offset)
            (λ e. (kind_of e ≡ OfDatabase) × (outcome_of self.now number ≡ Invalid)) }
    {
        match self.record_at(number) {
            TreeRecord::Node(_) => Ok(None),
            TreeRecord::Empty => Ok(None),
            TreeRecord::Data(offset) => Ok(Some(offset)),
            TreeRecord::Invalid => Err(MaxMindDbError::InvalidDatabase {
                message: Message::Fixed(Text::InvalidLocation),
                offset: None,
            }),
        }
    }

    // What `lookup` answers for an address with this leaf, or with none where it can't be asked for.
    #[inline(always)]
    pub(crate) fn answer_of(
        &self,
        address: &IpAddr,
        leaf: Option<Leaf>,
    ) -> Result<LookupResult<'_, S>, MaxMindDbError>
        requires found { MatchOption leaf
            (¬ (CanAsk self.now address.now))
            (λ leaf. IsLeafAt self.now address.now (block_of self.now leaf) leaf.number) }
        requires shown { IfSome leaf
            (λ leaf. nat_eq leaf.address.width 32 ≡ is_shown_as_ipv4 self.now address.now) }
        ensures { IsLookup self.now address.now result }
    {
        let Some(leaf) = leaf else {
            return Err(MaxMindDbError::InvalidInput {
                message: Message::Fixed(Text::Ipv6InIpv4Lookup),
            });
        };
        let offset = self.offset_at(leaf.number)?;
        Ok(LookupResult {
            reader: self,
            offset,
            address: leaf.address,
            prefix: leaf.prefix,
        })
    }

    /// `lookup`, which adds the nodes that it reads to `steps`.
    ///
    /// For an IPv4 address, where IPv4 begins on a node, they are those of the bits after the first
    /// sixteen. An address that the database may not be asked for adds none.
    #[inline(always)]
    pub fn lookup_counted(
        &self,
        address: IpAddr,
        steps: &mut Steps,
    ) -> Result<LookupResult<'_, S>, MaxMindDbError>
        requires room { steps.old + 128 < 2 ^ 64 }
        ensures answered { IfOk result
            (λ r. Answers self.now address (leaf_of r) (outcome_at (offset_found r))) }
        ensures shown { IfOk result (λ r. shown_as_ipv4 r ≡ is_shown_as_ipv4 self.now address) }
        ensures database { IfOk result (λ r. database_asked r ≡ self.now) }
        ensures of_input { FailsAs OfInput result ↔ ¬ (CanAsk self.now address) }
        ensures of_database { FailsAs OfDatabase result ↔ IsInvalidAt self.now address }
        ensures no_other { IfErr result (λ e. (kind_of e ≡ OfInput) ⊎ (kind_of e ≡ OfDatabase)) }
        ensures counted { CountsAnswer self.now address steps.old steps.new }
        ensures not_counted { ¬ (CanAsk self.now address) → steps.new ≡ steps.old }
    {
        let leaf = self.find_leaf(&address, steps);
        self.answer_of(&address, leaf)
    }

    /// What the database has for an address.
    ///
    /// An IPv6 address asked of an IPv4 database is `InvalidInput`; a leaf whose number leads outside
    /// the data section is `InvalidDatabase`. Nothing else fails.
    #[inline(always)]
    pub fn lookup(&self, address: IpAddr) -> Result<LookupResult<'_, S>, MaxMindDbError>
        ensures answered { IfOk result
            (λ r. Answers self.now address (leaf_of r) (outcome_at (offset_found r))) }
        ensures shown { IfOk result (λ r. shown_as_ipv4 r ≡ is_shown_as_ipv4 self.now address) }
        ensures database { IfOk result (λ r. database_asked r ≡ self.now) }
        ensures of_input { FailsAs OfInput result ↔ ¬ (CanAsk self.now address) }
        ensures of_database { FailsAs OfDatabase result ↔ IsInvalidAt self.now address }
        ensures no_other { IfErr result (λ e. (kind_of e ≡ OfInput) ⊎ (kind_of e ≡ OfDatabase)) }
    {
        self.lookup_counted(address, &mut Steps::new())
    }
}
