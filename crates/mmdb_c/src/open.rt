//! Opening a database over bytes that C holds, and whether a file is whole.
ghost use Rattle.std.specs.Prelude.{◌≡◌, ◌≢◌, ℕ, List, length, OnOk, IfErr};
ghost use Rattle.mmdb_format.specs.Error.{MemoryApart};
ghost use Rattle.mmdb_reader.specs.Source.{IsNoDatabase};
ghost use Rattle.mmdb_reader.specs.Kept.{IsLayoutOf, database_of};
ghost use Rattle.mmdb_c.specs.Opened.{HasDatabase, IsOf, IsOpened, IsOfFile, IsWholeFile, IsReadableFile};

use crate::db::Facts;
use crate::status::{FOUND, code_of};
use mmdb_reader::laws::source_decides;
use mmdb_reader::reader::Reader;
use mmdb_reader::{FileLayout, MaxMindDbError};
use std::alloc::Global;

// The numbers of a database.
fn facts_of(layout: &FileLayout) -> Facts
    ensures { (file : List ℕ) → IsLayoutOf file layout.now
        → IsOf (database_of file layout.now) result }
{
    let metadata = &layout.metadata;
    Facts {
        node_count: metadata.node_count as usize,
        ipv4_start: layout.ipv4_start,
        data_start: layout.data_start,
        marker: layout.marker,
        build_epoch: metadata.build_epoch,
        record_size: metadata.record_size,
        ip_version: metadata.ip_version,
        major_version: metadata.binary_format_major_version,
        minor_version: metadata.binary_format_minor_version,
        ipv4_depth: layout.ipv4_depth,
    }
}

/// Opens the database that the bytes of a file are: fills the tables and writes its numbers.
///
/// 0 exactly where the bytes are those of a database, unless out of memory, which is 5. Else the code says
/// what is wrong: 2 the search tree, 3 the metadata, 6 the version of the format or the size of records,
/// 7 a limit that the metadata pass. The IPv6 table of an IPv4 database is left as it is, and so is
/// the IPv4 table where IPv4 begins on no node.
#[unsafe(no_mangle)]
pub extern "C" fn mmdb_c_open(
    alloc: Global,
    file: &[u8],
    ipv4_numbers: &mut [u32],
    ipv4_depths: &mut [u8],
    ipv6_numbers: &mut [u32],
    ipv6_depths: &mut [u8],
    facts: &mut Facts,
) -> u32
    requires ipv4_numbers { length ipv4_numbers.old ≡ 65536 }
    requires ipv4_depths { length ipv4_depths.old ≡ 65536 }
    requires ipv6_numbers { length ipv6_numbers.old ≡ 65536 }
    requires ipv6_depths { length ipv6_depths.old ≡ 65536 }
    ensures is_database { result ≡ 0 → HasDatabase file.now }
    ensures is_no_database { result ≢ 0 → result ≢ 5 → IsNoDatabase file.now }
    ensures is_of { result ≡ 0 → IsOfFile file.now facts.new }
    ensures opened { result ≡ 0 → IsOpened file.now facts.new
        ipv4_numbers.new ipv4_depths.new ipv6_numbers.new ipv6_depths.new }
{
    let layout = match FileLayout::of(alloc, file) {
        Ok(layout) => layout,
        Err(error) => return code_of(alloc, file, &error),
    };
    source_decides();
    let nodes = layout.nodes(file);
    if layout.ipv4_start < nodes.node_count {
        nodes.fill_table(ipv4_numbers, ipv4_depths, layout.ipv4_start);
    }
    if layout.metadata.ip_version == 6 {
        nodes.fill_table(ipv6_numbers, ipv6_depths, 0);
    }
    *facts = facts_of(&layout);
    FOUND
}

// Opens and checks a file.
fn verify(alloc: Global, file: &[u8]) -> Result<(), MaxMindDbError>
    ensures whole { OnOk result (IsWholeFile file.now) }
    ensures not_whole { IfErr result (λ e. MemoryApart e (¬ IsWholeFile file.now)) }
{
    let reader = Reader::from_source(alloc, file)?;
    source_decides();
    reader.verify(alloc)
}

/// Whether the bytes of a file are those of a database that is whole: metadata, tree, separator and the
/// values of all leaves, as `Reader::verify` of the reader checks them.
///
/// 0 exactly where they are, unless out of memory, which is 5. Else the code says what is wrong: 2 the
/// search tree, 3 the metadata, 6 the version of the format or the size of records, 7 the data.
#[unsafe(no_mangle)]
pub extern "C" fn mmdb_c_verify(alloc: Global, file: &[u8]) -> u32
    ensures whole { result ≡ 0 → IsWholeFile file.now }
    ensures not_whole { result ≢ 0 → result ≢ 5 → ¬ IsWholeFile file.now }
{
    match verify(alloc, file) {
        Ok(()) => FOUND,
        Err(error) => code_of(alloc, file, &error),
    }
}

// Opens and checks a file and its records.
fn verify_records(alloc: Global, file: &[u8]) -> Result<(), MaxMindDbError>
    ensures readable { OnOk result (IsReadableFile file.now) }
    ensures not_readable { IfErr result (λ e. MemoryApart e (¬ IsReadableFile file.now)) }
{
    let reader = Reader::from_source(alloc, file)?;
    source_decides();
    reader.verify_records(alloc)
}

/// Whether the bytes of a file are those of a whole database of which each record can be read, as
/// `Reader::verify_records` of the reader checks it.
///
/// 0 exactly where they are, unless out of memory, which is 5. Else the code says what is wrong, as that of
/// `mmdb_c_verify`.
#[unsafe(no_mangle)]
pub extern "C" fn mmdb_c_verify_records(alloc: Global, file: &[u8]) -> u32
    ensures readable { result ≡ 0 → IsReadableFile file.now }
    ensures not_readable { result ≢ 0 → result ≢ 5 → ¬ IsReadableFile file.now }
{
    match verify_records(alloc, file) {
        Ok(()) => FOUND,
        Err(error) => code_of(alloc, file, &error),
    }
}
