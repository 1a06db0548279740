//! Lookups of several addresses at once.
use super::answers::{BASE, File, address, found_text, reader_of};
use mmdb_reader::tree::FoundLeaf;
use mmdb_reader::{LookupResult, MaxMindDbError, Reader};
use mmdb_vectors::answer::{OK, reported};
use mmdb_vectors::base::low;
use mmdb_vectors::builder::BASE_DATA;
use mmdb_vectors::failures::Failures;
use std::alloc::Global;
use std::net::IpAddr;

const OF_INPUT: &str = "invalid input: cannot look up IPv6 address in IPv4-only database";

const FAULT: &str =
    "invalid database: the MaxMind DB file's data pointer resolves to an invalid location";

/// A left record after the data, and a right one at their end.
const AFTER: File = File::Of(b"\x00\x00\x13\x00\x00\x12", BASE_DATA, &[]);

/// A left record that is the node itself.
const LEFT_SPINE: File = File::Of(b"\x00\x00\x00\x00\x00\x11", BASE_DATA, &[]);

/// An address, and the network that is found, whether it has data, and their offset.
type Row = (&'static str, &'static str);

/// A file, and addresses that it is asked for at once.
#[rattlefmt::skip]
const GROUPS: &[(File, &[Row])] = &[
    (BASE, &[
        ("1.1.1.1", "0.0.0.0/1 false None"),
        ("::1", OF_INPUT),
        ("200.0.0.1", "128.0.0.0/1 true Some(0)"),
    ]),
    (AFTER, &[
        ("200.0.0.1", "128.0.0.0/1 true Some(1)"),
        ("1.1.1.1", FAULT),
        ("::1", OF_INPUT),
        ("200.0.0.1", "128.0.0.0/1 true Some(1)"),
    ]),
    (LEFT_SPINE, &[
        ("0.0.0.0", "0.0.0.0/32 false None"),
        ("200.0.0.1", "128.0.0.0/1 true Some(0)"),
        ("0.0.0.1", "0.0.0.1/32 true Some(0)"),
        ("0.0.0.3", "0.0.0.2/31 true Some(0)"),
    ]),
    (File::WithoutSubtree, &[
        ("1.2.3.4", "0000:0000:0000:0000:0000:0000:0000:0000/1 true Some(0)"),
    ]),
    (File::WithAlias, &[
        ("1.2.3.4", "0.0.0.0/1 false None"),
        ("c000::1", "c000:0000:0000:0000:0000:0000:0000:0000/2 true Some(0)"),
        ("200.0.0.1", "128.0.0.0/1 true Some(0)"),
        ("::200.0.0.1", "0000:0000:0000:0000:0000:0000:8000:0000/97 true Some(0)"),
        ("4000::1", "4000:0000:0000:0000:0000:0000:0000:0000/2 false None"),
    ]),
    // A tree that is walked side by side. The eighteenth bit decides.
    (File::ManyNodes, &[
        ("1.2.3.4", "1.2.0.0/18 false None"),
        ("200.0.64.1", "200.0.64.0/18 true Some(0)"),
        ("::1", OF_INPUT),
        ("0.0.127.255", "0.0.64.0/18 true Some(0)"),
        ("255.255.128.0", "255.255.128.0/18 false None"),
        ("255.255.192.0", "255.255.192.0/18 true Some(0)"),
        ("0.0.0.0", "0.0.0.0/18 false None"),
    ]),
];

const MOST: usize = 130;

// The addresses of the rows, over and over.
fn addresses_of(rows: &[Row]) -> [IpAddr; MOST] {
    let mut addresses = [low(); MOST];
    for (place, row) in addresses.iter_mut().zip(rows.iter().cycle()) {
        *place = address(row.0);
    }
    addresses
}

// Notes an address or its answer that is another than that of a row.
fn expect_answer(
    failures: &mut Failures,
    alloc: Global,
    asked: IpAddr,
    answer: Result<LookupResult<'_, Vec<u8>>, MaxMindDbError>,
    row: &Row,
) {
    failures.expect(row, asked == address(row.0));
    failures.expect_text(row, found_text(alloc, answer), row.1);
}

// Asks for the addresses of the rows, over and over until there are so many.
fn expect_many(
    failures: &mut Failures,
    alloc: Global,
    reader: &Reader<Vec<u8>>,
    rows: &[Row],
    count: usize,
) {
    let addresses = addresses_of(rows);
    let mut answered = 0usize;
    let asked = reader.lookup_many(&addresses[..count.min(MOST)]);
    for ((asked, answer), row) in asked.zip(rows.iter().cycle()) {
        expect_answer(failures, alloc, asked, answer, row);
        answered = answered.saturating_add(1);
    }
    failures.expect(&("answers", answered), answered == count);
}

// Asks for the same addresses, over and over, by where their walks end.
fn expect_found(failures: &mut Failures, alloc: Global, reader: &Reader<Vec<u8>>, rows: &[Row]) {
    let addresses = addresses_of(rows);
    let mut leaves = [FoundLeaf::default(); MOST];
    reader.find_leaves(&addresses, &mut leaves);
    for at in 0..MOST {
        let answer = reader.lookup_found(addresses[at], leaves[at]);
        if let Some(row) = rows.get(at % rows.len().max(1)) {
            expect_answer(failures, alloc, addresses[at], answer, row);
        }
    }
}

// The same with counts around those of the lookups that go side by side.
fn expect_counts(failures: &mut Failures, alloc: Global, reader: &Reader<Vec<u8>>, rows: &[Row]) {
    for count in [0, 1, 2, 63, 64, 65, 128, 129, MOST] {
        expect_many(failures, alloc, reader, rows, count);
    }
    expect_found(failures, alloc, reader, rows);
}

// The same of a file that may be rejected.
fn expect_group(
    failures: &mut Failures,
    alloc: Global,
    opened: Result<Reader<Vec<u8>>, MaxMindDbError>,
    rows: &[Row],
) {
    match opened {
        Ok(reader) => expect_counts(failures, alloc, &reader, rows),
        Err(error) => failures.expect_text(&rows, reported(alloc, Err::<(), _>(error)), OK),
    }
}

#[test]
fn many_lookups(rt: HostRuntime) -> Result<(), Failures> {
    let (alloc, mut failures) = (rt.alloc(), Failures::new(rt.alloc()));
    for (file, rows) in GROUPS {
        expect_group(&mut failures, alloc, reader_of(alloc, file), rows);
    }
    failures.verdict()
}

// Whether the tree of a file is larger than what the caches hold.
fn is_large(alloc: Global, file: &File) -> Option<bool> {
    match reader_of(alloc, file) {
        Ok(reader) => Some(reader.outgrows_caches()),
        Err(_) => None,
    }
}

#[test]
fn trees_beyond_the_caches(rt: HostRuntime) -> Result<(), Failures> {
    let mut failures = Failures::new(rt.alloc());
    failures.expect(&"small", is_large(rt.alloc(), &BASE) == Some(false));
    failures.expect(
        &"large",
        is_large(rt.alloc(), &File::ManyNodes) == Some(true),
    );
    failures.verdict()
}

// How many addresses have data; an address that can't be asked for is an error.
fn count_with_data(
    reader: &Reader<Vec<u8>>,
    addresses: &[IpAddr],
) -> Result<usize, MaxMindDbError> {
    let mut with_data = 0usize;
    for (_, answer) in reader.lookup_many(addresses) {
        if answer?.has_data() {
            with_data = with_data.saturating_add(1);
        }
    }
    Ok(with_data)
}

// What the documentation of `LookupMany` shows, of three addresses with data among four.
#[test]
fn documented_lookups(rt: HostRuntime) -> Result<(), Failures> {
    let mut failures = Failures::new(rt.alloc());
    let texts = ["0.0.0.0", "200.0.0.1", "0.0.0.1", "0.0.0.3"];
    let addresses = texts.map(address);
    let counted = reader_of(rt.alloc(), &LEFT_SPINE).and_then(|reader| count_with_data(
        &reader, &addresses,
    ));
    failures.expect(&"documented", counted.ok() == Some(3));
    failures.verdict()
}
