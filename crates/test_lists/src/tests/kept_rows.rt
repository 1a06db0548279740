//! Rows of an export that are kept for further networks, beside those of each network alone, which are made.
use crate::tests::asserted::assert_of;
use mmdb_program::{Io, run};
use mmdb_vectors::builder::{Field, changed_file, nodes_24};
use mmdb_vectors::section::section_of;
use std::alloc::{AllocError, Global};
use std::io::ErrorKind;
use std::net::{Ipv4Addr, Ipv6Addr};
use std::process::Abort;
use test_runs::numbers::Numbers;
use test_runs::program::{Narrow, Run, file_of, run_of, terminals, words_with};

/// The lengths of the texts that are records. With 27 bytes more, rows of whole records are put in quick steps up to 1,024
/// bytes, and kept up to 4,096.
const LENGTHS: &[usize] = &[1, 40, 300, 996, 997, 998, 4069, 4070];

/// How many networks there are: all of /7.
const NETWORKS: u32 = 128;

/// What a node is to lead to for no record, and for the first byte of the data.
const NO_RECORD: u32 = 127;

const FIRST: u32 = 143;

// The header of a text of so many bytes.
fn push_header(len: usize, data: &mut Vec<u8>) -> Result<(), AllocError> {
    if len < 29 {
        data.push(0x40 | (len & 31) as u8)?;
        return Ok(());
    }
    if len < 285 {
        return data.extend_from_slice(&[0x5D, (len.wrapping_sub(29) & 0xff) as u8]);
    }
    let [high, low] = ((len.wrapping_sub(285) & 0xffff) as u16).to_be_bytes();
    data.extend_from_slice(&[0x5E, high, low])
}

// Texts of all lengths, and behind them one that is not UTF-8. What a node is to lead to for each of them, and for none.
fn put_texts(alloc: Global, data: &mut Vec<u8>) -> Result<Vec<u32>, AllocError> {
    let mut places = Vec::from_slice(alloc, &[NO_RECORD])?;
    for len in LENGTHS {
        places.push(FIRST.wrapping_add((data.len() & 0xff_ffff) as u32))?;
        push_header(*len, data)?;
        for _ in 0..*len {
            data.push(b'x')?;
        }
    }
    places.push(FIRST.wrapping_add((data.len() & 0xff_ffff) as u32))?;
    data.extend_from_slice(b"\x41\xFF")?;
    Ok(places)
}

// What the next leaf has: often the same as the one before it.
fn next_leaf(numbers: &mut Numbers, places: &[u32], last: u32) -> u32 {
    if numbers.below(3) == 0 {
        return last;
    }
    let place = numbers.below(places.len());
    places.get(place).copied().unwrap_or(NO_RECORD)
}

// The nodes of a tree whose leaves, all of /7, have any of the records.
fn any_nodes(alloc: Global, seed: u64, places: &[u32]) -> Result<Vec<(u32, u32)>, AllocError> {
    let mut numbers = Numbers { state: seed };
    let mut nodes = Vec::new(alloc);
    for node in 0..63u32 {
        nodes.push((2 * node + 1, 2 * node + 2))?;
    }
    let mut last = places.first().copied().unwrap_or(NO_RECORD);
    for _ in 0..NETWORKS / 2 {
        let left = next_leaf(&mut numbers, places, last);
        last = next_leaf(&mut numbers, places, left);
        nodes.push((left, last))?;
    }
    Ok(nodes)
}

// A file of such a tree, of IPv4 or IPv6 by the encoded version.
fn file_of_seed(rt: &impl Abort, alloc: Global, seed: u64, version: &[u8]) -> Vec<u8> {
    let mut data = Vec::new(alloc);
    let places = put_texts(alloc, &mut data).expect(rt, "texts");
    let nodes = any_nodes(alloc, seed, places.as_slice()).expect(rt, "nodes");
    let tree = nodes_24(alloc, nodes.as_slice()).expect(rt, "a tree");
    let changes = [
        (Field::NodeCount, b"\xC1\x7F".as_slice()),
        (Field::IpVersion, version),
    ];
    changed_file(alloc, tree.as_slice(), data.as_slice(), &changes).expect(rt, "a file")
}

/// What is written and reported of each network, in turn.
#[derive(Drop)]
struct OneByOne {
    written: Vec<u8>,
    reported: Vec<u8>,
}

// Adds what a run wrote behind its first lines, and what it reported of networks.
fn add_run(rt: &impl Abort, run: &Run, headers: usize, all: &mut OneByOne) {
    for line in run.out().lines().skip(headers) {
        all.written
            .extend_from_slice(line.as_bytes())
            .expect(rt, "room");
        all.written.push(b'\n').expect(rt, "room");
    }
    add_faults(rt, run, &mut all.reported);
}

// Adds what a run reported of networks.
fn add_faults(rt: &impl Abort, run: &Run, reported: &mut Vec<u8>) {
    for line in run.err().lines() {
        if !line.ends_with("could not be read") {
            reported
                .extend_from_slice(line.as_bytes())
                .expect(rt, "room");
            reported.push(b'\n').expect(rt, "room");
        }
    }
}

/// A form of rows, and how many lines stand before the first of them.
type Form<'a> = (&'a [&'a str], usize);

#[rattlefmt::skip]
const FORMS: &[Form<'static>] = &[
    (&["--format", "jsonl"], 0),
    (&["--format", "csv", "--field", ""], 1),
    (&["--field", "", "--where-not", "=x"], 0),
    (&["--ipv4"], 0),
    (&["--ipv6"], 0),
];

// The words of an export in a form, of a range if one is named.
fn words_of<'a>(
    alloc: Global,
    range: &'a str,
    form: &[&'a str],
) -> Result<Vec<&'a str>, AllocError> {
    let mut words = Vec::new(alloc);
    words.push("export")?;
    words.push("here.mmdb")?;
    if !range.is_empty() {
        words.push(range)?;
    }
    for word in form {
        words.push(*word)?;
    }
    Ok(words)
}

// The export of a range in a form.
fn export_of(rt: &impl Abort, alloc: Global, file: &[u8], range: &str, form: &[&str]) -> Run {
    let words = words_of(alloc, range, form).expect(rt, "words");
    run_of(alloc, file, words.as_slice(), "")
}

// The text of a network of /7.
fn range_of(alloc: Global, network: u32, is_ipv4: bool) -> Result<String, AllocError> {
    let first = network.wrapping_mul(2);
    if is_ipv4 {
        format!(in alloc; "{first}.0.0.0/7")
    } else {
        format!(in alloc; "{first:x}00::/7")
    }
}

// What is exported of each network alone.
fn one_by_one(
    rt: &impl Abort,
    alloc: Global,
    file: &[u8],
    form: Form<'_>,
    is_ipv4: bool,
) -> OneByOne {
    let mut all = OneByOne {
        written: Vec::new(alloc),
        reported: Vec::new(alloc),
    };
    for network in 0..NETWORKS {
        let range = range_of(alloc, network, is_ipv4).expect(rt, "a range");
        let run = export_of(rt, alloc, file, range.as_str(), form.0);
        add_run(rt, &run, form.1, &mut all);
    }
    all
}

/// How many networks are named that can't be read.
const MOST_NAMED: usize = 10;

// As many lines of a text as are named at most.
fn first_lines(text: &[u8]) -> &[u8] {
    let mut lines = 0usize;
    for (place, byte) in text.iter().enumerate() {
        lines = lines.saturating_add(usize::from(*byte == b'\n'));
        if lines >= MOST_NAMED {
            return text.get(..place).unwrap_or(text);
        }
    }
    text
}

// Asserts that all networks together are exported as one by one.
fn assert_same(
    rt: &impl Abort,
    alloc: Global,
    file: &[u8],
    form: Form<'_>,
    is_ipv4: bool,
) -> usize {
    let wanted = one_by_one(rt, alloc, file, form, is_ipv4);
    let run = export_of(rt, alloc, file, "", form.0);
    let mut all = OneByOne {
        written: Vec::new(alloc),
        reported: Vec::new(alloc),
    };
    add_run(rt, &run, form.1, &mut all);
    let is_same = all.written == wanted.written
        && first_lines(all.reported.as_slice()) == first_lines(wanted.reported.as_slice());
    assert_of(rt, form.0, &run, is_same);
    assert!(rt;
        (form.1 == 0 && all.written == run.written) || form.1 == 1,
        "lines of {form:?}"
    );
    all.written.len()
}

#[test]
fn rows_are_those_of_each_network(rt: HostRuntime) {
    let alloc = rt.alloc();
    let file = file_of_seed(&rt, alloc, 7, b"\xA1\x04");
    let mut written = 0usize;
    for form in FORMS {
        let len = assert_same(&rt, alloc, file.as_slice(), *form, true);
        written = written.saturating_add(len);
    }
    assert!(rt; written > 300_000, "{written} bytes");
}

#[test]
fn rows_of_ipv6_are_those_of_each_network(rt: HostRuntime) {
    let alloc = rt.alloc();
    let file = file_of_seed(&rt, alloc, 8, b"\xA1\x06");
    let written = assert_same(
        &rt,
        alloc,
        file.as_slice(),
        (&["--format", "jsonl"], 0),
        false,
    );
    assert!(rt; written > 50_000, "{written} bytes");
}

// An export to a writer with so much room.
fn with_room(alloc: Global, file: &[u8], room: usize) -> Run {
    let words = words_with(alloc, &["export", "here.mmdb"]);
    let mut input: &[u8] = b"";
    let mut out = Narrow {
        bytes: Vec::new(alloc),
        room,
        to_error: ErrorKind::StorageFull,
    };
    let mut reported: Vec<u8> = Vec::new(alloc);
    let io = Io {
        input: &mut input,
        out: &mut out,
        errors: &mut reported,
        terminals: terminals(false),
    };
    let status = run(&file_of(file), alloc, words.as_slice(), io);
    Run {
        status,
        written: out.bytes,
        reported,
    }
}

// Asserts that an export is cut where there is no more room.
fn assert_cuts(rt: &impl Abort, alloc: Global, file: &[u8], whole: &[u8]) {
    let len = whole.len();
    for step in 0..40usize {
        let room = len / 40 * step;
        let run = with_room(alloc, file, room);
        let is_cut = run.status == 1
            && run.written.as_slice() == &whole[..room.min(len)]
            && run.err().contains("mmdb: standard output: ");
        assert!(rt; is_cut, "room for {room} of {len}");
    }
}

#[test]
fn rows_are_cut_where_there_is_no_room(rt: HostRuntime) {
    let alloc = rt.alloc();
    let file = file_of_seed(&rt, alloc, 3, b"\xA1\x04");
    let whole = run_of(alloc, file.as_slice(), &["export", "here.mmdb"], "");
    assert_cuts(&rt, alloc, file.as_slice(), whole.written.as_slice());
}

// A file whose networks all have one record, a text of so many bytes.
fn file_of_one(rt: &impl Abort, alloc: Global, len: usize) -> Vec<u8> {
    let mut data = Vec::new(alloc);
    push_header(len, &mut data).expect(rt, "a header");
    for _ in 0..len {
        data.push(b'x').expect(rt, "a text");
    }
    let nodes = any_nodes(alloc, 1, &[FIRST]).expect(rt, "nodes");
    let tree = nodes_24(alloc, nodes.as_slice()).expect(rt, "a tree");
    let changes = [(Field::NodeCount, b"\xC1\x7F".as_slice())];
    changed_file(alloc, tree.as_slice(), data.as_slice(), &changes).expect(rt, "a file")
}

// Adds the row of a network whose record is a text, one letter so often.
fn push_row(network: &str, letter: u8, len: usize, rows: &mut Vec<u8>) -> Result<(), AllocError> {
    rows.extend_from_slice(b"{\"network\":\"")?;
    rows.extend_from_slice(network.as_bytes())?;
    rows.extend_from_slice(b"\",\"record\":\"")?;
    for _ in 0..len {
        rows.push(letter)?;
    }
    rows.extend_from_slice(b"\"}\n")
}

// The rows of a file whose networks all have a text of so many bytes.
fn rows_of_one(rt: &impl Abort, alloc: Global, len: usize) -> Vec<u8> {
    let mut rows = Vec::new(alloc);
    for network in 0..NETWORKS {
        let text = range_of(alloc, network, true).expect(rt, "a network");
        push_row(text.as_str(), b'x', len, &mut rows).expect(rt, "a row");
    }
    rows
}

#[test]
fn rows_of_one_record(rt: HostRuntime) {
    let alloc = rt.alloc();
    for len in [1, 40, 128, 300, 996, 997, 998, 4069, 4070] {
        let file = file_of_one(&rt, alloc, len);
        let wanted = rows_of_one(&rt, alloc, len);
        let run = with_room(alloc, file.as_slice(), 1 << 20);
        let is_wanted = run.status == 0 && run.written == wanted;
        assert!(rt; is_wanted, "texts of {len} bytes");
        if len == 128 || len == 997 {
            assert_cuts(&rt, alloc, file.as_slice(), wanted.as_slice());
        }
    }
}

/// Two records whose rows have one place, as their offsets differ by 8,192.
const AT_ONE_PLACE: &[u32] = &[FIRST, FIRST + 8192];

// The rows of leaves that have the one or the other record.
fn rows_of_two(rt: &impl Abort, alloc: Global, nodes: &[(u32, u32)]) -> Vec<u8> {
    let mut rows = Vec::new(alloc);
    for network in 0..NETWORKS {
        let node = nodes.get(63usize.saturating_add(network as usize / 2));
        let (left, right) = node.copied().unwrap_or((0, 0));
        let leaf = if network % 2 == 0 { left } else { right };
        let letter = if leaf == FIRST { b'x' } else { b'y' };
        let text = range_of(alloc, network, true).expect(rt, "a network");
        push_row(text.as_str(), letter, 1, &mut rows).expect(rt, "a row");
    }
    rows
}

#[test]
fn rows_at_one_place(rt: HostRuntime) {
    let alloc = rt.alloc();
    let data = section_of(alloc, &[(b"\x41x", 1), (b"\xA0", 8190), (b"\x41y", 1)]);
    let nodes = any_nodes(alloc, 5, AT_ONE_PLACE).expect(&rt, "nodes");
    let tree = nodes_24(alloc, nodes.as_slice()).expect(&rt, "a tree");
    let changes = [(Field::NodeCount, b"\xC1\x7F".as_slice())];
    let file = changed_file(alloc, tree.as_slice(), data.as_slice(), &changes).expect(
        &rt, "a file",
    );
    let wanted = rows_of_two(&rt, alloc, nodes.as_slice());
    let run = run_of(alloc, file.as_slice(), &["export", "here.mmdb"], "");
    assert_of(&rt, &["two records"], &run, run.written == wanted);
}

// The nodes of a tree of IPv6: so many zeros one below the other, and 128 ones. All leaves have one record.
fn nodes_of_both_kinds(alloc: Global, zeros: u32) -> Result<Vec<(u32, u32)>, AllocError> {
    let count = zeros.saturating_add(127);
    let leaf = count.saturating_add(16);
    let mut nodes = Vec::new(alloc);
    nodes.push((1, zeros))?;
    for node in 2..zeros {
        nodes.push((node, leaf))?;
    }
    nodes.push((leaf, leaf))?;
    for node in zeros.saturating_add(1)..count {
        nodes.push((leaf, node))?;
    }
    nodes.push((leaf, leaf))?;
    Ok(nodes)
}

// Adds the row of a network of IPv6, or of IPv4 where it is one, if that kind is asked for.
fn push_row_of(
    rt: &impl Abort,
    alloc: Global,
    first: u128,
    prefix: u32,
    kind: &str,
    rows: &mut Vec<u8>,
) {
    let is_ipv4 = prefix > 96 && first >> 32 == 0;
    let text: String = if is_ipv4 {
        let address = Ipv4Addr::from_bits((first & 0xffff_ffff) as u32);
        let prefix = prefix.saturating_sub(96);
        format!(in alloc; "{address}/{prefix}")
    } else {
        let address = Ipv6Addr::from_bits(first);
        format!(in alloc; "{address}/{prefix}")
    }
    .expect(rt, "a text");
    let is_wanted = kind.is_empty() || (kind == "--ipv4") == is_ipv4;
    if is_wanted {
        push_row(text.as_str(), b'x', 1, rows).expect(rt, "a row");
    }
}

// The rows of such a tree, of the networks of a kind if one is named.
fn rows_of_both_kinds(rt: &impl Abort, alloc: Global, zeros: u32, kind: &str) -> Vec<u8> {
    let mut rows = Vec::new(alloc);
    push_row_of(rt, alloc, 0, zeros, kind, &mut rows);
    for level in 0..zeros.saturating_sub(1) {
        let prefix = zeros.saturating_sub(level);
        let first = 1u128
            .checked_shl(128u32.saturating_sub(prefix))
            .unwrap_or(0);
        push_row_of(rt, alloc, first, prefix, kind, &mut rows);
    }
    for prefix in 2..129u32 {
        let first = u128::MAX
            .checked_shl(129u32.saturating_sub(prefix))
            .unwrap_or(0);
        push_row_of(rt, alloc, first, prefix, kind, &mut rows);
    }
    push_row_of(rt, alloc, u128::MAX, 128, kind, &mut rows);
    rows
}

#[test]
fn rows_of_one_record_in_both_kinds(rt: HostRuntime) {
    let alloc = rt.alloc();
    for zeros in [64, 95, 96, 97, 127, 128] {
        let nodes = nodes_of_both_kinds(alloc, zeros).expect(&rt, "nodes");
        let tree = nodes_24(alloc, nodes.as_slice()).expect(&rt, "a tree");
        let count = [0xC1, (nodes.len() & 0xff) as u8];
        let changes = [
            (Field::NodeCount, count.as_slice()),
            (Field::IpVersion, b"\xA1\x06"),
        ];
        let file = changed_file(alloc, tree.as_slice(), b"\x41x", &changes).expect(&rt, "a file");
        for kind in ["", "--ipv4", "--ipv6"] {
            let wanted = rows_of_both_kinds(&rt, alloc, zeros, kind);
            let words = ["export", "here.mmdb", "--format", "jsonl", kind];
            let len = words.len().saturating_sub(usize::from(kind.is_empty()));
            let run = run_of(alloc, file.as_slice(), words.get(..len).unwrap_or(&[]), "");
            assert_of(&rt, &words, &run, run.written == wanted);
        }
    }
}
