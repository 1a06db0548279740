//! Rows with fields of two databases of many records, over and over: what is kept of one database's record is shown beside whichever
//! the other one has.
use crate::tests::asserted::assert_of;
use mmdb_vectors::builder::{Field, changed_file, nodes_24};
use std::alloc::{AllocError, Global};
use std::process::Abort;
use test_runs::numbers::Numbers;
use test_runs::program::{run_over, two_files};

/// How many records a database has: more than are noted.
const RECORDS: usize = 150;

/// How many networks there are: all of /7.
const NETWORKS: usize = 128;

/// How many rows there are.
const ROWS: usize = 1500;

/// What a node is to lead to for no record, and for the first byte of the data.
const NO_RECORD: u32 = 127;

const FIRST: u32 = 143;

/// Words, and the fields that they ask for.
type Form<'a> = (&'a [&'a str], &'a [u8]);

#[rattlefmt::skip]
const FORMS: &[Form<'static>] = &[
    (&["enrich", "here.mmdb", "new.mmdb", "--field", "c"], b"c"),
    (&["enrich", "here.mmdb", "new.mmdb", "--field", "d"], b"d"),
    (&["enrich", "here.mmdb", "new.mmdb", "--field", "c", "--field", "d"], b"cd"),
];

/// A file, and the numbers of the records that its networks have.
#[derive(Drop)]
struct Made {
    bytes: Vec<u8>,
    has: Vec<Option<usize>>,
}

// The digits of a record's number.
fn digits_of(number: usize) -> [u8; 3] {
    let digit = |part: usize| b'0' + (part % 10) as u8;
    [digit(number / 100), digit(number / 10), digit(number)]
}

// The field that a record has.
fn field_of(number: usize) -> u8 {
    if number % 3 == 0 { b'd' } else { b'c' }
}

// A map of one field for each record, which has its number, of seven bytes each.
fn data_of(alloc: Global) -> Result<Vec<u8>, AllocError> {
    let mut data = Vec::new(alloc);
    for number in 0..RECORDS {
        data.extend_from_slice(&[0xE1, 0x41, field_of(number), 0x43])?;
        data.extend_from_slice(&digits_of(number))?;
    }
    Ok(data)
}

// What a node is to lead to for a record.
fn leaf_of(record: Option<usize>) -> u32 {
    match record {
        Some(number) => FIRST + 7 * (number & 0xff) as u32,
        None => NO_RECORD,
    }
}

// The records of the networks, by a seed: none for some.
fn any_records(alloc: Global, seed: u64) -> Result<Vec<Option<usize>>, AllocError> {
    let mut numbers = Numbers { state: seed };
    let mut records = Vec::new(alloc);
    for _ in 0..NETWORKS {
        let number = numbers.below(RECORDS + 20);
        records.push(if number < RECORDS { Some(number) } else { None })?;
    }
    Ok(records)
}

// The nodes of the tree of these records.
fn nodes_of(alloc: Global, records: &[Option<usize>]) -> Result<Vec<(u32, u32)>, AllocError> {
    let mut nodes = Vec::new(alloc);
    for node in 0..63u32 {
        nodes.push((2 * node + 1, 2 * node + 2))?;
    }
    for pair in records.chunks(2) {
        if let [left, right] = pair {
            nodes.push((leaf_of(*left), leaf_of(*right)))?;
        }
    }
    Ok(nodes)
}

fn made_of(rt: &impl Abort, alloc: Global, seed: u64) -> Made {
    let has = any_records(alloc, seed).expect(rt, "records");
    let nodes = nodes_of(alloc, has.as_slice()).expect(rt, "nodes");
    let tree = nodes_24(alloc, nodes.as_slice()).expect(rt, "a tree");
    let data = data_of(alloc).expect(rt, "data");
    let changes = [(Field::NodeCount, b"\xC1\x7F".as_slice())];
    let bytes = changed_file(alloc, tree.as_slice(), data.as_slice(), &changes).expect(
        rt, "a file",
    );
    Made { bytes, has }
}

// The text of a field in the record of a network, if it has one there.
fn text_at(made: &Made, network: usize, field: u8) -> Option<[u8; 3]> {
    match made.has.get(network) {
        Some(Some(number)) if field_of(*number) == field => Some(digits_of(*number)),
        _ => None,
    }
}

// A row of an address of a network, and the same with the cells of fields: each is of the first database that has it.
fn push_row(
    alloc: Global,
    network: usize,
    fields: &[u8],
    databases: (&Made, &Made),
    input: &mut String,
    want: &mut String,
) -> Result<(), AllocError> {
    let row: String = format!(in alloc; "{}.2.3.4", network.wrapping_mul(2))?;
    input.push_str(row.as_str())?;
    input.push('\n')?;
    want.push_str(row.as_str())?;
    for field in fields {
        want.push('\t')?;
        let text = text_at(databases.0, network, *field).or(text_at(databases.1, network, *field));
        for digit in text.unwrap_or([b' '; 3]) {
            if digit != b' ' {
                want.push(digit as char)?;
            }
        }
    }
    want.push('\n')
}

#[test]
fn texts_of_two_databases_over_and_over(rt: HostRuntime) {
    let alloc = rt.alloc();
    let (old, new) = (made_of(&rt, alloc, 5), made_of(&rt, alloc, 6));
    let files = two_files(old.bytes.as_slice(), new.bytes.as_slice());
    for (words, fields) in FORMS {
        let mut numbers = Numbers { state: 7 };
        let (mut input, mut want) = (String::new(alloc), String::new(alloc));
        for _ in 0..ROWS {
            let network = numbers.below(NETWORKS);
            push_row(alloc, network, fields, (&old, &new), &mut input, &mut want).expect(
                &rt, "rows",
            );
        }
        let run = run_over(alloc, &files, words, input.as_str(), false);
        assert_of(
            &rt,
            words,
            &run,
            run.status == 0 && run.out() == want.as_str(),
        );
    }
}
