//! What opening a file finds, and tables that are filled for others.
use super::answers::{BASE, File, bytes_of};
use mmdb_reader::{FileLayout, MaxMindDbError};
use mmdb_vectors::answer::{OK, reported};
use mmdb_vectors::failures::Failures;
use std::alloc::{AllocError, Global};

/// A file, where its marker stands and its data begin, and where IPv4 begins, after how many bits.
type Found = (File, (usize, usize), (usize, u8));

const FOUND: &[Found] = &[
    (BASE, (24, 22), (0, 0)),
    (File::TwentyNodes, (138, 136), (0, 0)),
    (File::WithoutSubtree, (24, 22), (17, 1)),
    (File::WithAlias, (600, 598), (96, 96)),
];

// Whether a layout is that of a row.
fn is_found(layout: &FileLayout, row: &Found) -> bool {
    let parts = (layout.marker, layout.data_start);
    parts == row.1 && (layout.ipv4_start, layout.ipv4_depth) == row.2
}

// Notes where the layout of a file is another one, or the file is rejected.
fn expect_found(
    failures: &mut Failures,
    found: Result<FileLayout, MaxMindDbError>,
    alloc: Global,
    row: &Found,
) {
    match found {
        Ok(layout) => failures.expect(&row.1, is_found(&layout, row)),
        Err(error) => failures.expect_text(&row.1, reported(alloc, Err::<(), _>(error)), OK),
    }
}

#[test]
fn layouts_of_files(rt: HostRuntime) -> Result<(), Failures> {
    let (alloc, mut failures) = (rt.alloc(), Failures::new(rt.alloc()));
    for row in FOUND {
        match bytes_of(alloc, &row.0) {
            Ok(bytes) => expect_found(&mut failures, FileLayout::of(alloc, &bytes), alloc, row),
            Err(_) => failures.expect(&row.1, false),
        }
    }
    failures.verdict()
}

/// Of the table of a file from a node: an index, and the number there and after how many bits it is reached.
type Filled = (File, usize, usize, (u32, u8));

#[rattlefmt::skip]
const FILLED: &[Filled] = &[
    // the first sixteen nodes, one after the other
    (File::TwentyNodes, 0, 0, (16, 16)),
    (File::TwentyNodes, 0, 1, (36, 16)),
    (File::TwentyNodes, 0, 2, (36, 15)),
    (File::TwentyNodes, 0, 3, (36, 15)),
    (File::TwentyNodes, 0, 4, (36, 14)),
    (File::TwentyNodes, 0, 7, (36, 14)),
    (File::TwentyNodes, 0, 0x4000, (36, 2)),
    (File::TwentyNodes, 0, 0x8000, (36, 1)),
    (File::TwentyNodes, 0, 0xffff, (36, 1)),
    // from a node further on
    (File::TwentyNodes, 10, 0, (20, 10)),
    (File::TwentyNodes, 10, 0x40, (36, 10)),
    (File::WithAlias, 96, 0, (97, 1)),
    (File::WithAlias, 96, 0xffff, (113, 1)),
    // IPv6
    (File::WithAlias, 0, 0, (16, 16)),
    (File::WithAlias, 0, 1, (97, 16)),
    (File::WithAlias, 0, 0x4000, (97, 2)),
    (File::WithAlias, 0, 0x8000, (97, 2)),
    (File::WithAlias, 0, 0xc000, (113, 2)),
];

// What a table that C or another caller gives has at an index, filled from a node.
fn entry_of(
    alloc: Global,
    file: &[u8],
    start: usize,
    index: usize,
) -> Result<Option<(u32, u8)>, MaxMindDbError> {
    let layout = FileLayout::of(alloc, file)?;
    let nodes = layout.nodes(file);
    let mut numbers = Vec::from_elem(alloc, 0, 65_536)?;
    let mut depths = Vec::from_elem(alloc, 0, 65_536)?;
    if start < nodes.node_count {
        nodes.fill_table(&mut numbers, &mut depths, start);
    }
    let number = numbers.get(index).copied();
    Ok(number.zip(depths.get(index).copied()))
}

// Whether the entry of a row is in the table.
fn is_filled(alloc: Global, row: &Filled) -> Result<bool, AllocError> {
    let bytes = bytes_of(alloc, &row.0)?;
    match entry_of(alloc, &bytes, row.1, row.2) {
        Ok(Some(entry)) => Ok(entry == row.3),
        _ => Ok(false),
    }
}

#[test]
fn filled_tables(rt: HostRuntime) -> Result<(), Failures> {
    let mut failures = Failures::new(rt.alloc());
    for row in FILLED {
        let is_filled = is_filled(rt.alloc(), row).unwrap_or(false);
        failures.expect(&(row.1, row.2), is_filled);
    }
    failures.verdict()
}
