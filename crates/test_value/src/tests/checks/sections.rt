//! Sections whose values share their bytes.
ghost use Rattle.std.specs.Prelude.{◌≤◌};

use mmdb_vectors::section::section_of;
use std::alloc::{AllocError, Global};

/// A hundred arrays within each other around a bool, and from place 202 on so many arrays within each other
/// around a pointer to the first of them.
pub fn deep(alloc: Global, arrays: usize) -> Vec<u8> {
    section_of(
        alloc,
        &[
            (b"\x01\x04", 100),
            (b"\x00\x07", 1),
            (b"\x01\x04", arrays),
            (b"\x20\x00", 1),
        ],
    )
}

fn pairs_of_pointers(alloc: Global, arrays: u8) -> Result<Vec<u8>, AllocError>
    requires { arrays ≤ 40 }
{
    let mut pairs = Vec::new(alloc);
    for i in 0..arrays {
        let next = 6 * (i + 1);
        pairs.extend_from_slice(&[0x02, 0x04, 0x20, next, 0x20, next])?;
    }
    Ok(pairs)
}

/// So many arrays, each of two pointers to the next one, and a bool after the last.
pub fn fan(alloc: Global, arrays: u8) -> Vec<u8>
    requires { arrays ≤ 40 }
{
    match pairs_of_pointers(alloc, arrays) {
        Ok(pairs) => section_of(alloc, &[(pairs.as_slice(), 1), (b"\x00\x07", 1)]),
        Err(_) => Vec::new(alloc),
    }
}

fn pointers_to_texts(alloc: Global, pointers: u8) -> Result<Vec<u8>, AllocError>
    requires { pointers ≤ 80 }
{
    let mut section = Vec::new(alloc);
    for i in 0..pointers {
        section.extend_from_slice(&[0x20, 3 + 2 * pointers + i])?;
    }
    Ok(section)
}

/// An array of so many pointers to texts of 28 bytes, each of which overlaps the next.
pub fn overlap(alloc: Global, pointers: u8) -> Vec<u8>
    requires many { 29 ≤ pointers }
    requires few { pointers ≤ 80 }
{
    let head = [0x1D, 0x04, pointers - 29];
    let texts = usize::from(pointers) + 28;
    match pointers_to_texts(alloc, pointers) {
        Ok(section) => section_of(
            alloc,
            &[(&head, 1), (section.as_slice(), 1), (b"\x5C", texts)],
        ),
        Err(_) => Vec::new(alloc),
    }
}
