//! Typed lists that are long.
use mmdb_value::{MaxMindDbError, fuzzing};
use std::alloc::{AllocError, Global};

/// How many elements a list has.
const LENGTHS: &[u16] = &[284, 285, 1_000, 1_001, 1_002, 2_002, 2_003, 40_000];

/// An array of so many elements has their number less 285 in two bytes.
const LEAST: u16 = 285;

// An array of the numbers from 0, each in two bytes.
fn array_of(alloc: Global, length: u16) -> Result<Vec<u8>, AllocError> {
    let mut section = Vec::new(alloc);
    match length.checked_sub(LEAST) {
        Some(more) => {
            section.extend_from_slice(b"\x1E\x04")?;
            section.extend_from_slice(&more.to_be_bytes())?;
        }
        None => section.extend_from_slice(&[0x1D, 0x04, length.saturating_sub(29) as u8])?,
    }
    for number in 0..length {
        let [high, low] = number.to_be_bytes();
        section.extend_from_slice(&[0xA2, high, low])?;
    }
    Ok(section)
}

fn counts_up(numbers: &[u16], length: u16) -> bool {
    for (at, number) in numbers.iter().enumerate() {
        if usize::from(*number) != at {
            return false;
        }
    }
    numbers.len() == usize::from(length)
}

// Whether an array of so many numbers is read as the list of them.
fn is_read(alloc: Global, length: u16) -> Result<bool, MaxMindDbError> {
    let section = array_of(alloc, length)?;
    let numbers: Vec<u16> = fuzzing::decode(alloc, section.as_slice())?;
    Ok(counts_up(numbers.as_slice(), length))
}

#[test]
fn long_lists(rt: HostRuntime) {
    for length in LENGTHS {
        let holds = is_read(rt.alloc(), *length).unwrap_or(false);
        assert!(rt; holds, "{length} elements");
    }
}
