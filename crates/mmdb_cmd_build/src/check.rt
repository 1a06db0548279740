//! A file that was made, compared with the rows.
use crate::kept::{KeptRows, Print, print_of};
use crate::pieces::{Piece, Pieces, last_of};
use mmdb_layout::{Database, Found};
use mmdb_query::{Answer, One, Walk};
use mmdb_reader::{MaxMindDbError, WithinOptions};
use mmdb_value::Value;
use std::alloc::Global;
use std::collections::HashMap;

/// A network of the file, and what its record is.
#[derive(Clone, Copy)]
struct FileNetwork {
    first: u128,
    last: u128,
    print: Print,
}

/// The networks of a file, one after another.
#[derive(Drop)]
struct FileNetworks<'r> {
    networks: One<'r, Vec<u8>>,
    /// What the records at offsets are.
    prints: HashMap<usize, Print>,
    /// The network that is at hand, none after the last.
    here: Option<FileNetwork>,
}

// What the record of a network is.
fn print_at(
    alloc: Global,
    found: &Found<'_>,
    offset: usize,
    prints: &mut HashMap<usize, Print>,
) -> Result<Print, MaxMindDbError> {
    if let Some(print) = prints.get(&offset) {
        return Ok(*print);
    }
    let record: Option<Value<'_>> = found.decode(alloc)?;
    let print = match &record {
        Some(record) => print_of(alloc, record)?,
        None => [0; 32],
    };
    drop(record);
    prints.insert(offset, print)?;
    Ok(print)
}

// A network of the file.
fn answer_of(
    alloc: Global,
    found: &Found<'_>,
    prints: &mut HashMap<usize, Print>,
) -> Result<Option<FileNetwork>, MaxMindDbError> {
    let Some(offset) = found.offset() else {
        return Ok(None);
    };
    let block = found.block().block;
    let print = print_at(alloc, found, offset, prints)?;
    Ok(Some(FileNetwork {
        first: block.first,
        last: last_of(block),
        print,
    }))
}

impl FileNetworks<'_> {
    // Goes on to the next network, or past the last.
    fn step(&mut self, alloc: Global) -> Result<(), MaxMindDbError> {
        self.here = match self.networks.next_item() {
            Some(Ok(found)) => answer_of(alloc, &found, &mut self.prints)?,
            Some(Err(error)) => return Err(error),
            None => None,
        };
        Ok(())
    }

    // Leaves the networks that end before an address.
    fn reach(&mut self, alloc: Global, at: u128) -> Result<(), MaxMindDbError> {
        for _ in 0..u64::MAX {
            match self.here {
                Some(answer) if answer.last < at => self.step(alloc)?,
                _ => break,
            }
        }
        Ok(())
    }

    // What there is from an address on, and up to which one.
    fn at(&self, at: u128) -> (Option<Print>, u128) {
        match self.here {
            Some(answer) if answer.first <= at => (Some(answer.print), answer.last),
            Some(answer) => (None, answer.first.saturating_sub(1)),
            None => (None, u128::MAX),
        }
    }

    // The first address of a stretch at which the file says something else, if there is one.
    fn differs_in(
        &mut self,
        alloc: Global,
        piece: Piece,
        wanted: Option<Print>,
    ) -> Result<Option<u128>, MaxMindDbError> {
        let mut at = piece.first;
        for _ in 0..u64::MAX {
            self.reach(alloc, at)?;
            let (found, last) = self.at(at);
            if found != wanted {
                return Ok(Some(at));
            }
            if last >= piece.last {
                break;
            }
            at = last.saturating_add(1);
        }
        Ok(None)
    }
}

// The first address at which the file says something else than the rows, if there is one.
fn first_in(
    alloc: Global,
    answers: &mut FileNetworks<'_>,
    kept: &KeptRows,
) -> Result<Option<u128>, MaxMindDbError> {
    let mut pieces = Pieces::new(alloc, &kept.rows);
    answers.step(alloc)?;
    for _ in 0..u64::MAX {
        let Some(piece) = pieces.next_piece()? else {
            break;
        };
        let wanted = match piece.value {
            Some(index) => kept.prints.get(index).copied(),
            None => None,
        };
        if let Some(at) = answers.differs_in(alloc, piece, wanted)? {
            return Ok(Some(at));
        }
    }
    Ok(None)
}

/// The first address at which a database says something else than rows in order, if there is one. An address of IPv4 is a
/// number below 2^32. The database is verified first.
pub(crate) fn first_difference(
    alloc: Global,
    database: &Database,
    kept: &KeptRows,
) -> Result<Option<u128>, MaxMindDbError> {
    database.verify(alloc)?;
    let mut answers = FileNetworks {
        networks: One::new(database.networks(alloc, WithinOptions::default())?),
        prints: HashMap::new(alloc),
        here: None,
    };
    first_in(alloc, &mut answers, kept)
}
