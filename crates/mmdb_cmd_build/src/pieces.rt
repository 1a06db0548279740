//! Stretches of addresses that have one answer.
use crate::kept::KeptRow;
use mmdb_blocks::Block;
use std::alloc::{AllocError, Global};

/// The addresses from one to another, and the index of their value.
#[derive(Clone, Copy)]
pub(crate) struct Piece {
    pub(crate) first: u128,
    pub(crate) last: u128,
    pub(crate) value: Option<usize>,
}

/// The stretches of addresses that have one row, ascending: all addresses.
#[derive(Drop)]
pub(crate) struct Pieces<'r> {
    rows: &'r [KeptRow],
    /// The next row.
    next: usize,
    /// The rows that have the address, each within the one before.
    around: Vec<KeptRow>,
    /// Where the next stretch begins.
    at: Option<u128>,
}

/// The last address of a block, or its first one where it is none.
pub(crate) fn last_of(block: Block) -> u128 {
    if block.is_block() {
        block.last()
    } else {
        block.first
    }
}

impl<'r> Pieces<'r> {
    /// The stretches of rows in order.
    pub(crate) fn new(alloc: Global, rows: &'r [KeptRow]) -> Pieces<'r> {
        Pieces {
            rows,
            next: 0,
            around: Vec::new(alloc),
            at: Some(0),
        }
    }

    // Forgets the rows that end before an address.
    fn leave(&mut self, at: u128) {
        for _ in 0..self.around.len() {
            match self.around.last() {
                Some(row) if last_of(row.block) < at => {
                    let _ = self.around.pop();
                }
                _ => return,
            }
        }
    }

    // Enters the rows that begin at an address, or before.
    fn enter(&mut self, at: u128) -> Result<(), AllocError> {
        for row in self.rows.get(self.next..).unwrap_or(&[]) {
            if row.block.first > at {
                break;
            }
            self.around.push(*row)?;
            self.next = self.next.saturating_add(1);
        }
        Ok(())
    }

    // The last address of the stretch that an address is in.
    fn end(&self) -> u128 {
        let around = match self.around.last() {
            Some(row) => last_of(row.block),
            None => u128::MAX,
        };
        match self.rows.get(self.next) {
            Some(row) => around.min(row.block.first.saturating_sub(1)),
            None => around,
        }
    }

    /// The next stretch.
    pub(crate) fn next_piece(&mut self) -> Result<Option<Piece>, AllocError> {
        let Some(first) = self.at else {
            return Ok(None);
        };
        self.leave(first);
        self.enter(first)?;
        let last = self.end().max(first);
        self.at = last.checked_add(1);
        let value = match self.around.last() {
            Some(row) => row.value,
            None => None,
        };
        Ok(Some(Piece { first, last, value }))
    }
}
