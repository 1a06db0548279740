//! Cells that are kept.
ghost use Rattle.std.specs.Prelude.{◌≡◌, ◌≤◌, [], IfOk};

use std::alloc::{AllocError, Global};

/// How many bytes of cells are few.
const ROOM: usize = 30;

/// Few bytes of cells, in place.
#[derive(Drop)]
pub(crate) struct FewCells {
    length: u8,
    bytes: [u8; ROOM],
    ghost fits: { length ≤ 30 },
}

/// Cells that are kept: few bytes in place, so that they are at hand with what has them, and more on the heap.
#[derive(Drop)]
pub(crate) enum KeptCells {
    Few(FewCells),
    Many(Vec<u8>),
}

impl KeptCells {
    ghost use Rattle.mmdb_cmd_enrich.specs.KeptCells.{bytes_of, heap_of};

    /// None.
    pub(crate) fn none() -> KeptCells
        ensures bytes { bytes_of result ≡ [] }
        ensures heap { heap_of result ≡ 0 }
    {
        KeptCells::Few(FewCells {
            length: 0,
            bytes: [0; ROOM],
        })
    }

    /// A copy of cells.
    pub(crate) fn of(alloc: Global, cells: &[u8]) -> Result<KeptCells, AllocError>
        ensures { IfOk result (λ kept. bytes_of kept ≡ cells.now) }
    {
        let len = cells.len();
        if len <= ROOM {
            let mut bytes = [0; ROOM];
            bytes[..len].copy_from_slice(cells);
            return Ok(KeptCells::Few(FewCells {
                length: len as u8,
                bytes,
            }));
        }
        let mut many = Vec::with_capacity(alloc, len)?;
        many.extend_from_slice(cells)?;
        Ok(KeptCells::Many(many))
    }

    /// Their bytes.
    #[inline(always)]
    pub(crate) fn as_slice(&self) -> &[u8]
        ensures { result.now ≡ bytes_of self.now }
    {
        match self {
            KeptCells::Few(few) => &few.bytes[..usize::from(few.length)],
            KeptCells::Many(many) => many.as_slice(),
        }
    }

    /// How many bytes of the heap they take.
    pub(crate) fn heap(&self) -> usize
        ensures { result ≡ heap_of self.now }
    {
        match self {
            KeptCells::Few(_) => 0,
            KeptCells::Many(many) => many.len(),
        }
    }
}
