//! The old and the new one of two databases.
ghost use Rattle.std.specs.Prelude.{◌≡◌};
ghost use Rattle.mmdb_compare.specs.Sides.{place_of, side_at};

/// One of the two.
#[derive(Clone, Copy)]
pub enum Side {
    Old,
    New,
}

impl Side {
    /// The place of its database, where the old one is the first.
    #[inline(always)]
    pub fn place(self) -> usize
        ensures { result ≡ place_of self }
    {
        match self {
            Side::Old => 0,
            Side::New => 1,
        }
    }

    /// The side of the database at a place.
    pub fn at(place: usize) -> Side
        ensures { result ≡ side_at place }
    {
        if place == 0 { Side::Old } else { Side::New }
    }
}
