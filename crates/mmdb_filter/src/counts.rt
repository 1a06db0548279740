//! How lines fared.
ghost use Rattle.std.specs.Prelude.{◌≡◌, ◌+◌, ◌<◌, ◌≤◌, ◌^◌, None, IfSome};

/// How a line fared.
#[derive(Clone, Copy, PartialEq, Eq)]
pub enum Outcome {
    /// Its address has a record.
    Found,
    /// Its address has no record.
    Absent,
    /// It has no address.
    Unreadable,
    /// It is not of the form that was asked for.
    Malformed,
    /// The address, the record or a field failed.
    Failed,
    /// It is too long to be read, and stays as it is.
    TooLong,
    /// It has what would be added already, and stays as it is.
    Occupied,
}

impl Outcome {
    /// Whether the first line that fares so is named.
    #[inline(always)]
    pub(crate) fn is_named(self) -> bool {
        matches!(self, Outcome::TooLong | Outcome::Occupied)
    }
}

/// How many lines fared so.
#[derive(Clone, Copy, PartialEq, Eq)]
pub struct Counts {
    pub found: u64,
    pub absent: u64,
    pub unreadable: u64,
    pub malformed: u64,
    pub too_long: u64,
    pub rejected: u64,
    pub occupied: u64,
}

impl Counts {
    ghost use Rattle.mmdb_filter.specs.Counting.{nothing_counted, count_one, total};

    /// Of no line.
    pub fn new() -> Counts
        ensures { result ≡ nothing_counted }
    {
        Counts {
            found: 0,
            absent: 0,
            unreadable: 0,
            malformed: 0,
            too_long: 0,
            rejected: 0,
            occupied: 0,
        }
    }

    /// How many lines, or none where they are 2^64 or more.
    pub fn total(&self) -> Option<u64>
        ensures some { IfSome result (λ lines. lines ≡ total self.now) }
        ensures none { result ≡ None → 2 ^ 64 ≤ total self.now }
    {
        self.found
            .checked_add(self.absent)?
            .checked_add(self.unreadable)?
            .checked_add(self.malformed)?
            .checked_add(self.too_long)?
            .checked_add(self.rejected)?
            .checked_add(self.occupied)
    }

    /// One line more.
    pub(crate) fn count(&mut self, outcome: Outcome)
        requires { total self.old + 1 < 2 ^ 64 }
        ensures counted { self.new ≡ count_one self.old outcome }
        ensures more { total self.new ≡ total self.old + 1 }
    {
        match outcome {
            Outcome::Found => self.found += 1,
            Outcome::Absent => self.absent += 1,
            Outcome::Unreadable => self.unreadable += 1,
            Outcome::Malformed => self.malformed += 1,
            Outcome::TooLong => self.too_long += 1,
            Outcome::Failed => self.rejected += 1,
            Outcome::Occupied => self.occupied += 1,
        }
    }
}
