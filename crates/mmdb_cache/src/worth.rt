//! Whether it is worth to keep what was made.
ghost use Rattle.std.specs.Prelude.{◌≡◌, ◌≤◌, ◌+◌, ◌%◌, ◌||◌, ◌==◌, nat_lt};

/// How many things more are kept than were found again.
const MORE: u64 = 1024;

/// Where they are, one of so many is kept.
const PAUSE: u64 = 64;

/// How often things are kept, and found again. Where few are, as of records that come once each, keeping them costs more than it
/// spares.
#[derive(Clone, Copy)]
pub struct Worth {
    /// How often it was asked whether the next thing is to be kept.
    pub asked: u64,
    /// How many things were kept.
    pub kept: u64,
    /// How often one of them was found again.
    pub found: u64,
}

impl Worth {
    /// Of nothing that was kept.
    pub fn new() -> Worth
        ensures { result ≡ record { asked = 0; kept = 0; found = 0 } }
    {
        Worth {
            asked: 0,
            kept: 0,
            found: 0,
        }
    }

    /// Notes that something was found.
    #[inline(always)]
    pub fn find(&mut self)
        ensures found { self.old.found ≤ self.new.found }
        ensures kept { self.new.kept ≡ self.old.kept }
    {
        self.found = self.found.saturating_add(1);
    }

    /// Whether the next thing is to be kept, which is noted: where not many more were kept than found, and else one of 64.
    #[inline(always)]
    pub fn keeps(&mut self) -> bool
        ensures kept { result ≡ (nat_lt self.old.kept (self.old.found + 1024)
            || (self.new.asked % 64 == 0)) }
        ensures found { self.new.found ≡ self.old.found }
    {
        self.asked = self.asked.wrapping_add(1);
        let is_kept = self.kept.saturating_sub(self.found) < MORE || self.asked % PAUSE == 0;
        if is_kept {
            self.kept = self.kept.saturating_add(1);
        }
        is_kept
    }
}
