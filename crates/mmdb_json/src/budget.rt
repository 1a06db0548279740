//! What a record may still have.
ghost use Rattle.std.specs.Prelude.{◌≡◌, ◌+◌, ◌≤◌, true};
ghost use Rattle.mmdb_json.specs.Appended.{ChargesKept};

use crate::kept::KeptText;

/// What a record may still have on the way through it: the limits are those within which any value is read.
#[derive(Clone, Copy)]
pub(crate) struct Budget {
    /// How many values are left after those that are charged, and how many bytes of texts, keys and byte strings.
    pub(crate) values: usize,
    pub(crate) bytes: usize,
    /// The fewest levels that were left on any way down so far.
    pub(crate) levels: usize,
}

impl Budget {
    /// Charges values. Whether that many are left.
    #[inline(always)]
    pub(crate) fn charge_values(&mut self, values: usize) -> bool
        ensures left { result ≡ true → self.new.values + values ≡ self.old.values }
        ensures bytes { self.new.bytes ≡ self.old.bytes }
        ensures levels { self.new.levels ≡ self.old.levels }
    {
        if values > self.values {
            return false;
        }
        self.values -= values;
        true
    }

    /// Charges bytes. Whether that many are left.
    #[inline(always)]
    pub(crate) fn charge_bytes(&mut self, bytes: usize) -> bool
        ensures left { result ≡ true → self.new.bytes + bytes ≡ self.old.bytes }
        ensures values { self.new.values ≡ self.old.values }
        ensures levels { self.new.levels ≡ self.old.levels }
    {
        if bytes > self.bytes {
            return false;
        }
        self.bytes -= bytes;
        true
    }

    /// Notes that this many levels are left.
    #[inline(always)]
    pub(crate) fn note_levels(&mut self, levels: usize)
        ensures fewest { (self.new.levels ≤ levels) × (self.new.levels ≤ self.old.levels) }
        ensures values { self.new.values ≡ self.old.values }
        ensures bytes { self.new.bytes ≡ self.old.bytes }
    {
        self.levels = self.levels.min(levels);
    }

    /// Charges what is kept, with this many levels left. Whether that much is left.
    #[inline(always)]
    pub(crate) fn charge_kept(&mut self, kept: &KeptText, levels: usize) -> bool
        ensures { result ≡ true → ChargesKept kept.now levels self.old self.new }
    {
        if kept.levels > levels || kept.values > self.values || kept.bytes > self.bytes {
            return false;
        }
        self.values -= kept.values;
        self.bytes -= kept.bytes;
        self.levels = self.levels.min(levels - kept.levels);
        true
    }
}
