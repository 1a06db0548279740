//! Where two databases are read side by side.
ghost use Rattle.std.specs.Prelude.{◌≡◌, ◌+◌, true, unwrap_or};

use mmdb_format::header::Direct;

/// Where a value is read in two data sections, and what may still be read: each value and each key costs `VALUE`, each byte
/// of a key, a text or a byte string one.
#[derive(Clone, Copy)]
pub(crate) struct PairPosition {
    pub(crate) in_old: usize,
    pub(crate) in_new: usize,
    pub(crate) left: usize,
}

impl PairPosition {
    /// Takes a cost, if as much is left.
    #[inline(always)]
    pub(crate) fn takes(&mut self, cost: usize) -> bool
        ensures left { result ≡ true → self.new.left + cost ≡ self.old.left }
        ensures in_old { self.new.in_old ≡ self.old.in_old }
        ensures in_new { self.new.in_new ≡ self.old.in_new }
    {
        if cost > self.left {
            return false;
        }
        self.left -= cost;
        true
    }

    /// Goes to the contents after two headers.
    #[inline(always)]
    pub(crate) fn enter(&mut self, old: Direct, new: Direct)
        ensures { self.new ≡ record self.old {
          in_old = old.header.body;
          in_new = new.header.body;
        } }
    {
        self.in_old = old.header.body;
        self.in_new = new.header.body;
    }

    /// Leaves two contents whose ends are reached: a pointer that led to one is what was passed.
    #[inline(always)]
    pub(crate) fn leave(&mut self, old: Direct, new: Direct)
        ensures { self.new ≡ record self.old {
          in_old = unwrap_or old.after self.old.in_old;
          in_new = unwrap_or new.after self.old.in_new;
        } }
    {
        if let Some(after) = old.after {
            self.in_old = after;
        }
        if let Some(after) = new.after {
            self.in_new = after;
        }
    }
}
