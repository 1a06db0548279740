//! Laws of rows and counts, each the contract of a function that does nothing.
ghost use Rattle.mmdb_filter.specs.Equality.{IsEquality, IsCloneSame, NeverFails};

use crate::counts::{Counts, Outcome};
use crate::rows::{RowPosition, Rows};

/// Two kinds of rows, positions in a row, outcomes or counts are equal exactly where they are the same.
pub fn counts_equal_where_same()
    ensures rows { IsEquality ⟦<Rows as PartialEq>⟧.eq }
    ensures position { IsEquality ⟦<RowPosition as PartialEq>⟧.eq }
    ensures outcome { IsEquality ⟦<Outcome as PartialEq>⟧.eq }
    ensures counts { IsEquality ⟦<Counts as PartialEq>⟧.eq }
{}

/// A clone of one of these is its source, and never fails.
pub fn count_clones_are_same()
    ensures rows { IsCloneSame ⟦<Rows as Clone>⟧.is_clone }
    ensures position { IsCloneSame ⟦<RowPosition as Clone>⟧.is_clone }
    ensures outcome { IsCloneSame ⟦<Outcome as Clone>⟧.is_clone }
    ensures counts { IsCloneSame ⟦<Counts as Clone>⟧.is_clone }
    ensures rows_given { NeverFails ⟦<Rows as Clone>⟧.is_infallible }
    ensures place_given { NeverFails ⟦<RowPosition as Clone>⟧.is_infallible }
    ensures outcome_given { NeverFails ⟦<Outcome as Clone>⟧.is_infallible }
    ensures counts_given { NeverFails ⟦<Counts as Clone>⟧.is_infallible }
{}
