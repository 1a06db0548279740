//! Laws of checks, each the contract of a function that does nothing.
ghost use Rattle.mmdb_check.specs.Laws.{NoPlaceIsMetAgain, OrderIsFree};

/// A value that unfolds to a finite tree leads neither to its own offset nor from any offset that it leads to back
/// to it: its check meets no offset under check again.
pub fn no_place_is_met_again()
    ensures { NoPlaceIsMetAgain }
{}

/// Whether values can be added to the good offsets depends neither on their order nor on how often they occur.
pub fn order_is_free()
    ensures { OrderIsFree }
{}
