//! Laws of sets of addresses, each the contract of a function that does nothing.
ghost use Rattle.mmdb_query_forms.specs.Decided.{SetsOfDecidedAreExact};

/// A set that has the addresses of records that meet conditions, and no others, as far as that can be read, has exactly these of
/// the addresses in whose record no condition compares a double or a float.
pub fn sets_of_decided_are_exact()
    ensures { SetsOfDecidedAreExact }
{}
