//! Laws of entries, each the contract of a function that does nothing.
ghost use Rattle.mmdb_nodes.specs.Laws.{LastIsLongest};

/// Of entries in order the last one that has an address is that of the longest prefix.
pub fn last_is_longest()
    ensures { LastIsLongest }
{}
