//! Laws of sections, each the contract of a function that does nothing.
ghost use Rattle.mmdb_section.specs.Known.{KnownAtOneOffset, NoneStandsTwice};
ghost use Rattle.mmdb_section.specs.Laws.{AtMostTwiceAsDeep, SectionsAreGood};

/// A value of a section is with its pointers at most twice as deep as without: each container and each text may be reached
/// through a pointer, and no pointer leads to another.
pub fn at_most_twice_as_deep()
    ensures { AtMostTwiceAsDeep }
{}

/// Any values of a section that was made, if none is too deep, are good together: they keep the allowance of a check.
pub fn sections_are_good()
    ensures { SectionsAreGood }
{}

/// A value that was added, its parts too, begins at one offset; and of a section to which all values were added so no two are
/// the same.
pub fn equal_values_stand_once()
    ensures offset { KnownAtOneOffset }
    ensures values { NoneStandsTwice }
{}
