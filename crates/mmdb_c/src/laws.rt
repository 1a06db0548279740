//! Laws of the list of a value: each is the contract of a function that does nothing.
ghost use Rattle.mmdb_c.specs.ListTrees.{ListsWhatUnfolds, EachTreeIsListed};

/// A list has the values of the tree that unfolds at its offset, each map and array before those that it holds, with
/// their offsets, types and sizes; it ends where the tree does.
pub fn list_is_what_unfolds()
    ensures { ListsWhatUnfolds }
{}

/// Where a tree unfolds in which no pointer leads to a pointer, within the levels, there is a list.
pub fn each_tree_is_listed()
    ensures { EachTreeIsListed }
{}
