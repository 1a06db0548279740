//! Where a row names its addresses.

/// The columns of cells, or members of an object, that name a row's addresses.
#[derive(Clone, Copy, Debug)]
pub enum Columns<'a> {
    /// One of this name has the network.
    Network(&'a str),
    /// Two of these names have the first address and the last one.
    Range(&'a str, &'a str),
}
