//! An array or a map that is being read.

/// What is left of an array, and what to go back to. It must be spent, by `Decoder::end_array` or
/// `give_up`.
pub struct Items {
    pub(crate) remaining: usize,
    pub(crate) after: Option<usize>,
    pub(crate) levels: u16,
}

/// What is left of a map, and what to go back to. It must be spent, by `Decoder::end_map` or
/// `give_up`.
pub struct Entries {
    pub(crate) remaining: usize,
    pub(crate) after: Option<usize>,
    pub(crate) levels: u16,
}
