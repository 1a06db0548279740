//! What is kept of a data section.
/// The text of a value or a key that a pointer leads to, and what it costs within the limits.
#[derive(Drop)]
pub(crate) struct KeptText {
    pub(crate) text: Vec<u8>,
    /// The most containers and pointers that are on any way down in it.
    pub(crate) levels: usize,
    /// The number of values in it beside itself.
    pub(crate) values: usize,
    /// The number of bytes of texts, keys and byte strings.
    pub(crate) bytes: usize,
}
