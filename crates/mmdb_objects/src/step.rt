//! A step of a path into a value of JSON.

/// A step into a value of JSON.
#[derive(Clone, Copy, Debug)]
pub enum PathStep<'a> {
    /// The last member with this key.
    Key(&'a str),
    /// The item at this index, from 0.
    Index(usize),
}
