//! Paths as they are written in code.

/// A path as an array of its steps: keys, indexes, and negative indexes that count from the end, as in
/// `path!["subdivisions", -1, "names", "en"]`.
#[macro_export]
macro_rules! path {
    ($($element:expr),* $(,)?) => {
        [$($crate::PathElement::from($element)),*]
    };
}
