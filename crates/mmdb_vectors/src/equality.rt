//! What the operators of equality say of two values.

/// Whether two values are equal, by `==` and by `!=`; none where the two operators do not agree.
pub fn equality<T: PartialEq>(a: &T, b: &T) -> Option<bool> {
    match (*a == *b, *a != *b) {
        (true, false) => Some(true),
        (false, true) => Some(false),
        _ => None,
    }
}
