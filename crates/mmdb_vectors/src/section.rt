//! Sections of bytes, from their parts.
use std::alloc::Global;

/// The parts one behind the other, each as often as it says. Where memory is lacking it is empty.
pub fn section_of(alloc: Global, parts: &[(&[u8], usize)]) -> Vec<u8> {
    let mut section = Vec::new(alloc);
    for (unit, times) in parts {
        for _ in 0..*times {
            if section.extend_from_slice(unit).is_err() {
                return Vec::new(alloc);
            }
        }
    }
    section
}
