//! What is kept of the things at offsets: a cache of as many bytes as it is made for, tables of short answers, and whether it is
//! worth to keep more.
#![tactic(auto)]

mod cache;
mod table;
mod worth;

pub use cache::{Cache, CacheEntry};
pub use table::{CacheKey, CacheTable, Memo};
pub use worth::Worth;
