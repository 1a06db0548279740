//! Files that are made whole or not at all.
#![tactic(auto)]

mod beside;
mod error;
mod replace;
mod shared;
mod standing;

pub use error::ReplaceError;
pub use replace::{PendingFile, begin_file};
pub use shared::{Owner, SharedFiles};
pub use standing::{Standing, plain_standing_of, standing_of};
