//! Whether a database is whole and all its records can be read as values, and which can't; why in words, and what else is
//! expected of it.
#![tactic(auto)]

mod expected;
mod reason;
mod unreadable;

pub use expected::{TypePattern, date_of, is_ahead, time_text};
pub use reason::reason_of;
pub use unreadable::{Unreadable, unreadable_records};
