//! Addresses that texts have.
#![tactic(auto)]

mod address_text;
mod addresses;
mod bytes;
mod cells;
mod openings;
mod readings;
mod rows;
mod words;

pub use address_text::AddressText;
pub use addresses::read_address;
pub use cells::whole_words;
pub use readings::{Reading, address_in, address_of, any_address, short_in};
pub use rows::{address_anywhere, last_address_anywhere};
