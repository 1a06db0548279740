//! The reader for C: databases, lookups, values and paths over memory that C holds. It has no raw pointer and no
//! `unsafe`. `c/` has the library over it that has libmaxminddb's interface.
#![tactic(auto)]

mod db;
mod item;
pub mod laws;
mod list;
mod many;
mod open;
mod path;
mod status;
