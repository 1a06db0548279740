//! What tests of several crates share: a builder of files, sections of bytes, answers as texts, the rows that
//! failed, a file that fails, a hoard of memory, what the two operators of equality say, and a program's arguments.
#![tactic(auto)]

pub mod answer;
pub mod base;
pub mod builder;
pub mod equality;
pub mod failures;
pub mod file;
pub mod hoard;
pub mod section;
pub mod words;
