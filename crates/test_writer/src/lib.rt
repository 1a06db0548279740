//! Tests of the writer, and of what files are written from: search trees of entries, and data sections.
#![tactic(auto)]

#[cfg(test)]
mod databases;
#[cfg(test)]
mod sections;
#[cfg(test)]
mod trees;
