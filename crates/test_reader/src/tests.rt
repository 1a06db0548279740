//! What no clause says: worked rows over public calls, printed texts, and files.
mod answers;
mod facade;
mod file_layouts;
mod files;
mod interrupted;
mod lookups;
mod many;
mod metadata;
mod sizes;
mod table;
mod unless_same;
mod verify;
