//! What users call by way of `maxminddb`: walks over networks, the values that lookups find, paths into them, equalities, and
//! readers without memory.
mod answers;
mod decodes;
mod equalities;
mod memory;
mod paths;
mod walks;
