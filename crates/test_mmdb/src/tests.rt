//! What no clause says of the program `mmdb`: worked texts, words, statuses and errors.
mod asserted;
mod elsewhere;
mod failures;
mod fields;
mod helps;
mod memory;
mod names;
mod progress;
mod replaced;
mod runs;
mod several;
mod verification;
