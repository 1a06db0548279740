//! What no clause says of rows and objects with fields: worked texts, statuses and errors.
mod asserted;
mod changes;
mod json_layers;
mod kept_texts;
mod layers;
mod network_column;
mod numbers;
mod record_texts;
mod texts;
