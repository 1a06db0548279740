//! Which networks of a database are chosen by the values of their records, and how networks are laid out with what their
//! records have.
#![tactic(auto)]

mod absent;
mod asked;
mod condition;
mod database;
mod few;
mod fields;
mod layout;
mod mapped;
mod named;
mod number;
mod read_along;
mod texts;

pub use absent::{FieldsMet, MOST_RECORDS, RecordAt, absent_text, similar_path};
pub use asked::asked_of;
pub use condition::{Condition, Requirement, is_number_of, split_condition};
pub use database::{
    Database, Found, Networks, Opened, networks_in, open_at, open_database, open_found, path_or,
};
pub use few::{can_be_walked, has_few_networks_in};
pub use fields::{ChosenFields, DefaultName, fields_of, path_texts};
pub use layout::{Layout, NETWORK, layout_of, line_of_cells, line_of_names, write_values};
pub use mapped::range_asked;
pub use named::{BesideFiles, NamedDatabase, NamedDatabases, keys_of, keys_of_all, open_named};
pub use number::is_comparable;
pub use read_along::ReadAlong;
pub use texts::Texts;
