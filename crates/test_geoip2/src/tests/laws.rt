//! Each law is called.
use mmdb_geoip2::laws::{
    empty_means_absent, how_records_are_read, record_clones_say_same, record_clones_take_no_memory,
    record_defaults_say_nothing, records_equal_where_same,
};
use mmdb_geoip2::{City, Names};
use mmdb_record::laws::table_is_what_stands;

#[test]
fn laws_are_called() {
    how_records_are_read();
    records_equal_where_same();
    record_defaults_say_nothing();
    empty_means_absent();
    record_clones_say_same();
    record_clones_take_no_memory();
    table_is_what_stands::<Names<'_>>();
    table_is_what_stands::<City<'_>>();
}
