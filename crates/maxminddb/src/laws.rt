//! The laws of the reader, of values and of the records.
pub use mmdb_geoip2::laws::{
    empty_means_absent, how_records_are_read, record_clones_say_same, record_clones_take_no_memory,
    record_defaults_say_nothing, records_equal_where_same,
};
pub use mmdb_reader::laws::{
    aliases_lead_to_ipv4, errors_hold_their_causes, few_positions_wait, items_agree_with_lookups,
    leaves_partition, listed_agrees, metadata_equal_where_same, network_clones_are_same,
    network_holds_address, networks_equal_where_same, path_is_read_along, path_is_what_leads,
    path_selects, range_walk, same_leaf_same_answer, scalar_clones_are_same, source_decides,
    step_clones_are_same, steps_equal_where_same, walk_stops, whole_file_answers, whole_walk,
};
pub use mmdb_value::laws::{
    answer_is_whole_value, answer_is_within_limits, any_value_is_exact, how_containers_are_read,
    how_owned_bytes_are_read, how_scalars_are_read, how_small_numbers_are_read,
    list_is_what_stands, no_place_is_met_again, one_scalar_stands, one_tree_unfolds,
    one_value_stands, order_is_free, owned_bytes_equal_where_same, record_is_what_stands,
    same_offset_same_result, scalar_is_what_stands, scalars_equal_where_same, scalars_unfold,
    skipping_is_passing, small_number_is_what_stands, table_is_what_stands,
    text_map_is_what_stands, value_is_what_stands, values_bounded, values_equal_where_same,
};
