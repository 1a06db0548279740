//! Laws of enriched lines, the contracts of functions that do nothing.
ghost use Rattle.mmdb_cmd_enrich.specs.Longer.{LongerTextIsJson, LongerRowIsJson};

/// A line to which a member is added is JSON again: the object that it was, with that member after its own.
pub fn longer_line_is_json()
    ensures text { LongerTextIsJson }
    ensures row { LongerRowIsJson }
{}
