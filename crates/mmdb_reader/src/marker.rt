//! Where the metadata of a file begin.
ghost use Rattle.std.specs.Prelude.{MatchOption};
ghost use Rattle.mmdb_reader.specs.File.{IsLastMarker};
ghost use Rattle.mmdb_reader.specs.Working.{HasNoMarker};

use memchr::memmem;

/// What comes before the metadata: 0xAB, 0xCD, 0xEF and "MaxMind.com".
pub(crate) const MARKER: &[u8; 14] = b"\xAB\xCD\xEFMaxMind.com";

/// The last place at which the marker is.
#[tactic(auto, using(crate::proofs::Markers::marker_found))]
pub(crate) fn find_marker(bytes: &[u8]) -> Option<usize>
    ensures { MatchOption result (HasNoMarker bytes.now) (IsLastMarker bytes.now) }
{
    memmem::rfind(bytes, MARKER)
}
