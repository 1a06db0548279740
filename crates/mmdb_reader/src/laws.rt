//! Laws of leaves, answers and paths, each the contract of a function that does nothing.
ghost use Rattle.std.specs.Prelude.{◌↔◌, IsTrue};
ghost use Rattle.mmdb_net.specs.Clones.{IsCloneSame, NeverFails};
ghost use Rattle.mmdb_format.specs.Equality.{IsEqualityOf};
ghost use Rattle.mmdb_reader.specs.Source.{SourceDecides};
ghost use Rattle.mmdb_reader.specs.Metadata.{metadata_datum};
ghost use Rattle.mmdb_reader.specs.MetadataShape.{MetadataNamesStandOnce};
ghost use Rattle.mmdb_reader.specs.Laws.{LeavesAreDisjoint, EachAddressHasOneLeaf, EachAddressIsAnswered, AnswersAreUnique, SameLeafSameAnswer, NetworkHoldsAddress, Ipv4WithoutSubtree};
ghost use Rattle.mmdb_reader.specs.Agreement.{ItemsAgree};
ghost use Rattle.mmdb_reader.specs.WholeLaws.{FewPositionsWait, FewStopsAreTaken, StopsAreExact, OffsetsAreExact, LookupsSucceed, AnsweredOffsetsAreWalked, WholeFilesAnswer, RecordsAreDecoded, GoesOnAsIpv4, AliasesEndAsIpv4};
ghost use Rattle.mmdb_reader.specs.Parts.{PathSelects, PathLeadsNowhere};
ghost use Rattle.mmdb_reader.specs.Ways.{SelectingIsLeading, OneWayLeads, AnswersAreReadAlong};
ghost use Rattle.mmdb_reader.specs.Selecting.{IsSameStep};
ghost use Rattle.mmdb_reader.specs.declared.path.PathElement.{PathElement as SpecPathElement};
ghost use Rattle.mmdb_reader.specs.ListingLaws.{RangeWalkLists, ListingsAreUnique, WholeWalkListsAll, ListedAgrees};

use crate::metadata::Metadata;
use crate::options::WithinOptions;
use crate::path::PathElement;
pub use mmdb_format::laws::{errors_hold_their_causes, scalar_clones_are_same};
pub use mmdb_net::laws::{network_clones_are_same, networks_equal_where_same};
use mmdb_record::decode::Decode;

/// Leaves are disjoint blocks, and each full address begins with exactly one.
pub fn leaves_partition()
    ensures disjoint { LeavesAreDisjoint }
    ensures covering { EachAddressHasOneLeaf }
{}

/// Two addresses of one leaf have the same answer, and each address has one and only one.
pub fn same_leaf_same_answer()
    ensures same { SameLeafSameAnswer }
    ensures answered { EachAddressIsAnswered }
    ensures unique { AnswersAreUnique }
{}

/// The network of an answer holds the address that was asked. For an IPv4 address of an IPv6 database
/// without an IPv4 subtree it is `::/k`.
pub fn network_holds_address()
    ensures holds { NetworkHoldsAddress }
    ensures without_subtree { Ipv4WithoutSubtree }
{}

/// The bytes of a file decide whether a reader accepts it, and what its metadata are.
pub fn source_decides()
    ensures { SourceDecides }
{}

/// The list of a range is exactly the leaves that are listed for it, ascending, each once, and no other
/// list is that.
pub fn range_walk()
    ensures listing { RangeWalkLists }
    ensures unique { ListingsAreUnique }
{}

/// Over the whole space, aliased networks and those without data included and empty values kept, the
/// list is all leaves, ascending, each once.
pub fn whole_walk()
    ensures { WholeWalkListsAll }
{}

/// What is listed of a leaf agrees with the answer for each address in it.
pub fn listed_agrees()
    ensures { ListedAgrees }
{}

/// An item of a list that is no error agrees with every lookup inside its network: each address for which
/// `contains` of the item's `network` is true has the item's leaf, with its offset or without data, for its
/// one answer.
pub fn items_agree_with_lookups()
    ensures { ItemsAgree }
{}

/// Options are equal exactly where they are the same, and metadata exactly where all nine fields say the
/// same.
pub fn metadata_equal_where_same()
    ensures options { IsEqualityOf ⟦<WithinOptions as PartialEq>⟧.eq (λ options. options) }
    ensures metadata { IsEqualityOf ⟦<Metadata as PartialEq>⟧.eq metadata_datum }
{}

/// In the map that metadata are read of, each of the nine names comes at most once.
pub fn metadata_names_stand_once()
    ensures { MetadataNamesStandOnce }
{}

/// The stops of a walk over the whole tree are exactly the topmost aliases and the leaves below no alias, ascending,
/// each once, and their offsets are those of the values of these leaves.
pub fn walk_stops()
    ensures stops { StopsAreExact }
    ensures offsets { OffsetsAreExact }
{}

/// While such a walk is under way at most 129 positions wait. It takes the first stops, up to a faulty leaf, and at
/// most one more than three for each node.
pub fn few_positions_wait()
    ensures wait { FewPositionsWait }
    ensures stops { FewStopsAreTaken }
{}

/// In a tree none of whose walked leaves is faulty every lookup succeeds, below aliases too; and in a whole file a tree
/// of valid texts unfolds at each offset that a lookup answers.
pub fn whole_file_answers()
    ensures lookups { LookupsSucceed }
    ensures offsets { AnsweredOffsetsAreWalked }
    ensures whole { WholeFilesAnswer }
{}

/// Where `verify_records` succeeds, a `Value` is decoded at each offset that a lookup answers, within the limits of a
/// reading: `decode::<Value>` of each lookup succeeds, unless out of memory.
pub fn records_are_decoded()
    ensures { RecordsAreDecoded }
{}

/// Below an alias the walk goes on as where IPv4 begins; below one of at most 96 bits it ends within 32 bits on a leaf
/// that leads where a walked leaf of IPv4 does.
pub fn aliases_lead_to_ipv4()
    ensures goes_on { GoesOnAsIpv4 }
    ensures ends { AliasesEndAsIpv4 }
{}

/// Where a value unfolds to a tree and a path leads to a place, the tree has a part along the path, and that
/// part unfolds at the place; where the path leads nowhere, the tree has no such part.
pub fn path_selects()
    ensures part { PathSelects }
    ensures nowhere { PathLeadsNowhere }
{}

/// Where a path leads, in the words of the format, is where it is found to lead, with the same costs: to one
/// offset, whatever is there, or nowhere.
pub fn path_is_what_leads()
    ensures same { SelectingIsLeading }
    ensures one { OneWayLeads }
{}

/// What is read along a path from the start is what is read at the offset that the path leads to, or nothing
/// where it leads nowhere, exactly where both together are within the limits.
pub fn path_is_read_along<'de, T: Decode<'de>>()
    ensures { AnswersAreReadAlong T.meaning }
{}

/// Steps of a path are equal exactly where they are of one kind and have the same index or spelling.
pub fn steps_equal_where_same()
    ensures { (a b : SpecPathElement)
        → IsTrue (⟦<PathElement<'static> as PartialEq>⟧.eq a b) ↔ IsSameStep a b }
{}

/// A clone of options, or of a step of a path, is its source, and never fails.
pub fn step_clones_are_same()
    ensures options { IsCloneSame ⟦<WithinOptions as Clone>⟧.is_clone }
    ensures step { IsCloneSame ⟦<PathElement<'static> as Clone>⟧.is_clone }
    ensures options_given { NeverFails ⟦<WithinOptions as Clone>⟧.is_infallible }
    ensures step_given { NeverFails ⟦<PathElement<'static> as Clone>⟧.is_infallible }
{}
