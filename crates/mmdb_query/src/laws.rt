//! Laws of sets of addresses, of parts of walks and of lists, each the contract of a function that does nothing.
ghost use Rattle.mmdb_query.specs.Answered.{SetsAreExact};
ghost use Rattle.mmdb_query.specs.Ascending.{NetworksAscend, AscendingAreListedWhole};
ghost use Rattle.mmdb_query.specs.Parts.{AnswersStay};

use crate::choice::Conditions;
use mmdb_blocks::laws::list_is_of_fewest;

/// Where conditions don't say of records that they meet them, and also that they don't, or can't be read, a set that has all
/// addresses of records that meet them, and no others, has exactly these.
pub fn sets_are_exact<C: Conditions>()
    ensures { SetsAreExact C.says C.is_unread }
{}

/// Of an address in a range the networks that are handed out say exactly what those do that are wanted.
pub fn answers_stay_within_range()
    ensures { AnswersStay }
{}

/// The networks that are listed of a range of a database ascend, those of IPv4 before those of IPv6; and so do those of some kinds, in
/// a range, that are handed out of them.
pub fn networks_ascend()
    ensures { NetworksAscend }
{}

/// Where the chosen ones of networks that ascend are put to a list without networks, what is printed, with what is left then, is the
/// text of the fewest blocks of each kind that is wanted, which have exactly their addresses.
pub fn ascending_list_is_of_fewest<C: Conditions>()
    ensures { AscendingAreListedWhole C.says C.is_unread }
{
    list_is_of_fewest();
}
