//! Laws of joined lists, each the contract of a function that does nothing.
ghost use Rattle.std.specs.Prelude.{◌≡◌, ◌≤◌, ◌++◌, ℕ, false, None, List, [], ◌∷◌, length};
ghost use Rattle.std.specs.List.{AllByRecursion};
ghost use Rattle.mmdb_blocks.specs.Blocks.{IsBlock, SameAddresses, IsJoined};
ghost use Rattle.mmdb_blocks.specs.Lists.{Page, Listing, TakesBlock, Pushes, settled_text, with_settled, changed_text, changed_page, changed_waiting, printed_rest, finished_text};
ghost use Rattle.mmdb_blocks.specs.ListTexts.{PushesAll, IsWhole, page_text};
ghost use Rattle.mmdb_blocks.specs.declared.block.Block.{Block as SpecBlock};
ghost use Rattle.mmdb_blocks.specs.declared.kind.BlockKind.{BlockKind as SpecKind};

use crate::kind::BlockKind;

/// The joined form of blocks is the only one: where two lists are joined forms of them, they are the same.
pub fn joined_form_is_unique()
    ensures { (blocks some other : List SpecBlock) → IsJoined blocks some
        → IsJoined blocks other → some ≡ other }
{}

/// No list of blocks that has the same addresses is shorter than the joined form, whatever its order and overlaps.
pub fn joined_form_is_fewest()
    ensures { (blocks joined others : List SpecBlock) → IsJoined blocks joined
        → AllByRecursion IsBlock others → SameAddresses blocks others
        → length joined ≤ length others }
{}

/// Where networks of IPv4 are pushed to a list without networks, and then networks of IPv6, and then the list is finished, what is
/// printed is the text of the fewest blocks of each kind.
pub fn list_is_of_fewest()
    ensures { (ipv4 ipv6 : List SpecBlock) (old mid new : Listing) (first second : List ℕ)
        → old.kind ≡ None → old.waiting ≡ [] → old.page.has_written ≡ false
        → PushesAll BlockKind.Ipv4 ipv4 old first mid → PushesAll BlockKind.Ipv6 ipv6 mid second new
        → IsWhole old.page ipv4 ipv6 ((first ++ second) ++ finished_text new) }
{}

/// Where networks of a kind are pushed, of which no block waits, and then the list is finished, what is printed of the kind are
/// the fewest blocks that have their addresses, after what was left of the kind before.
pub fn kind_is_of_fewest()
    ensures { (kind : SpecKind) (block : SpecBlock) (blocks : List SpecBlock) (old new : Listing)
        (text : List ℕ) → changed_waiting old.kind kind old.waiting ≡ []
        → PushesAll kind (block ∷ blocks) old text new
        → (joined : List SpecBlock) × IsJoined (block ∷ blocks) joined
        × (text ++ finished_text new ≡ changed_text old.page old.kind kind old.waiting
        ++ printed_rest (changed_page old.page old.kind kind old.waiting) kind joined) }
{}

/// What is printed of blocks of a kind, the first ones of it: what comes before all networks, unless that is printed, and before
/// the kind's, then their lines, and what comes after them; without blocks nothing.
pub fn kind_is_printed_whole()
    ensures { (page : Page) (kind : SpecKind) (blocks : List SpecBlock) → page.has_written ≡ false
        → printed_rest page kind blocks ≡ page_text page kind blocks }
{}

/// A network that is taken, and whose settled blocks are written then, is pushed.
pub fn taken_is_pushed()
    ensures { (kind : SpecKind) (block : SpecBlock) (old mid : Listing)
        → TakesBlock kind block old mid
        → Pushes kind block old (settled_text mid) (with_settled mid) }
{}
