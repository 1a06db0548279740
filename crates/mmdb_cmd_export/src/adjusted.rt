//! Lists of chosen networks with blocks that are added and without blocks that are taken away.
ghost use Rattle.std.specs.Prelude.{◌≡◌, false, OnOk, IfErr, nat_eq};
ghost use Rattle.mmdb_blocks.specs.Lists.{page_of, listing_of, Prints};
ghost use Rattle.mmdb_cmd_export.specs.Listed.{ArePushed, PushesListed, IsListText, IsOfList, HasAddress, may_be_empty_of, ListFails};

use crate::blocks::{end_list, of_list};
use crate::gathering::{Adjustment, Gathered, of_ranges};
use crate::task::ExportTask;
use mmdb_blocks::laws::{joined_form_is_unique, list_is_of_fewest};
use mmdb_blocks::{Block, BlockKind, Kinds, List, Syntax};
use mmdb_console::ProgramError;
use mmdb_query::Addresses as Chosen;
use std::alloc::Global;
use std::io::Write;

/// Both kinds of addresses, in the order in which lists have them.
pub(crate) const KINDS: [BlockKind; 2] = [BlockKind::Ipv4, BlockKind::Ipv6];

/// Writes blocks of a kind.
pub(crate) fn push_blocks<O: Write>(
    kind: BlockKind,
    blocks: &[Block],
    list: &mut List<'_>,
    out: &mut O,
) -> Result<(), ProgramError>
    ensures pushed { OnOk result (Prints
        (λ text. ArePushed kind blocks.now (listing_of list.old) text (listing_of list.new))
        (O.contents out.old) (O.contents out.new)) }
    ensures failed { IfErr result IsOfList }
{
    for block in blocks {
        of_list(list.push(kind, *block, out))?;
    }
    Ok(())
}

/// What a list has: the chosen addresses of the kinds that are wanted, with what is added and without what is taken away.
#[derive(Clone, Copy)]
struct ListedAddresses<'x> {
    kinds: Kinds,
    chosen: &'x Chosen,
    adjustment: &'x Adjustment,
}

impl ListedAddresses<'_> {
    // Writes the blocks of a kind, if it is wanted.
    fn push_kind<O: Write>(
        &self,
        alloc: Global,
        kind: BlockKind,
        list: &mut List<'_>,
        out: &mut O,
    ) -> Result<(), ProgramError>
        requires { (page_of list.old).kinds ≡ self.now.kinds }
        ensures pushed { OnOk result (Prints
            (λ text. PushesListed self.now.kinds kind self.now.chosen.now self.now.adjustment.now
            (listing_of list.old) text (listing_of list.new))
            (O.contents out.old) (O.contents out.new)) }
        ensures failed { IfErr result IsOfList }
    {
        if !self.kinds.has(kind) {
            return Ok(());
        }
        match self.adjustment.blocks_of(alloc, self.chosen, kind) {
            Ok(blocks) => push_blocks(kind, blocks.as_slice(), list, out),
            Err(error) => Err(of_ranges(error)),
        }
    }
}

/// Writes the list of the chosen addresses with what is added and without what is taken away. Where a network could not be
/// read, it is not whole.
pub(crate) fn write_adjusted<'a, O: Write>(
    alloc: Global,
    task: &ExportTask<'_>,
    syntax: Syntax<'a>,
    gathered: &Gathered,
    adjustment: &Adjustment,
    out: &mut O,
) -> Result<(), ProgramError>
    ensures written { OnOk result (Prints
        (IsListText syntax.entry task.now.kinds gathered.now.chosen adjustment.now
        (nat_eq gathered.now.faults 0)) (O.contents out.old) (O.contents out.new)) }
    ensures not_empty { OnOk result (may_be_empty_of task.now ≡ false
        → HasAddress task.now.kinds gathered.now.chosen adjustment.now) }
    ensures failed { IfErr result (ListFails task.now gathered.now.chosen adjustment.now
        (O.contents out.old) (O.contents out.new)) }
{
    let listed = ListedAddresses {
        kinds: task.kinds,
        chosen: &gathered.chosen,
        adjustment,
    };
    let Ok(mut list) = List::new(alloc, syntax, task.kinds) else {
        return Err(ProgramError::Memory);
    };
    listed.push_kind(alloc, BlockKind::Ipv4, &mut list, out)?;
    listed.push_kind(alloc, BlockKind::Ipv6, &mut list, out)?;
    list_is_of_fewest();
    joined_form_is_unique();
    end_list(
        &mut list,
        task.allow_empty || task.may_lack(),
        gathered.faults == 0,
        out,
    )
}
