//! Where in a row something is added.
ghost use Rattle.std.specs.Prelude.{◌≡◌, ◌++◌, IfOk, OnOk};
ghost use Rattle.mmdb_cmd_enrich.specs.Added.{PutsAt};
ghost use Rattle.mmdb_cmd_enrich.specs.Template.{comma_at};

use mmdb_filter::Outcome;
use std::alloc::AllocError;

/// A place in a row where something is added.
#[derive(Clone, Copy)]
pub struct RowPlace {
    /// How many bytes of the row's text follow what is added.
    pub behind: usize,
    /// Whether a comma comes before it.
    pub has_comma: bool,
    /// Whether the row is empty.
    pub is_empty: bool,
}

/// What was read of a row.
#[derive(Clone, Copy)]
pub enum ReadRow {
    /// Nothing is added to it, and it fares so.
    Passed(Outcome),
    Place(RowPlace),
}

// Adds a comma before a text, where that is wanted; none before an empty one.
#[inline(always)]
fn put_comma(has_comma: bool, text: &[u8], out: &mut Vec<u8>) -> Result<(), AllocError>
    ensures { OnOk result (out.new.items ≡ out.old.items ++ comma_at has_comma text.now) }
{
    if has_comma && !text.is_empty() {
        out.push(b',')?;
    }
    Ok(())
}

/// Adds a text, after a comma where that is wanted. An empty text gets none.
#[inline(always)]
pub(crate) fn put_at(
    has_comma: bool,
    text: &[u8],
    outcome: Outcome,
    out: &mut Vec<u8>,
) -> Result<Outcome, AllocError>
    ensures { IfOk result (λ fares.
        PutsAt has_comma text.now outcome fares out.old.items out.new.items) }
{
    put_comma(has_comma, text, out)?;
    out.extend_from_slice(text)?;
    Ok(outcome)
}

/// The same where it is seldom.
#[inline(never)]
pub(crate) fn put_text(
    has_comma: bool,
    text: &[u8],
    outcome: Outcome,
    out: &mut Vec<u8>,
) -> Result<Outcome, AllocError>
    ensures { IfOk result (λ fares.
        PutsAt has_comma text.now outcome fares out.old.items out.new.items) }
{
    put_at(has_comma, text, outcome, out)
}
