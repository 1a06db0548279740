//! A column of rows.
ghost use Rattle.std.specs.Prelude.{◌≡◌, IfOk};
ghost use Rattle.mmdb_query_forms.specs.Labels.{member_label};

use mmdb_json::compact;
use mmdb_reader::PathElement;
use mmdb_value::Value;
use std::alloc::{AllocError, Global};

/// What a column shows of what databases have.
#[derive(Drop)]
pub enum ColumnSource<'a> {
    /// The value at the end of a path: that of the first database that has one there.
    Path(Vec<PathElement<'a>>),
    /// The whole record of the database at a place.
    Record(usize),
}

/// A column: its name, and what it shows.
#[derive(Drop)]
pub struct Column<'a> {
    pub(crate) name: &'a str,
    pub(crate) source: ColumnSource<'a>,
    label: Vec<u8>,
    ghost labelled: { label.items ≡ member_label name.now },
}

// What comes before the value of a name in an object, behind others.
fn label_of(alloc: Global, name: &str) -> Result<Vec<u8>, AllocError>
    ensures { IfOk result (λ label. label.items ≡ member_label name.now) }
{
    let key = compact(alloc, &Value::String(name))?;
    let mut label = Vec::new(alloc);
    label.push(b',')?;
    label.extend_from_slice(key.as_slice())?;
    label.push(b':')?;
    Ok(label)
}

impl<'a> Column<'a> {
    /// A column of this name.
    pub fn new(
        alloc: Global,
        name: &'a str,
        source: ColumnSource<'a>,
    ) -> Result<Column<'a>, AllocError>
        ensures name { IfOk result (λ column. column.name.now ≡ name.now) }
        ensures source { IfOk result (λ column. column.source ≡ source.entry) }
    {
        let label = label_of(alloc, name)?;
        Ok(Column {
            name,
            source,
            label,
        })
    }

    /// What it shows.
    pub fn source(&self) -> &ColumnSource<'a>
        ensures { result.now ≡ self.now.source }
    {
        &self.source
    }

    /// What comes before its value in an object.
    pub(crate) fn label(&self) -> &[u8]
        ensures { result.now ≡ member_label self.now.name.now }
    {
        self.label.as_slice()
    }
}
