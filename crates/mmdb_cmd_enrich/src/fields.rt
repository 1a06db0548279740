//! Fields that are asked for.
use mmdb_layout::path_texts;
use std::alloc::{AllocError, Global};

/// A field that is asked for.
#[derive(Clone, Copy)]
pub(crate) struct AskedField<'a> {
    /// Its path, as it is written.
    pub(crate) path: &'a str,
    /// Whether it was said that no record has it.
    pub(crate) is_said: bool,
    /// Whether no record of the databases has it, be it of other rows. It is looked for where that sets the status.
    pub(crate) is_nowhere: bool,
}

/// The fields that these texts ask for, each a path or a name and a path.
pub(crate) fn wanted_fields<'a>(
    alloc: Global,
    texts: &[&'a str],
) -> Result<Vec<AskedField<'a>>, AllocError> {
    let mut fields = Vec::new(alloc);
    for path in &path_texts(alloc, texts)? {
        fields.push(AskedField {
            path: *path,
            is_said: false,
            is_nowhere: false,
        })?;
    }
    Ok(fields)
}
