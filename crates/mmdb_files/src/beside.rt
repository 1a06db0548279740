//! Names of files that are made beside another one.
use sha2::{Digest, Sha256};
use std::alloc::{AllocError, Global};

/// How many bytes a name may have that is put into another one, with the five around it: Linux takes 255.
const MOST_NAME: usize = 250;

/// A file by the folder that it is in and its name there.
#[derive(Clone, Copy)]
pub(crate) struct NamedFile<'a> {
    folder: &'a str,
    pub(crate) name: &'a str,
}

/// A path as a folder and a name.
pub(crate) fn split_path(path: &str) -> NamedFile<'_> {
    match path.rsplit_once('/') {
        Some((folder, name)) => NamedFile { folder, name },
        None => NamedFile {
            folder: ".",
            name: path,
        },
    }
}

// The SHA-256 of a name, as sixty-four digits.
fn hash_of(alloc: Global, name: &str) -> Result<String, AllocError> {
    let mut text = String::new(alloc);
    for byte in Sha256::digest(name.as_bytes()) {
        let digits: String = format!(in alloc; "{byte:02x}")?;
        text.push_str(digits.as_str())?;
    }
    Ok(text)
}

impl NamedFile<'_> {
    /// The path of the folder, with a slash at its end.
    pub(crate) fn folder_path(&self, alloc: Global) -> Result<String, AllocError> {
        let folder = self.folder;
        format!(in alloc; "{folder}/")
    }

    /// The path of the file that is made beside this one.
    pub(crate) fn path_beside(&self, alloc: Global) -> Result<String, AllocError> {
        let (folder, name) = (self.folder, self.name);
        if name.len() <= MOST_NAME {
            return format!(in alloc; "{folder}/.{name}.tmp");
        }
        let hash = hash_of(alloc, name)?;
        format!(in alloc; "{folder}/.{hash}.tmp")
    }
}
