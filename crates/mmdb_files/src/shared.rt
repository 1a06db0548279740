//! What [`Files`] has not of files that several processes replace.
use std::fs::{File, TryLockError};
use std::io::{self, ErrorKind};
use std::os::unix::fs::{MetadataExt, fchown};
use std::rt::{Files, HostRuntime};

/// What Linux has for the process that asks, which belongs to whom it runs as.
const THIS_PROCESS: &str = "/proc/self";

/// The user who may give files to others.
const ROOT: u32 = 0;

/// Whose a file is.
#[derive(Clone, Copy, Debug, PartialEq, Eq)]
pub struct Owner {
    pub user: u32,
    pub group: u32,
}

/// Files that several processes replace: beside [`Files`] their locks, whose they are, and which file a path names. An impl that
/// leaves out one of these answers `ErrorKind::Unsupported`.
pub trait SharedFiles: Files {
    /// Locks an open file until it is closed, unless another process has it locked.
    fn try_lock(&self, _file: &Self::File) -> Result<(), TryLockError> {
        Err(TryLockError::Error(io::Error::from(ErrorKind::Unsupported)))
    }

    /// Whether a path is the name of an open file, and of a plain one; a link to it is not.
    fn is_name_of(&self, _path: &str, _file: &Self::File) -> io::Result<bool> {
        Err(io::Error::from(ErrorKind::Unsupported))
    }

    /// Whose the file at a path is.
    fn owner_of(&self, _path: &str) -> io::Result<Owner> {
        Err(io::Error::from(ErrorKind::Unsupported))
    }

    /// Gives an open file to a user, a group, or both.
    fn give(&self, _file: &Self::File, _user: Option<u32>, _group: Option<u32>) -> io::Result<()> {
        Err(io::Error::from(ErrorKind::Unsupported))
    }

    /// Whether this process may give files to others, as root may.
    fn may_give(&self) -> bool {
        false
    }
}

impl SharedFiles for HostRuntime {
    fn try_lock(&self, file: &File) -> Result<(), TryLockError> {
        file.try_lock()
    }

    fn is_name_of(&self, path: &str, file: &File) -> io::Result<bool> {
        let (named, opened) = (self.symlink_metadata(path)?, file.metadata()?);
        Ok(named.is_file() && named.dev() == opened.dev() && named.ino() == opened.ino())
    }

    fn owner_of(&self, path: &str) -> io::Result<Owner> {
        let found = self.metadata(path)?;
        Ok(Owner {
            user: found.uid(),
            group: found.gid(),
        })
    }

    fn give(&self, file: &File, user: Option<u32>, group: Option<u32>) -> io::Result<()> {
        fchown(file, user, group)
    }

    fn may_give(&self) -> bool {
        match self.owner_of(THIS_PROCESS) {
            Ok(owner) => owner.user == ROOT,
            Err(_) => false,
        }
    }
}
