//! Files that take another one's place.
use crate::beside::split_path;
use crate::error::ReplaceError;
use crate::shared::{Owner, SharedFiles};
use std::alloc::{AllocError, Global};
use std::fs::{File, OpenFile, OpenOptions, Permissions, TryLockError};
use std::io::{self, ErrorKind, Write};
use std::os::unix::fs::{OpenOptionsExt, PermissionsExt};
use std::rt::Files;
use std::thread::sleep;
use std::time::{Clock, Duration};

/// How often a file is tried that another process has locked: for ten seconds.
const MOST_TRIES: u32 = 200;

/// How many milliseconds are waited after each time.
const PAUSE: u64 = 50;

/// Who may read, write and run a file.
const MODE_BITS: u32 = 0o777;

/// That the owner may write a file, so that one that is left can be opened again.
const OWNER_WRITES: u32 = 0o200;

/// Whose the file in a place is, and who may read, write and run it.
#[derive(Clone, Copy)]
struct Rights {
    owner: Owner,
    mode: u32,
}

/// Whose the other file is, and whether the new one is of that user and that group.
#[derive(Clone, Copy)]
struct Kept {
    owner: Owner,
    user: bool,
    group: bool,
}

/// What a new file has of the other one: whose it is, and the mode that it gets at the end.
#[derive(Clone, Copy)]
struct Followed {
    kept: Kept,
    mode: u32,
}

impl Kept {
    // What was not kept, in words.
    fn text(self, alloc: Global) -> Result<Option<String>, AllocError> {
        let Owner { user, group } = self.owner;
        let text: String = match (self.user, self.group) {
            (true, true) => return Ok(None),
            (false, true) => format!(in alloc; "its owner {user} could not be kept")?,
            (true, false) => format!(in alloc; "its group {group} could not be kept")?,
            (false, false) => {
                format!(in alloc; "its owner {user} and its group {group} could not be kept")?
            }
        };
        Ok(Some(text))
    }
}

/// What a try to open the file beside another one came to.
#[derive(Drop)]
enum Try<F: Drop> {
    /// It is open, and locked, or there is an error of why it can't be.
    Claimed(F, Option<io::Error>),
    /// Another process has it locked.
    Held,
    /// What was opened has that name no more.
    Gone,
}

/// A file beside another one, `.NAME.tmp`, which takes its place when it is whole. It is empty at first, and locked: no other
/// process that makes such a file replaces the other one meanwhile. It stays where this process is killed, and the next one
/// begins it anew.
#[derive(Drop)]
pub struct PendingFile<R: SharedFiles> {
    file: R::File,
    path: String,
    // The folder that both are in, with a slash at its end.
    folder: String,
    // Whose place it takes.
    target: String,
    // Why it is not locked, if it is not.
    unlocked: Option<io::Error>,
    // Nothing where it takes no other file's place.
    followed: Option<Followed>,
}

impl<R: SharedFiles> Write for PendingFile<R> {
    fn write(&mut self, bytes: &[u8]) -> io::Result<usize> {
        self.file.write(bytes)
    }

    fn flush(&mut self) -> io::Result<()> {
        self.file.flush()
    }
}

// Waits until the names of a folder are on the disk.
fn sync_folder<R: Files>(rt: &R, folder: &str) -> io::Result<()> {
    let opened = File::open(rt, folder)?;
    opened.sync_all()
}

// Removes a file, if a path is its name still.
fn remove<R: SharedFiles>(rt: &R, path: &str, file: &R::File) {
    if let Ok(true) = rt.is_name_of(path, file) {
        let _ = rt.remove_file(path);
    }
}

impl<R: SharedFiles> PendingFile<R> {
    /// Its own path, until it takes the other one's place.
    pub fn path(&self) -> &str {
        self.path.as_str()
    }

    /// What is worth a line: that it is not locked, and what could not be kept of whose the other file is.
    pub fn remarks(&self, alloc: Global) -> Result<Vec<String>, AllocError> {
        let mut remarks = Vec::new(alloc);
        if let Some(error) = &self.unlocked {
            let path = self.path.as_str();
            remarks.push(format!(in alloc;
                "{path} can't be locked, so no other run may replace it: {error}"
            )?)?;
        }
        if let Some(followed) = self.followed {
            if let Some(text) = followed.kept.text(alloc)? {
                remarks.push(text)?;
            }
        }
        Ok(remarks)
    }

    // Brings it to the disk, and gives it the other one's name, unless it has its own no more.
    fn rename(&mut self, rt: &R) -> io::Result<bool> {
        if let Some(followed) = self.followed {
            self.file
                .set_permissions(Permissions::from_mode(followed.mode))?;
        }
        self.file.flush()?;
        self.file.sync_all()?;
        if !rt.is_name_of(self.path.as_str(), &self.file)? {
            return Ok(false);
        }
        rt.rename(self.path.as_str(), self.target.as_str())?;
        Ok(true)
    }

    /// Gives it the other one's name when it is on the disk, and waits until that is there too. On an `Err` what was there is
    /// there still, and this file is removed, unless the folder alone could not be brought to the disk.
    pub fn take_place(self, rt: &R) -> Result<(), ReplaceError> {
        let mut pending = self;
        match pending.rename(rt) {
            Ok(true) => Ok(sync_folder(rt, pending.folder.as_str())?),
            Ok(false) => {
                let PendingFile { path, .. } = pending;
                Err(ReplaceError::Lost { path })
            }
            Err(error) => {
                pending.remove(rt);
                Err(ReplaceError::Io(error))
            }
        }
    }

    /// Removes it, so that what was there stays.
    pub fn remove(self, rt: &R) {
        remove(rt, self.path.as_str(), &self.file);
    }
}

// The path that a link leads to in the end, of anything else its own.
fn target_of<R: Files>(rt: &R, alloc: Global, path: &str) -> io::Result<String> {
    let is_link = match rt.symlink_metadata(path) {
        Ok(found) => found.is_symlink(),
        Err(error) => {
            if error.kind() != ErrorKind::NotFound {
                return Err(error);
            }
            false
        }
    };
    if is_link {
        Ok(rt.canonicalize(alloc, path)?.into_string())
    } else {
        Ok(String::from_str(alloc, path)?)
    }
}

// Whose the file at a path is, and what they may do, none where there is none.
fn rights_of<R: SharedFiles>(rt: &R, path: &str) -> io::Result<Option<Rights>> {
    match rt.metadata(path) {
        Ok(found) => Ok(Some(Rights {
            owner: rt.owner_of(path)?,
            mode: found.permissions().mode() & MODE_BITS,
        })),
        Err(error) => if error.kind() == ErrorKind::NotFound {
            Ok(None)
        } else {
            Err(error)
        },
    }
}

// Makes a file that was not there, for whom the other one is.
fn new_file<R: Files>(rt: &R, path: &str, rights: Option<Rights>) -> io::Result<R::File> {
    let mut options = OpenOptions::new();
    options.read(true).write(true).create_new(true);
    if let Some(rights) = rights {
        options.mode(rights.mode | OWNER_WRITES);
    }
    options.open(rt, path)
}

// Opens a file that was left, as it is; none where it is gone by now. What is no plain file is not opened.
fn left_file<R: Files>(rt: &R, alloc: Global, path: &str) -> Result<Option<R::File>, ReplaceError> {
    match rt.symlink_metadata(path) {
        Ok(found) if found.is_file() => {}
        Ok(_) => {
            return Err(ReplaceError::NoFile {
                path: String::from_str(alloc, path)?,
            });
        }
        Err(error) if error.kind() == ErrorKind::NotFound => return Ok(None),
        Err(error) => return Err(ReplaceError::Io(error)),
    }
    let mut options = OpenOptions::new();
    options.read(true).write(true);
    match options.open(rt, path) {
        Ok(file) => Ok(Some(file)),
        Err(error) if error.kind() == ErrorKind::NotFound => Ok(None),
        Err(error) => Err(ReplaceError::Left {
            path: String::from_str(alloc, path)?,
            error,
        }),
    }
}

// Locks an open file, and cuts it to nothing where a path is still its name.
fn claim<R: SharedFiles>(rt: &R, path: &str, file: R::File) -> io::Result<Try<R::File>> {
    let unlocked = match rt.try_lock(&file) {
        Ok(()) => None,
        Err(TryLockError::WouldBlock) => return Ok(Try::Held),
        Err(TryLockError::Error(error)) => Some(error),
    };
    match rt.is_name_of(path, &file) {
        Ok(true) => {
            file.set_len(0)?;
            Ok(Try::Claimed(file, unlocked))
        }
        Ok(false) => Ok(Try::Gone),
        Err(error) if error.kind() == ErrorKind::NotFound => Ok(Try::Gone),
        Err(error) => Err(error),
    }
}

// Claims a file that was left. Without locks another process may write it still: then one of that name is begun anew.
fn claim_left<R: SharedFiles>(rt: &R, path: &str, file: R::File) -> io::Result<Try<R::File>> {
    if let Err(TryLockError::Error(error)) = rt.try_lock(&file) {
        drop(error);
        rt.remove_file(path)?;
        return Ok(Try::Gone);
    }
    claim(rt, path, file)
}

// Tries once to make the file beside another one, or to take the one that is there.
fn try_beside<R: SharedFiles>(
    rt: &R,
    alloc: Global,
    path: &str,
    rights: Option<Rights>,
) -> Result<Try<R::File>, ReplaceError> {
    match new_file(rt, path, rights) {
        Ok(file) => Ok(claim(rt, path, file)?),
        Err(error) if error.kind() == ErrorKind::AlreadyExists => {
            match left_file(rt, alloc, path)? {
                Some(file) => Ok(claim_left(rt, path, file)?),
                None => Ok(Try::Gone),
            }
        }
        Err(error) => Err(ReplaceError::Io(error)),
    }
}

// Gives a file to whom another one belongs, as far as this process may. An `Err` where it may and that fails.
fn give<R: SharedFiles>(rt: &R, file: &R::File, owner: Owner) -> Result<Kept, ReplaceError> {
    let (user, group) = (Some(owner.user), Some(owner.group));
    if !rt.may_give() {
        return Ok(Kept {
            owner,
            user: rt.give(file, user, None).is_ok(),
            group: rt.give(file, None, group).is_ok(),
        });
    }
    match rt.give(file, user, group) {
        Ok(()) => Ok(Kept {
            owner,
            user: true,
            group: true,
        }),
        Err(error) => Err(ReplaceError::Owner { owner, error }),
    }
}

// Gives a file to whom the one at a path belongs, and lets no others read or write it than that one does; nothing where there is
// none.
fn follow<R: SharedFiles>(
    rt: &R,
    file: &R::File,
    target: &str,
) -> Result<Option<Followed>, ReplaceError> {
    let Some(Rights { owner, mode }) = rights_of(rt, target)? else {
        return Ok(None);
    };
    let kept = give(rt, file, owner)?;
    file.set_permissions(Permissions::from_mode(mode | OWNER_WRITES))?;
    Ok(Some(Followed { kept, mode }))
}

// The file beside another one, when no other process has it locked any more.
fn file_beside<R: SharedFiles + Clock>(
    rt: &R,
    alloc: Global,
    path: &str,
    target: &str,
) -> Result<(R::File, Option<io::Error>), ReplaceError> {
    let rights = rights_of(rt, target)?;
    for _ in 0..MOST_TRIES {
        match try_beside(rt, alloc, path, rights)? {
            Try::Claimed(file, unlocked) => return Ok((file, unlocked)),
            Try::Held => sleep(rt, Duration::from_millis(PAUSE)),
            Try::Gone => {}
        }
    }
    Err(ReplaceError::Locked {
        path: String::from_str(alloc, path)?,
    })
}

/// Begins the file that takes the place of the one at a path, of a link that of the file which it leads to. It belongs to whom
/// that one belongs, as far as the system lets it, and may be read and written by whom that one may. Another process that makes
/// such a file is waited for, up to ten seconds.
pub fn begin_file<R: SharedFiles + Clock>(
    rt: &R,
    alloc: Global,
    path: &str,
) -> Result<PendingFile<R>, ReplaceError> {
    let target = target_of(rt, alloc, path)?;
    let named = split_path(target.as_str());
    if named.name.is_empty() {
        return Err(ReplaceError::Io(io::Error::from(ErrorKind::IsADirectory)));
    }
    let folder = named.folder_path(alloc)?;
    let path = named.path_beside(alloc)?;
    let (file, unlocked) = file_beside(rt, alloc, path.as_str(), target.as_str())?;
    match follow(rt, &file, target.as_str()) {
        Ok(followed) => Ok(PendingFile {
            file,
            path,
            folder,
            target,
            unlocked,
            followed,
        }),
        Err(error) => {
            remove(rt, path.as_str(), &file);
            Err(error)
        }
    }
}
