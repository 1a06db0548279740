//! A disk in memory, of which one call fails.
use mmdb_files::{Owner, SharedFiles};
use std::alloc::{AllocError, Allocator, Global};
use std::cell::{Cell, RefCell};
use std::env::{Env, FillError};
use std::fs::{Metadata, OpenFile, OpenOptions, Permissions, TryLockError};
use std::io::{self, ErrorKind, Read, Seek, SeekFrom, Write};
use std::os::unix::fs::PermissionsExt;
use std::path::PathBuf;
use std::rt::Files;
use std::time::{Clock, Duration};

/// A file by its name, what it has, and a number that no other one has.
#[derive(Drop)]
struct Named {
    name: String,
    bytes: Vec<u8>,
    number: u32,
    owner: Owner,
}

/// Whose files are that the process makes which runs.
const MINE: Owner = Owner { user: 1, group: 1 };

/// Whose `out.mmdb` is, where it is another one's.
pub(crate) const OTHER_OWNER: Owner = Owner { user: 7, group: 8 };

/// The name of a file that is left beside `out.mmdb`.
pub(crate) const LEFT: &str = ".out.mmdb.tmp";

/// How a system treats files that several processes replace.
#[derive(Clone, Copy)]
pub(crate) struct Sharing {
    /// How many tries find a file locked.
    pub(crate) held: u32,
    pub(crate) has_locks: bool,
    /// Which question whether a path is a file's name is answered with no.
    pub(crate) lost_at: u32,
    pub(crate) is_root: bool,
    /// Whether a file may be given to another user, and to another group.
    pub(crate) gives_user: bool,
    pub(crate) gives_group: bool,
    /// Whether a pipe has the name of the file beside.
    pub(crate) left_is_pipe: bool,
}

/// A system with locks, of which this process alone replaces files.
pub(crate) const ALONE: Sharing = Sharing {
    held: 0,
    has_locks: true,
    lost_at: u32::MAX,
    is_root: false,
    gives_user: true,
    gives_group: true,
    left_is_pipe: false,
};

/// The name of a link to `out.mmdb`.
pub(crate) const LINK: &str = "link.mmdb";

/// The name of a link that leads nowhere.
pub(crate) const DEAD_LINK: &str = "dead.mmdb";

/// The name of a pipe.
pub(crate) const PIPE: &str = "pipe";

/// Where a link leads.
const TARGET: &str = "out.mmdb";

/// The folders in which databases are looked for: the disk has files whose names have them.
const FOLDERS: &str = ":first:own/";

/// Files in one folder, the current one. The call number `fails_at` of all that may fail does.
#[derive(Drop)]
pub(crate) struct Disk {
    alloc: Global,
    files: RefCell<Vec<Named>>,
    calls: Cell<u32>,
    fails_at: u32,
    /// What `SOURCE_DATE_EPOCH` has, if it is there.
    epoch: Option<&'static str>,
    /// Who may read, write and run the file for which that was set last.
    mode: Cell<u32>,
    /// The number of the file that comes next.
    next: Cell<u32>,
    pub(crate) sharing: Cell<Sharing>,
}

// The name of a path in the current folder.
fn name_of(path: &str) -> &str {
    path.strip_prefix("./").unwrap_or(path)
}

// The error of a call that fails.
fn failed() -> io::Error {
    io::Error::from(ErrorKind::Other)
}

// The place of a name.
fn place_of(files: &[Named], name: &str) -> Option<usize> {
    files.iter().position(|file| file.name.as_str() == name)
}

// A copy of bytes.
fn copy_of(alloc: Global, bytes: &[u8]) -> Result<Vec<u8>, AllocError> {
    let mut copy = Vec::new(alloc);
    copy.extend_from_slice(bytes)?;
    Ok(copy)
}

impl Disk {
    pub(crate) fn new(alloc: Global, fails_at: u32, epoch: Option<&'static str>) -> Disk {
        Disk {
            alloc,
            files: RefCell::new(Vec::new(alloc)),
            calls: Cell::new(0),
            fails_at,
            epoch,
            mode: Cell::new(0),
            next: Cell::new(0),
            sharing: Cell::new(ALONE),
        }
    }

    // What a variable has, if it is there.
    fn variable(&self, name: &str) -> Option<&'static str> {
        match name {
            "SOURCE_DATE_EPOCH" => self.epoch,
            "MMDB_PATH" => Some(FOLDERS),
            _ => None,
        }
    }

    /// Who may read, write and run the file for which that was set last; 0 where it was set for none.
    pub(crate) fn mode(&self) -> u32 {
        self.mode.get()
    }

    /// How many calls there were.
    pub(crate) fn calls(&self) -> u32 {
        self.calls.get()
    }

    // Counts a call, and says whether it fails.
    fn count(&self) -> io::Result<()> {
        let calls = self.calls.get();
        self.calls.set(calls.saturating_add(1));
        if calls == self.fails_at {
            Err(failed())
        } else {
            Ok(())
        }
    }

    // Puts a file on the disk, in the place of one of its name.
    fn put_named(&self, named: Named) -> io::Result<()> {
        let Ok(mut files) = self.files.try_borrow_mut() else {
            return Err(failed());
        };
        let name = named.name.as_str();
        files.retain(|file| file.name.as_str() != name);
        files.push(named)?;
        Ok(())
    }

    /// Puts a new file of an owner on the disk, in the place of one of its name.
    pub(crate) fn put_of(&self, name: &str, bytes: &[u8], owner: Owner) -> io::Result<()> {
        let number = self.next.get();
        self.next.set(number.saturating_add(1));
        self.put_named(Named {
            name: String::from_str(self.alloc, name)?,
            bytes: copy_of(self.alloc, bytes)?,
            number,
            owner,
        })
    }

    /// Puts a new file on the disk, in the place of one of its name.
    pub(crate) fn put(&self, name: &str, bytes: &[u8]) -> io::Result<()> {
        self.put_of(name, bytes, MINE)
    }

    // The number of a file, if it is there.
    fn number_of(&self, name: &str) -> Option<u32> {
        let files = self.files.try_borrow().ok()?;
        let place = place_of(&files, name)?;
        Some(files.get(place)?.number)
    }

    /// Whose a file is, if it is there.
    pub(crate) fn owner(&self, name: &str) -> Option<Owner> {
        let files = self.files.try_borrow().ok()?;
        let place = place_of(&files, name)?;
        Some(files.get(place)?.owner)
    }

    // The name of the file of a number, none where it is gone.
    fn name_of_number(&self, number: u32) -> Option<String> {
        let files = self.files.try_borrow().ok()?;
        let place = files.iter().position(|file| file.number == number)?;
        String::from_str(self.alloc, files.get(place)?.name.as_str()).ok()
    }

    /// What a file has, or none where there is no such file.
    pub(crate) fn get(&self, name: &str) -> Option<Vec<u8>> {
        let files = self.files.try_borrow().ok()?;
        let place = place_of(&files, name)?;
        copy_of(self.alloc, &files.get(place)?.bytes).ok()
    }

    // Takes a file off the disk.
    fn take(&self, name: &str) -> io::Result<Named> {
        let Ok(mut files) = self.files.try_borrow_mut() else {
            return Err(failed());
        };
        match place_of(&files, name) {
            Some(place) if place < files.len() => Ok(files.remove(place)),
            _ => Err(io::Error::from(ErrorKind::NotFound)),
        }
    }

    // Takes the file of a number off the disk.
    fn take_number(&self, number: u32) -> io::Result<Named> {
        match self.name_of_number(number) {
            Some(name) => self.take(name.as_str()),
            None => Err(io::Error::from(ErrorKind::NotFound)),
        }
    }

    // Puts bytes behind those of a file.
    fn append(&self, number: u32, bytes: &[u8]) -> io::Result<()> {
        let mut file = self.take_number(number)?;
        file.bytes.extend_from_slice(bytes)?;
        self.put_named(file)
    }

    // Cuts a file to nothing.
    fn cut(&self, number: u32) -> io::Result<()> {
        let mut file = self.take_number(number)?;
        file.bytes.clear();
        self.put_named(file)
    }

    // Gives a file to a user, a group, or both.
    fn give(&self, number: u32, user: Option<u32>, group: Option<u32>) -> io::Result<()> {
        let mut file = self.take_number(number)?;
        file.owner = Owner {
            user: user.unwrap_or(file.owner.user),
            group: group.unwrap_or(file.owner.group),
        };
        self.put_named(file)
    }

    // What a name of a file has, of a link what it leads to.
    fn metadata(&self, name: &str) -> io::Result<Metadata> {
        if name == PIPE || (name == LEFT && self.sharing.get().left_is_pipe) {
            return Ok(Metadata::of_dir());
        }
        let name = if name == LINK { TARGET } else { name };
        match self.get(name) {
            Some(bytes) => Ok(Metadata::of_file(bytes.len() as u64)),
            None => Err(io::Error::from(ErrorKind::NotFound)),
        }
    }

    /// How many files there are.
    pub(crate) fn len(&self) -> usize {
        match self.files.try_borrow() {
            Ok(files) => files.len(),
            Err(_) => 0,
        }
    }
}

/// A disk as a runtime.
#[derive(Clone, Copy)]
pub(crate) struct DiskRuntime<'d> {
    pub(crate) disk: &'d Disk,
}

/// An open file: what is read of it, and the number of that which is written.
#[derive(Drop)]
pub(crate) struct DiskFile<'d> {
    disk: &'d Disk,
    number: u32,
    bytes: Vec<u8>,
    at: usize,
}

impl Read for DiskFile<'_> {
    fn read(&mut self, buf: &mut [u8]) -> io::Result<usize> {
        self.disk.count()?;
        let at = self.at.min(self.bytes.len());
        let count = (self.bytes.len() - at).min(buf.len()).min(50_000);
        buf[..count].copy_from_slice(&self.bytes[at..at + count]);
        self.at = at + count;
        Ok(count)
    }
}

impl Write for DiskFile<'_> {
    fn write(&mut self, bytes: &[u8]) -> io::Result<usize> {
        self.disk.count()?;
        let count = bytes.len().min(50_000);
        self.disk.append(self.number, &bytes[..count])?;
        Ok(count)
    }

    fn flush(&mut self) -> io::Result<()> {
        self.disk.count()
    }
}

impl Seek for DiskFile<'_> {
    fn seek(&mut self, to: SeekFrom) -> io::Result<u64> {
        self.disk.count()?;
        match to {
            SeekFrom::Start(at) => {
                self.at = usize::try_from(at).unwrap_or(usize::MAX);
            }
            _ => self.at = self.bytes.len(),
        }
        Ok(self.at as u64)
    }
}

impl OpenFile for DiskFile<'_> {
    fn metadata(&self) -> io::Result<Metadata> {
        Err(failed())
    }

    fn set_permissions(&self, permissions: Permissions) -> io::Result<()> {
        self.disk.count()?;
        self.disk.mode.set(permissions.mode());
        Ok(())
    }

    fn set_len(&self, size: u64) -> io::Result<()> {
        self.disk.count()?;
        if size == 0 {
            self.disk.cut(self.number)
        } else {
            Err(failed())
        }
    }

    fn sync_all(&self) -> io::Result<()> {
        self.disk.count()
    }

    fn sync_data(&self) -> io::Result<()> {
        self.disk.count()
    }
}

impl<'d> DiskRuntime<'d> {
    // An open file of these bytes.
    fn opened(&self, name: &str, bytes: Vec<u8>) -> DiskFile<'d> {
        DiskFile {
            disk: self.disk,
            number: self.disk.number_of(name).unwrap_or(u32::MAX),
            bytes,
            at: 0,
        }
    }

    // An open file that was not there before.
    fn made(&self, name: &str) -> io::Result<DiskFile<'d>> {
        let is_pipe = name == LEFT && self.disk.sharing.get().left_is_pipe;
        if is_pipe || self.disk.get(name).is_some() {
            return Err(io::Error::from(ErrorKind::AlreadyExists));
        }
        self.disk.put(name, b"")?;
        Ok(self.opened(name, Vec::new(self.disk.alloc)))
    }
}

impl<'d> Files for DiskRuntime<'d> {
    type File = DiskFile<'d>;

    type Dir = DiskFile<'d>;

    fn open_file(&self, how: &OpenOptions, path: &str) -> io::Result<DiskFile<'d>> {
        self.disk.count()?;
        if how.asks_create_new() {
            return self.made(name_of(path));
        }
        if path == "./" {
            return Ok(self.opened("", Vec::new(self.disk.alloc)));
        }
        let name = if path == LINK { TARGET } else { name_of(path) };
        match self.disk.get(name) {
            Some(bytes) => Ok(self.opened(name, bytes)),
            None => Err(io::Error::from(ErrorKind::NotFound)),
        }
    }

    fn open_dir(&self, _path: &str) -> io::Result<DiskFile<'d>> {
        Err(failed())
    }

    fn metadata(&self, path: &str) -> io::Result<Metadata> {
        self.disk.count()?;
        self.disk.metadata(name_of(path))
    }

    fn symlink_metadata(&self, path: &str) -> io::Result<Metadata> {
        self.disk.count()?;
        match path {
            LINK | DEAD_LINK => Ok(Metadata::of_symlink(1)),
            _ => self.disk.metadata(name_of(path)),
        }
    }

    fn canonicalize<B: Allocator>(&self, alloc: B, path: &str) -> io::Result<PathBuf<B>> {
        self.disk.count()?;
        if path == LINK {
            Ok(PathBuf::from_str(alloc, TARGET)?)
        } else {
            Err(io::Error::from(ErrorKind::NotFound))
        }
    }

    fn copy(&self, _from: &str, _to: &str) -> io::Result<u64> {
        Err(failed())
    }

    fn rename(&self, from: &str, to: &str) -> io::Result<()> {
        self.disk.count()?;
        let mut file = self.disk.take(name_of(from))?;
        file.name = String::from_str(self.disk.alloc, name_of(to))?;
        self.disk.put_named(file)
    }

    fn remove_file(&self, path: &str) -> io::Result<()> {
        self.disk.count()?;
        let file = self.disk.take(name_of(path))?;
        drop(file);
        Ok(())
    }

    fn create_dir(&self, _path: &str) -> io::Result<()> {
        Err(failed())
    }

    fn remove_dir(&self, _path: &str) -> io::Result<()> {
        Err(failed())
    }

    fn remove_dir_all<B: Allocator>(&self, _alloc: B, _path: &str) -> io::Result<()> {
        Err(failed())
    }
}

impl SharedFiles for DiskRuntime<'_> {
    fn try_lock(&self, _file: &Self::File) -> Result<(), TryLockError> {
        if let Err(error) = self.disk.count() {
            return Err(TryLockError::Error(error));
        }
        let sharing = self.disk.sharing.get();
        if !sharing.has_locks {
            return Err(TryLockError::Error(io::Error::from(ErrorKind::Unsupported)));
        }
        if sharing.held > 0 {
            self.disk.sharing.set(Sharing {
                held: sharing.held - 1,
                ..sharing
            });
            return Err(TryLockError::WouldBlock);
        }
        Ok(())
    }

    fn is_name_of(&self, path: &str, file: &Self::File) -> io::Result<bool> {
        self.disk.count()?;
        let sharing = self.disk.sharing.get();
        self.disk.sharing.set(Sharing {
            lost_at: sharing.lost_at.wrapping_sub(1),
            ..sharing
        });
        Ok(sharing.lost_at > 0 && self.disk.number_of(name_of(path)) == Some(file.number))
    }

    fn owner_of(&self, path: &str) -> io::Result<Owner> {
        self.disk.count()?;
        let name = if path == LINK { TARGET } else { name_of(path) };
        match self.disk.owner(name) {
            Some(owner) => Ok(owner),
            None => Err(io::Error::from(ErrorKind::NotFound)),
        }
    }

    fn give(&self, file: &Self::File, user: Option<u32>, group: Option<u32>) -> io::Result<()> {
        self.disk.count()?;
        let sharing = self.disk.sharing.get();
        let may_user = user.is_none() || sharing.gives_user;
        let may_group = group.is_none() || sharing.gives_group;
        if may_user && may_group {
            self.disk.give(file.number, user, group)
        } else {
            Err(io::Error::from(ErrorKind::PermissionDenied))
        }
    }

    fn may_give(&self) -> bool {
        self.disk.sharing.get().is_root
    }
}

impl Env for DiskRuntime<'_> {
    fn arg(&self, _i: usize, _buf: &mut [u8]) -> Result<usize, FillError> {
        Err(FillError::NotPresent)
    }

    fn var(&self, name: &str, buf: &mut [u8]) -> Result<usize, FillError> {
        let Some(text) = self.disk.variable(name) else {
            return Err(FillError::NotPresent);
        };
        if text.len() > buf.len() {
            return Err(FillError::TooLong);
        }
        buf[..text.len()].copy_from_slice(text.as_bytes());
        Ok(text.len())
    }

    fn var_at(&self, _i: usize, _buf: &mut [u8]) -> Result<usize, FillError> {
        Err(FillError::NotPresent)
    }
}

impl Clock for DiskRuntime<'_> {
    fn monotonic(&self) -> io::Result<Duration> {
        Ok(Duration::from_secs(1))
    }

    fn since_1970(&self) -> io::Result<Duration> {
        Ok(Duration::from_secs(1_000_000))
    }
}
