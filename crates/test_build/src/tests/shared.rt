//! Locks, names and owners of files of the system.
use mmdb_files::{ReplaceError, SharedFiles, begin_file};
use std::alloc::Global;
use std::fs::{File, OpenOptions, TryLockError};
use std::io::{self, Read, Write};
use std::rt::Files;
use std::test::Fail;
use std::time::Clock;

// A path in the folder of temporary files that no other run has.
fn path_of(rt: &HostRuntime, alloc: Global) -> io::Result<String> {
    let now = rt.since_1970()?.as_nanos();
    Ok(format!(in alloc; "/tmp/mmdb-test-{now}")?)
}

// Opens a file that is there.
fn opened(rt: &HostRuntime, path: &str) -> io::Result<File> {
    let mut options = OpenOptions::new();
    options.read(true).write(true);
    options.open(rt, path)
}

// All bytes of a file.
fn bytes_of(rt: &HostRuntime, alloc: Global, path: &str) -> io::Result<Vec<u8>> {
    let mut file = File::open(rt, path)?;
    let mut bytes = Vec::new(alloc);
    file.read_to_end(&mut bytes)?;
    Ok(bytes)
}

// Whether another one has a file locked.
fn is_held(rt: &HostRuntime, file: &File) -> bool {
    matches!(rt.try_lock(file), Err(TryLockError::WouldBlock))
}

#[test]
fn a_file_is_locked_once(rt: HostRuntime) -> Result<(), Fail> {
    let path = path_of(&rt, rt.alloc())?;
    let path = path.as_str();
    let first = File::create(&rt, path)?;
    let second = opened(&rt, path)?;
    let is_first = rt.try_lock(&first).is_ok();
    assert!(rt; is_first, "not locked");
    assert!(rt; is_held(&rt, &second), "locked twice");
    drop(first);
    let is_second = rt.try_lock(&second).is_ok();
    assert!(rt; is_second, "locked by nobody");
    let owner = rt.owner_of(path)?;
    rt.give(&second, Some(owner.user), Some(owner.group))?;
    rt.remove_file(path)?;
    Ok(())
}

#[test]
fn a_name_is_that_of_one_file(rt: HostRuntime) -> Result<(), Fail> {
    let alloc = rt.alloc();
    let path = path_of(&rt, alloc)?;
    let link: String = format!(in alloc; "{path}-link")?;
    let (path, link) = (path.as_str(), link.as_str());
    let first = File::create(&rt, path)?;
    rt.symlink(path, link)?;
    let (is_name, is_link) = (rt.is_name_of(path, &first)?, rt.is_name_of(link, &first)?);
    assert!(rt; is_name && !is_link, "{is_name} {is_link}");
    rt.remove_file(path)?;
    let second = File::create(&rt, path)?;
    let (was_first, is_second) = (rt.is_name_of(path, &first)?, rt.is_name_of(path, &second)?);
    assert!(rt; !was_first && is_second, "{was_first} {is_second}");
    rt.remove_file(link)?;
    rt.remove_file(path)?;
    Ok(())
}

// A file that took the place of one of these bytes.
fn replaced(rt: &HostRuntime, path: &str, bytes: &[u8]) -> Result<(), ReplaceError> {
    let mut pending = begin_file(rt, rt.alloc(), path)?;
    pending.write_all(bytes)?;
    pending.take_place(rt)
}

#[test]
fn a_file_takes_anothers_place(rt: HostRuntime) -> Result<(), Fail> {
    let alloc = rt.alloc();
    let path = path_of(&rt, alloc)?;
    let left: String = format!(in alloc;
        "/tmp/.{}.tmp",
        path.as_str().trim_start_matches("/tmp/")
    )?;
    let (path, left) = (path.as_str(), left.as_str());
    let mut beside = File::create(&rt, left)?;
    beside.write_all(b"left of a run that was killed")?;
    drop(beside);
    for bytes in ["one", "another"] {
        let is_done = replaced(&rt, path, bytes.as_bytes()).is_ok();
        let found = bytes_of(&rt, alloc, path)?;
        assert!(rt; is_done && found.as_slice() == bytes.as_bytes(), "{bytes}");
        let is_gone = rt.symlink_metadata(left).is_err();
        assert!(rt; is_gone, "{left} is there");
    }
    rt.remove_file(path)?;
    Ok(())
}
