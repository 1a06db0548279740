//! Readers from the bytes of a file.
ghost use Rattle.std.specs.Prelude.{◌≡◌, ◌≤◌, ◌<◌, ◌⊎◌, ◌++◌, length, take, IfOk, IfErr, IfSome, IfNone};
ghost use Rattle.std.specs.Io.KnownBytes.{Consumes};
ghost use Rattle.mmdb_format.specs.Error.{OfIo, OfMemory, kind_of, MemoryApart};
ghost use Rattle.mmdb_reader.specs.Source.{IsDatabaseOf, IsNoDatabase};

use crate::file_layout::FileLayout;
use crate::reader::Reader;
use mmdb_format::error::MaxMindDbError;
use std::alloc::Global;
use std::convert::AsSlice;
use std::fs::{File, OpenFile};
use std::io::{self, Read};
use std::path::AsPath;
use std::rt::Files;

/// How many bytes of a file are read at once, as long as they are those of another one.
const CHUNK: usize = 1 << 17;

// The error of a call on a file.
fn error_of(error: io::Error) -> MaxMindDbError
    ensures { (kind_of result ≡ OfIo) ⊎ (kind_of result ≡ OfMemory) }
{
    if error.kind() == io::ErrorKind::OutOfMemory {
        return MaxMindDbError::Memory;
    }
    MaxMindDbError::Io(error)
}

// Some bytes, and after them those that are left in a file.
fn read_behind<R: Read>(
    alloc: Global,
    file: &mut R,
    front: &[u8],
    chunk: &[u8],
    expected: usize,
) -> Result<Vec<u8>, MaxMindDbError>
    ensures whole { IfOk result (λ bytes. IfSome (R.remaining file.old)
        (λ left. bytes.items ≡ front.now ++ chunk.now ++ left)) }
    ensures kinds { IfErr result (λ e. (kind_of e ≡ OfIo) ⊎ (kind_of e ≡ OfMemory)) }
{
    let known = front.len().saturating_add(chunk.len());
    let mut bytes = Vec::with_capacity(alloc, expected.max(known).saturating_add(1))?;
    bytes.extend_from_slice(front)?;
    bytes.extend_from_slice(chunk)?;
    match file.read_to_end(&mut bytes) {
        Ok(_) => Ok(bytes),
        Err(error) => Err(error_of(error)),
    }
}

// Reads in a file as long as its bytes are those of another one. It says how many were, and how many other ones the chunk
// then has; or none where all bytes of both are the same.
fn pass_same<R: Read>(
    file: &mut R,
    other: &[u8],
    chunk: &mut [u8],
) -> io::Result<Option<(usize, usize)>>
    requires { 0 < length chunk.old }
    ensures same { IfOk result (λ passed. IfNone passed
        (IfSome (R.remaining file.old) (λ all. all ≡ other.now))) }
    ensures other { IfOk result (λ passed. IfSome passed (λ at. Consumes (R.remaining file.old)
        (R.remaining file.new) (take at.0 other.now ++ take at.1 chunk.new))) }
    ensures within { IfOk result (λ passed. IfSome passed
        (λ at. (at.0 ≤ length other.now) × (at.1 ≤ length chunk.new))) }
{
    let mut passed = 0usize;
    for _ in 0..u64::MAX {
        let count = match file.read(chunk) {
            Ok(count) => count,
            Err(error) if error.kind() == io::ErrorKind::Interrupted => continue,
            Err(error) => return Err(error),
        };
        let left = &other[passed..];
        if count == 0 && left.is_empty() {
            return Ok(None);
        }
        if count == 0 || !left.starts_with(&chunk[..count]) {
            return Ok(Some((passed, count)));
        }
        passed += count;
    }
    Err(io::Error::from(io::ErrorKind::TimedOut))
}

// All bytes that are left in a file, if they are not those of another one.
fn read_other<R: Read>(
    alloc: Global,
    file: &mut R,
    other: &[u8],
    chunk: &mut [u8],
    expected: usize,
) -> Result<Option<Vec<u8>>, MaxMindDbError>
    requires { 0 < length chunk.old }
    ensures same { IfOk result (λ bytes. IfNone bytes
        (IfSome (R.remaining file.old) (λ left. left ≡ other.now))) }
    ensures whole { IfOk result (λ bytes. IfSome bytes
        (λ bytes. IfSome (R.remaining file.old) (λ left. bytes.items ≡ left))) }
    ensures kinds { IfErr result (λ e. (kind_of e ≡ OfIo) ⊎ (kind_of e ≡ OfMemory)) }
{
    match pass_same(file, other, chunk) {
        Ok(Some((same, count))) => {
            let (front, behind) = (&other[..same], &chunk[..count]);
            Ok(Some(read_behind(alloc, file, front, behind, expected)?))
        }
        Ok(None) => Ok(None),
        Err(error) => Err(error_of(error)),
    }
}

// The same, with memory for what is read at once.
fn read_unless_same<R: Read>(
    alloc: Global,
    file: &mut R,
    other: &[u8],
    expected: usize,
) -> Result<Option<Vec<u8>>, MaxMindDbError>
    ensures same { IfOk result (λ bytes. IfNone bytes
        (IfSome (R.remaining file.old) (λ left. left ≡ other.now))) }
    ensures whole { IfOk result (λ bytes. IfSome bytes
        (λ bytes. IfSome (R.remaining file.old) (λ left. bytes.items ≡ left))) }
    ensures kinds { IfErr result (λ e. (kind_of e ≡ OfIo) ⊎ (kind_of e ≡ OfMemory)) }
{
    let mut chunk = Vec::from_elem(alloc, 0, CHUNK)?;
    let bytes = read_other(alloc, file, other, &mut chunk, expected);
    drop(chunk);
    bytes
}

// How many bytes a file says that it has, or 0 where it does not say.
fn expected_len<F: OpenFile>(file: &F) -> usize {
    match file.metadata() {
        Ok(metadata) => usize::try_from(metadata.len()).unwrap_or(0),
        Err(_) => 0,
    }
}

impl<S: AsSlice<u8> + Drop> Reader<S> {
    /// A reader of the bytes of a file, which it owns or borrows.
    ///
    /// The file is accepted exactly where, unless out of memory, valid metadata are after its last marker, and the
    /// search tree and its separator have room before the marker. All errors for the file are `InvalidDatabase`, but
    /// those for what is where the metadata should be, which are of the kind that reading any value gives.
    pub fn from_source(alloc: Global, buf: S) -> Result<Reader<S>, MaxMindDbError>
        ensures accepted { IfOk result (λ reader. IsDatabaseOf (S.items buf) reader) }
        ensures rejected { IfErr result (λ e. MemoryApart e (IsNoDatabase (S.items buf))) }
    {
        let layout = FileLayout::of(alloc, buf.as_slice())?;
        Ok(Reader::from_layout(alloc, buf, layout)?)
    }
}

impl Reader<Vec<u8>> {
    /// A reader of the file at a path, which is read whole.
    ///
    /// Fails as `Io` where a call on the file failed, as `Memory`, or as `from_source` rejects what was
    /// read. A read that the system rejects since it has no memory is `Memory` too.
    pub fn open_readfile<R: Files, P: AsPath + Drop>(
        rt: &R,
        alloc: Global,
        path: P,
    ) -> Result<Reader<Vec<u8>>, MaxMindDbError>
        ensures accepted { IfOk result (λ reader. IsDatabaseOf reader.bytes reader) }
        // Where a file's bytes are known, they are those that the reader has, whole, or that are no database.
        ensures of_file { IfOk result (λ reader. (file : R.File)
            × IfSome (R.File.remaining file) (λ left. reader.bytes ≡ left)) }
        ensures rejected { IfErr result (λ e. (kind_of e ≡ OfIo) ⊎ MemoryApart e ((file : R.File)
            × IfSome (R.File.remaining file) IsNoDatabase)) }
    {
        let mut file = File::open(rt, path)?;
        let expected = expected_len(&file);
        Reader::from_source(alloc, read_behind(alloc, &mut file, &[], &[], expected)?)
    }

    /// A reader of the file at a path, or none where its bytes are those of another reader. Of the bytes that are the same no
    /// second copy is made before one differs.
    ///
    /// Fails as `open_readfile` does.
    pub fn open_unless_same<R: Files, P: AsPath + Drop>(
        rt: &R,
        alloc: Global,
        path: P,
        other: &Reader<Vec<u8>>,
    ) -> Result<Option<Reader<Vec<u8>>>, MaxMindDbError>
        ensures same { IfOk result (λ opened. IfNone opened ((file : R.File)
            × IfSome (R.File.remaining file) (λ left. left ≡ other.now.bytes))) }
        ensures accepted { IfOk result (λ opened. IfSome opened
            (λ reader. IsDatabaseOf reader.bytes reader)) }
        ensures of_file { IfOk result (λ opened. IfSome opened (λ reader. (file : R.File)
            × IfSome (R.File.remaining file) (λ left. reader.bytes ≡ left))) }
        ensures rejected { IfErr result (λ e. (kind_of e ≡ OfIo) ⊎ MemoryApart e ((file : R.File)
            × IfSome (R.File.remaining file) IsNoDatabase)) }
    {
        let mut file = File::open(rt, path)?;
        let expected = expected_len(&file);
        let bytes = read_unless_same(alloc, &mut file, other.bytes(), expected);
        drop(file);
        match bytes? {
            Some(bytes) => Ok(Some(Reader::from_source(alloc, bytes)?)),
            None => Ok(None),
        }
    }
}
