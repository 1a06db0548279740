//! Databases that are found elsewhere.
use crate::tests::asserted::assert_of;
use mmdb_files::SharedFiles;
use mmdb_program::{Io, run};
use mmdb_vectors::base::BASE_FILE;
use mmdb_vectors::file::{TestFile, TestFiles};
use std::alloc::{Allocator, Global};
use std::env::{Env, FillError};
use std::fs::{Metadata, OpenOptions};
use std::io;
use std::rt::Files;
use std::time::{Clock, Duration};
use test_runs::program::{Run, file_of, terminals, words_with};

/// What `MMDB_PATH` has: a missing folder and two others, between parts that are empty.
const PATH: &str = ":missing::own/:other:";

/// The paths of databases.
const DATABASES: &[&str] = &[
    "here.mmdb",
    "plain",
    "own/ASN.mmdb",
    "other/ASN",
    "own/Both",
    "own/Both.mmdb",
    "own/here",
    "other/Late.mmdb",
    "/usr/local/share/GeoIP/Late",
    "/usr/local/share/GeoIP/First.mmdb",
    "/usr/share/GeoIP/First",
    "/usr/share/GeoIP/City.mmdb",
    "/var/lib/GeoIP/City",
    "/var/lib/GeoIP/Last.mmdb",
    "/var/lib/GeoIP/bad",
];

/// The paths of folders.
const FOLDERS: &[&str] = &["folder", "own/City", "/usr/local/share/GeoIP/City"];

/// A runtime with a database at each of these paths.
#[derive(Drop)]
struct Spread<'a> {
    files: TestFiles<'a>,
}

impl<'a> Files for Spread<'a> {
    type File = TestFile<'a>;

    type Dir = TestFile<'a>;

    fn open_file(&self, how: &OpenOptions, path: &str) -> io::Result<TestFile<'a>> {
        if path == "/var/lib/GeoIP/bad" {
            return self.files.open_file(how, "new.mmdb");
        }
        if FOLDERS.contains(&path) {
            return Err(io::Error::from(io::ErrorKind::IsADirectory));
        }
        let name = if DATABASES.contains(&path) {
            "here.mmdb"
        } else {
            path
        };
        self.files.open_file(how, name)
    }

    fn open_dir(&self, path: &str) -> io::Result<TestFile<'a>> {
        self.files.open_dir(path)
    }

    fn metadata(&self, path: &str) -> io::Result<Metadata> {
        if FOLDERS.contains(&path) {
            Ok(Metadata::of_dir())
        } else if DATABASES.contains(&path) {
            Ok(Metadata::of_file(1))
        } else {
            Err(io::Error::from(io::ErrorKind::NotFound))
        }
    }

    fn symlink_metadata(&self, path: &str) -> io::Result<Metadata> {
        self.metadata(path)
    }

    fn copy(&self, from: &str, to: &str) -> io::Result<u64> {
        self.files.copy(from, to)
    }

    fn rename(&self, from: &str, to: &str) -> io::Result<()> {
        self.files.rename(from, to)
    }

    fn remove_file(&self, path: &str) -> io::Result<()> {
        self.files.remove_file(path)
    }

    fn create_dir(&self, path: &str) -> io::Result<()> {
        self.files.create_dir(path)
    }

    fn remove_dir(&self, path: &str) -> io::Result<()> {
        self.files.remove_dir(path)
    }

    fn remove_dir_all<B: Allocator>(&self, alloc: B, path: &str) -> io::Result<()> {
        self.files.remove_dir_all(alloc, path)
    }
}

impl SharedFiles for Spread<'_> {}

impl Env for Spread<'_> {
    fn arg(&self, i: usize, buf: &mut [u8]) -> Result<usize, FillError> {
        self.files.arg(i, buf)
    }

    fn var(&self, name: &str, buf: &mut [u8]) -> Result<usize, FillError> {
        if name != "MMDB_PATH" {
            return Err(FillError::NotPresent);
        }
        if PATH.len() > buf.len() {
            return Err(FillError::TooLong);
        }
        buf[..PATH.len()].copy_from_slice(PATH.as_bytes());
        Ok(PATH.len())
    }

    fn var_at(&self, i: usize, buf: &mut [u8]) -> Result<usize, FillError> {
        self.files.var_at(i, buf)
    }
}

impl Clock for Spread<'_> {
    fn monotonic(&self) -> io::Result<Duration> {
        self.files.monotonic()
    }

    fn since_1970(&self) -> io::Result<Duration> {
        self.files.since_1970()
    }
}

// A run over these files, and lines on standard input.
fn run_spread(alloc: Global, texts: &[&str], lines: &str) -> Run {
    let spread = Spread {
        files: file_of(BASE_FILE),
    };
    let words = words_with(alloc, texts);
    let mut input = lines.as_bytes();
    let mut written: Vec<u8> = Vec::new(alloc);
    let mut reported: Vec<u8> = Vec::new(alloc);
    let io = Io {
        input: &mut input,
        out: &mut written,
        errors: &mut reported,
        terminals: terminals(false),
    };
    let status = run(&spread, alloc, words.as_slice(), io);
    Run {
        status,
        written,
        reported,
    }
}

/// Words, the status, standard output and standard error.
type Row<'a> = (&'a [&'a str], u8, &'a str, &'a str);

const LISTED: &str = "{\"network\":\"128.0.0.0/1\",\"record\":\"x\"}\n";

#[rattlefmt::skip]
const ROWS: &[Row<'static>] = &[
    // what is here is taken, whatever is elsewhere
    (&["show", "here.mmdb", "200.0.0.1", "--path", ""], 0, "\"x\"\n", ""),
    (&["show", "plain", "200.0.0.1", "--path", ""], 0, "\"x\"\n", ""),
    // here with the ending, before the folders
    (&["show", "here", "200.0.0.1", "--path", ""], 0, "\"x\"\n", "mmdb: here: here.mmdb\n"),
    // the first folder that has either name, and there the name itself first
    (&["show", "ASN", "200.0.0.1", "--path", ""], 0, "\"x\"\n", "mmdb: ASN: own/ASN.mmdb\n"),
    (&["show", "Both", "200.0.0.1", "--path", ""], 0, "\"x\"\n", "mmdb: Both: own/Both\n"),
    (&["show", "Late", "200.0.0.1", "--path", ""], 0, "\"x\"\n", "mmdb: Late: other/Late.mmdb\n"),
    (&["show", "First", "200.0.0.1", "--path", ""], 0, "\"x\"\n", "mmdb: First: /usr/local/share/GeoIP/First.mmdb\n"),
    (&["show", "Last.mmdb", "200.0.0.1", "--path", ""], 0, "\"x\"\n", "mmdb: Last.mmdb: /var/lib/GeoIP/Last.mmdb\n"),
    // a folder is no file
    (&["show", "City", "200.0.0.1", "--path", ""], 0, "\"x\"\n", "mmdb: City: /usr/share/GeoIP/City.mmdb\n"),
    // a name with a slash or of nothing is not looked for, nor what is here and can't be read
    (&["show", "./City", "200.0.0.1"], 1, "", "mmdb: ./City: i/o error: entity not found\n"),
    (&["show", "GeoIP/City", "200.0.0.1"], 1, "", "mmdb: GeoIP/City: i/o error: entity not found\n"),
    (&["show", "", "200.0.0.1"], 1, "", "mmdb: : i/o error: entity not found\n"),
    (&["show", "folder", "200.0.0.1"], 1, "", "mmdb: folder: i/o error: is a directory\n"),
    // one that is nowhere is named as it was given; of one that was found the path is
    (&["show", "gone", "200.0.0.1"], 1, "", "mmdb: gone: i/o error: entity not found\n"),
    // several
    (
        &["show", "City", "ASN", "200.0.0.1"],
        0,
        "{\"address\":\"200.0.0.1\",\"T\":{\"network\":\"128.0.0.0/1\",\"record\":\"x\"},\"ASN\":{\"network\":\"128.0.0.0/1\",\"record\":\"x\"}}\n",
        "mmdb: City: /usr/share/GeoIP/City.mmdb\nmmdb: ASN: own/ASN.mmdb\n",
    ),
];

/// The same of each command that reads a database.
#[rattlefmt::skip]
const COMMANDS: &[Row<'static>] = &[
    (&["info", "gone"], 1, "", "mmdb: gone: i/o error: entity not found\n"),
    (&["export", "City"], 0, LISTED, "mmdb: City: /usr/share/GeoIP/City.mmdb\n"),
    (&["export", "City", "--format", "cidr"], 0, "128.0.0.0/1\n", "mmdb: City: /usr/share/GeoIP/City.mmdb\n"),
    (
        &["diff", "City", "ASN"],
        0,
        "",
        "mmdb: City: /usr/share/GeoIP/City.mmdb\nmmdb: ASN: own/ASN.mmdb\nmmdb: networks (IPv4 addresses): 0 (0) added, 0 (0) removed, 0 (0) changed\n",
    ),
    (&["diff", "here.mmdb", "gone"], 1, "", "mmdb: gone: i/o error: entity not found\n"),
    (
        &["diff", "City", "ASN", "--format", "cidr"],
        0,
        "",
        "mmdb: City: /usr/share/GeoIP/City.mmdb\nmmdb: ASN: own/ASN.mmdb\n",
    ),
    (
        &["verify", "City", "here.mmdb", "gone"],
        1,
        "City: ok\nhere.mmdb: ok\ngone: i/o error: entity not found\n",
        "mmdb: City: /usr/share/GeoIP/City.mmdb\n",
    ),
    (&["verify", "City", "--quiet"], 0, "", ""),
    (&["verify", "gone", "--quiet"], 1, "", "mmdb: gone: i/o error: entity not found\n"),
    (
        &["verify", "here.mmdb", "--newer-than", "City"],
        1,
        "here.mmdb: it was built at 1 (1970-01-01T00:00:01Z), not after 1 (1970-01-01T00:00:01Z)\n",
        "mmdb: City: /usr/share/GeoIP/City.mmdb\n",
    ),
    (&["enrich", "City", "--field", "", "--quiet"], 0, "200.0.0.1\tx\n", ""),
    (
        &["enrich", "City", "--field", ""],
        0,
        "200.0.0.1\tx\n",
        "mmdb: City: /usr/share/GeoIP/City.mmdb\nmmdb: 1 lines with a record, 0 without, 0 without an address, 0 with an error\n",
    ),
    (
        &["enrich", "City", "ASN", "--field", ""],
        0,
        "200.0.0.1\tx\n",
        "mmdb: City: /usr/share/GeoIP/City.mmdb\nmmdb: ASN: own/ASN.mmdb\nmmdb: 1 lines with a record, 0 without, 0 without an address, 0 with an error\n",
    ),
    (&["enrich", "gone", "--field", ""], 1, "", "mmdb: gone: i/o error: entity not found\n"),
];

#[test]
fn databases_are_found_elsewhere(rt: HostRuntime) {
    for (texts, status, out, err) in ROWS {
        let run = run_spread(rt.alloc(), texts, "200.0.0.1\n");
        let holds = run.status == *status && run.out() == *out && run.err() == *err;
        assert_of(&rt, texts, &run, holds);
    }
}

#[test]
fn commands_find_databases_elsewhere(rt: HostRuntime) {
    for (texts, status, out, err) in COMMANDS {
        let run = run_spread(rt.alloc(), texts, "200.0.0.1\n");
        let holds = run.status == *status && run.out() == *out && run.err() == *err;
        assert_of(&rt, texts, &run, holds);
    }
}

/// Commands on a database that is damaged, and how what they say ends.
#[rattlefmt::skip]
const DAMAGED: &[(&[&str], &str)] = &[
    (&["show", "bad", "200.0.0.1"], "mmdb: bad: /var/lib/GeoIP/bad\nmmdb: /var/lib/GeoIP/bad: invalid database"),
    (&["info", "bad"], "mmdb: bad: /var/lib/GeoIP/bad\nmmdb: /var/lib/GeoIP/bad: invalid database"),
    (&["diff", "here.mmdb", "bad"], "mmdb: bad: /var/lib/GeoIP/bad\nmmdb: /var/lib/GeoIP/bad: invalid database"),
];

#[test]
fn a_damaged_database_is_named_by_its_path(rt: HostRuntime) {
    for (texts, err) in DAMAGED {
        let run = run_spread(rt.alloc(), texts, "");
        let holds = run.status == 1 && run.out().is_empty() && run.err().starts_with(err);
        assert_of(&rt, texts, &run, holds);
    }
}
