//! Files that get what would go to standard output.
use super::disk::{Disk, DiskRuntime, PIPE};
use super::run::NO_TERMINALS;
use mmdb_program::{Io, run};
use mmdb_vectors::base::BASE_FILE;
use mmdb_vectors::words::words_of;
use std::alloc::Global;
use std::io::{self, ErrorKind, Write};

/// What there was.
const OLD: &str = "yesterday\n";

/// A command that writes to a file `list` or another one, and what comes of it.
#[derive(Clone, Copy)]
struct Case {
    words: &'static [&'static str],
    input: &'static str,
    /// Whether the file was there.
    is_there: bool,
    status: u8,
    /// What the file has then, none where there is none.
    list: Option<&'static str>,
    /// How what is said begins.
    said: &'static str,
}

const EXPORT: Case = Case {
    words: &[
        "mmdb",
        "export",
        "here.mmdb",
        "--ipv4",
        "--format",
        "cidr",
        "--output",
        "list",
    ],
    input: "",
    is_there: true,
    status: 0,
    list: Some("128.0.0.0/1\n"),
    said: "",
};

const CASES: &[Case] = &[
    EXPORT,
    Case {
        is_there: false,
        ..EXPORT
    },
    // no network has this value
    Case {
        words: &[
            "mmdb",
            "export",
            "here.mmdb",
            "--where",
            "=z",
            "--format",
            "nft",
            "--output",
            "list",
        ],
        status: 1,
        list: Some(OLD),
        said: "mmdb: no network has =z",
        ..EXPORT
    },
    Case {
        words: &["mmdb", "export", "gone.mmdb", "--output", "list"],
        is_there: false,
        status: 1,
        list: None,
        said: "mmdb: gone.mmdb: ",
        ..EXPORT
    },
    Case {
        words: &[
            "mmdb",
            "diff",
            "here.mmdb",
            "here.mmdb",
            "--output",
            "list",
            "--exit-code",
        ],
        list: Some(""),
        said: "mmdb: ",
        ..EXPORT
    },
    Case {
        words: &[
            "mmdb",
            "enrich",
            "here.mmdb",
            "--field",
            "",
            "--output",
            "list",
        ],
        input: "200.0.0.1\n",
        list: Some("200.0.0.1\tx\n"),
        said: "mmdb: 1 lines with a record",
        ..EXPORT
    },
    // all rows came out, though one of them is warned of
    Case {
        words: &[
            "mmdb",
            "enrich",
            "here.mmdb",
            "--field",
            "",
            "--strict",
            "--output",
            "list",
        ],
        input: "none\n",
        status: 1,
        list: Some("none\t\n"),
        said: "mmdb: ",
        ..EXPORT
    },
    Case {
        words: &[
            "mmdb",
            "enrich",
            "gone.mmdb",
            "--field",
            "",
            "--output",
            "list",
        ],
        status: 1,
        list: Some(OLD),
        said: "mmdb: gone.mmdb: ",
        ..EXPORT
    },
    Case {
        words: &["mmdb", "export", "here.mmdb", "--output", PIPE],
        status: 2,
        list: Some(OLD),
        said: "mmdb: --output: it is there, and is no plain file\n",
        ..EXPORT
    },
];

/// What a run left.
#[derive(Drop)]
struct Left {
    status: u8,
    written: Vec<u8>,
    reported: Vec<u8>,
}

impl Left {
    // What standard error got.
    fn err(&self) -> &str {
        str::from_utf8(&self.reported).unwrap_or("not UTF-8")
    }
}

// A disk with a database, and with a list where it was there.
fn disk_of(alloc: Global, case: &Case, fails_at: u32) -> Disk {
    let disk = Disk::new(alloc, fails_at, None);
    let _ = disk.put("here.mmdb", BASE_FILE);
    if case.is_there {
        let _ = disk.put("list", OLD.as_bytes());
    }
    disk
}

// A run of the program.
fn run_on(alloc: Global, disk: &Disk, case: &Case) -> Left {
    let words = words_of(alloc, case.words).unwrap_or(Vec::new(alloc));
    let mut input = case.input.as_bytes();
    let mut written: Vec<u8> = Vec::new(alloc);
    let mut reported: Vec<u8> = Vec::new(alloc);
    let io = Io {
        input: &mut input,
        out: &mut written,
        errors: &mut reported,
        terminals: NO_TERMINALS,
    };
    let status = run(&DiskRuntime { disk }, alloc, &words, io);
    Left {
        status,
        written,
        reported,
    }
}

// Whether the list has a text, or is not there.
fn has_list(disk: &Disk, text: Option<&str>) -> bool {
    match (disk.get("list"), text) {
        (Some(list), Some(text)) => list.as_slice() == text.as_bytes(),
        (None, None) => true,
        _ => false,
    }
}

#[test]
fn a_file_gets_the_output(rt: HostRuntime) {
    let alloc = rt.alloc();
    for case in CASES {
        let disk = disk_of(alloc, case, u32::MAX);
        let left = run_on(alloc, &disk, case);
        let files = if case.list.is_some() { 2 } else { 1 };
        assert!(rt;
            left.status == case.status
                && has_list(&disk, case.list)
                && disk.len() == files
                && left.written.is_empty()
                && left.err().starts_with(case.said),
            "{:?}: {} {}",
            case.words,
            left.status,
            left.err()
        );
    }
}

#[test]
fn calls_that_fail_leave_a_whole_list(rt: HostRuntime) {
    let alloc = rt.alloc();
    let disk = disk_of(alloc, &EXPORT, u32::MAX);
    let left = run_on(alloc, &disk, &EXPORT);
    assert!(rt; left.status == 0, "{}", left.err());
    let mut failed = 0u32;
    for fails_at in 0..disk.calls() {
        let faulty = disk_of(alloc, &EXPORT, fails_at);
        let left = run_on(alloc, &faulty, &EXPORT);
        let is_new = has_list(&faulty, EXPORT.list);
        assert!(rt;
            (is_new || has_list(&faulty, Some(OLD))) && (is_new || left.status == 1),
            "{fails_at}: {}",
            left.err()
        );
        if left.status == 1 {
            failed = failed.saturating_add(1);
        }
    }
    assert!(rt; failed > 5, "{failed} of {} runs failed", disk.calls());
}

/// An output that takes all and loses it when it is flushed.
#[derive(Drop)]
struct Lossy;

impl Write for Lossy {
    fn write(&mut self, bytes: &[u8]) -> io::Result<usize> {
        Ok(bytes.len())
    }

    fn flush(&mut self) -> io::Result<()> {
        Err(io::Error::from(ErrorKind::StorageFull))
    }
}

/// Commands whose output is lost when it is flushed, and how what is said ends.
const LOST: &[&[&str]] = &[
    &["mmdb", "--help"],
    &["mmdb", "show", "--help"],
    &["mmdb", "show", "here.mmdb", "1.1.1.1"],
    &["mmdb", "verify", "rows"],
    &["mmdb", "verify", "here.mmdb"],
    &["mmdb", "info", "here.mmdb"],
    &["mmdb", "export", "here.mmdb"],
    &["mmdb", "diff", "here.mmdb", "here.mmdb"],
    &["mmdb", "enrich", "here.mmdb", "--field", ""],
    &["mmdb", "install", "here.mmdb", "new.mmdb"],
];

#[test]
fn what_is_lost_is_said_once(rt: HostRuntime) {
    let alloc = rt.alloc();
    for texts in LOST {
        let disk = disk_of(alloc, &EXPORT, u32::MAX);
        let _ = disk.put("rows", b"no database");
        let words = words_of(alloc, texts).unwrap_or(Vec::new(alloc));
        let mut input: &[u8] = b"";
        let mut reported: Vec<u8> = Vec::new(alloc);
        let io = Io {
            input: &mut input,
            out: &mut Lossy,
            errors: &mut reported,
            terminals: NO_TERMINALS,
        };
        let status = run(&DiskRuntime { disk: &disk }, alloc, &words, io);
        let err = str::from_utf8(&reported).unwrap_or("not UTF-8");
        let said = "mmdb: standard output: no storage space\n";
        assert!(rt;
            status == 1 && err.contains(said) && err.split(said).count() == 2,
            "{texts:?}: {status} {err}"
        );
    }
}
