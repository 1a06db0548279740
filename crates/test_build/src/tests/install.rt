//! Files that take another one's place.
use super::disk::{ALONE, DEAD_LINK, Disk, LEFT, LINK, OTHER_OWNER, PIPE, Sharing};
use super::run::{Run, install_on, run_on};
use mmdb_arguments::InstallArguments;
use std::alloc::Global;
use std::process::Abort;

/// Lines of which the file is made that is there.
const OLD: &[u8] =
    b"{\"network\":\"1.0.0.0/8\",\"record\":{\"a\":1}}\n{\"network\":\"2.0.0.0/8\",\"record\":{\"a\":2}}\n";

/// Options and lines of which a file is made, the most that may have changed, and why it does not take the other one's place;
/// none where it does.
struct Case {
    options: &'static [&'static str],
    rows: &'static str,
    max_change: Option<&'static str>,
    said: Option<&'static str>,
}

const CASES: &[Case] = &[
    Case {
        options: &["--build-epoch", "7"],
        rows: "{\"network\":\"3.0.0.0/8\",\"record\":{\"a\":1}}\n",
        max_change: None,
        said: None,
    },
    Case {
        options: &["--build-epoch", "6"],
        rows: "{\"network\":\"3.0.0.0/8\",\"record\":{\"a\":1}}\n",
        max_change: None,
        said: Some(
            "it was built at 6 (1970-01-01T00:00:06Z), before 7 (1970-01-01T00:00:07Z); --allow-older takes it",
        ),
    },
    Case {
        options: &["--database-type", "Other"],
        rows: "{\"network\":\"3.0.0.0/8\",\"record\":{\"a\":1}}\n",
        max_change: None,
        said: Some("its type is Other, not Custom"),
    },
    Case {
        options: &["--ip-version", "4"],
        rows: "{\"network\":\"3.0.0.0/8\",\"record\":{\"a\":1}}\n",
        max_change: None,
        said: Some("its IP version is 4, not 6"),
    },
    // equal records at other places of the files
    Case {
        options: &[],
        rows: "{\"network\":\"2.0.0.0/8\",\"record\":{\"a\":2}}\n{\"network\":\"1.0.0.0/8\",\"record\":{\"a\":1}}\n",
        max_change: Some("0"),
        said: None,
    },
    // all of IPv6 is new
    Case {
        options: &[],
        rows: "{\"network\":\"1.0.0.0/8\",\"record\":{\"a\":1}}\n{\"network\":\"2.0.0.0/8\",\"record\":{\"a\":2}}\n{\"network\":\"abcd::/16\",\"record\":{\"a\":1}}\n",
        max_change: Some("99.999"),
        said: Some("100 % of the IPv6 /48 networks with a record changed, at most 99.999 % may"),
    },
    // more than a day after the second 1,000,000 that the clock has, and a day
    Case {
        options: &["--build-epoch", "1086401"],
        rows: "{\"network\":\"3.0.0.0/8\",\"record\":{\"a\":1}}\n",
        max_change: None,
        said: Some("it was built at 1086401 (1970-01-13T13:46:41Z), more than a day ahead"),
    },
    Case {
        options: &["--build-epoch", "1086400"],
        rows: "{\"network\":\"3.0.0.0/8\",\"record\":{\"a\":1}}\n",
        max_change: None,
        said: None,
    },
    // a quarter of 2.0.0.0/8 has another record, and 3.0.0.0/9 one at all: 12,582,912 of 41,943,040 addresses, 30 percent
    Case {
        options: &[],
        rows: "{\"network\":\"1.0.0.0/8\",\"record\":{\"a\":1}}\n{\"network\":\"2.0.0.0/8\",\"record\":{\"a\":2}}\n{\"network\":\"2.0.0.0/10\",\"record\":{\"a\":3}}\n{\"network\":\"3.0.0.0/9\",\"record\":{\"a\":1}}\n",
        max_change: Some("29.999"),
        said: Some("30 % of the IPv4 addresses with a record changed, at most 29.999 % may"),
    },
    Case {
        options: &[],
        rows: "{\"network\":\"1.0.0.0/8\",\"record\":{\"a\":1}}\n{\"network\":\"2.0.0.0/8\",\"record\":{\"a\":2}}\n{\"network\":\"2.0.0.0/10\",\"record\":{\"a\":3}}\n{\"network\":\"3.0.0.0/9\",\"record\":{\"a\":1}}\n",
        max_change: Some("30"),
        said: None,
    },
    // one that has nothing of what was there
    Case {
        options: &[],
        rows: "{\"network\":\"2.0.0.0/8\",\"record\":{\"a\":2}}\n",
        max_change: Some("49"),
        said: Some("50 % of the IPv4 addresses with a record changed, at most 49 % may"),
    },
];

// Makes a file on a disk, and puts it under another name.
fn make(rt: &impl Abort, alloc: Global, disk: &Disk, options: &[&str], rows: &[u8], name: &str) {
    let mut words = Vec::new(alloc);
    let _ = words.extend_from_slice(&["mmdb", "build", "made.mmdb", "--from", "-"]);
    let _ = words.extend_from_slice(options);
    let run = run_on(alloc, disk, &words, rows);
    assert!(rt; run.status == Some(0), "{}", run.err());
    let file = disk.get("made.mmdb").expect(rt, "a file");
    let _ = disk.put(name, &file);
}

// A disk with an old file and a new one.
fn disk_with(rt: &impl Abort, alloc: Global, options: &[&str], rows: &[u8]) -> Disk {
    let disk = Disk::new(alloc, u32::MAX, Some("7"));
    make(rt, alloc, &disk, &[], OLD, "out.mmdb");
    make(rt, alloc, &disk, options, rows, "new.mmdb");
    disk
}

// Whether two files have the same bytes.
fn are_same(disk: &Disk, one: &str, other: &str) -> bool {
    match (disk.get(one), disk.get(other)) {
        (Some(one), Some(other)) => one == other,
        _ => false,
    }
}

// What is asked for.
fn arguments<'a>(
    dest: &'a str,
    max_change: Option<&'a str>,
    dry_run: bool,
) -> InstallArguments<'a> {
    InstallArguments {
        new: "new.mmdb",
        dest,
        max_change,
        database_type: None,
        allow_older: false,
        allow_broken: false,
        dry_run,
        quiet: false,
    }
}

// Asserts that a file took the other one's place, or that it did not and why.
fn assert_done(rt: &impl Abort, alloc: Global, disk: &Disk, run: &Run, said: Option<&str>) {
    let is_new = are_same(disk, "out.mmdb", "new.mmdb");
    let wanted: String = match said {
        Some(said) => format!(in alloc; "mmdb: new.mmdb: {said}\n").expect(rt, "a text"),
        None => String::from_str(alloc, "").expect(rt, "a text"),
    };
    let is_right = if said.is_some() {
        run.status == Some(1) && !is_new && run.err() == wanted.as_str() && run.out().is_empty()
    } else {
        run.status == Some(0) && is_new && run.out() == "out.mmdb: replaced\n"
    };
    assert!(rt; is_right, "{wanted}{}", run.err());
}

#[test]
fn reasons_against_a_file_are_named(rt: HostRuntime) {
    let alloc = rt.alloc();
    for case in CASES {
        let disk = disk_with(&rt, alloc, case.options, case.rows.as_bytes());
        let run = install_on(alloc, &disk, &arguments("out.mmdb", case.max_change, false));
        assert_done(&rt, alloc, &disk, &run, case.said);
    }
}

#[test]
fn a_dry_run_changes_nothing(rt: HostRuntime) {
    let alloc = rt.alloc();
    for case in CASES {
        let disk = disk_with(&rt, alloc, case.options, case.rows.as_bytes());
        make(&rt, alloc, &disk, &[], OLD, "old.mmdb");
        let run = install_on(alloc, &disk, &arguments("out.mmdb", case.max_change, true));
        let status = if case.said.is_some() { 1 } else { 0 };
        assert!(rt;
            run.status == Some(status)
                && are_same(&disk, "out.mmdb", "old.mmdb")
                && run.out().is_empty(),
            "{}",
            run.err()
        );
    }
}

#[test]
fn a_quiet_dry_run_says_nothing(rt: HostRuntime) {
    let alloc = rt.alloc();
    let rows = b"{\"network\":\"1.0.0.0/9\",\"record\":1}\n";
    for (quiet, said) in [
        (false, "mmdb: out.mmdb: new.mmdb would be installed, "),
        (true, ""),
    ] {
        let disk = disk_with(&rt, alloc, &[], rows);
        let mut arguments = arguments("out.mmdb", None, true);
        arguments.quiet = quiet;
        let run = install_on(alloc, &disk, &arguments);
        let is_said = run.err().starts_with(said) && run.err().is_empty() == quiet;
        assert!(rt;
            run.status == Some(0) && is_said && run.out().is_empty(),
            "{}",
            run.err()
        );
    }
}

/// Other files that are to be installed, at which paths, the status, and what is said.
const OTHERS: &[(&[u8], &str, Option<u8>, &str)] = &[
    (
        b"no database",
        "out.mmdb",
        Some(1),
        "mmdb: new.mmdb: not a MaxMind DB file\n",
    ),
    (
        b"\xAB\xCD\xEFMaxMind.com\xE0",
        "out.mmdb",
        Some(1),
        "mmdb: new.mmdb: ",
    ),
    (b"", PIPE, Some(1), "mmdb: pipe: not a file\n"),
    (
        b"",
        DEAD_LINK,
        Some(1),
        "mmdb: dead.mmdb: a link that leads nowhere\n",
    ),
    (
        b"",
        "rows",
        Some(1),
        "mmdb: rows: not a MaxMind DB file; --allow-broken replaces it\n",
    ),
];

#[test]
fn what_is_no_database_is_not_installed(rt: HostRuntime) {
    let alloc = rt.alloc();
    for (bytes, dest, status, said) in OTHERS {
        let disk = disk_with(&rt, alloc, &[], OLD);
        let _ = disk.put("rows", OLD);
        let _ = disk.put("new.mmdb", bytes);
        let run = install_on(alloc, &disk, &arguments(dest, None, false));
        assert!(rt;
            run.status == *status
                && run.err().starts_with(said)
                && run.err().split('\n').count() == 2
                && are_same(&disk, "out.mmdb", "made.mmdb"),
            "{said}: {}",
            run.err()
        );
    }
}

/// How files begin that are packed, and how each is unpacked.
const PACKED: &[(&[u8], &str)] = &[
    (
        b"\x1F\x8B\x08",
        "gzip; unpack it first: gzip -dc new.mmdb >new.mmdb.mmdb",
    ),
    (
        b"\xFD7zXZ\0",
        "xz; unpack it first: xz -dc new.mmdb >new.mmdb.mmdb",
    ),
    (b"PK\x03\x04", "zip; unpack it first: unzip new.mmdb"),
    // a stored file in an archive, of which the marker is seen
    (
        b"PK\x03\x04\xAB\xCD\xEFMaxMind.com\xE0",
        "zip; unpack it first: unzip new.mmdb",
    ),
];

#[test]
fn what_is_packed_is_named(rt: HostRuntime) {
    let alloc = rt.alloc();
    for (bytes, said) in PACKED {
        let disk = disk_with(&rt, alloc, &[], OLD);
        let _ = disk.put("new.mmdb", bytes);
        let run = install_on(alloc, &disk, &arguments("out.mmdb", None, false));
        assert!(rt;
            run.status == Some(1)
                && run.err().contains(said)
                && are_same(&disk, "out.mmdb", "made.mmdb"),
            "{said}: {}",
            run.err()
        );
    }
}

// Where some bytes stand first.
fn place_of(bytes: &[u8], wanted: &[u8]) -> Option<usize> {
    for at in 0..bytes.len() {
        if bytes.get(at..).unwrap_or(&[]).starts_with(wanted) {
            return Some(at);
        }
    }
    None
}

// Puts bytes in the place of others of the same number, where these stand first.
fn patch(rt: &impl Abort, bytes: &mut Vec<u8>, old: &[u8], new: &[u8]) {
    let at = place_of(bytes, old).expect(rt, "the bytes");
    for (index, byte) in new.iter().enumerate() {
        if let Some(place) = bytes.get_mut(at.saturating_add(index)) {
            *place = *byte;
        }
    }
}

#[test]
fn a_record_that_cannot_be_read_is_a_reason(rt: HostRuntime) {
    let alloc = rt.alloc();
    let disk = disk_with(
        &rt,
        alloc,
        &[],
        b"{\"network\":\"3.0.0.0/8\",\"record\":{\"a\":7}}\n",
    );
    let mut file = disk.get("new.mmdb").expect(&rt, "a file");
    // the key, which stands in its map, becomes bytes, where only a text may be
    patch(&rt, &mut file, b"\xE1\x41a", b"\xE1\x81a");
    let _ = disk.put("new.mmdb", &file);
    let run = install_on(alloc, &disk, &arguments("out.mmdb", None, false));
    assert!(rt;
        run.status == Some(1)
            && run.err().starts_with("mmdb: new.mmdb: ")
            && !are_same(&disk, "out.mmdb", "new.mmdb"),
        "{}",
        run.err()
    );
}

#[test]
fn a_record_there_that_cannot_be_compared_is_a_reason(rt: HostRuntime) {
    let alloc = rt.alloc();
    let rows = b"{\"network\":\"1.0.0.0/8\",\"record\":{\"a\":7}}\n";
    let disk = disk_with(&rt, alloc, &[], rows);
    // a file in which the key stands in its map
    let rows = b"{\"network\":\"1.0.0.0/8\",\"record\":{\"a\":1}}\n";
    make(&rt, alloc, &disk, &[], rows, "out.mmdb");
    let mut file = disk.get("out.mmdb").expect(&rt, "a file");
    patch(&rt, &mut file, b"\xE1\x41a", b"\xE1\x81a");
    let _ = disk.put("out.mmdb", &file);
    let run = install_on(alloc, &disk, &arguments("out.mmdb", Some("100"), false));
    assert!(rt;
        run.status == Some(1)
            && run
                .err()
                .starts_with("mmdb: out.mmdb: invalid database at offset ")
            && run.err().lines().count() == 1
            && !are_same(&disk, "out.mmdb", "new.mmdb"),
        "{}",
        run.err()
    );
    // without a share nothing of it is read
    let run = install_on(alloc, &disk, &arguments("out.mmdb", None, false));
    assert_done(&rt, alloc, &disk, &run, None);
}

#[test]
fn a_missing_file_is_made_and_the_same_bytes_change_nothing(rt: HostRuntime) {
    let alloc = rt.alloc();
    let disk = disk_with(&rt, alloc, &[], OLD);
    let run = install_on(alloc, &disk, &arguments("there.mmdb", Some("0"), false));
    assert!(rt;
        run.status == Some(0) && are_same(&disk, "there.mmdb", "new.mmdb"),
        "{}",
        run.err()
    );
    let run = install_on(alloc, &disk, &arguments("there.mmdb", Some("0"), false));
    assert!(rt;
        run.status == Some(0)
            && run.err() == "mmdb: there.mmdb has these bytes already\n"
            && run.out() == "there.mmdb: unchanged\n",
        "{}",
        run.err()
    );
}

/// A run of `install` whose options let something by, or ask for more.
struct OptionCase {
    /// What is there, none for the old file.
    dest: Option<&'static [u8]>,
    /// Options of `build` for the new file.
    options: &'static [&'static str],
    database_type: Option<&'static str>,
    allow_older: bool,
    allow_broken: bool,
    quiet: bool,
    status: Option<u8>,
    out: &'static str,
    /// How what is said begins.
    said: &'static str,
}

const PLAIN: OptionCase = OptionCase {
    dest: None,
    options: &[],
    database_type: None,
    allow_older: false,
    allow_broken: false,
    quiet: false,
    status: Some(0),
    out: "out.mmdb: replaced\n",
    said: "mmdb: out.mmdb: new.mmdb is installed, ",
};

/// A marker with nothing behind it.
const BROKEN: &[u8] = b"\xAB\xCD\xEFMaxMind.com";

const OPTION_CASES: &[OptionCase] = &[
    OptionCase {
        options: &["--build-epoch", "6"],
        allow_older: true,
        ..PLAIN
    },
    OptionCase {
        quiet: true,
        out: "",
        said: "",
        ..PLAIN
    },
    OptionCase {
        dest: Some(b""),
        allow_broken: true,
        ..PLAIN
    },
    OptionCase {
        dest: Some(b""),
        status: Some(1),
        out: "",
        said: "mmdb: out.mmdb: not a MaxMind DB file; --allow-broken replaces it\n",
        ..PLAIN
    },
    OptionCase {
        dest: Some(BROKEN),
        allow_broken: true,
        ..PLAIN
    },
    OptionCase {
        dest: Some(BROKEN),
        status: Some(1),
        out: "",
        said: "mmdb: out.mmdb: ",
        ..PLAIN
    },
    OptionCase {
        database_type: Some("Cust*"),
        ..PLAIN
    },
    OptionCase {
        database_type: Some("*City"),
        status: Some(1),
        out: "",
        said: "mmdb: new.mmdb: its type is Custom, not *City\n",
        ..PLAIN
    },
    OptionCase {
        database_type: Some("C*m"),
        status: None,
        out: "",
        said: "",
        ..PLAIN
    },
];

// A run of a case.
fn run_of_case(rt: &impl Abort, alloc: Global, case: &OptionCase) -> (Disk, Run) {
    let rows = b"{\"network\":\"3.0.0.0/8\",\"record\":1}\n";
    let disk = disk_with(rt, alloc, case.options, rows);
    if let Some(bytes) = case.dest {
        let _ = disk.put("out.mmdb", bytes);
    }
    let asked = InstallArguments {
        database_type: case.database_type,
        allow_older: case.allow_older,
        allow_broken: case.allow_broken,
        quiet: case.quiet,
        ..arguments("out.mmdb", None, false)
    };
    let run = install_on(alloc, &disk, &asked);
    (disk, run)
}

#[test]
fn options_let_something_by(rt: HostRuntime) {
    let alloc = rt.alloc();
    for case in OPTION_CASES {
        let (disk, run) = run_of_case(&rt, alloc, case);
        let is_new = are_same(&disk, "out.mmdb", "new.mmdb");
        assert!(rt;
            run.status == case.status
                && is_new == (case.status == Some(0))
                && run.out() == case.out
                && run.err().starts_with(case.said)
                && run.err().is_empty() == case.said.is_empty(),
            "{}: {}",
            case.said,
            run.err()
        );
    }
}

#[test]
fn a_type_is_wanted_where_nothing_is(rt: HostRuntime) {
    let alloc = rt.alloc();
    let disk = disk_with(&rt, alloc, &[], OLD);
    let asked = InstallArguments {
        database_type: Some("City"),
        ..arguments("there.mmdb", None, false)
    };
    let run = install_on(alloc, &disk, &asked);
    assert!(rt;
        run.status == Some(1) && disk.get("there.mmdb").is_none(),
        "{}",
        run.err()
    );
}

/// How files are shared, whether a file is left beside, the status, and what is said before the end.
struct SharingCase {
    sharing: Sharing,
    is_left: bool,
    status: u8,
    said: &'static str,
    /// Whether the new file is the old one's owner's: the user, and the group.
    keeps: (bool, bool),
}

const KEPT: SharingCase = SharingCase {
    sharing: ALONE,
    is_left: true,
    status: 0,
    said: "",
    keeps: (true, true),
};

const SHARING_CASES: &[SharingCase] = &[
    SharingCase {
        is_left: false,
        ..KEPT
    },
    KEPT,
    // another process has it for a while
    SharingCase {
        sharing: Sharing { held: 3, ..ALONE },
        ..KEPT
    },
    SharingCase {
        sharing: Sharing {
            held: u32::MAX,
            ..ALONE
        },
        status: 1,
        said: "mmdb: out.mmdb: waited ten seconds for ./.out.mmdb.tmp, which another run has locked\n",
        ..KEPT
    },
    // the name is another file's when it is locked, and when it is written
    SharingCase {
        sharing: Sharing {
            lost_at: 0,
            ..ALONE
        },
        ..KEPT
    },
    SharingCase {
        sharing: Sharing {
            lost_at: 1,
            ..ALONE
        },
        status: 1,
        said: "mmdb: out.mmdb: ./.out.mmdb.tmp was taken away meanwhile\n",
        ..KEPT
    },
    SharingCase {
        sharing: Sharing {
            left_is_pipe: true,
            ..ALONE
        },
        is_left: false,
        status: 1,
        said: "mmdb: out.mmdb: ./.out.mmdb.tmp is no file\n",
        ..KEPT
    },
    SharingCase {
        sharing: Sharing {
            has_locks: false,
            ..ALONE
        },
        is_left: false,
        said: "mmdb: out.mmdb: ./.out.mmdb.tmp can't be locked, so no other run may replace it: unsupported\n",
        ..KEPT
    },
    SharingCase {
        sharing: Sharing {
            has_locks: false,
            ..ALONE
        },
        said: "mmdb: out.mmdb: ./.out.mmdb.tmp can't be locked, so no other run may replace it: unsupported\n",
        ..KEPT
    },
    SharingCase {
        sharing: Sharing {
            gives_user: false,
            ..ALONE
        },
        said: "mmdb: out.mmdb: its owner 7 could not be kept\n",
        keeps: (false, true),
        ..KEPT
    },
    SharingCase {
        sharing: Sharing {
            gives_group: false,
            ..ALONE
        },
        said: "mmdb: out.mmdb: its group 8 could not be kept\n",
        keeps: (true, false),
        ..KEPT
    },
    SharingCase {
        sharing: Sharing {
            gives_user: false,
            gives_group: false,
            ..ALONE
        },
        said: "mmdb: out.mmdb: its owner 7 and its group 8 could not be kept\n",
        keeps: (false, false),
        ..KEPT
    },
    SharingCase {
        sharing: Sharing {
            is_root: true,
            ..ALONE
        },
        ..KEPT
    },
    // what root may not give away is not put there
    SharingCase {
        sharing: Sharing {
            is_root: true,
            gives_group: false,
            ..ALONE
        },
        status: 1,
        said: "mmdb: out.mmdb: the new file can't be given to 7:8: permission denied\n",
        ..KEPT
    },
];

// Whether a file took the other one's place, by a case.
fn is_as_shared(disk: &Disk, run: &Run, case: &SharingCase) -> bool {
    let is_new = are_same(disk, "out.mmdb", "new.mmdb");
    if case.status != 0 {
        return run.status == Some(1) && !is_new && run.err() == case.said;
    }
    let Some(owner) = disk.owner("out.mmdb") else {
        return false;
    };
    run.status == Some(0)
        && is_new
        && run.err().starts_with(case.said)
        && run.err().split('\n').count() == case.said.split('\n').count() + 1
        && (
            owner.user == OTHER_OWNER.user,
            owner.group == OTHER_OWNER.group,
        ) == case.keeps
        && disk.get(LEFT).is_none()
}

#[test]
fn files_are_replaced_by_one_process_at_a_time(rt: HostRuntime) {
    let alloc = rt.alloc();
    let rows = b"{\"network\":\"3.0.0.0/8\",\"record\":1}\n";
    for case in SHARING_CASES {
        let disk = disk_with(&rt, alloc, &[], rows);
        let old = disk.get("out.mmdb").expect(&rt, "a file");
        let _ = disk.put_of("out.mmdb", &old, OTHER_OWNER);
        if case.is_left {
            let _ = disk.put(LEFT, b"left of a run that was killed");
        }
        disk.sharing.set(case.sharing);
        let run = install_on(alloc, &disk, &arguments("out.mmdb", None, false));
        assert!(rt;
            is_as_shared(&disk, &run, case),
            "{}: {}",
            case.said,
            run.err()
        );
    }
}

#[test]
fn a_long_name_is_put_by_its_hash(rt: HostRuntime) {
    let alloc = rt.alloc();
    let disk = disk_with(&rt, alloc, &[], OLD);
    let mut name = String::new(alloc);
    for _ in 0..251 {
        let _ = name.push('a');
    }
    disk.sharing.set(Sharing {
        held: u32::MAX,
        ..ALONE
    });
    let run = install_on(alloc, &disk, &arguments(name.as_str(), None, false));
    // the SHA-256 of the name
    let beside = "./.772f911dd9d6692897188d0b03f718fb5fbd02020d0fce1374f1354a31205024.tmp,";
    assert!(rt; run.err().contains(beside), "{}", run.err());
}

#[test]
fn what_a_link_leads_to_is_replaced(rt: HostRuntime) {
    let alloc = rt.alloc();
    let disk = disk_with(
        &rt,
        alloc,
        &[],
        b"{\"network\":\"3.0.0.0/8\",\"record\":1}\n",
    );
    let run = install_on(alloc, &disk, &arguments(LINK, None, false));
    assert!(rt;
        run.status == Some(0) && are_same(&disk, "out.mmdb", "new.mmdb") && disk.mode() == 0o644,
        "{}",
        run.err()
    );
    assert!(rt; disk.get(LINK).is_none(), "the link is gone");
}

/// Names of a new file, where it is, the status, and how what is said begins.
const ELSEWHERE: &[(&str, &str, u8, &str)] = &[
    (
        "new",
        "new.mmdb",
        0,
        "mmdb: new: new.mmdb\nmmdb: out.mmdb: new.mmdb is installed, ",
    ),
    (
        "City",
        "own/City.mmdb",
        0,
        "mmdb: City: own/City.mmdb\nmmdb: out.mmdb: own/City.mmdb is installed, ",
    ),
    (
        "City.mmdb",
        "/usr/share/GeoIP/City.mmdb",
        0,
        "mmdb: City.mmdb: /usr/share/GeoIP/City.mmdb\nmmdb: out.mmdb: /usr/share/GeoIP/City.mmdb is installed, ",
    ),
    ("City", "elsewhere/City", 1, "mmdb: City: no such file\n"),
    ("./City", "own/City", 1, "mmdb: ./City: no such file\n"),
    (
        DEAD_LINK,
        "elsewhere/City",
        1,
        "mmdb: dead.mmdb: a link that leads nowhere\n",
    ),
];

#[test]
fn a_new_file_is_found_elsewhere(rt: HostRuntime) {
    let alloc = rt.alloc();
    for (name, path, status, said) in ELSEWHERE {
        let disk = disk_with(
            &rt,
            alloc,
            &[],
            b"{\"network\":\"3.0.0.0/8\",\"record\":1}\n",
        );
        let new = disk.get("new.mmdb").expect(&rt, "a file");
        let _ = disk.put(path, &new);
        let asked = InstallArguments {
            new: *name,
            ..arguments("out.mmdb", None, false)
        };
        let run = install_on(alloc, &disk, &asked);
        let is_new = are_same(&disk, "out.mmdb", "new.mmdb");
        assert!(rt;
            run.status == Some(*status) && is_new == (*status == 0) && run.err().starts_with(said),
            "{said}: {}",
            run.err()
        );
    }
}

#[test]
fn what_is_written_is_not_looked_for(rt: HostRuntime) {
    let alloc = rt.alloc();
    let disk = disk_with(
        &rt,
        alloc,
        &[],
        b"{\"network\":\"3.0.0.0/8\",\"record\":1}\n",
    );
    let old = disk.get("out.mmdb").expect(&rt, "a file");
    let _ = disk.put("own/City", &old);
    let run = install_on(alloc, &disk, &arguments("City", None, false));
    assert!(rt;
        run.status == Some(0)
            && are_same(&disk, "City", "new.mmdb")
            && are_same(&disk, "own/City", "out.mmdb"),
        "{}",
        run.err()
    );
}

#[test]
fn a_file_of_types_is_found_elsewhere(rt: HostRuntime) {
    let alloc = rt.alloc();
    let disk = disk_with(&rt, alloc, &[], OLD);
    let old = disk.get("out.mmdb").expect(&rt, "a file");
    let _ = disk.put("own/Types.mmdb", &old);
    let words = [
        "mmdb",
        "build",
        "made.mmdb",
        "--types-like",
        "Types",
        "--from",
        "-",
    ];
    let run = run_on(alloc, &disk, &words, OLD);
    assert!(rt;
        run.status == Some(0) && run.err().starts_with("mmdb: Types: own/Types.mmdb\n"),
        "{}",
        run.err()
    );
    let words = [
        "mmdb",
        "build",
        "made.mmdb",
        "--types-like",
        "None",
        "--from",
        "-",
    ];
    let run = run_on(alloc, &disk, &words, OLD);
    assert!(rt;
        run.status == Some(1) && run.err() == "mmdb: None: i/o error: entity not found\n",
        "{}",
        run.err()
    );
}

/// Shares that are none.
const NO_SHARES: &[&str] = &["", "-1", "101", "100.001", "1.2345", ".5", "1.", "1e1", "x"];

#[test]
fn shares_that_are_none_are_rejected(rt: HostRuntime) {
    let disk = Disk::new(rt.alloc(), u32::MAX, None);
    for share in NO_SHARES {
        let run = install_on(
            rt.alloc(),
            &disk,
            &arguments("out.mmdb", Some(*share), false),
        );
        assert!(rt;
            run.status == None && !run.is_memory && disk.calls() == 0,
            "{share}: {}",
            run.err()
        );
    }
}

/// How many calls there are behind the one that gives the file its name: those that bring the name to the disk.
const LAST_CALLS: u32 = 2;

// A disk with files at hand, of which one call fails.
fn faulty(alloc: Global, files: &Disk, fails_at: u32) -> Disk {
    let disk = Disk::new(alloc, fails_at, None);
    for name in ["out.mmdb", "new.mmdb"] {
        if let Some(bytes) = files.get(name) {
            let _ = disk.put(name, &bytes);
        }
    }
    let _ = disk.put(LEFT, b"left");
    disk
}

#[test]
fn calls_that_fail_leave_one_of_the_two_files(rt: HostRuntime) {
    let alloc = rt.alloc();
    let rows = b"{\"network\":\"3.0.0.0/8\",\"record\":1}\n";
    let files = disk_with(&rt, alloc, &[], rows);
    let asked = arguments("out.mmdb", Some("100"), false);
    let disk = faulty(alloc, &files, u32::MAX);
    let run = install_on(alloc, &disk, &asked);
    assert!(rt; run.status == Some(0) && disk.len() == 2, "{}", run.err());
    let mut failed = 0u32;
    for fails_at in 0..disk.calls() {
        let faulty = faulty(alloc, &files, fails_at);
        let run = install_on(alloc, &faulty, &asked);
        let is_new = are_same(&faulty, "out.mmdb", "new.mmdb");
        let is_last = fails_at >= disk.calls().saturating_sub(LAST_CALLS);
        let is_right = is_new == (run.status == Some(0) || is_last);
        assert!(rt;
            is_right && faulty.get("out.mmdb").is_some(),
            "{}",
            run.err()
        );
        if run.status == Some(1) {
            failed = failed.saturating_add(1);
        }
    }
    assert!(rt; failed > 10, "{failed} of {} runs failed", disk.calls());
}
