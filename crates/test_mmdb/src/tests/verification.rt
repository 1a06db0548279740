//! What `verify` says of files that are not as the base file is.
use crate::tests::asserted::assert_of;
use mmdb_vectors::builder::{BASE_NODE, Changes, Field, changed_file};
use mmdb_vectors::section::section_of;
use std::test::Fail;
use test_runs::program::run_of;

/// A file by how many arrays hold its text, and by changes of its metadata; what is asked of it, the status, and how what is
/// written begins and ends.
struct Case {
    arrays: usize,
    changes: Changes<'static>,
    words: &'static [&'static str],
    status: u8,
    beginning: &'static str,
    end: &'static str,
}

const OK: Case = Case {
    arrays: 0,
    changes: &[],
    words: &["verify", "here.mmdb"],
    status: 0,
    beginning: "here.mmdb: ok\n",
    end: "here.mmdb: ok\n",
};

const CASES: &[Case] = &[
    OK,
    Case { arrays: 100, ..OK },
    Case {
        arrays: 200,
        status: 1,
        beginning: "here.mmdb: a value at offset ",
        end: " is nested more than 128 levels, which verify takes at most\n",
        ..OK
    },
    Case {
        arrays: 200,
        words: &["verify", "here.mmdb", "--whole"],
        status: 1,
        beginning: "here.mmdb: a value at offset ",
        end: " is nested more than 128 levels, which verify takes at most\n",
        ..OK
    },
    // now is 1,000,000 seconds after 1970 began, and a day has 86,400
    Case {
        changes: &[(Field::BuildEpoch, b"\x03\x02\x10\x93\xC0")],
        words: &["verify", "here.mmdb", "--max-age", "1"],
        ..OK
    },
    Case {
        changes: &[(Field::BuildEpoch, b"\x03\x02\x10\x93\xC1")],
        words: &["verify", "here.mmdb", "--max-age", "1"],
        status: 1,
        beginning: "here.mmdb: it was built at 1086401 (1970-01-13T13:46:41Z), more than a day ahead\n",
        end: "ahead\n",
        ..OK
    },
    Case {
        changes: &[(Field::BuildEpoch, b"\x03\x02\x10\x93\xC1")],
        ..OK
    },
];

#[test]
fn files_are_verified(rt: HostRuntime) -> Result<(), Fail> {
    let alloc = rt.alloc();
    for case in CASES {
        let data = section_of(alloc, &[(b"\x01\x04", case.arrays), (b"\x41x", 1)]);
        let bytes = changed_file(alloc, BASE_NODE, &data, case.changes)?;
        let run = run_of(alloc, &bytes, case.words, "");
        let holds = run.status == case.status
            && run.out().starts_with(case.beginning)
            && run.out().ends_with(case.end);
        assert_of(&rt, case.words, &run, holds);
    }
    Ok(())
}
