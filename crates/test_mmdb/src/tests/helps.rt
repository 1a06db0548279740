//! Helps, and what a terminal gets.
use crate::tests::asserted::assert_of;
use mmdb_vectors::base::BASE_FILE;
use test_runs::program::{file_of, run_of, run_over};

/// Words that ask for help, and what it has to hold.
const HELPS: &[(&[&str], &[&str])] = &[
    (&["--version"], &["mmdb 0.1.0\n"]),
    (
        &["--help"],
        &[
            "show",
            "info",
            "enrich",
            "export",
            "diff",
            "build",
            "verify",
            "--version",
        ],
    ),
    (
        &["show", "--help"],
        &[
            "mmdb show [OPTIONS] <FILE> <ADDR>...",
            "--field",
            "--lines",
            "Examples:\n  mmdb show ",
        ],
    ),
    (
        &["info", "--help"],
        &["--json", "--fields", "Examples:\n  mmdb info "],
    ),
    (
        &["enrich", "--help"],
        &[
            "--column",
            "--field",
            "--header",
            "--json",
            "--into",
            "Examples:\n  tail -F ",
        ],
    ),
    (
        &["export", "--help"],
        &[
            "RANGE",
            "--field",
            "--format",
            "jsonl, csv, cidr, nft, ipset, iptables, nginx, haproxy, pf",
            "--where",
            "--where-not",
            "--where-contains",
            "--where-has",
            "--where-above",
            "--where-below",
            "--also",
            "--except",
            "--ipv4",
            "--ipv6",
            "--name",
            "--allow-empty",
            "--allow-missing",
            "Examples:\n  mmdb export ",
        ],
    ),
    (
        &["build", "--help"],
        &[
            "mmdb build [OPTIONS] --from <FILE> <OUT>",
            "--types-like",
            "jsonl, csv, tsv",
            "--skip-bad",
            "Examples:\n  mmdb export ",
        ],
    ),
    (
        &["diff", "--help"],
        &[
            "mmdb diff [OPTIONS] <OLD> <NEW> [RANGE]",
            "--field",
            "--format",
            "jsonl, csv",
            "--exit-code",
            "Examples:\n  mmdb diff ",
        ],
    ),
    (
        &["verify", "--help"],
        &["Examples:\n  mmdb verify ", "65,536 values"],
    ),
];

// Whether a text holds all parts.
fn holds_all(text: &str, parts: &[&str]) -> bool {
    for part in parts {
        if !text.contains(part) {
            return false;
        }
    }
    true
}

#[test]
fn helps_have_examples(rt: HostRuntime) {
    for (texts, held) in HELPS {
        let run = run_of(rt.alloc(), b"", texts, "");
        let holds = run.status == 0 && run.err().is_empty() && holds_all(run.out(), held);
        assert_of(&rt, texts, &run, holds);
    }
}

const PRETTY: &str = "{
  \"address\": \"200.0.0.1\",
  \"network\": \"128.0.0.0/1\",
  \"record\": \"x\"
}
";

const LINE: &str = "{\"address\":\"200.0.0.1\",\"network\":\"128.0.0.0/1\",\"record\":\"x\"}\n";

/// Words, and what they get on a terminal.
const ON_A_TERMINAL: &[(&[&str], &str)] = &[
    (&["show", "here.mmdb", "200.0.0.1"], PRETTY),
    (&["show", "here.mmdb", "200.0.0.1", "--lines"], LINE),
];

#[test]
fn a_terminal_gets_several_lines(rt: HostRuntime) {
    for (texts, wanted) in ON_A_TERMINAL {
        let run = run_over(rt.alloc(), &file_of(BASE_FILE), texts, "", true);
        let holds = run.status == 0 && run.err().is_empty() && run.out() == *wanted;
        assert_of(&rt, texts, &run, holds);
    }
}
