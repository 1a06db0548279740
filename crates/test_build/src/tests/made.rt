//! Files that are made, read by the library.
use super::disk::{Disk, LINK};
use super::run::run_on;
use mmdb_reader::{MaxMindDbError, Reader};
use mmdb_value::Value;
use mmdb_vectors::base::BASE_FILE;
use std::alloc::Global;
use std::net::IpAddr;
use std::process::Abort;

/// Rows, the options that they are taken with, and what addresses have then.
struct Case {
    options: &'static [&'static str],
    rows: &'static str,
    answers: &'static [(&'static str, &'static str)],
}

/// What an address has that has no record.
const NONE: &str = "none";

const CASES: &[Case] = &[
    Case {
        options: &[],
        rows: "{\"network\":\"1.0.0.0/8\",\"record\":{\"a\":1,\"b\":-1,\"c\":1.5,\"d\":true,\"e\":\"x\",\"f\":4294967296,\"g\":18446744073709551616,\"h\":[1,\"y\"],\"i\":{}}}\n",
        answers: &[(
            "1.2.3.4",
            "1.0.0.0/8 Map([(\"a\", U32(1)), (\"b\", I32(-1)), (\"c\", Double(Double { bits: 4609434218613702656 })), (\"d\", Bool(true)), (\"e\", String(\"x\")), (\"f\", U64(4294967296)), (\"g\", U128(18446744073709551616)), (\"h\", Array([U32(1), String(\"y\")])), (\"i\", Map([]))])",
        )],
    },
    // null is the number that is none
    Case {
        options: &["--type", "d=double", "--type", "f=float"],
        rows: "{\"network\":\"1.0.0.0/8\",\"record\":{\"d\":null,\"f\":null}}\n",
        answers: &[(
            "1.2.3.4",
            "1.0.0.0/8 Map([(\"d\", Double(Double { bits: 9221120237041090560 })), (\"f\", Float(Float { bits: 2143289344 }))])",
        )],
    },
    // the longest prefix, of equal ones the last, whatever the order of the others
    Case {
        options: &[],
        rows: "{\"network\":\"1.2.3.0/24\",\"record\":\"b\"}\n{\"network\":\"1.0.0.0/8\",\"record\":\"a\"}\r\n\n{\"network\":\"1.2.0.0/16\",\"record\":null}\n{\"record\":\"c\",\"network\":\"1.2.3.0/24\"}",
        answers: &[
            ("1.2.3.4", "1.2.3.0/24 String(\"c\")"),
            ("1.2.9.9", NONE),
            ("1.9.9.9", "1.8.0.0/13 String(\"a\")"),
            ("2.0.0.0", NONE),
        ],
    },
    // a range as its fewest blocks
    Case {
        options: &["--reserved", "keep"],
        rows: "{\"range\":[\"10.0.0.1\",\"10.0.0.6\"],\"record\":7}\n{\"range\":[\"::ffff:ffff:ffff:ffff\",\"0:0:0:1::\"],\"record\":8}\n",
        answers: &[
            ("10.0.0.0", NONE),
            ("10.0.0.1", "10.0.0.1/32 U32(7)"),
            ("10.0.0.3", "10.0.0.2/31 U32(7)"),
            ("10.0.0.5", "10.0.0.4/31 U32(7)"),
            ("10.0.0.6", "10.0.0.6/32 U32(7)"),
            ("10.0.0.7", NONE),
            ("::ffff:ffff:ffff:fffe", NONE),
            ("::ffff:ffff:ffff:ffff", "::ffff:ffff:ffff:ffff/128 U32(8)"),
            ("0:0:0:1::", "0:0:0:1::/128 U32(8)"),
            ("0:0:0:1::1", NONE),
        ],
    },
    Case {
        options: &["--ip-version", "4"],
        rows: "{\"range\":[\"0.0.0.0\",\"255.255.255.255\"],\"record\":7}\n",
        answers: &[
            ("9.9.9.9", "0.0.0.0/1 U32(7)"),
            ("200.0.0.1", "128.0.0.0/1 U32(7)"),
        ],
    },
    // members and columns that are paths
    Case {
        options: &[],
        rows: "{\"network\":\"1.0.0.0/8\",\"country.iso_code\":\"US\",\"subs.0.x\":1,\"city\":null,\"subs.1.x\":[2]}\n{\"network\":\"2.0.0.1\",\"\":5}\n{\"network\":\"3.0.0.1\",\"a\":null}\n",
        answers: &[
            (
                "1.1.1.1",
                "1.0.0.0/8 Map([(\"country\", Map([(\"iso_code\", String(\"US\"))])), (\"subs\", Array([Map([(\"x\", U32(1))]), Map([(\"x\", Array([U32(2)]))])]))])",
            ),
            ("2.0.0.1", "2.0.0.1/32 U32(5)"),
            ("3.0.0.1", NONE),
        ],
    },
    Case {
        options: &[
            "--format",
            "csv",
            "--type",
            "asn=uint32",
            "--type",
            "geo.lat=float",
        ],
        rows: "network,asn,\"name\",geo.lat\n1.0.0.0/8,64500,\"A, \"\"B\"\"\n\",\n2.0.0.0/8,,,\n3.0.0.0/8,,7,0.5\n4.0.0.0/8,,7,0.5\n",
        answers: &[
            (
                "1.1.1.1",
                "1.0.0.0/8 Map([(\"asn\", U32(64500)), (\"name\", String(\"A, \\\"B\\\"\\n\"))])",
            ),
            ("2.1.1.1", NONE),
            (
                "3.1.1.1",
                "3.0.0.0/8 Map([(\"name\", String(\"7\")), (\"geo\", Map([(\"lat\", Float(Float { bits: 1056964608 }))]))])",
            ),
            (
                "4.1.1.1",
                "4.0.0.0/8 Map([(\"name\", String(\"7\")), (\"geo\", Map([(\"lat\", Float(Float { bits: 1056964608 }))]))])",
            ),
        ],
    },
    // addresses of IPv4 that are written as ones of IPv6
    Case {
        options: &["--ip-version", "4"],
        rows: "{\"network\":\"::ffff:1.2.3.0/120\",\"record\":\"a\"}\n{\"range\":[\"::ffff:2.0.0.0\",\"::ffff:2.0.0.1\"],\"record\":\"b\"}\n{\"network\":\"::ffff:3.0.0.1\",\"record\":\"c\"}\n",
        answers: &[
            ("1.2.3.4", "1.2.3.0/24 String(\"a\")"),
            ("1.2.4.0", NONE),
            ("2.0.0.1", "2.0.0.0/31 String(\"b\")"),
            ("3.0.0.1", "3.0.0.1/32 String(\"c\")"),
        ],
    },
    // values that come again: where the network is not the first cell, beside cells in quotes, of ranges, and behind blanks
    Case {
        options: &["--format", "csv"],
        rows: "a,network,b\nx,1.0.0.0/8,y\nx,2.0.0.0/8,y\n\"x,\"\"\",3.0.0.0/8,\"y\"\n\"x,\"\"\",4.0.0.0/8,\"y\"\nx,\"5.0.0.0/8\",y\nxy,6.0.0.0/8,\n",
        answers: &[
            (
                "1.1.1.1",
                "1.0.0.0/8 Map([(\"a\", String(\"x\")), (\"b\", String(\"y\"))])",
            ),
            (
                "2.1.1.1",
                "2.0.0.0/8 Map([(\"a\", String(\"x\")), (\"b\", String(\"y\"))])",
            ),
            (
                "3.1.1.1",
                "3.0.0.0/8 Map([(\"a\", String(\"x,\\\"\")), (\"b\", String(\"y\"))])",
            ),
            (
                "4.1.1.1",
                "4.0.0.0/8 Map([(\"a\", String(\"x,\\\"\")), (\"b\", String(\"y\"))])",
            ),
            (
                "5.1.1.1",
                "5.0.0.0/8 Map([(\"a\", String(\"x\")), (\"b\", String(\"y\"))])",
            ),
            ("6.1.1.1", "6.0.0.0/8 Map([(\"a\", String(\"xy\"))])"),
        ],
    },
    Case {
        options: &["--format", "csv", "--range-columns", "first,last"],
        rows: "last,a,first\n1.0.0.1,x,1.0.0.0\n2.0.0.1,x,2.0.0.0\n3.0.0.1,xy,3.0.0.0\n",
        answers: &[
            ("1.0.0.1", "1.0.0.0/31 Map([(\"a\", String(\"x\"))])"),
            ("2.0.0.1", "2.0.0.0/31 Map([(\"a\", String(\"x\"))])"),
            ("3.0.0.1", "3.0.0.0/31 Map([(\"a\", String(\"xy\"))])"),
        ],
    },
    Case {
        options: &[],
        rows: "{\"network\": \"1.0.0.0/8\", \"record\": \"a\"}\n { \"network\"\t: \"2.0.0.0/8\", \"record\": \"a\"}\n{\"network\":\"3.0.0.0/8\",\"record\":\"a\"}\n{\"network\":\"4.0.0.0/8\", \"record\": \"a\"}\n",
        answers: &[
            ("1.1.1.1", "1.0.0.0/8 String(\"a\")"),
            ("2.1.1.1", "2.0.0.0/7 String(\"a\")"),
            ("3.1.1.1", "2.0.0.0/7 String(\"a\")"),
            ("4.1.1.1", "4.0.0.0/8 String(\"a\")"),
        ],
    },
    Case {
        options: &[
            "--format",
            "tsv",
            "--range-columns",
            "from,to",
            "--type",
            "ok=bool",
            "--type",
            "raw=bytes",
        ],
        rows: "from\tok\tto\traw\n1.0.0.0\ttrue\t1.0.0.1\tAAE=\n1.0.0.2\tfalse\t1.0.0.2\t\n",
        answers: &[(
            "1.0.0.1",
            "1.0.0.0/31 Map([(\"ok\", Bool(true)), (\"raw\", Bytes([0, 1]))])",
        )],
    },
    Case {
        options: &[
            "--network-column",
            "cidr",
            "--skip-bad",
            "--reserved",
            "skip",
        ],
        rows: "{\"cidr\":\"1.0.0.0/8\",\"record\":\"a\"}\nnonsense\n{\"cidr\":\"10.0.0.0/9\",\"record\":\"a\"}\n{\"cidr\":\"10.0.0.0/7\",\"record\":\"b\"}\n",
        answers: &[
            ("1.0.0.0", "1.0.0.0/8 String(\"a\")"),
            ("10.0.0.0", "10.0.0.0/7 String(\"b\")"),
        ],
    },
    // equal networks are errors in the order of the lines, and are left out whole
    Case {
        options: &["--equal", "error", "--skip-bad"],
        rows: "{\"network\":\"1.0.0.0/24\",\"record\":\"a\"}\n{\"network\":\"1.0.0.0/24\",\"record\":\"b\"}\n{\"range\":[\"1.0.0.0\",\"1.0.1.127\"],\"record\":\"c\"}\n{\"network\":\"1.0.1.0/25\",\"record\":\"d\"}\n",
        answers: &[
            ("1.0.0.9", "1.0.0.0/24 String(\"a\")"),
            ("1.0.1.9", "1.0.1.0/25 String(\"d\")"),
        ],
    },
    // a block of a range that lies in a reserved network is skipped
    Case {
        options: &["--reserved", "skip"],
        rows: "{\"range\":[\"9.255.255.254\",\"10.0.0.3\"],\"record\":7}\n{\"range\":[\"126.0.0.0\",\"127.255.255.255\"],\"record\":8}\n",
        answers: &[
            ("9.255.255.255", "9.255.255.254/31 U32(7)"),
            ("10.0.0.1", NONE),
            ("127.0.0.1", "126.0.0.0/7 U32(8)"),
        ],
    },
    // a byte order mark before the first row
    Case {
        options: &[],
        rows: "\u{feff}{\"network\":\"1.0.0.0/8\",\"record\":7}\n",
        answers: &[("1.1.1.1", "1.0.0.0/8 U32(7)")],
    },
    Case {
        options: &["--format", "tsv"],
        rows: "\u{feff}network\ta\n1.0.0.0/8\tx\n",
        answers: &[("1.1.1.1", "1.0.0.0/8 Map([(\"a\", String(\"x\"))])")],
    },
    Case {
        options: &["--format", "csv"],
        rows: "\u{feff}\"network\",a\r\n1.0.0.0/8,x\r",
        answers: &[("1.1.1.1", "1.0.0.0/8 Map([(\"a\", String(\"x\"))])")],
    },
    // names that have another meaning in lines of JSON alone
    Case {
        options: &["--format", "csv", "--network-column", "record"],
        rows: "record,range\n1.0.0.0/8,x\n",
        answers: &[("1.1.1.1", "1.0.0.0/8 Map([(\"range\", String(\"x\"))])")],
    },
    // a range between quoted cells that hold line ends
    Case {
        options: &["--format", "csv", "--range-columns", "a,b"],
        rows: "b,\"c\",a\n1.0.0.1,\"x\ry\n\",1.0.0.0\n",
        answers: &[("1.0.0.1", "1.0.0.0/31 Map([(\"c\", String(\"x\\ry\\n\"))])")],
    },
];

// The network and the record of an address.
fn answer_of(
    alloc: Global,
    reader: &Reader<&[u8]>,
    address: &str,
) -> Result<String, MaxMindDbError> {
    let Ok(address) = address.parse::<IpAddr>() else {
        return Ok(String::from_str(alloc, "no address")?);
    };
    let found = reader.lookup(address)?;
    let record: Option<Value<'_>> = found.decode(alloc)?;
    let network = found.network()?;
    let text = match &record {
        Some(record) => format!(in alloc; "{network} {record:?}"),
        None => String::from_str(alloc, NONE),
    };
    drop(record);
    Ok(text?)
}

// Whether each address has what it is to have in a file.
fn assert_answers(rt: &impl Abort, alloc: Global, file: &[u8], answers: &[(&str, &str)]) {
    let reader = Reader::from_source(alloc, file).expect(rt, "a file");
    for (address, wanted) in answers {
        let answer = answer_of(alloc, &reader, address).expect(rt, "an answer");
        assert!(rt; answer.as_str() == *wanted, "{address}: {answer}");
    }
}

// The words of a run with options.
fn words_with<'a>(alloc: Global, options: &[&'a str]) -> Vec<&'a str> {
    let mut words = Vec::new(alloc);
    let _ = words.extend_from_slice(&["mmdb", "build", "out.mmdb", "--from", "-", "--check"]);
    let _ = words.extend_from_slice(options);
    words
}

#[test]
fn rows_are_found_again(rt: HostRuntime) {
    let alloc = rt.alloc();
    for case in CASES {
        let disk = Disk::new(alloc, u32::MAX, None);
        let words = words_with(alloc, case.options);
        let run = run_on(alloc, &disk, &words, case.rows.as_bytes());
        assert!(rt; run.status == Some(0), "{}", run.err());
        let file = disk.get("out.mmdb").expect(&rt, "a file");
        assert_answers(&rt, alloc, &file, case.answers);
    }
}

/// A row whose values have types that JSON does not show, and what it is then.
const TYPED: (&str, &str) = (
    "{\"network\":\"1.0.0.0/8\",\"record\":{\"a\":[{\"b\":1}],\"c\":0.1,\"d\":\"AAE=\"}}\n",
    "1.0.0.0/8 Map([(\"a\", Array([Map([(\"b\", U16(1))])])), (\"c\", Float(Float { bits: 1036831949 })), (\"d\", Bytes([0, 1]))])",
);

#[test]
fn types_are_those_of_a_file(rt: HostRuntime) {
    let alloc = rt.alloc();
    let disk = Disk::new(alloc, u32::MAX, Some("5"));
    let named = &[
        "--type",
        "a.0.b=uint16",
        "--type",
        "c=float",
        "--type",
        "d=bytes",
    ];
    let words = words_with(alloc, named);
    let run = run_on(alloc, &disk, &words, TYPED.0.as_bytes());
    assert!(rt; run.status == Some(0), "{}", run.err());
    let first = disk.get("out.mmdb").expect(&rt, "a file");
    assert_answers(&rt, alloc, &first, &[("1.1.1.1", TYPED.1)]);
    let words = words_with(alloc, &["--types-like", "out.mmdb"]);
    let run = run_on(alloc, &disk, &words, TYPED.0.as_bytes());
    assert!(rt; run.status == Some(0), "{}", run.err());
    let second = disk.get("out.mmdb").expect(&rt, "a file");
    assert!(rt; first == second, "other bytes");
}

/// Rows with a double, an integer, and a text at one path, and what they are then.
const SEVERAL: (&str, &[(&str, &str)]) = (
    "{\"network\":\"1.0.0.0/8\",\"record\":1.5}\n{\"network\":\"2.0.0.0/8\",\"record\":1}\n{\"network\":\"3.0.0.0/8\",\"record\":\"1\"}\n{\"network\":\"4.0.0.0/8\",\"record\":-1}\n",
    &[
        (
            "1.1.1.1",
            "1.0.0.0/8 Double(Double { bits: 4609434218613702656 })",
        ),
        ("2.1.1.1", "2.0.0.0/8 U32(1)"),
        ("3.1.1.1", "3.0.0.0/8 String(\"1\")"),
        ("4.1.1.1", "4.0.0.0/8 I32(-1)"),
    ],
);

#[test]
fn values_at_a_path_may_have_several_types(rt: HostRuntime) {
    let alloc = rt.alloc();
    let disk = Disk::new(alloc, u32::MAX, Some("5"));
    for options in [&[][..], &["--types-like", "out.mmdb"][..]] {
        let words = words_with(alloc, options);
        let run = run_on(alloc, &disk, &words, SEVERAL.0.as_bytes());
        assert!(rt; run.status == Some(0), "{}", run.err());
        let file = disk.get("out.mmdb").expect(&rt, "a file");
        assert_answers(&rt, alloc, &file, SEVERAL.1);
    }
}

#[test]
fn a_link_stays(rt: HostRuntime) {
    let alloc = rt.alloc();
    let disk = Disk::new(alloc, u32::MAX, None);
    let _ = disk.put("out.mmdb", BASE_FILE);
    let words = &["mmdb", "build", LINK, "--from", "-"];
    let run = run_on(alloc, &disk, words, TYPED.0.as_bytes());
    assert!(rt; run.status == Some(0), "{}", run.err());
    let file = disk.get("out.mmdb").expect(&rt, "a file");
    assert!(rt;
        file.as_slice() != BASE_FILE && disk.len() == 1,
        "not replaced"
    );
}

/// Options, rows, and all that is said of them.
const SAID: &[(&[&str], &str, &str)] = &[(
    &["--equal", "error"],
    "{\"network\":\"1.0.0.0/8\",\"record\":1}\nx\n{\"range\":[\"1.0.0.0\",\"2.255.255.255\"],\"record\":1}\n{\"network\":\"2.0.0.0/8\",\"record\":1}\n{\"network\":\"1.0.0.0/8\",\"record\":1}\ny\n",
    "mmdb: standard input:2: not JSON, or nested more than 128 deep
mmdb: standard input:3: a network that another line has too
mmdb: standard input:5: a network that another line has too
mmdb: standard input:6: not JSON, or nested more than 128 deep
mmdb: standard input: 4 lines are wrong\n",
)];

/// Rows, and what is said of them in a line.
const COUNTED: &[(&str, &str)] = &[
    (
        "{\"network\":\"::ffff:1.2.3.0/120\",\"record\":1}\n{\"network\":\"::ffff:0:0/96\",\"record\":1}\n{\"network\":\"::fffe:0:0/95\",\"record\":2}\n",
        "\nmmdb: 2 lines within ::ffff:0:0/96 are of IPv4\n",
    ),
    (
        "{\"range\":[\"::ffff:1.2.3.0\",\"::ffff:1.2.3.5\"],\"record\":1}\n{\"range\":[\"::ffff:1.2.3.0\",\"::1:0:0:0\"],\"record\":1}\n",
        "\nmmdb: 1 lines within ::ffff:0:0/96 are of IPv4\n",
    ),
];

#[test]
fn what_is_taken_otherwise_is_counted(rt: HostRuntime) {
    let alloc = rt.alloc();
    for (rows, said) in COUNTED {
        let disk = Disk::new(alloc, u32::MAX, None);
        let words = words_with(alloc, &[]);
        let run = run_on(alloc, &disk, &words, rows.as_bytes());
        assert!(rt;
            run.status == Some(0) && run.err().contains(said),
            "{said}: {}",
            run.err()
        );
    }
}

#[test]
fn all_is_said_in_the_order_of_the_lines(rt: HostRuntime) {
    let alloc = rt.alloc();
    for (options, rows, said) in SAID {
        let disk = Disk::new(alloc, u32::MAX, None);
        let words = words_with(alloc, options);
        let run = run_on(alloc, &disk, &words, rows.as_bytes());
        assert!(rt;
            run.status == Some(1) && run.err() == *said,
            "{}",
            run.err()
        );
    }
}

/// Options, and what metadata have then.
const METADATA: &[(&[&str], &str)] = &[
    (&[], "Custom 7 6 24 {\"en\": \"Custom\"} []"),
    (
        &[
            "--database-type",
            "T",
            "--description",
            "en=D=E",
            "--description",
            "de=F",
            "--language",
            "de",
        ],
        "T 7 6 24 {\"de\": \"F\", \"en\": \"D=E\"} [\"de\"]",
    ),
    (
        &[
            "--build-epoch",
            "9",
            "--ip-version",
            "4",
            "--record-size",
            "32",
        ],
        "Custom 9 4 32 {\"en\": \"Custom\"} []",
    ),
];

// What the metadata of a file have.
fn metadata_of(alloc: Global, file: &[u8]) -> Result<String, MaxMindDbError> {
    let reader = Reader::from_source(alloc, file)?;
    let metadata = reader.metadata();
    Ok(format!(in alloc;
        "{} {} {} {} {:?} {:?}",
        metadata.database_type,
        metadata.build_epoch,
        metadata.ip_version,
        metadata.record_size,
        metadata.description,
        metadata.languages
    )?)
}

#[test]
fn metadata_are_as_asked(rt: HostRuntime) {
    let alloc = rt.alloc();
    for (options, wanted) in METADATA {
        let disk = Disk::new(alloc, u32::MAX, Some("7"));
        let words = words_with(alloc, options);
        let run = run_on(
            alloc,
            &disk,
            &words,
            b"{\"network\":\"1.0.0.0/8\",\"record\":1}\n",
        );
        assert!(rt; run.status == Some(0), "{}", run.err());
        let file = disk.get("out.mmdb").expect(&rt, "a file");
        let metadata = metadata_of(alloc, &file).expect(&rt, "metadata");
        assert!(rt; metadata.as_str() == *wanted, "{metadata}");
    }
}
