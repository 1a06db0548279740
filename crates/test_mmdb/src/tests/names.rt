//! Fields with names of their own, under both names of the option.
use crate::tests::asserted::assert_of;
use mmdb_vectors::base::BASE_FILE;
use mmdb_vectors::builder::{BASE_NODE, changed_file};
use test_runs::program::{run_of, run_over, two_files};

/// The record {"c": {"i": "DE"}, "n": 7} of 128.0.0.0/1.
const DATA: &[u8] = b"\xE2\x41c\xE1\x41i\x42DE\x41n\xA1\x07";

/// Words, standard input, the status, standard output, and all of standard error but what `enrich` counts.
type Row<'a> = (&'a [&'a str], &'a str, u8, &'a str, &'a str);

const NAMED_CELLS: &str = "network,\"country, code\",n\n128.0.0.0/1,DE,7\n";

#[rattlefmt::skip]
const NAMED: &[Row<'static>] = &[
    // the order is that of the command line, whatever the option is called
    (&["export", "here.mmdb", "--field", "cc=c.i", "--path", "n"], "", 0, "{\"network\":\"128.0.0.0/1\",\"cc\":\"DE\",\"n\":7}\n", ""),
    (&["export", "here.mmdb", "--path=n", "--field=cc=c.i"], "", 0, "{\"network\":\"128.0.0.0/1\",\"n\":7,\"cc\":\"DE\"}\n", ""),
    (&["export", "here.mmdb", "--format", "csv", "--path", "country, code=c.i", "--field", "n"], "", 0, NAMED_CELLS, ""),
    // an equals sign in quotes ends no name
    (&["export", "here.mmdb", "--field", "\"a=b\"=c.i"], "", 0, "{\"network\":\"128.0.0.0/1\",\"a=b\":\"DE\"}\n", ""),
    (&["export", "here.mmdb", "--field", "a=\"c\".i"], "", 0, "{\"network\":\"128.0.0.0/1\",\"a\":\"DE\"}\n", ""),
    (&["export", "here.mmdb", "--field", "\"a=b\""], "", 0, "{\"network\":\"128.0.0.0/1\",\"\\\"a=b\\\"\":null}\n", "mmdb: no record has \"a=b\"\n"),
    // a field that no record has is named by its path
    (&["export", "here.mmdb", "--field", "x=c.j"], "", 0, "{\"network\":\"128.0.0.0/1\",\"x\":null}\n", "mmdb: no record has c.j; did you mean c.i?\n"),
    // fields without names may be asked for twice
    (&["export", "here.mmdb", "--field", "n", "--field", "n", "--format", "csv"], "", 0, "network,n,n\n128.0.0.0/1,7,7\n", ""),
    (&["show", "here.mmdb", "200.0.0.1", "--path", "c.i", "--field", "n", "--path", "n"], "", 0, "\"DE\"\n7\n7\n", ""),
    // with a name the values of an address are in an object
    (
        &["show", "here.mmdb", "200.0.0.1", "1.1.1.1", "--field", "cc=c.i", "--path", "n"], "", 6,
        "{\"address\":\"200.0.0.1\",\"cc\":\"DE\",\"n\":7}\n{\"address\":\"1.1.1.1\",\"cc\":null,\"n\":null}\n", "",
    ),
    (&["show", "here.mmdb", "200.0.0.1", "--path", "n=c.j"], "", 6, "{\"address\":\"200.0.0.1\",\"n\":null}\n", "mmdb: no record has c.j; did you mean c.i?\n"),
    // a path that meets a value of another type leads nowhere
    (
        &["show", "here.mmdb", "200.0.0.1", "--field", "a=n", "--field", "b=n.0"], "", 6,
        "{\"address\":\"200.0.0.1\",\"a\":7,\"b\":null}\n", "mmdb: no record has n.0\n",
    ),
    (
        &["enrich", "here.mmdb", "--quiet", "--header", "--column", "ip", "--field", "cc=c.i", "--path", "n"],
        "ip\n200.0.0.1\n", 0, "ip\tcc\tn\n200.0.0.1\tDE\t7\n", "",
    ),
    (
        &["enrich", "here.mmdb", "--quiet", "--header", "--delimiter", ",", "--path", "country, code=c.i"],
        "ip\n200.0.0.1\n", 0, "ip,\"country, code\"\n200.0.0.1,DE\n", "",
    ),
    (
        &["enrich", "here.mmdb", "--quiet", "--json", "ip", "--path", "cc=c.i", "--field", "n"],
        "{\"ip\":\"200.0.0.1\"}\n", 0, "{\"ip\":\"200.0.0.1\",\"geo\":{\"cc\":\"DE\",\"n\":7}}\n", "",
    ),
];

const EQUAL: &str =
    "another field has the name n too; give one of them a name of its own, as NAME=";

/// Names that are wrong, and what is said of them at the beginning and at the end.
#[rattlefmt::skip]
const WRONG: &[(&[&str], &str, &str)] = &[
    (&["export", "gone.mmdb", "--field", "n=c.i", "--field", "n=n"], "mmdb: n=n: ", "NAME=n\n"),
    (&["export", "gone.mmdb", "--field", "n=c.i", "--path", "n"], "mmdb: n: ", "NAME=n\n"),
    (&["export", "gone.mmdb", "--field", "n", "--field", "n", "--field", "m=n"], "mmdb: n: ", "NAME=n\n"),
    (&["diff", "gone.mmdb", "gone.mmdb", "--field", "\"n\"=c.i", "--field", "n"], "mmdb: n: ", "NAME=n\n"),
    (&["show", "gone.mmdb", "1.1.1.1", "--path", "n=c.i", "--path", "n=c.j"], "mmdb: n=c.j: ", "NAME=c.j\n"),
    (&["enrich", "gone.mmdb", "--header", "--field", "n=c.i", "--field", "n=c.j"], "mmdb: n=c.j: ", "NAME=c.j\n"),
    (&["enrich", "gone.mmdb", "--json", "a", "--path", "c.n", "--field", "n=c.j"], "mmdb: n=c.j: ", "NAME=c.j\n"),
];

/// Words that ask for nothing that can be done, and what is said of them.
#[rattlefmt::skip]
const REJECTED: &[(&[&str], &str)] = &[
    (&["export", "gone.mmdb", "--field", "network=n"], "mmdb: network=n: the name network is taken; give the field another one, as NAME=n\n"),
    (&["export", "gone.mmdb", "--format", "csv", "--field", "n", "--field", "network"], "mmdb: network: the name network is taken; give the field another one, as NAME=network\n"),
    (&["enrich", "gone.mmdb", "--network", "--header", "--field", "network"], "mmdb: network: the name network is taken; give the field another one, as NAME=network\n"),
    (&["show", "gone.mmdb", "1.1.1.1", "--field", "address=n"], "mmdb: address=n: the name address is taken; give the field another one, as NAME=n\n"),
    (&["show", "gone.mmdb", "1.1.1.1", "--field", "=n"], "mmdb: =n: an empty name; give the field another one, as NAME=n\n"),
    (&["enrich", "gone.mmdb", "--field", "\"\"=n"], "mmdb: \"\"=n: an empty name; give the field another one, as NAME=n\n"),
    (&["export", "gone.mmdb", "--field", "a=b.\"c"], "mmdb: b.\"c: not a path\n"),
    (&["show", "gone.mmdb", "1.1.1.1", "--field", "a=b=c.+1"], "mmdb: b=c.+1: not a path\n"),
    (&["enrich", "gone.mmdb", "--header", "--field", "a\tb=c"], "mmdb: a\\tb: a name with what separates columns or lines\n"),
    (&["enrich", "gone.mmdb", "--header", "--no-quotes", "--delimiter", " ", "--field", "a b=c"], "mmdb: a b: a name with what separates columns or lines\n"),
];

#[test]
fn fields_with_names(rt: HostRuntime) {
    let bytes = changed_file(rt.alloc(), BASE_NODE, DATA, &[]);
    let bytes = bytes.expect(&rt, "a file");
    for (texts, lines, status, out, err) in NAMED {
        let run = run_of(rt.alloc(), bytes.as_slice(), texts, lines);
        let holds = run.status == *status && run.out() == *out && run.err() == *err;
        assert_of(&rt, texts, &run, holds);
    }
}

#[test]
fn names_that_are_equal(rt: HostRuntime) {
    for (texts, front, end) in WRONG {
        let run = run_of(rt.alloc(), BASE_FILE, texts, "");
        let err = run.err();
        let is_said = err.starts_with(front) && err.contains(EQUAL) && err.ends_with(end);
        assert_of(
            &rt,
            texts,
            &run,
            is_said && run.status == 2 && run.out().is_empty(),
        );
    }
}

#[test]
fn names_that_are_rejected(rt: HostRuntime) {
    for (texts, err) in REJECTED {
        let run = run_of(rt.alloc(), BASE_FILE, texts, "");
        let holds = run.status == 2 && run.out().is_empty() && run.err() == *err;
        assert_of(&rt, texts, &run, holds);
    }
}

/// Differences of the base file and one with that record, as they are asked for and as they are written.
#[rattlefmt::skip]
const DIFFERENT: &[(&[&str], &str)] = &[
    (
        &["diff", "here.mmdb", "new.mmdb", "--path", "cc=c.i", "--field", "network=n"],
        "{\"network\":\"128.0.0.0/1\",\"old\":{\"cc\":null,\"network\":null},\"new\":{\"cc\":\"DE\",\"network\":7}}\n",
    ),
    (&["diff", "here.mmdb", "new.mmdb", "--field", "a,b=c.i", "--format", "csv"], "network,\"old.a,b\",\"new.a,b\"\n128.0.0.0/1,,DE\n"),
];

#[test]
fn differences_with_names(rt: HostRuntime) {
    let newer = changed_file(rt.alloc(), BASE_NODE, DATA, &[]);
    let newer = newer.expect(&rt, "a file");
    let older = changed_file(rt.alloc(), BASE_NODE, b"\xE0", &[]);
    let older = older.expect(&rt, "a file");
    for (texts, out) in DIFFERENT {
        let files = two_files(older.as_slice(), newer.as_slice());
        let run = run_over(rt.alloc(), &files, texts, "", false);
        assert_of(&rt, texts, &run, run.status == 0 && run.out() == *out);
    }
}

/// A record whose only key has an equals sign.
const SIGNED: &[u8] = b"\xE1\x43a=b\xA1\x07";

#[test]
fn keys_with_equals_signs(rt: HostRuntime) {
    let bytes = changed_file(rt.alloc(), BASE_NODE, SIGNED, &[]);
    let bytes = bytes.expect(&rt, "a file");
    let words = &["info", "here.mmdb", "--fields"];
    let run = run_of(rt.alloc(), bytes.as_slice(), words, "");
    assert_of(
        &rt,
        words,
        &run,
        run.out().ends_with("1\tuint16\t\"a=b\"\n"),
    );
    let words = &["show", "here.mmdb", "200.0.0.1", "--field", "\"a=b\""];
    let run = run_of(rt.alloc(), bytes.as_slice(), words, "");
    assert_of(&rt, words, &run, run.status == 0 && run.out() == "7\n");
}
