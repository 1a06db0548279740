//! Each public call that can fail, once with enough memory. The others answer a plain value.
use super::asserts::{assert_holds, opened};
use super::constructors::{CONSTRUCTORS, made};
use super::growths::{Outcome, error_met};
use super::reads::{PAIRS, is_done, of_decoders, of_types};
use mmdb_reader::{
    IpNetwork, Ipv4Network, Ipv6Network, Metadata, PathElement, Reader, Steps, WithinOptions,
    render_path,
};
use mmdb_report::report_on;
use mmdb_tool::{Out, Sink, list_to, lookup_line, run, run_bytes};
use mmdb_value::{Checked, check_value, fuzzing};
use mmdb_vectors::base::{BASE_FILE, high};
use mmdb_vectors::file::TestFiles;
use mmdb_vectors::words::words_of;
use std::alloc::Global;
use std::net::{Ipv4Addr, Ipv6Addr};
use std::process::Abort;

// The whole space of IPv4.
fn whole(rt: &impl Abort) -> IpNetwork {
    "0.0.0.0/0".parse().expect(rt, "IpNetwork::from_str")
}

fn of_networks(rt: &impl Abort, alloc: Global) {
    let ipv4 = Ipv4Network::new(Ipv4Addr::LOCALHOST, 8).expect(rt, "Ipv4Network::new");
    let ipv6 = Ipv6Network::new(Ipv6Addr::LOCALHOST, 8).expect(rt, "Ipv6Network::new");
    let parsed: IpNetwork = "10.0.0.0/8".parse().expect(rt, "IpNetwork::from_str");
    assert_holds(rt, ipv4.prefix() == 8, "Ipv4Network::new");
    assert_holds(rt, ipv6.prefix() == 8, "Ipv6Network::new");
    assert_holds(rt, is_done(IpNetwork::new(high(), 8)), "IpNetwork::new");
    assert_holds(rt, parsed.prefix() == 8, "IpNetwork::from_str");
    assert_holds(rt, is_done(ipv4.full_text(alloc)), "Ipv4Network::full_text");
    assert_holds(rt, is_done(ipv6.full_text(alloc)), "Ipv6Network::full_text");
    assert_holds(rt, is_done(parsed.full_text(alloc)), "IpNetwork::full_text");
}

fn of_errors(rt: &impl Abort, alloc: Global) {
    for (name, constructor) in CONSTRUCTORS {
        // An error, and not one of memory.
        let met = error_met(made(alloc, constructor));
        assert_holds(rt, met == Outcome::Error, name);
    }
}

// Whether a value is checked.
fn checks_value(rt: &impl Abort, alloc: Global) -> bool {
    let mut checked = Checked::new(alloc, PAIRS).expect(rt, "Checked::new");
    is_done(check_value(alloc, &mut checked, 0))
}

fn of_checks(rt: &impl Abort, alloc: Global) {
    assert_holds(rt, is_done(Checked::new(alloc, PAIRS)), "Checked::new");
    assert_holds(rt, checks_value(rt, alloc), "check_value");
    assert_holds(rt, is_done(fuzzing::verify(alloc, PAIRS)), "verify");
}

// Whether a path is rendered.
fn renders_path(alloc: Global) -> bool {
    is_done(render_path(alloc, &[PathElement::from("k")]))
}

fn of_lookups(rt: &impl Abort, alloc: Global, reader: &Reader<&[u8]>) {
    let mut steps = Steps::new();
    let counted = is_done(reader.lookup_counted(high(), &mut steps));
    assert_holds(rt, counted, "lookup_counted");
    let found = reader.lookup(high()).expect(rt, "lookup");
    assert_holds(rt, found.has_data(), "lookup");
    assert_holds(rt, is_done(found.network()), "network");
    assert_holds(rt, is_done(found.decode::<&str>(alloc)), "decode");
    let at_path = is_done(found.decode_path::<&str>(alloc, &[]));
    assert_holds(rt, at_path, "decode_path");
    assert_holds(rt, renders_path(alloc), "render_path");
}

fn of_metadata(rt: &impl Abort, alloc: Global, metadata: &Metadata) {
    let cloned = metadata.clone().expect(rt, "Metadata::clone");
    assert_holds(rt, cloned == *metadata, "Metadata::clone");
    assert_holds(rt, is_done(cloned.build_time(alloc)), "build_time");
}

// Whether a file is verified, with a count of its nodes.
fn verifies_counted(alloc: Global, reader: &Reader<&[u8]>) -> bool {
    let mut steps = Steps::new();
    reader.metadata().node_count <= 1000 && is_done(reader.verify_counted(alloc, &mut steps))
}

fn of_trees(rt: &impl Abort, alloc: Global, reader: &Reader<&[u8]>) {
    let options = WithinOptions::default();
    let range = whole(rt);
    assert_holds(rt, is_done(reader.within(alloc, range, options)), "within");
    assert_holds(rt, is_done(reader.networks(alloc, options)), "networks");
    assert_holds(rt, is_done(reader.verify(alloc)), "verify");
    assert_holds(rt, verifies_counted(alloc, reader), "verify_counted");
    let reported = is_done(report_on(alloc, reader, range, options));
    assert_holds(rt, reported, "report_on");
}

fn of_lines(rt: &impl Abort, alloc: Global, reader: &Reader<&[u8]>) {
    assert_holds(
        rt,
        is_done(lookup_line(alloc, reader, high())),
        "lookup_line",
    );
    let mut out = Out::new(Vec::new(alloc));
    assert_holds(rt, is_done(out.put(b"x")), "Out::put");
    let options = WithinOptions::default();
    let listed = is_done(list_to(alloc, reader, whole(rt), options, &mut out));
    assert_holds(rt, listed, "list_to");
}

fn of_programs(rt: &impl Abort, alloc: Global) {
    let words = words_of(alloc, &["verify", "here.mmdb"]).expect(rt, "words");
    let mut out = Out::new(Vec::new(alloc));
    let mut err = Out::new(Vec::new(alloc));
    let files = TestFiles::new(BASE_FILE, 1000);
    let status = run(&files, alloc, words.as_slice(), &mut out, &mut err);
    assert_holds(rt, status == 0, "run");
    let status = run_bytes(alloc, BASE_FILE, words.as_slice(), &mut out, &mut err);
    assert_holds(rt, status == 0, "run_bytes");
}

// Whether a file is opened.
fn opens_file(alloc: Global) -> bool {
    let files = TestFiles::new(BASE_FILE, 1000);
    is_done(Reader::open_readfile(&files, alloc, "here.mmdb"))
}

fn of_readers(rt: &impl Abort, alloc: Global) {
    assert_holds(rt, opens_file(alloc), "open_readfile");
    let reader = opened(rt, alloc, BASE_FILE);
    of_lookups(rt, alloc, &reader);
    of_metadata(rt, alloc, reader.metadata());
    of_trees(rt, alloc, &reader);
    of_lines(rt, alloc, &reader);
}

#[test]
fn calls_succeed(rt: HostRuntime) {
    let alloc = rt.alloc();
    of_networks(&rt, alloc);
    of_errors(&rt, alloc);
    of_decoders(&rt, alloc);
    of_types(&rt, alloc);
    of_checks(&rt, alloc);
    of_readers(&rt, alloc);
    of_programs(&rt, alloc);
}
