//! What errors print.
use mmdb_net::IpNetworkError;
use mmdb_value::{
    MaxMindDbError, decoding, decoding_at, decoding_at_path, invalid_database, invalid_database_at,
    invalid_input, resource_limit_at,
};
use mmdb_vectors::answer::reported;
use mmdb_vectors::failures::Failures;
use std::alloc::Global;
use std::io;

// Notes where an error prints another text.
fn expect_printed(failures: &mut Failures, alloc: Global, error: MaxMindDbError, text: &str) {
    failures.expect_text(&text, reported(alloc, Err::<(), _>(error)), text);
}

#[test]
fn errors_print_their_texts(rt: HostRuntime) -> Result<(), Failures> {
    let (alloc, mut failures) = (rt.alloc(), Failures::new(rt.alloc()));
    let (wrong, unexpected) = ("something went wrong", "unexpected type");
    let error = invalid_database(alloc, wrong);
    expect_printed(
        &mut failures,
        alloc,
        error,
        "invalid database: something went wrong",
    );
    let error = decoding(alloc, unexpected);
    expect_printed(
        &mut failures,
        alloc,
        error,
        "decoding error: unexpected type",
    );
    let error = decoding_at(alloc, unexpected, 100);
    expect_printed(
        &mut failures,
        alloc,
        error,
        "decoding error at offset 100: unexpected type",
    );
    let error = invalid_input(alloc, "bad address");
    expect_printed(&mut failures, alloc, error, "invalid input: bad address");
    let error = decoding_at_path(alloc, unexpected, 100, "/city/names/en");
    let text = "decoding error at offset 100 (path: /city/names/en): unexpected type";
    expect_printed(&mut failures, alloc, error, text);
    let error = invalid_database_at(alloc, wrong, 42);
    let text = "invalid database at offset 42: something went wrong";
    expect_printed(&mut failures, alloc, error, text);
    let error = resource_limit_at(alloc, "too many values", 100);
    let text = "resource limit exceeded at offset 100: too many values";
    expect_printed(&mut failures, alloc, error, text);
    let error = MaxMindDbError::from(IpNetworkError::InvalidPrefix);
    expect_printed(
        &mut failures,
        alloc,
        error,
        "invalid network: invalid prefix",
    );
    expect_printed(
        &mut failures,
        alloc,
        MaxMindDbError::Memory,
        "out of memory",
    );
    let file = MaxMindDbError::from(io::Error::from(io::ErrorKind::NotFound));
    expect_printed(&mut failures, alloc, file, "i/o error: entity not found");
    let network = MaxMindDbError::from(IpNetworkError::InvalidAddr);
    let text = "invalid network: invalid address";
    expect_printed(&mut failures, alloc, network, text);
    failures.verdict()
}
