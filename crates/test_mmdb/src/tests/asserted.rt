//! What a test asserts of a run. It may end the process, so no library can have it.
use std::process::Abort;
use test_runs::program::Run;

/// Asserts what a run is to have left, and shows the run if it has not.
pub fn assert_of(rt: &impl Abort, texts: &[&str], run: &Run, holds: bool) {
    let (status, out, err) = (run.status, run.out(), run.err());
    assert!(rt; holds, "{texts:?}: {status} {out:?} {err:?}");
}
