//! Certificates, by hand.

use crate::expectation::{assert_equal_at, assert_ok};
use certificate::{CertificateFault, read_certificate};
use std::alloc::{AllocError, Global};
use vectors::K1;

fn answer(alloc: Global, text: &str) -> Result<String, AllocError> {
    match read_certificate(alloc, text.as_bytes()) {
        Ok(_) => String::from_str(alloc, "read"),
        Err(CertificateFault::Shape(piece)) => format!(in alloc; "shape {piece}"),
        Err(CertificateFault::TooManyEntries(piece)) => format!(in alloc; "entries {piece}"),
        Err(fault) => format!(in alloc; "fault {}", fault.number()),
    }
}

#[test]
fn texts(rt: HostRuntime) {
    for (expected, text) in [
        ("fault 1", "["),
        ("fault 2", "{}"),
        ("shape 1", r#"{"pieces":[{"upto":0,"entries":[]},0]}"#),
        ("read", K1),
    ] {
        let answer = assert_ok(&rt, answer(rt.alloc(), text));
        assert_equal_at(&rt, answer.as_str(), expected, text);
    }
}
