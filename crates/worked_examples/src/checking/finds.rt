//! What is found, by hand.

use crate::checking::pieces::twenty_milliseconds;
use crate::expectation::{assert_equal_at, assert_ok};
use claim_file::read_claim;
use finder::{FindFault, Found, find};
use vectors::C1;

/// How many pieces the certificate has that is found, if one is.
fn answer_of(found: &Result<Found, FindFault>) -> Option<usize> {
    match found {
        Ok(Found::Certificate(certificate)) => Some(certificate.pieces.len()),
        _ => None,
    }
}

/// The worked sample shows the worked claim by one piece.
#[test]
fn finds(rt: HostRuntime) {
    let (rt, alloc) = (&rt, rt.alloc());
    let (terms, step_s, wanted) = (C1, 64, Some(1));
    let samples = [twenty_milliseconds()];
    let claim = assert_ok(rt, read_claim(alloc, terms.as_bytes()));
    let found = find(alloc, &samples, &claim, step_s);
    assert_equal_at(rt, answer_of(&found), wanted, (terms, step_s));
}
