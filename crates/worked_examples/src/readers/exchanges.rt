//! An exchange, by hand.

use crate::checking::samples::exchange;
use crate::expectation::{assert_equal, assert_ok};
use claim_file::read_claim;
use pairing::{Collected, collect};
use pcap_reader::Whole;
use std::alloc::Global;
use std::process::Abort;
use vectors::{C1, V1};

/// What is collected of a whole capture.
fn collected(rt: &impl Abort, alloc: Global, claim: &str, file: &[u8]) -> Collected {
    let claim = assert_ok(rt, read_claim(alloc, claim.as_bytes()));
    let mut source = assert_ok(rt, Whole::begin(file));
    assert_ok(rt, collect(alloc, &mut source, &claim))
}

/// The exchange of `V1`, field by field.
#[test]
fn the_exchange(rt: HostRuntime) {
    let collected = collected(&rt, rt.alloc(), C1, &V1);
    assert_equal(&rt, collected.exchanges.as_slice(), [exchange()].as_slice());
}
