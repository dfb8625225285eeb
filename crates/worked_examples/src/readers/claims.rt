//! Claims, by hand.

use crate::expectation::{assert_equal_at, assert_ok};
use claim_file::{ClaimFault, read_claim};
use std::alloc::{AllocError, Global};
use vectors::C1;

fn answer(alloc: Global, text: &str) -> Result<String, AllocError> {
    match read_claim(alloc, text.as_bytes()) {
        Ok(_) => String::from_str(alloc, "read"),
        Err(ClaimFault::Field(code)) => format!(in alloc; "field {code}"),
        Err(fault) => format!(in alloc; "fault {}", fault.number()),
    }
}

#[test]
fn texts(rt: HostRuntime) {
    for (expected, text) in [("fault 1", "["), ("field 1", "{}"), ("read", C1)] {
        let answer = assert_ok(&rt, answer(rt.alloc(), text));
        assert_equal_at(&rt, answer.as_str(), expected, text);
    }
}
