//! The texts of refutations, by hand.

use crate::expectation::{assert_equal_at, assert_ok};
use certificate::{read_refutation, write_refutation};
use std::alloc::Global;
use std::process::Abort;

/// The text of a refutation, as it's written too.
const WRITTEN: [&str; 4] = [
    r#"{"error":9223372036854775807,"false":[255],"reading":18446744073709551615}"#,
    r#"{"error":-9223372036854775808,"false":[2,0,1],"reading":0}"#,
    r#"{"error":0,"false":[0,0],"reading":1}"#,
    concat!(
        r#"{"error":-1,"false":[0,1,2,3,4,5,6,7,8,9,10,11,12,13,14,15,"#,
        r#"16,17,18,19,20,21,22,23,24,25,26,27,28,29,30,31],"reading":1}"#
    ),
];

/// Other texts, and what is written of the refutation that each says.
const REWRITTEN: [(&str, &str); 3] = [
    (
        r#" { "reading" : 5, "false" : [ 7, 3 ], "error" : -1 } "#,
        r#"{"error":-1,"false":[7,3],"reading":5}"#,
    ),
    (
        r#"{"error":"1","false":[],"reading":5,"error":2}"#,
        r#"{"error":2,"false":[],"reading":5}"#,
    ),
    (
        r#"{"\u0065rror":2,"false":[],"reading":5}"#,
        r#"{"error":2,"false":[],"reading":5}"#,
    ),
];

/// The refutation that a text says is written so.
fn is_written(rt: &impl Abort, alloc: Global, text: &str, wanted: &str) {
    let refutation = assert_ok(rt, read_refutation(alloc, text.as_bytes()));
    let written = assert_ok(rt, write_refutation(alloc, &refutation));
    assert_equal_at(rt, written.as_str(), wanted, text);
}

#[test]
fn texts(rt: HostRuntime) {
    for text in WRITTEN {
        is_written(&rt, rt.alloc(), text, text);
    }
    for (text, wanted) in REWRITTEN {
        is_written(&rt, rt.alloc(), text, wanted);
    }
}
