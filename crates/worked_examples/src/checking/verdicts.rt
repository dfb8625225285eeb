//! The numbers of the reasons for a verdict, by hand.

use crate::expectation::{assert_equal, table};
use Why::{
    BadSample, Contradiction, Cut, Exceeds, MixedServers, RepeatedServer, Unbounded, Uncovered,
};
use checker::Why;

#[test]
fn numbers_of_reasons(rt: HostRuntime) {
    for (why, number) in table! {
        Cut, 1; BadSample, 2; MixedServers, 3; RepeatedServer, 4;
        Unbounded, 5; Contradiction, 6; Exceeds, 7; Uncovered, 8;
    } {
        assert_equal(&rt, why.number(), number);
    }
}
