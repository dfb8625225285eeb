//! What a test expects of a call.
//!
//! A `?` and an `assert_eq!` are proved anew wherever they stand in a test, which takes seconds for
//! each. A call of these functions takes next to nothing.

ghost use Rattle.std.specs.Prelude.{◌≡◌, Ok};

use std::fmt::Debug;
use std::process::Abort;

/// A table, a row a line: its cells are divided by commas, and a semicolon ends it.
macro_rules! table {
    ($($($cell:expr),+;)+) => { [$(($($cell),+)),+] };
}

pub(crate) use table;

/// The value of a call that has to succeed.
pub(crate) fn assert_ok<T, E: Debug + Drop>(rt: &impl Abort, answer: Result<T, E>) -> T
    ensures { answer ≡ Ok result }
{
    match answer {
        Ok(value) => value,
        Err(fault) => panic!(rt; "{fault:?}"),
    }
}

/// What is seen has to be what is wanted.
pub(crate) fn assert_equal<T: PartialEq + Debug + Drop>(rt: &impl Abort, seen: T, wanted: T) {
    assert_eq!(rt; seen, wanted);
}

/// What is seen in this case has to be what is wanted.
pub(crate) fn assert_equal_at<T: PartialEq + Debug + Drop, C: Debug + Drop>(
    rt: &impl Abort,
    seen: T,
    wanted: T,
    case: C,
) {
    assert_eq!(rt; seen, wanted, "{case:?}");
}
