//! The listing as a whole command, with its answer reported.

ghost use Rattle.listing.specs.Common.{option_map, TakesAtMost, IsReadable, IsWritable, most_taken, capture_state, Answers};
ghost use Rattle.listing.specs.Listing.{list_report};

use crate::run::run_list;
use byte_stream::{Feed, Sink};
use report::{Conclusion, conclude};
use std::alloc::Global;

/// Lists a capture on `out` as `run_list` does, and reports a fault on `err`. Gives the feed back,
/// and the exit status with the fault that was reported.
pub fn answer_list<F: Feed, S: Sink, E: Sink>(
    alloc: Global,
    capture: F,
    out: &mut S,
    err: &mut E,
) -> (F, Conclusion)
    requires feed { IsReadable (F.state capture) }
    requires out { IsWritable (S.state out.old) }
    requires err { IsWritable (E.state err.old) }
    ensures answers { Answers (option_map list_report (F.state capture).remaining)
        (capture_state (F.state capture) (S.state out.old))
        (capture_state (F.state result.0) (S.state out.new))
        (E.state err.old) (E.state err.new) result.1 }
    ensures at_most { TakesAtMost most_taken (F.state capture) (F.state result.0) }
{
    let (capture, answer) = run_list(alloc, capture, out);
    (capture, conclude(&answer, err))
}
