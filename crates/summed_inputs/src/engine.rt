//! The engine of runs that are held to sums.

ghost use Rattle.summed_inputs.specs.Common.{IsWritable, run_state, asked_of, MayRun};
ghost use Rattle.summed_inputs.specs.Answer.{JudgesBySums};
ghost use Rattle.summed_inputs.specs.InputBytes.{data_of};
ghost use Rattle.summed_inputs.specs.Sums.{sums_data};

use crate::input_bytes::InputBytes;
use crate::inputs::hold_inputs;
use crate::lent_feed::{LentFeed, LentSecond};
use crate::named_feed::NamedFeed;
use crate::second::{SummedInput, SummedSource};
use audit::{Outputs, Question, Style, answer};
use byte_stream::Sink;
use report::{Conclusion, conclude};
use std::alloc::Global;
use std::hash::BuildHasher;

/// Answers a question on inputs that are held to their sums, and reports the answer. Returns what
/// was read, and the conclusion.
///
/// `sums` is the text of a file of sums, which has the inputs by their names. The inputs are read
/// whole into memory, in the order claim, second input, capture; each is held to its sum as soon as
/// it was read, and the same memory is judged, as `audit::answer` judges a feed. So a fault of what
/// an input says comes after every fault of a sum. What comes after a fault isn't read.
///
/// At status 0 and 1 what was read has these sums, and the answer is the definitions' for it, with
/// no premise that it was known before. `laws` say what that shows. Where an input has another sum,
/// that is so of what was read of it.
pub fn answer_by_sums<
    Q: Question,
    C: NamedFeed,
    T: SummedSource<Q::Second>,
    F: NamedFeed,
    S: Sink,
    E: Sink,
    H: BuildHasher + Drop,
>(
    alloc: Global,
    question: Q,
    style: Style,
    sums: &[u8],
    claim: &mut C,
    second: &mut T,
    capture: &mut F,
    to: &mut Outputs<S, E>,
    hasher: H,
) -> (InputBytes, Conclusion)
where
    Q::Second: SummedInput,
    requires run { MayRun (run_state
        (C.state claim.old) (T.state second.old) (F.state capture.old) (S.state to.old.out)) }
    requires err { IsWritable (E.state to.old.err) }
    ensures { JudgesBySums (asked_of (Q.asks question) Q.Second.kind style)
        (sums_data sums.now (C.named claim.old) (T.named second.old) (F.named capture.old))
        (run_state (C.state claim.old) (T.state second.old) (F.state capture.old)
        (S.state to.old.out))
        (run_state (C.state claim.new) (T.state second.new) (F.state capture.new)
        (S.state to.new.out))
        (E.state to.old.err) (E.state to.new.err) (data_of result.0) result.1 }
{
    let mut read = InputBytes::new(alloc);
    match hold_inputs(alloc, sums, claim, second, capture, &mut read) {
        Ok(()) => {
            let mut claim = LentFeed::new(read.claim.as_slice());
            let mut second = LentSecond(LentFeed::new(read.second.as_slice()));
            let capture = LentFeed::new(read.capture.as_slice());
            let (claim, second) = (&mut claim, &mut second);
            let (_, conclusion) = answer(
                alloc, question, style, claim, second, capture, to, hasher,
            );
            (read, conclusion)
        }
        Err(fault) => {
            let _ = to.out.finish();
            (read, conclude(&Err(fault), &mut to.err))
        }
    }
}
