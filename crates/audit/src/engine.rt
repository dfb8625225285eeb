//! One engine for every question on a claim and a capture.
//!
//! The inputs are read in the order claim, second input, capture, and what stands after a refusal
//! isn't read. Once all are read, and all memory is taken, the text is written. The contract of
//! each function here is one promise, `RunsFor`: the text and the answer are those that the bytes
//! of the inputs call for; with it stands what an outcome shows.

ghost use Rattle.std.specs.Prelude.{◌≡◌, ◌⊎◌, Err, IfErr, IfOk, IfSome};
ghost use Rattle.audit.specs.Common.{IsFromOutside, IsReadable, IsUnwritten, IsWritable, SinkState, no_feed, run_state};
ghost use Rattle.audit.specs.Evidence.{IsLawfulEvidence, evidence_data};
ghost use Rattle.audit.specs.Order.{GiveWhen};
ghost use Rattle.audit.specs.Question.{AreInputsOf, asked_of};
ghost use Rattle.audit.specs.Reading.{ticks_asked};
ghost use Rattle.audit.specs.Report.{inputs_read};
ghost use Rattle.audit.specs.Run.{AnswersFor, HasRead, MayRun, RunsFor, RunsTwice, ShowsAt};
ghost use Rattle.audit.specs.Second.{no_second};

use crate::capture_input::read_capture_from;
use crate::evidence::Evidence;
use crate::laws::bytes_tell_what_they_show;
use crate::question::order::when_in;
use crate::question::{AtReading, Question};
use crate::second::{SecondInput, SecondSource};
use byte_stream::{Feed, Sink};
use line_writer::Style;
use report::{Conclusion, Outcome, RunFault, conclude, publish, read_claim_from};
use std::alloc::{AllocError, Global};
use std::hash::BuildHasher;
use true_time::When;
use true_time::laws::moments_hold;

/// Where a command writes: its report, and the line of a fault.
#[derive(Debug, Drop)]
pub struct Outputs<S, E> {
    /// The report's sink.
    pub out: S,
    /// The sink for the line of a fault.
    pub err: E,
}

/// Reads the claim, the second input and the capture. The capture's feed is handed back beside what
/// the second input says, and the evidence of claim and capture.
fn read_inputs<V: SecondInput, C: Feed, T: SecondSource<V>, F: Feed, H: BuildHasher + Drop>(
    alloc: Global,
    claim: &mut C,
    second: &mut T,
    capture: F,
    hasher: H,
) -> (F, Result<(V, Evidence), RunFault>)
    requires claim { IsReadable (C.state claim.old) }
    requires second { IsReadable (T.state second.old) }
    requires capture { IsReadable (F.state capture) }
    ensures has_read { (sink sink' : SinkState) → HasRead V.kind
        (run_state (C.state claim.old) (T.state second.old) (F.state capture) sink)
        (run_state (C.state claim.new) (T.state second.new) (F.state result.0) sink')
        second.old second.new capture result.0 result.1 }
    ensures of_bytes { IfOk result.1 (λ read. AreInputsOf V.kind (V.said read.0)
        (evidence_data read.1) (C.state claim.old) (T.state second.old) (F.state capture)) }
    ensures lawful { IfOk result.1 (λ read. V.IsLawful read.0 × IsLawfulEvidence read.1) }
    ensures refused { IfErr result.1 (λ fault. IfSome (inputs_read V.kind
        (C.state claim.old).remaining (T.state second.old).remaining (F.state capture).remaining)
        (λ known. IsFromOutside fault ⊎ (known ≡ Err fault))) }
    ensures unwritten { IfErr result.1 (λ fault. IsUnwritten (Err fault)) }
{
    let claim = match read_claim_from(alloc, claim) {
        Ok(claim) => claim,
        Err(fault) => return (capture, Err(fault)),
    };
    let second = match second.read_second(alloc) {
        Ok(second) => second,
        Err(fault) => return (capture, Err(fault)),
    };
    let (capture, collected) = read_capture_from(alloc, capture, &claim, hasher);
    match collected {
        Ok(held) => (capture, Ok((second, Evidence { claim, held }))),
        Err(fault) => (capture, Err(fault)),
    }
}

/// Reads a claim and a capture, and says when the clock showed a reading. The capture's feed is
/// handed back.
///
/// The inputs are read as `run` reads them. `Memory` comes if memory is refused, and any other
/// fault from the input that it is of.
pub fn read_when<C: Feed, F: Feed, H: BuildHasher + Drop>(
    alloc: Global,
    asked: AtReading,
    claim: &mut C,
    capture: F,
    hasher: H,
) -> (F, Result<When, RunFault>)
    requires claim { IsReadable (C.state claim.old) }
    requires capture { IsReadable (F.state capture) }
    ensures has_read { (sink sink' : SinkState) → HasRead no_second
        (run_state (C.state claim.old) no_feed (F.state capture) sink)
        (run_state (C.state claim.new) no_feed (F.state result.0) sink')
        (tt {0}) (tt {0}) capture result.0 result.1 }
    ensures when { IfOk result.1 (λ when. GiveWhen (ticks_asked asked.begin asked.end) when
        (C.state claim.old) (F.state capture)) }
    ensures refused { IfErr result.1 (λ fault. IfSome (inputs_read no_second
        (C.state claim.old).remaining no_feed.remaining (F.state capture).remaining)
        (λ known. IsFromOutside fault ⊎ (known ≡ Err fault))) }
    ensures unwritten { IfErr result.1 (λ fault. IsUnwritten (Err fault)) }
{
    let (capture, inputs) = read_inputs(alloc, claim, &mut (), capture, hasher);
    moments_hold();
    match inputs {
        Ok(((), evidence)) => match when_in(alloc, asked, &evidence) {
            Ok(when) => (capture, Ok(when)),
            Err(AllocError) => (capture, Err(RunFault::Memory)),
        },
        Err(fault) => (capture, Err(fault)),
    }
}

/// Answers a question by a claim, the question's second input and a capture: the text goes to
/// `out`, in this style, and the capture's feed is handed back. A question without a second input
/// has `()` for `second`.
///
/// The claim is read first, then the second input, then the capture; what stands later isn't read
/// after a refusal. Nothing is written while more memory may be wanted. `Device` comes if a feed
/// failed, and `Write(n)` if the sink failed after exactly n bytes of the text. The hash of the
/// index of requests is keyed by two numbers of `hasher`: callers that don't trust the capture's
/// writer should pass one with a random key.
pub fn run<
    Q: Question,
    C: Feed,
    T: SecondSource<Q::Second>,
    F: Feed,
    S: Sink,
    H: BuildHasher + Drop,
>(
    alloc: Global,
    question: Q,
    style: Style,
    claim: &mut C,
    second: &mut T,
    capture: F,
    out: &mut S,
    hasher: H,
) -> (F, Result<Outcome, RunFault>)
    requires { MayRun
        (run_state (C.state claim.old) (T.state second.old) (F.state capture) (S.state out.old)) }
    ensures runs { RunsFor (asked_of (Q.asks question) Q.Second.kind style)
        (run_state (C.state claim.old) (T.state second.old) (F.state capture) (S.state out.old))
        (run_state (C.state claim.new) (T.state second.new) (F.state result.0) (S.state out.new))
        second.old second.new capture result.0 result.1 }
    ensures shows { IfOk result.1 ((Q.asks question).Shows
        (C.state claim.old) (T.state second.old) (F.state capture)) }
{
    let (capture, inputs) = read_inputs(alloc, claim, second, capture, hasher);
    bytes_tell_what_they_show();
    match inputs {
        Ok((second, evidence)) => match question.find(alloc, style, &second, &evidence) {
            Ok(found) => (
                capture,
                question.tell(alloc, style, &second, &evidence, &found, out),
            ),
            Err(fault) => (capture, publish(out, &Err(fault))),
        },
        Err(fault) => (capture, publish(out, &Err(fault))),
    }
}

/// Answers a question as `run` does, and tells what it finds twice: for a program on `draft`, and
/// if that is whole, in this style on `out`, the same finding.
///
/// Nothing is written on `out` unless `draft` has got its whole text and was finished. `Write(n)`
/// comes if `draft` failed after exactly n bytes of its text, or `out` after n bytes of the other.
pub fn run_twice<
    Q: Question,
    C: Feed,
    T: SecondSource<Q::Second>,
    F: Feed,
    D: Sink,
    S: Sink,
    H: BuildHasher + Drop,
>(
    alloc: Global,
    question: Q,
    style: Style,
    claim: &mut C,
    second: &mut T,
    capture: F,
    draft: &mut D,
    out: &mut S,
    hasher: H,
) -> (F, Result<Outcome, RunFault>)
    requires run { MayRun (run_state
        (C.state claim.old) (T.state second.old) (F.state capture) (D.state draft.old)) }
    requires out { IsWritable (S.state out.old) }
    ensures { RunsTwice (asked_of (Q.asks question) Q.Second.kind style)
        (run_state (C.state claim.old) (T.state second.old) (F.state capture) (D.state draft.old))
        (run_state (C.state claim.new) (T.state second.new) (F.state result.0) (D.state draft.new))
        second.old second.new capture result.0 (S.state out.old) (S.state out.new) result.1 }
{
    let (capture, inputs) = read_inputs(alloc, claim, second, capture, hasher);
    bytes_tell_what_they_show();
    match inputs {
        Ok((second, evidence)) => match question.find(alloc, style, &second, &evidence) {
            Ok(found) => {
                match question.tell(alloc, Style::Plain, &second, &evidence, &found, draft) {
                    Ok(_) => {
                        let told = question.tell(alloc, style, &second, &evidence, &found, out);
                        (capture, told)
                    }
                    Err(fault) => (capture, Err(fault)),
                }
            }
            Err(fault) => (capture, publish(draft, &Err(fault))),
        },
        Err(fault) => (capture, publish(draft, &Err(fault))),
    }
}

/// Answers a question as `run` does, with the text on `to.out`, and reports a fault on `to.err`.
/// Beside the capture's feed stands the conclusion.
#[tactic(auto, using(crate::proofs::Status::shown_by_status))]
pub fn answer<
    Q: Question,
    C: Feed,
    T: SecondSource<Q::Second>,
    F: Feed,
    S: Sink,
    E: Sink,
    H: BuildHasher + Drop,
>(
    alloc: Global,
    question: Q,
    style: Style,
    claim: &mut C,
    second: &mut T,
    capture: F,
    to: &mut Outputs<S, E>,
    hasher: H,
) -> (F, Conclusion)
    requires run { MayRun (run_state
        (C.state claim.old) (T.state second.old) (F.state capture) (S.state to.old.out)) }
    requires err { IsWritable (E.state to.old.err) }
    ensures answers { AnswersFor (asked_of (Q.asks question) Q.Second.kind style)
        (run_state (C.state claim.old) (T.state second.old) (F.state capture) (S.state to.old.out))
        (run_state (C.state claim.new) (T.state second.new) (F.state result.0) (S.state to.new.out))
        second.old second.new capture result.0 (E.state to.old.err) (E.state to.new.err) result.1 }
    ensures shows { ShowsAt result.1.code (Q.asks question)
        (C.state claim.old) (T.state second.old) (F.state capture) }
{
    let out = &mut to.out;
    let (capture, answer) = run(alloc, question, style, claim, second, capture, out, hasher);
    (capture, conclude(&answer, &mut to.err))
}
