//! The engines of some commands: one question, asked for a program, with std's hasher of a fixed
//! key. And the engine of `check` with what its exit status says.

ghost use Rattle.std.specs.Prelude.{◌≡◌, ◌≤◌, [], Ok, IfOk, true, false};
ghost use Rattle.audit.specs.Common.{IsWritable, IsStep, no_feed, run_state};
ghost use Rattle.audit.specs.At.{HullHoldsError, at};
ghost use Rattle.audit.specs.Check.{IsNotTraced, IsTraced, check};
ghost use Rattle.audit.specs.Find.{IsFound, IsNotFound, find};
ghost use Rattle.audit.specs.Question.{asked_of, plainly};
ghost use Rattle.audit.specs.Refute.{IsContested, IsUncontested, refute};
ghost use Rattle.audit.specs.Run.{AnswersFor, MayRun, RunsAlone, RunsFor, ShowsAt};
ghost use Rattle.audit.specs.Samples.{samples};
ghost use Rattle.audit.specs.Second.{certificate_second, refutation_second};
ghost use Rattle.audit.specs.FindRefutation.{IsIrrefutable, IsRefutable, find_refutation};

use crate::engine::{Outputs, answer, run};
use crate::question::{At, Check, Find, Refute, Request};
use byte_stream::{Feed, Sink};
use envelope_text::Step;
use line_writer::Style;
use report::{Conclusion, Outcome, RunFault};
use std::alloc::Global;
use std::hash::{BuildHasher, BuildHasherDefault, FoldHasher};

/// Settles a certificate as `answer` does.
///
/// Status 0 is the theorem: in every course of events that fits the exchanges of the capture the
/// clock's error is within the bound over the claimed span. And piece by piece of the certificate,
/// in every course that fits what the piece names of these exchanges. `IsShown` says it in
/// relations alone, with no word on how the bytes are read.
pub fn answer_check<C: Feed, T: Feed, F: Feed, S: Sink, E: Sink, H: BuildHasher + Drop>(
    alloc: Global,
    style: Style,
    claim: &mut C,
    certificate: &mut T,
    capture: F,
    to: &mut Outputs<S, E>,
    hasher: H,
) -> (F, Conclusion)
    requires run { MayRun (run_state (C.state claim.old) (T.state certificate.old)
        (F.state capture) (S.state to.old.out)) }
    requires err { IsWritable (E.state to.old.err) }
    ensures answers { AnswersFor (asked_of (check []) certificate_second style)
        (run_state (C.state claim.old) (T.state certificate.old)
        (F.state capture) (S.state to.old.out))
        (run_state (C.state claim.new) (T.state certificate.new)
        (F.state result.0) (S.state to.new.out))
        certificate.old certificate.new capture result.0
        (E.state to.old.err) (E.state to.new.err) result.1 }
    ensures traceable { result.1.code ≡ 0 →
        IsTraced (C.state claim.old) (T.state certificate.old) (F.state capture) }
    ensures shows { ShowsAt result.1.code (check [])
        (C.state claim.old) (T.state certificate.old) (F.state capture) }
{
    let asked = Check { about: &[] };
    answer(alloc, asked, style, claim, certificate, capture, to, hasher)
}

/// A hasher of a fixed key.
fn fixed_hasher() -> BuildHasherDefault<FoldHasher> {
    BuildHasherDefault::<FoldHasher>::new()
}

/// Shows what each exchange of a capture says about the clock of the claim's client: a line for
/// each sample, and the counts.
pub fn run_samples<C: Feed, F: Feed, S: Sink>(
    alloc: Global,
    claim: &mut C,
    capture: F,
    out: &mut S,
) -> (F, Result<Outcome, RunFault>)
    requires { MayRun (run_state (C.state claim.old) no_feed (F.state capture) (S.state out.old)) }
    ensures { RunsAlone samples (C.state claim.old) (F.state capture) (S.state out.old)
        (C.state claim.new) (F.state result.0) (S.state out.new) capture result.0 result.1 }
{
    let (asked, style, fixed) = (Request::Samples, Style::Plain, fixed_hasher());
    run(alloc, asked, style, claim, &mut (), capture, out, fixed)
}

/// Shows what each server says about the clock of the claim's client at one moment, by its best
/// samples, and what is known about the clock's error then, if as many groups of servers may be
/// false as the claim grants. `unix_second` is a time of the clock in Unix seconds; it may lie
/// outside the claimed span.
pub fn run_at<C: Feed, F: Feed, S: Sink>(
    alloc: Global,
    claim: &mut C,
    capture: F,
    unix_second: u32,
    out: &mut S,
) -> (F, Result<Outcome, RunFault>)
    requires { MayRun (run_state (C.state claim.old) no_feed (F.state capture) (S.state out.old)) }
    ensures runs { RunsAlone (at unix_second)
        (C.state claim.old) (F.state capture) (S.state out.old)
        (C.state claim.new) (F.state result.0) (S.state out.new) capture result.0 result.1 }
    ensures in_hull { IfOk result.1 (λ outcome.
        HullHoldsError unix_second (C.state claim.old) (F.state capture)) }
{
    let asked = Request::At(At { unix_second });
    let (style, fixed) = (Style::Plain, fixed_hasher());
    run(alloc, asked, style, claim, &mut (), capture, out, fixed)
}

/// Settles whether a certificate shows that the clock of the claim's client stayed within the
/// claimed bound of UTC over the claimed span, by the exchanges of a capture. The answer is `Yes`
/// exactly if the verdict is.
pub fn run_check<C: Feed, F: Feed, T: Feed, S: Sink>(
    alloc: Global,
    claim: &mut C,
    capture: F,
    certificate: &mut T,
    out: &mut S,
) -> (F, Result<Outcome, RunFault>)
    requires { MayRun (run_state
        (C.state claim.old) (T.state certificate.old) (F.state capture) (S.state out.old)) }
    ensures runs { RunsFor (plainly (check []) certificate_second) (run_state
        (C.state claim.old) (T.state certificate.old) (F.state capture) (S.state out.old))
        (run_state
        (C.state claim.new) (T.state certificate.new) (F.state result.0) (S.state out.new))
        certificate.old certificate.new capture result.0 result.1 }
    ensures traceable { result.1 ≡ Ok Outcome.Yes →
        IsTraced (C.state claim.old) (T.state certificate.old) (F.state capture) }
    ensures not_traced { result.1 ≡ Ok Outcome.No →
        IsNotTraced (C.state claim.old) (T.state certificate.old) (F.state capture) }
{
    let (asked, style, fixed) = (Check { about: &[] }, Style::Plain, fixed_hasher());
    run(alloc, asked, style, claim, certificate, capture, out, fixed)
}

/// Settles whether a refutation stands against the claim: whether the clock of the claim's client
/// may have been off by its error, beyond the claimed bound, at its reading, which lies in the
/// claimed span, if just the servers that it names are false. The answer is `Yes` exactly if it
/// stands.
pub fn run_refute<C: Feed, F: Feed, T: Feed, S: Sink>(
    alloc: Global,
    claim: &mut C,
    capture: F,
    refutation: &mut T,
    out: &mut S,
) -> (F, Result<Outcome, RunFault>)
    requires { MayRun (run_state
        (C.state claim.old) (T.state refutation.old) (F.state capture) (S.state out.old)) }
    ensures runs { RunsFor (plainly (refute false []) refutation_second) (run_state
        (C.state claim.old) (T.state refutation.old) (F.state capture) (S.state out.old))
        (run_state
        (C.state claim.new) (T.state refutation.new) (F.state result.0) (S.state out.new))
        refutation.old refutation.new capture result.0 result.1 }
    ensures contested { result.1 ≡ Ok Outcome.Yes →
        IsContested false (C.state claim.old) (T.state refutation.old) (F.state capture) }
    ensures uncontested { result.1 ≡ Ok Outcome.No →
        IsUncontested false (C.state claim.old) (T.state refutation.old) (F.state capture) }
{
    let asked = Refute {
        drift: false,
        about: &[],
    };
    let (style, fixed) = (Style::Plain, fixed_hasher());
    run(alloc, asked, style, claim, refutation, capture, out, fixed)
}

/// Looks for a certificate of the claim in pieces of `step_s` seconds, from 1 to 86,400: the answer
/// is `Yes` with the certificate, which `check` accepts, or `No` with the first piece for which the
/// samples don't show that the error is within the bound, and the hull there.
///
/// `Pieces` comes if the span has over 100,000 pieces of that length, after every other refusal.
pub fn run_find<C: Feed, F: Feed, S: Sink>(
    alloc: Global,
    claim: &mut C,
    capture: F,
    step_s: u32,
    out: &mut S,
) -> (F, Result<Outcome, RunFault>)
    requires run { MayRun
        (run_state (C.state claim.old) no_feed (F.state capture) (S.state out.old)) }
    requires step { IsStep step_s }
    ensures runs { RunsAlone (find step_s) (C.state claim.old) (F.state capture) (S.state out.old)
        (C.state claim.new) (F.state result.0) (S.state out.new) capture result.0 result.1 }
    ensures accepted { result.1 ≡ Ok Outcome.Yes →
        IsFound step_s (C.state claim.old) (F.state capture) }
    ensures not_found { result.1 ≡ Ok Outcome.No →
        IsNotFound step_s (C.state claim.old) (F.state capture) }
{
    let step = Step { seconds: step_s };
    let asked = Request::Find(Find { step });
    let (style, fixed) = (Style::Plain, fixed_hasher());
    run(alloc, asked, style, claim, &mut (), capture, out, fixed)
}

/// Looks for a refutation of the claim: the answer is `Yes` with the refutation, which stands, or
/// `No` if none does, by any servers and with any error of 64 bits.
pub fn run_seek<C: Feed, F: Feed, S: Sink>(
    alloc: Global,
    claim: &mut C,
    capture: F,
    out: &mut S,
) -> (F, Result<Outcome, RunFault>)
    requires { MayRun (run_state (C.state claim.old) no_feed (F.state capture) (S.state out.old)) }
    ensures runs { RunsAlone find_refutation (C.state claim.old) (F.state capture) (S.state out.old)
        (C.state claim.new) (F.state result.0) (S.state out.new) capture result.0 result.1 }
    ensures stands { result.1 ≡ Ok Outcome.Yes →
        IsRefutable (C.state claim.old) (F.state capture) }
    ensures none { result.1 ≡ Ok Outcome.No →
        IsIrrefutable (C.state claim.old) (F.state capture) }
{
    let (asked, style, fixed) = (Request::FindRefutation, Style::Plain, fixed_hasher());
    run(alloc, asked, style, claim, &mut (), capture, out, fixed)
}
