//! What follows from the promise of every engine, in the words of the subject. Each law is a
//! function with no parameters, whose contract ranges over all runs.

ghost use Rattle.std.specs.Prelude.{◌≢◌, ℕ, Result, Some, Err};
ghost use Rattle.std.specs.Io.KnownBytes.{Keeps};
ghost use Rattle.report.specs.declared.fault.Outcome.{Outcome};
ghost use Rattle.report.specs.declared.fault.RunFault.{RunFault};
ghost use Rattle.report.specs.declared.fault.RunFault.TheVariants.{Write};
ghost use Rattle.report.specs.Reports.{Reports, refused};
ghost use Rattle.report.specs.Run.{RunState};

/// If an input is refused before any line, nothing is written, and no fault of the sink is
/// answered: not even if `finish` fails.
#[tactic(auto, using(crate::proofs::LinelessRefusal::writes_nothing))]
pub fn refusal_stays()
    ensures unwritten { (fault : RunFault) (before after : RunState)
        (answer : Result Outcome RunFault) → Reports (Some (refused fault)) before after answer →
        Keeps before.sink.contents after.sink.contents }
    ensures answered { (fault : RunFault) (before after : RunState)
        (answer : Result Outcome RunFault) → Reports (Some (refused fault)) before after answer →
        (sent : ℕ) → answer ≢ Err (Write sent) }
{}
