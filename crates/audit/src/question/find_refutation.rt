//! What is made for `find --refutation`.

ghost use Rattle.std.specs.Prelude.{◌≡◌, IfOk, option_map};
ghost use Rattle.audit.specs.Common.{IsWritable, refutation_data, data_of};
ghost use Rattle.audit.specs.FindRefutation as spec;
ghost use Rattle.audit.specs.Evidence.{IsLawfulEvidence, evidence_data};
ghost use Rattle.audit.specs.Report.{TellsAlone};

use crate::evidence::Evidence;
use crate::laws::course_beyond_the_bound_contests_the_claim;
use crate::question::find::with_line_feed;
use crate::whole_text::publish_text;
use audit_text::{no_refutation_text, refutation_answer};
use byte_stream::Sink;
use certificate::{Refutation, write_refutation};
use checker::laws::{accepted_refutations_have_a_course, yes_and_refutation_never_meet};
use claim_file::Claim;
use finder::find_refutation;
use line_writer::Style;
use report::{Outcome, RunFault};
use std::alloc::{AllocError, Global};

/// The outcome of a search.
fn outcome_of(found: &Option<Refutation>) -> Outcome
    ensures { result ≡ spec.found_refutation_outcome (option_map refutation_data found.now) }
{
    match found {
        Some(_) => Outcome::Yes,
        None => Outcome::No,
    }
}

/// The whole text.
#[tactic(auto, unfolding(crate::specs::FindRefutation::found_refutation_text))]
fn found_refutation_text(
    alloc: Global,
    style: Style,
    claim: &Claim,
    found: &Option<Refutation>,
) -> Result<Vec<u8>, AllocError>
    ensures { IfOk result (λ text. text.items
        ≡ spec.found_refutation_text (option_map refutation_data found.now) style
        (data_of claim.now)) }
{
    match found {
        Some(refutation) => match style {
            Style::Plain => with_line_feed(write_refutation(alloc, refutation)?),
            _ => refutation_answer(alloc, "refutation found", claim, refutation),
        },
        None => no_refutation_text(alloc, style),
    }
}

/// Tells whether there is a refutation of the claim.
pub(crate) fn tell<S: Sink>(
    alloc: Global,
    style: Style,
    evidence: &Evidence,
    out: &mut S,
) -> Result<Outcome, RunFault>
    requires evidence { IsLawfulEvidence evidence.now }
    requires out { IsWritable (S.state out.old) }
    ensures { TellsAlone spec.find_refutation style (evidence_data evidence.now)
        (S.state out.old) (S.state out.new) result }
{
    course_beyond_the_bound_contests_the_claim();
    accepted_refutations_have_a_course();
    yes_and_refutation_never_meet();
    let found = find_refutation(&evidence.held.exchanges, &evidence.claim);
    let text = found_refutation_text(alloc, style, &evidence.claim, &found);
    publish_text(out, text, outcome_of(&found))
}
