//! What is made for `order`.

ghost use Rattle.std.specs.Prelude.{◌≡◌, IfOk};
ghost use Rattle.audit.specs.Common.{IsShort, IsWritable};
ghost use Rattle.audit.specs.Evidence.{IsLawfulEvidence, evidence_data};
ghost use Rattle.audit.specs.Order as spec;
ghost use Rattle.audit.specs.Reading.{ticks_asked};
ghost use Rattle.audit.specs.Report.{TellsAlone};

use crate::evidence::Evidence;
use crate::question::reading::{AtReading, last_of};
use crate::sample_list::samples_of;
use crate::whole_text::publish_text;
use byte_stream::Sink;
use line_writer::Style;
use report::{Outcome, RunFault, publish};
use std::alloc::{AllocError, Global};
use true_time::laws::{moments_hold, orders_are_so, readings_tell_the_order};
use true_time::{Order, When, order_of, order_of_one, order_text, when_at};

/// Which was first, a reading of another clock or one of this clock?
#[derive(Clone, Copy, Debug)]
pub struct OrderAfter {
    /// When the other clock showed its reading, which is named first.
    pub first: When,
    /// The reading of this clock.
    pub second: AtReading,
}

/// Which of two readings of this clock was first? Their ticks are those of readings as they are
/// written.
#[derive(Clone, Copy, Debug)]
pub struct OrderWithin {
    /// The one that is named first.
    pub first: AtReading,
    /// The other.
    pub second: AtReading,
}

/// When the clock showed a reading.
pub(crate) fn when_in(
    alloc: Global,
    asked: AtReading,
    evidence: &Evidence,
) -> Result<When, AllocError>
    requires { IsLawfulEvidence evidence.now }
    ensures { IfOk result (λ when. when ≡
        spec.when_in (ticks_asked asked.begin asked.end) (evidence_data evidence.now)) }
{
    let end = last_of(asked);
    when_at(
        alloc,
        samples_of(evidence),
        &evidence.claim,
        asked.begin,
        end,
    )
}

/// When the clock showed each of two readings.
fn whens_in(
    alloc: Global,
    asked: OrderWithin,
    evidence: &Evidence,
) -> Result<(When, When), AllocError>
    requires { IsLawfulEvidence evidence.now }
    ensures first { IfOk result (λ both. both.0 ≡
        spec.when_in (ticks_asked asked.first.begin asked.first.end)
        (evidence_data evidence.now)) }
    ensures second { IfOk result (λ both. both.1 ≡
        spec.when_in (ticks_asked asked.second.begin asked.second.end)
        (evidence_data evidence.now)) }
{
    let first = when_in(alloc, asked.first, evidence)?;
    let second = when_in(alloc, asked.second, evidence)?;
    Ok((first, second))
}

/// The order of two readings of the clock, which were then.
fn order_in(asked: OrderWithin, first: When, second: When, evidence: &Evidence) -> Order
    requires evidence { IsLawfulEvidence evidence.now }
    requires first { first ≡
        spec.when_in (ticks_asked asked.first.begin asked.first.end) (evidence_data evidence.now) }
    requires second { second ≡
        spec.when_in (ticks_asked asked.second.begin asked.second.end)
        (evidence_data evidence.now) }
    ensures exact { result ≡
        spec.order_in (ticks_asked asked.first.begin asked.first.end)
        (ticks_asked asked.second.begin asked.second.end) (evidence_data evidence.now) }
    ensures short { IsShort result }
{
    let (begin, end) = (asked.first.begin, last_of(asked.first));
    let other = (asked.second.begin, last_of(asked.second));
    let order = order_of(first, second);
    order_of_one(evidence.claim.drift_ppb, (begin, end), other, order)
}

/// The outcome for an order.
fn outcome_of(order: Order) -> Outcome
    ensures { result ≡ spec.order_outcome order }
{
    match order {
        Order::FirstBefore(_) | Order::SecondBefore(_) => Outcome::Yes,
        Order::Open { .. } | Order::Unknown | Order::Never => Outcome::No,
    }
}

/// Tells which was first, a reading of another clock or one of this clock.
#[tactic(auto, using(crate::proofs::Showing::told_fault))]
pub(crate) fn tell_after<S: Sink>(
    alloc: Global,
    asked: OrderAfter,
    style: Style,
    evidence: &Evidence,
    out: &mut S,
) -> Result<Outcome, RunFault>
    requires evidence { IsLawfulEvidence evidence.now }
    requires out { IsWritable (S.state out.old) }
    ensures { TellsAlone (spec.order_after asked.first asked.second.begin asked.second.end) style
        (evidence_data evidence.now) (S.state out.old) (S.state out.new) result }
{
    moments_hold();
    orders_are_so();
    match when_in(alloc, asked.second, evidence) {
        Ok(second) => {
            let order = order_of(asked.first, second);
            let text = order_text(alloc, style, asked.first, second, order);
            publish_text(out, text, outcome_of(order))
        }
        Err(AllocError) => publish(out, &Err(RunFault::Memory)),
    }
}

/// Tells which of two readings of this clock was first.
#[tactic(auto, using(crate::proofs::Showing::told_fault))]
pub(crate) fn tell_within<S: Sink>(
    alloc: Global,
    asked: OrderWithin,
    style: Style,
    evidence: &Evidence,
    out: &mut S,
) -> Result<Outcome, RunFault>
    requires evidence { IsLawfulEvidence evidence.now }
    requires out { IsWritable (S.state out.old) }
    ensures { TellsAlone (spec.order_within
        (ticks_asked asked.first.begin asked.first.end)
        (ticks_asked asked.second.begin asked.second.end)) style
        (evidence_data evidence.now) (S.state out.old) (S.state out.new) result }
{
    readings_tell_the_order();
    match whens_in(alloc, asked, evidence) {
        Ok((first, second)) => {
            let order = order_in(asked, first, second, evidence);
            let text = order_text(alloc, style, first, second, order);
            publish_text(out, text, outcome_of(order))
        }
        Err(AllocError) => publish(out, &Err(RunFault::Memory)),
    }
}
