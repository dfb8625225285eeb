//! What a refutation says, for a person.

ghost use Rattle.std.specs.Prelude.{◌≡◌, ◌++◌, IfOk, flat_map};
ghost use Rattle.audit_text.specs.Common.{refutation_data, data_of};
ghost use Rattle.audit_text.specs.RefutationLines.{error_line, excess_line, liar_line, liar_lines, refutation_lines};

use crate::bound_lines::add_claimed;
use crate::excess::{error_field, size_of};
use certificate::Refutation;
use claim_file::Claim;
use line_writer::{Field, Style, add_line};
use std::alloc::AllocError;

/// Adds the line of the error and of the time that the clock showed.
#[tactic(auto, unfolding(crate::specs::RefutationLines::error_line))]
fn add_error(text: &mut Vec<u8>, refutation: &Refutation) -> Result<(), AllocError>
    ensures { IfOk result (λ _. text.new.items ≡
        text.old.items ++ error_line (refutation_data refutation.now)) }
{
    let fields = [
        Field::Word("error"),
        error_field(refutation.error),
        Field::Word("ms at"),
        Field::TimeBelow(i128::from(refutation.reading)),
    ];
    add_line(text, Style::Human, &fields)
}

/// Adds the line of how far an error is beyond a bound in nanoseconds, or that it isn't.
#[tactic(auto, unfolding(crate::specs::RefutationLines::excess_line))]
fn add_excess(text: &mut Vec<u8>, bound_ns: u64, error: i64) -> Result<(), AllocError>
    ensures { IfOk result (λ _. text.new.items ≡ text.old.items ++ excess_line bound_ns error) }
{
    let size = size_of(error);
    let bound = u128::from(bound_ns);
    if bound < size {
        let by = Field::Word("beyond the bound by");
        add_line(text, Style::Human, &[by, Field::Nanoseconds(size - bound)])
    } else {
        add_line(text, Style::Human, &[Field::Word("not beyond the bound")])
    }
}

/// Adds the line of a server that is taken for false, by its address, or by its number if the claim
/// has no such server.
#[tactic(auto, unfolding(crate::specs::RefutationLines::wrong_line))]
fn add_liar(text: &mut Vec<u8>, claim: &Claim, number: u8) -> Result<(), AllocError>
    ensures { IfOk result (λ _. text.new.items ≡
        text.old.items ++ liar_line (data_of claim.now) number) }
{
    match claim.servers.get(usize::from(number)) {
        Some(address) => {
            let fields = [Field::Word("if wrong"), Field::Address(*address)];
            add_line(text, Style::Human, &fields)
        }
        None => {
            let server = Field::Named("if wrong server", u64::from(number));
            let fields = [server, Field::Word("not in the claim")];
            add_line(text, Style::Human, &fields)
        }
    }
}

/// Adds the line of each of these servers.
fn add_each(text: &mut Vec<u8>, claim: &Claim, liars: &[u8]) -> Result<(), AllocError>
    ensures { IfOk result (λ _. text.new.items ≡
        text.old.items ++ flat_map (liar_line (data_of claim.now)) liars.now) }
{
    for liar in liars {
        add_liar(text, claim, *liar)?;
    }
    Ok(())
}

/// Adds the line of each server that is taken for false, or that there is none.
#[tactic(auto, unfolding(crate::specs::RefutationLines::liar_lines))]
fn add_liars(text: &mut Vec<u8>, claim: &Claim, liars: &[u8]) -> Result<(), AllocError>
    ensures { IfOk result (λ _. text.new.items ≡
        text.old.items ++ liar_lines (data_of claim.now) liars.now) }
{
    match liars {
        [] => add_line(text, Style::Human, &[Field::Word("if wrong none")]),
        _ => add_each(text, claim, liars),
    }
}

/// Adds what a refutation says: its error and when, how that stands to the claim's bound, and which
/// servers it takes for false.
#[tactic(auto, unfolding(crate::specs::RefutationLines::refutation_lines))]
pub(crate) fn add_refutation(
    text: &mut Vec<u8>,
    claim: &Claim,
    refutation: &Refutation,
) -> Result<(), AllocError>
    ensures { IfOk result (λ _. text.new.items ≡ text.old.items
        ++ refutation_lines (data_of claim.now) (refutation_data refutation.now)) }
{
    add_error(text, refutation)?;
    add_claimed(text, claim.bound_ns)?;
    add_excess(text, claim.bound_ns, refutation.error)?;
    add_liars(text, claim, refutation.liars.as_slice())
}
