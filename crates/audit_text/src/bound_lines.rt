//! What is said of bounds, for a person.

ghost use Rattle.std.specs.Prelude.{◌≡◌, ◌++◌, IfOk};
ghost use Rattle.audit_text.specs.BoundLines.{carried_line, claimed_line, wider_line};

use line_writer::{Field, Style, add_line};
use std::alloc::AllocError;

/// Adds the line of the bound that is claimed, in nanoseconds.
#[tactic(auto, unfolding(crate::specs::BoundLines::claimed_line))]
pub(crate) fn add_claimed(text: &mut Vec<u8>, bound_ns: u64) -> Result<(), AllocError>
    ensures { IfOk result (λ _. text.new.items ≡ text.old.items ++ claimed_line bound_ns) }
{
    let bound = Field::Nanoseconds(u128::from(bound_ns));
    add_line(text, Style::Human, &[Field::Word("bound"), bound])
}

/// Adds the line of the least bound that a certificate carries, in nanoseconds, or that none
/// carries any.
#[tactic(auto, unfolding(crate::specs::BoundLines::carried_line))]
pub(crate) fn add_carried(text: &mut Vec<u8>, least_ns: Option<u64>) -> Result<(), AllocError>
    ensures { IfOk result (λ _. text.new.items ≡ text.old.items ++ carried_line least_ns) }
{
    match least_ns {
        Some(least_ns) => {
            let least = Field::Nanoseconds(u128::from(least_ns));
            add_line(text, Style::Human, &[Field::Word("least"), least])
        }
        None => add_line(text, Style::Human, &[Field::Word("least none")]),
    }
}

/// Adds the line of how much wider that is than the bound that is claimed.
#[tactic(auto, unfolding(crate::specs::BoundLines::wider_line))]
pub(crate) fn add_wider(
    text: &mut Vec<u8>,
    bound_ns: u64,
    least_ns: Option<u64>,
) -> Result<(), AllocError>
    ensures { IfOk result (λ _. text.new.items ≡ text.old.items ++ wider_line bound_ns least_ns) }
{
    if let Some(least_ns) = least_ns {
        let excess = Field::Nanoseconds(u128::from(least_ns.saturating_sub(bound_ns)));
        return add_line(text, Style::Human, &[Field::Word("wider by"), excess]);
    }
    Ok(())
}
