//! The servers of a claim that have no sample, for a person.

ghost use Rattle.std.specs.Prelude.{◌≡◌, ◌==◌, ◌<◌, ◌≤◌, ◌++◌, IfOk, length, map};
ghost use Rattle.audit_text.specs.Common.{list_any, data_of, max_servers};
ghost use Rattle.audit_text.specs.SilentLines.{silent_line, silent_lines};

use crate::sample_line::server_of;
use claim_file::Claim;
use line_writer::{Field, Style, add_line};
use pairing::ToExchange;
use std::alloc::AllocError;

/// Whether an exchange is with the server of this number.
fn is_source<X: ToExchange>(exchanges: &[X], server: u8) -> bool
    ensures { result ≡ list_any (λ x. (X.shown x).server == server) exchanges.now }
{
    exchanges
        .iter()
        .any(|held| held.to_exchange().server == server)
}

/// Adds the line of the server with this number, if no exchange is with it.
#[tactic(auto, unfolding(crate::specs::SilentLines::silent_line))]
fn add_silent<X: ToExchange>(
    text: &mut Vec<u8>,
    claim: &Claim,
    exchanges: &[X],
    number: u8,
) -> Result<(), AllocError>
    requires { number < length claim.now.servers.items }
    ensures { IfOk result (λ _. text.new.items ≡ text.old.items
        ++ silent_line (data_of claim.now) (map X.shown exchanges.now) number) }
{
    if is_source(exchanges, number) {
        return Ok(());
    }
    let address = Field::Address(server_of(claim, number));
    add_line(text, Style::Human, &[Field::Word("no sample"), address])
}

/// Adds the line of each server of the claim that no exchange is with.
pub(crate) fn add_silents<X: ToExchange>(
    text: &mut Vec<u8>,
    claim: &Claim,
    exchanges: &[X],
) -> Result<(), AllocError>
    requires { length claim.now.servers.items ≤ max_servers }
    ensures { IfOk result (λ _. text.new.items ≡ text.old.items
        ++ silent_lines (data_of claim.now) (map X.shown exchanges.now)) }
{
    for number in 0..claim.servers.len() as u8 {
        add_silent(text, claim, exchanges, number)?;
    }
    Ok(())
}
