//! Which servers the exchanges are with, and which clock those say they follow.

ghost use Rattle.std.specs.Prelude.{◌≡◌, ℕ, ◌<◌, false, get_or, map};
ghost use Rattle.pairing.specs.Common.{list_all, bytes_eq};
ghost use Rattle.pairing.specs.Compact.{exchange_shown};
ghost use Rattle.pairing.specs.Sources.{common_reference, is_source, source_count};

use crate::compact::CompactExchange;

/// For each number of a server, whether an exchange is with it.
fn sources(exchanges: &[CompactExchange]) -> [bool; 256]
    ensures { (server : ℕ) → server < 256 →
        get_or result server false ≡ is_source (map exchange_shown exchanges.now) server }
{
    let mut seen = [false; 256];
    for held in exchanges {
        seen[usize::from(held.server())] = true;
    }
    seen
}

/// How many of the servers whose numbers are below `servers` have an exchange.
pub fn source_count(exchanges: &[CompactExchange], servers: u8) -> u8
    ensures exact { result ≡ source_count (map exchange_shown exchanges.now) servers }
{
    let seen = sources(exchanges);
    let mut count = 0;
    for server in 0..servers {
        count += u8::from(seen[usize::from(server)]);
    }
    count
}

/// Whether all these exchanges name this reference identifier.
fn have_reference(exchanges: &[CompactExchange], reference: [u8; 4]) -> bool
    ensures { result
        ≡ list_all (λ x. bytes_eq (exchange_shown x).reference reference) exchanges.now }
{
    exchanges.iter().all(|held| held.reference() == reference)
}

/// The reference identifier that all exchanges name, if there is one.
#[tactic(auto, using(crate::proofs::SourceSteps::first_reference))]
pub fn common_reference(exchanges: &[CompactExchange]) -> Option<[u8; 4]>
    ensures exact { result ≡ common_reference (map exchange_shown exchanges.now) }
{
    match exchanges {
        [] => None,
        [first, rest @ ..] => {
            let reference = first.reference();
            have_reference(rest, reference).then_some(reference)
        }
    }
}
