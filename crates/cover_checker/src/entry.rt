//! The entries of a piece.

ghost use Rattle.std.specs.Prelude.{◌≡◌, ◌==◌, [], length, map, slice_get, All, Ok, Err, MatchResult};
ghost use Rattle.std.specs.List.{list_any};
ghost use Rattle.cover_checker.specs.Common.{IsLawful, IsPiece, claim_data, has};
ghost use Rattle.cover_checker.specs.Entry.{part_from, parts_after};

use crate::exchange::exchange_named;
use crate::interval::part_of;
use crate::members::has;
use crate::verdict::PieceWhy;
use arrayvec::ArrayVec;
use checker::Why;
use claim_file::Claim;
use pairing::ToExchange;
use span_cover::{Part, Stretch};

/// Puts what the entries of a piece say into `parts`, in their order, or answers the first reason
/// to refuse one.
pub(crate) fn add_parts<X: ToExchange>(
    parts: &mut ArrayVec<Part, 32>,
    exchanges: &[X],
    claim: &Claim,
    out: u32,
    stretch: Stretch,
    entries: &ArrayVec<(u32, u32), 32>,
) -> Result<(), PieceWhy>
    requires empty { parts.old.items ≡ [] }
    requires exchanges { All (IsLawful (length claim.now.servers.items))
        (map X.shown exchanges.now) }
    requires stretch { IsPiece stretch.begin stretch.end }
    ensures { MatchResult result
        (λ _. parts_after (claim_data claim.now) (map X.shown exchanges.now) (has out) stretch []
        entries.now.items ≡ Ok parts.new.items)
        (λ why. parts_after (claim_data claim.now) (map X.shown exchanges.now) (has out) stretch []
        entries.now.items ≡ Err why) }
{
    for entry in entries.as_slice() {
        let part = part(exchanges, claim, out, stretch, *entry, parts.as_slice())?;
        parts.push(part);
    }
    Ok(())
}

/// What one entry says, after others of its piece.
fn part<X: ToExchange>(
    exchanges: &[X],
    claim: &Claim,
    out: u32,
    stretch: Stretch,
    entry: (u32, u32),
    earlier: &[Part],
) -> Result<Part, PieceWhy>
    requires exchanges { All (IsLawful (length claim.now.servers.items))
        (map X.shown exchanges.now) }
    requires stretch { IsPiece stretch.begin stretch.end }
    ensures { result ≡ part_from (claim_data claim.now) (has out) stretch earlier.now
        (slice_get (map X.shown exchanges.now) entry.0)
        (slice_get (map X.shown exchanges.now) entry.1) }
{
    let Some(low) = exchange_named(exchanges, entry.0) else {
        return Err(PieceWhy::Of(Why::BadSample));
    };
    let Some(high) = exchange_named(exchanges, entry.1) else {
        return Err(PieceWhy::Of(Why::BadSample));
    };
    let server = low.server;
    if server != high.server {
        return Err(PieceWhy::Of(Why::MixedServers));
    }
    if names_server(earlier, server) {
        return Err(PieceWhy::Of(Why::RepeatedServer));
    }
    if has(out, claim.groups[server as usize]) {
        return Err(PieceWhy::LeftOut);
    }
    Ok(part_of(claim, stretch, &low, &high))
}

/// Whether one of the parts is of this server.
fn names_server(parts: &[Part], server: u8) -> bool
    ensures { result ≡ list_any (λ part. part.server == server) parts.now }
{
    parts.iter().any(|part| part.server == server)
}
