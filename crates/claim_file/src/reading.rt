//! What the text of a claim says, and the same claim with another bound.

ghost use Rattle.std.specs.Prelude.{◌≡◌, ◌≤◌, ◌∷◌, IfOk, IsTrue, length, pos};
ghost use Rattle.claim_file.specs.Address.{are_different};
ghost use Rattle.claim_file.specs.Claim as claim_spec;
ghost use Rattle.claim_file.specs.Claim.{data_of, IsLawful, IsWithoutGap, max_bound_ns};
ghost use Rattle.claim_file.specs.Fault.{Answers};
ghost use Rattle.claim_file.specs.Fields.{fields_data};
ghost use Rattle.claim_file.specs.Reading as spec;

use crate::address::{self, read_address, read_addresses};
use crate::claim::{Claim, MAX_BOUND_NS, MAX_DRIFT_PPB, MAX_FALSE, MAX_READING_NS, MAX_SERVERS};
use crate::fault::ClaimFault;
use crate::fields::{Fields, read_fields};
use crate::group::read_groups;
use crate::time::read_time;
use era_unfold::{ns_down, ns_up};
use json_text::parse;
use std::alloc::{AllocError, Global};

/// The claim that the bytes of a JSON text say, or the first fault that it has.
///
/// Times become Unix ticks of 2^-32 s; the bound is rounded down to whole ticks, the allowance up.
pub fn read_claim(alloc: Global, bytes: &[u8]) -> Result<Claim, ClaimFault>
    ensures exact { Answers result data_of (spec.claim_of bytes.now) }
    ensures numbered { IfOk result (λ claim. IsWithoutGap claim.groups.items) }
{
    let value = parse(alloc, bytes)?.ok_or(ClaimFault::Json)?;
    let fields = read_fields(alloc, &value)?;
    claim_from(alloc, &fields)
}

/// What fields of the right kinds say.
fn claim_from(alloc: Global, fields: &Fields<'_>) -> Result<Claim, ClaimFault>
    ensures exact { Answers result data_of (spec.claim_from (fields_data fields.now)) }
{
    let named = read_named(alloc, fields)?;
    within_limits(alloc, fields, named)
}

/// The addresses and the Unix seconds that a claim's texts write.
#[derive(Drop)]
struct Named {
    client: [u8; 4],
    servers: Vec<[u8; 4]>,
    first: u32,
    last: u32,
}

/// What the texts of a claim say: addresses first, then times.
fn read_named(alloc: Global, fields: &Fields<'_>) -> Result<Named, ClaimFault>
    ensures exact { Answers result spec.named_data (spec.named_of (fields_data fields.now)) }
{
    let client = read_address(fields.client).ok_or(ClaimFault::Address)?;
    let servers = read_addresses(alloc, &fields.servers)?.ok_or(ClaimFault::Address)?;
    let first = read_time(fields.begin).ok_or(ClaimFault::Time)?;
    let last = read_time(fields.end).ok_or(ClaimFault::Time)?;
    Ok(Named {
        client,
        servers,
        first,
        last,
    })
}

/// The claim of these members, if it is within its limits.
fn within_limits(alloc: Global, fields: &Fields<'_>, named: Named) -> Result<Claim, ClaimFault>
    ensures exact { Answers result data_of
        (spec.within_limits (fields_data fields.now) (spec.named_data named)) }
{
    if !is_in_range(fields, &named) {
        return Err(ClaimFault::Range);
    }
    if !all_differ(&named) {
        return Err(ClaimFault::RepeatedServer);
    }
    let groups = read_groups(alloc, named.servers.len(), &fields.groups)?;
    Ok(claim_with(fields, named, groups))
}

/// The claim that has these members, addresses, times and groups.
fn claim_with(fields: &Fields<'_>, named: Named, groups: Vec<u8>) -> Claim
    requires { IsLawful
        (spec.claim_with (fields_data fields.now) (spec.named_data named) groups.items) }
    ensures { data_of result
        ≡ spec.claim_with (fields_data fields.now) (spec.named_data named) groups.items }
{
    let Named {
        client,
        servers,
        first,
        last,
    } = named;
    Claim {
        client,
        servers,
        groups,
        false_max: fields.false_max as u8,
        first: ticks(first),
        last: ticks(last),
        bound: ns_down(fields.bound_ns),
        bound_ns: fields.bound_ns,
        drift_ppb: fields.drift_ppb as u32,
        reading: ns_up(fields.reading_ns),
        reading_ns: fields.reading_ns,
    }
}

/// The same claim with a bound of this many nanoseconds, at most 10^15.
///
/// The only error is that memory has run out.
pub fn with_bound(alloc: Global, claim: &Claim, bound_ns: u64) -> Result<Claim, AllocError>
    requires in_range { bound_ns ≤ max_bound_ns }
    ensures { IfOk result (λ other. data_of other ≡ claim_spec.with_bound (data_of claim.now) bound_ns) }
{
    Ok(Claim {
        client: claim.client,
        servers: Vec::from_slice(alloc, claim.servers.as_slice())?,
        groups: Vec::from_slice(alloc, claim.groups.as_slice())?,
        false_max: claim.false_max,
        first: claim.first,
        last: claim.last,
        bound: ns_down(bound_ns),
        bound_ns,
        drift_ppb: claim.drift_ppb,
        reading: claim.reading,
        reading_ns: claim.reading_ns,
    })
}

/// Whether the numbers are within their limits, and the span isn't backward.
fn is_in_range(fields: &Fields<'_>, named: &Named) -> bool
    ensures exact { result ≡ spec.is_in_range (fields_data fields.now) (spec.named_data named.now) }
    ensures few { IsTrue result → length named.now.servers.items ≤ 32 }
{
    let count = named.servers.len();
    1 <= count
        && count <= MAX_SERVERS
        && fields.false_max <= MAX_FALSE
        && named.first <= named.last
        && fields.bound_ns <= MAX_BOUND_NS
        && fields.drift_ppb <= MAX_DRIFT_PPB
        && fields.reading_ns <= MAX_READING_NS
}

/// Whether the addresses of the client and the servers differ from each other.
fn all_differ(named: &Named) -> bool
    ensures { result ≡ are_different (named.now.client ∷ named.now.servers.items) }
{
    !named.servers.contains(&named.client) && address::are_different(&named.servers)
}

/// A second, counted from 1970, in ticks.
fn ticks(second: u32) -> i128
    ensures { result ≡ pos (spec.second_ticks second) }
{
    (second as i128) << 32
}
