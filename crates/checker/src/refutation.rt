//! Whether a refutation stands.

ghost use Rattle.std.specs.Prelude.{◌≡◌, ◌≤◌, ◌&&◌, ◌+ℤ◌, ◌-ℤ◌, ◌↔◌, IsTrue, nat_lt, length, map, All};
ghost use Rattle.checker.specs.Common.{list_all, refutation_data, data_of as claim_data, IsLawful as IsLawfulExchange, IsOfSomeClaim, request_start, reply_end};
ghost use Rattle.checker.specs.Groups.{holds_false, false_group_count};
ghost use Rattle.checker.specs.Refutation.{IsAgainst, is_liar};
ghost use Rattle.checker.specs.RefutationTest as spec;
ghost use Rattle.checker.specs.Settlement.{Settles};

use crate::refutation_laws::{accepted_refutations_have_a_course, yes_and_refutation_never_meet};
use certificate::Refutation;
use claim_file::Claim;
use pairing::{Exchange, ToExchange};

/// Whether the exchanges and the refutation refute the claim. It takes no memory.
///
/// It is true exactly if these hold: the refutation's error is beyond the bound to one side or
/// the other; its reading lies in the span; the servers that it names as false are different
/// numbers of listed servers, of at most `false_max` groups; and each exchange of another server
/// leaves room for the error, so that its four moments (RFC 5905, section 8) can come one after
/// another with the clock off by that much at the request and the reply. If it is true, a course of
/// events fits in which the error is beyond the bound in the span, and no certificate gets a yes.
pub fn check_refutation<X: ToExchange>(
    exchanges: &[X],
    claim: &Claim,
    refutation: &Refutation,
) -> bool
    requires exchanges { All (IsLawfulExchange (length claim.now.servers.items))
        (map X.shown exchanges.now) }
    ensures { Settles (claim_data claim.now) (map X.shown exchanges.now)
        (refutation_data refutation.now) result }
{
    accepted_refutations_have_a_course();
    yes_and_refutation_never_meet();
    is_refuted(exchanges, claim, refutation)
}

/// The same as a test.
fn is_refuted<X: ToExchange>(exchanges: &[X], claim: &Claim, refutation: &Refutation) -> bool
    requires exchanges { All (IsLawfulExchange (length claim.now.servers.items))
        (map X.shown exchanges.now) }
    ensures { result ≡ spec.is_refuted
        (claim_data claim.now) (map X.shown exchanges.now) (refutation_data refutation.now) }
{
    speaks_against(claim, refutation) && all_admit(exchanges, claim, refutation)
}

/// Whether what a refutation says by itself is against the claim: its error is beyond the bound to
/// one side or the other, its reading lies in the span, and the servers that it names as false are
/// different numbers of listed servers, of at most `false_max` groups. It takes no memory.
pub fn is_against(claim: &Claim, refutation: &Refutation) -> bool
    ensures exact { IsTrue result
        ↔ IsAgainst (claim_data claim.now) (refutation_data refutation.now) }
    ensures tested { result
        ≡ spec.is_against (claim_data claim.now) (refutation_data refutation.now) }
{
    speaks_against(claim, refutation)
}

/// The same as a test.
fn speaks_against(claim: &Claim, refutation: &Refutation) -> bool
    requires { length claim.now.groups.items ≤ 32 }
    ensures { result ≡ spec.is_against (claim_data claim.now) (refutation_data refutation.now) }
{
    is_outside(claim, refutation) && may_be_false(claim, refutation.liars.as_slice())
}

/// Whether the error is beyond the bound, and the reading in the span.
fn is_outside(claim: &Claim, refutation: &Refutation) -> bool
    ensures { result ≡ spec.is_outside (claim_data claim.now) (refutation_data refutation.now) }
{
    let reading = i128::from(refutation.reading);
    all_hold(
        i128::from(refutation.error.unsigned_abs()) > claim.bound,
        claim.first <= reading,
        reading <= claim.last,
    )
}

/// Whether three tests pass.
fn all_hold(first: bool, second: bool, third: bool) -> bool
    ensures { result ≡ (first && second && third) }
{
    first && second && third
}

/// Whether these servers are listed, each is named once, and all of them may be false.
fn may_be_false(claim: &Claim, liars: &[u8]) -> bool
    requires { length claim.now.groups.items ≤ 32 }
    ensures { result ≡ spec.may_be_false (claim_data claim.now) liars.now }
{
    all_hold(
        are_listed(liars, claim.servers.len()),
        are_different(liars),
        false_group_count(claim.groups.as_slice(), liars) <= usize::from(claim.false_max),
    )
}

/// Whether each of these numbers is below the count of servers.
fn are_listed(liars: &[u8], count: usize) -> bool
    ensures { result ≡ list_all (λ liar. nat_lt liar count) liars.now }
{
    liars.iter().all(|liar| usize::from(*liar) < count)
}

/// Whether no number stands twice.
fn are_different(liars: &[u8]) -> bool
    ensures { result ≡ spec.are_different liars.now }
{
    match liars {
        [] => true,
        [liar, rest @ ..] => !rest.contains(liar) && are_different(rest),
    }
}

/// How many groups hold one of these servers.
///
/// `groups` has the number of each server's group, from 0, for at most 32 servers.
pub fn false_group_count(groups: &[u8], liars: &[u8]) -> usize
    requires { length groups.now ≤ 32 }
    ensures exact { result ≡ false_group_count groups.now (is_liar liars.now) }
{
    let mut count = 0;
    for group in 0..groups.len() {
        if holds_liar(groups, liars, group) {
            count += 1;
        }
    }
    count
}

/// Whether a group holds one of these servers.
fn holds_liar(groups: &[u8], liars: &[u8], group: usize) -> bool
    requires { length groups.now ≤ 32 }
    ensures { result ≡ holds_false groups.now (is_liar liars.now) group }
{
    for server in 0..groups.len() {
        if usize::from(groups[server]) == group && liars.contains(&(server as u8)) {
            return true;
        }
    }
    false
}

/// Whether each exchange of a server that isn't named leaves room for the error.
fn all_admit<X: ToExchange>(exchanges: &[X], claim: &Claim, refutation: &Refutation) -> bool
    requires exchanges { All (IsLawfulExchange (length claim.now.servers.items))
        (map X.shown exchanges.now) }
    ensures { result ≡ list_all
        (spec.allows claim.now.reading (refutation_data refutation.now))
        (map X.shown exchanges.now) }
{
    for exchange in exchanges {
        if !allows(&exchange.to_exchange(), claim, refutation) {
            return false;
        }
    }
    true
}

/// Whether an exchange is of a server that is named, or leaves room for the error.
fn allows(exchange: &Exchange, claim: &Claim, refutation: &Refutation) -> bool
    requires exchange { IsLawfulExchange (length claim.now.servers.items) exchange.now }
    ensures { result ≡ spec.allows claim.now.reading (refutation_data refutation.now)
        exchange.now }
{
    refutation.liars.contains(&exchange.server) || admits(exchange, claim, refutation)
}

/// Whether an exchange leaves room for the error.
fn admits(exchange: &Exchange, claim: &Claim, refutation: &Refutation) -> bool
    requires exchange { IsLawfulExchange (length claim.now.servers.items) exchange.now }
    ensures { result ≡ spec.admits claim.now.reading refutation.now.error exchange.now }
{
    let client = client_times(exchange, claim, refutation);
    let receipt = receipt_times(exchange);
    let answer = answer_times(exchange);
    leaves_in_time(client, receipt, answer) && answers_in_time(client, receipt, answer)
}

/// A first and a last true time, in ticks.
#[derive(Clone, Copy)]
struct Times {
    low: i128,
    high: i128,
}

/// Whether the request can leave before the server receives, the server answers and the reply
/// arrives.
fn leaves_in_time(client: Times, receipt: Times, answer: Times) -> bool
    ensures { result ≡ spec.leaves_in_time client.low receipt.high answer.high client.high }
{
    client.low <= receipt.high && client.low <= answer.high && client.low <= client.high
}

/// Whether the server can receive before it answers, and do both before the reply arrives.
fn answers_in_time(client: Times, receipt: Times, answer: Times) -> bool
    ensures { result ≡ spec.answers_in_time receipt.low answer.low answer.high client.high }
{
    receipt.low <= answer.high && receipt.low <= client.high && answer.low <= client.high
}

/// The first time at which the request can have left and the last at which the reply can have
/// arrived, if the client's clock is off by the error.
fn client_times(exchange: &Exchange, claim: &Claim, refutation: &Refutation) -> Times
    requires exchange { IsLawfulExchange (length claim.now.servers.items) exchange.now }
    ensures low { result.low ≡
        request_start exchange.now claim.now.reading -ℤ refutation.now.error }
    ensures high { result.high ≡ reply_end exchange.now claim.now.reading -ℤ refutation.now.error }
{
    let error = i128::from(refutation.error);
    Times {
        low: exchange.t1_low - claim.reading - error,
        high: exchange.t4_high + claim.reading - error,
    }
}

/// The times at which the server can have received the request.
fn receipt_times(exchange: &Exchange) -> Times
    requires { IsOfSomeClaim exchange.now }
    ensures low { result.low ≡ exchange.now.t2 -ℤ exchange.now.distance }
    ensures high { result.high ≡ exchange.now.t2 +ℤ exchange.now.distance }
{
    Times {
        low: exchange.t2 - exchange.distance,
        high: exchange.t2 + exchange.distance,
    }
}

/// The times at which it can have sent the reply.
fn answer_times(exchange: &Exchange) -> Times
    requires { IsOfSomeClaim exchange.now }
    ensures low { result.low ≡ exchange.now.t3 -ℤ exchange.now.distance }
    ensures high { result.high ≡ exchange.now.t3 +ℤ exchange.now.distance }
{
    Times {
        low: exchange.t3 - exchange.distance,
        high: exchange.t3 + exchange.distance,
    }
}
