//! The sample of an exchange.

ghost use Rattle.std.specs.Prelude.{◌≡◌, ◌≤◌, ◌^◌, ℤ, pos, ◌+ℤ◌, ◌-ℤ◌, ◌≤ℤ◌, unsigned_abs};
ghost use Rattle.sample_interval.specs.Exchange.{IsOfSomeClaim};
ghost use Rattle.sample_interval.specs.Sample.{sample_of, IsLawfulSample};

use crate::kinds::Sample;
use crate::window::{reply_window, request_window};
use pairing::Exchange;

/// What the exchange says about the client's error if its server isn't false: the least error at
/// the request and the greatest at the reply, each with the window of the clock's reading there
/// (RFC 5905, section 8).
///
/// `reading` is how far a record time may be from the clock's reading: from 0 to 2^32 ticks.
#[tactic(auto, using(crate::proofs::NoOverflow::distances_fit))]
pub fn sample(x: &Exchange, reading: i128) -> Sample
    requires exchange { IsOfSomeClaim x.now }
    requires from_zero { pos 0 ≤ℤ reading }
    requires at_most_a_second { reading ≤ℤ pos (2 ^ 32) }
    ensures exact { result ≡ sample_of x.now reading }
    ensures lawful { IsLawfulSample result }
{
    let request = request_window(x, reading);
    let reply = reply_window(x, reading);
    Sample {
        server: x.server,
        low: request.start - x.t2 - x.distance,
        low_from: request.start,
        low_to: request.end,
        high: reply.end - x.t3 + x.distance,
        high_from: reply.start,
        high_to: reply.end,
    }
}
