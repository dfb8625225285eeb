//! What follows from the definitions, in the words of the subject. Each law is a function with no
//! parameters, whose contract ranges over all claims and all lists of records.

ghost use Rattle.std.specs.Prelude.{◌≡◌, ◌≢◌, ℕ, ◌+◌, ◌<◌, ◌≤◌, ◌↔◌, [], ◌∷◌, ◌++◌, List, Bool, true, false, Option, Some, None, Err, All, AllPairs, Contains, IsSome, length, slice_get};
ghost use Rattle.pairing.specs.Common.{Record, Packet, ClaimData};
ghost use Rattle.pairing.specs.declared.refusal.Refusal.TheVariants.{Ambiguous};
ghost use Rattle.pairing.specs.Answer.{AreGiven};
ghost use Rattle.pairing.specs.Exchange.{AreLawful, most_exchanges};
ghost use Rattle.pairing.specs.Message.{IsReplyOf, IsRequestTo, Reply, Request, reply_of, replying_server, request_of, requested_server};
ghost use Rattle.pairing.specs.Pair.{IsExchangeOf, IsPair};
ghost use Rattle.pairing.specs.Pairing.{answers, collection_of, counts_of, exchange_of, exchanges_of, outcome_of, requests_for};
ghost use Rattle.pairing.specs.Refusal.{refusal_of};

use era_unfold::laws::{every_stamp_is_unfolded, window_lies_in_its_second};
use ntp_packet::laws::{packet_header_is_bytes, root_distance_range};

/// Every reply is counted under exactly one reason, or gives one exchange.
#[tactic(auto, using(crate::proofs::Tallies::replies_counted), unfolding(crate::specs::Pairing::counts_of))]
pub fn every_reply_counts_once()
    ensures { (claim : ClaimData) (records : List Record) → let c = counts_of claim records in
        c.replies ≡ c.version + c.leap + c.stratum + c.precision + c.zero_stamp + c.no_request
        + c.ambiguous + length (exchanges_of claim records) }
{}

/// No count exceeds the records, and no record is both a request and a reply.
#[tactic(auto, using(crate::proofs::Order::messages_le), unfolding(crate::specs::Pairing::counts_of))]
pub fn counts_are_at_most_the_records()
    ensures all { (claim : ClaimData) (records : List Record) →
        (counts_of claim records).records ≡ length records }
    ensures messages { (claim : ClaimData) (records : List Record) →
        let c = counts_of claim records in
        c.requests + c.replies ≤ c.records }
    ensures warnings { (claim : ClaimData) (records : List Record) →
        (counts_of claim records).warnings ≤ length (exchanges_of claim records) }
{}

/// An exchange is that of a reply and of the one and only request that it names by server, port and
/// timestamp, and each such pair gives its exchange.
#[tactic(auto, using(crate::proofs::Pairs::exactly_the_pairs))]
pub fn exchanges_are_those_of_the_pairs()
    ensures sound { (claim : ClaimData) (records : List Record) →
        All (IsExchangeOf claim records) (exchanges_of claim records) }
    ensures complete { (claim : ClaimData) (records : List Record) (q : Request) (reply : Reply) →
        IsPair claim records q reply → Contains (exchanges_of claim records) (exchange_of q reply) }
{}

/// The exchanges of the records that a source gives keep every limit, if they aren't too many.
#[tactic(auto, using(crate::proofs::Limits::exchanges_lawful))]
pub fn exchanges_keep_their_limits()
    ensures { (claim : ClaimData) (records : List Record) → AreGiven records →
        length (exchanges_of claim records) ≤ most_exchanges →
        AreLawful (length claim.servers) (exchanges_of claim records) }
{
    window_lies_in_its_second();
    every_stamp_is_unfolded();
    packet_header_is_bytes();
    root_distance_range();
}

/// No two exchanges have one reply, if records have different numbers.
#[tactic(auto, using(crate::proofs::Pairs::exchanges_distinct))]
pub fn no_reply_gives_two_exchanges()
    ensures { (claim : ClaimData) (records : List Record) →
        AllPairs (λ a b. a.head.number ≢ b.head.number) records →
        AllPairs (λ x y. x.reply ≢ y.reply) (exchanges_of claim records) }
{}

/// It doesn't matter whether a request stands before its reply or after it: neighbours that aren't
/// both requests nor both replies may change places.
#[tactic(auto, using(crate::proofs::Order::collection_swap))]
pub fn order_of_request_and_reply_is_open()
    ensures { (claim : ClaimData) (before after : List Record) (request reply : Record) →
        reply_of claim request ≡ None → request_of claim reply ≡ None →
        collection_of claim (before ++ request ∷ reply ∷ after)
        ≡ collection_of claim (before ++ reply ∷ request ∷ after) }
{}

/// A request that repeats another makes the replies that name it ambiguous, and changes nothing for
/// the others.
#[tactic(auto, using(crate::proofs::Order::repeated))]
pub fn repeated_request_is_ambiguous()
    ensures named { (before after : List Request) (q : Request) (reply : Reply) →
        answers reply q ≡ true → 0 < length (requests_for reply (before ++ after)) →
        refusal_of reply.header ≡ None → outcome_of (before ++ q ∷ after) reply ≡ Err Ambiguous }
    ensures others { (before after : List Request) (q : Request) (reply : Reply) →
        answers reply q ≡ false →
        outcome_of (before ++ q ∷ after) reply ≡ outcome_of (before ++ after) reply }
{}

/// A packet is a request to at most one server of a claim whose servers have different addresses,
/// and `requested_server` says to which.
pub fn request_is_to_one_server()
    ensures { (claim : ClaimData) (packet : Packet) (server : ℕ) →
        AllPairs (λ a b. a ≢ b) claim.servers →
        (requested_server claim packet ≡ Some server) ↔ IsRequestTo claim server packet }
{}

/// A packet is a reply of at most one server of such a claim.
pub fn reply_is_of_one_server()
    ensures { (claim : ClaimData) (packet : Packet) (server : ℕ) →
        AllPairs (λ a b. a ≢ b) claim.servers →
        (replying_server claim packet ≡ Some server) ↔ IsReplyOf claim server packet }
{}

/// No packet is both.
#[tactic(auto, using(crate::proofs::GatheringSteps::apart))]
pub fn no_packet_is_request_and_reply()
    ensures { (claim : ClaimData) (packet : Packet) →
        IsSome (requested_server claim packet) → replying_server claim packet ≡ None }
{}
