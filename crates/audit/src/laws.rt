//! What holds of the definitions that the contracts cite: what is read of bytes is what they spell,
//! and so what a yes shows of them. A law is a function that does nothing: its contract is the law,
//! for all bytes.

ghost use Rattle.std.specs.Prelude.{◌≡◌, ℕ, ◌↔◌, ◌≢◌, ◌⊎◌, List, map, None, Some, Ok, AllPairs, slice_get};
ghost use Rattle.audit.specs.Common.{IsBytes, Unit as TimeUnit, ClaimData, claim_of, Packet, ntp_port, packet_of, exchanges_of, refusal_of, Exchange, Endian, Format, Record, IsCapture};
ghost use Rattle.audit.specs.Headline.{ShowsHeadline};
ghost use Rattle.audit.specs.HeadlineByCovers.{ShowsHeadlineByCovers};
ghost use Rattle.audit.specs.Contested.{BytesLaws, CourseContests, GivesNanoseconds, NeverBoth, NeverBothByCovers, ReadingLaw, RefutationContests};
ghost use Rattle.audit.specs.Claimed.{IsClaimText};
ghost use Rattle.audit.specs.Exchanged.{FrameLaws, HoldsPacket, IsUsable, IsExchangeIn, IsAmong};
ghost use Rattle.audit.specs.Captured.{CapturedFrame, IsCaptureOf, frame_of};

use checker::laws::{
    accepted_refutations_have_a_course, bounds_hold_in_nanoseconds, capture_fits_each_piece,
    pieces_hold_every_reading, test_is_passed_where_refuted, verdicts_are_traceable,
    yes_is_acceptance,
};
use claim_file::laws::{
    addresses_are_dotted, claims_are_lawful, nanoseconds_become_ticks, servers_are_in_their_groups,
    times_are_spelled,
};
use cover_checker::laws::{
    accepted_covers_bound_the_span, capture_fits_what_is_named, covers_are_traceable,
};
use era_unfold::laws::{
    every_stamp_is_unfolded, ratios_are_rounded_as_little_as_can_be, unfolded_is_one_number,
};
use frame_reader::laws::given_where_held;
use pairing::laws::{
    exchanges_are_those_of_the_pairs, exchanges_keep_their_limits, reply_is_of_one_server,
    request_is_to_one_server,
};
use pcap_reader::laws::{one_reading, what_is_read_is_a_capture};
use sample_interval::laws::widening_is_one_number;

/// What is within the bound in ticks of a claim that was read, is within its bound in nanoseconds.
#[tactic(auto, using(crate::proofs::Headline::claim_of_read))]
pub fn bounds_of_bytes_hold_in_nanoseconds()
    ensures { GivesNanoseconds }
{
    nanoseconds_become_ticks();
    bounds_hold_in_nanoseconds();
}

/// A frame gives an NTP packet exactly if it holds it, its layers joined from Ethernet to NTP.
pub fn packet_is_given_where_held()
    ensures { (frame : List ℕ) (p : Packet) → IsBytes frame →
        (packet_of frame ≡ Some p) ↔ HoldsPacket frame p }
{
    given_where_held();
}

/// A reply's own header refuses it exactly if it isn't usable.
#[tactic(auto, using(crate::proofs::PacketParts::usable))]
pub fn usable_replies_are_not_refused()
    ensures { (header : List ℕ) → (refusal_of header ≡ None) ↔ IsUsable header }
{}

/// A capture of records is one of the frames that these say.
#[tactic(auto, using(crate::proofs::RecordFrames::captured))]
pub fn records_are_frames()
    ensures { (bytes : List ℕ) (format : Format) (records : List Record) →
        IsCapture bytes format records →
        IsCaptureOf bytes format.order format.unit (map frame_of records) }
{}

/// A capture of frames is one of records that say these, in the same byte order and unit.
#[tactic(auto, using(crate::proofs::Frames::of_records))]
pub fn frames_are_records()
    ensures { (bytes : List ℕ) (order : Endian) (unit : TimeUnit) (frames : List CapturedFrame) →
        IsCaptureOf bytes order unit frames →
        (records : List Record) × IsCapture bytes (record { order = order; unit = unit }) records
        × (map frame_of records ≡ frames) }
{}

/// Bytes are a capture in one byte order, in one unit and of one list of frames at most.
pub fn captures_say_one_list_of_frames()
    ensures { (bytes : List ℕ) (order other_order : Endian) (unit other_unit : TimeUnit)
        (frames others : List CapturedFrame) →
        IsCaptureOf bytes order unit frames → IsCaptureOf bytes other_order other_unit others →
        (order ≡ other_order) × (unit ≡ other_unit) × (frames ≡ others) }
{
    frames_are_records();
    one_reading();
}

/// What the layers below say of a frame, of its time and of the request or reply in it.
fn layers_say_what_frames_hold()
    ensures { FrameLaws }
{
    packet_is_given_where_held();
    request_is_to_one_server();
    reply_is_of_one_server();
    ratios_are_rounded_as_little_as_can_be();
    every_stamp_is_unfolded();
}

/// The exchanges that are collected of a capture are exchanges in its frames.
pub fn exchanges_are_in_the_frames()
    ensures { (bytes : List ℕ) (format : Format) (records : List Record) (claim : ClaimData) →
        IsBytes bytes → IsCapture bytes format records →
        AllPairs (λ a b. a ≢ b) claim.servers →
        (k : ℕ) (x : Exchange) → slice_get (exchanges_of claim records) k ≡ Some x →
        IsExchangeIn claim format.unit (map frame_of records) x }
{
    layers_say_what_frames_hold();
    exchanges_are_those_of_the_pairs();
}

/// Each exchange in the frames of a capture is collected, whatever its leap indicator, its stratum
/// and its reference are.
pub fn exchanges_in_the_frames_are_collected()
    ensures { (bytes : List ℕ) (format : Format) (records : List Record) (claim : ClaimData) →
        IsBytes bytes → IsCapture bytes format records →
        AllPairs (λ a b. a ≢ b) claim.servers → (x : Exchange) →
        IsExchangeIn claim format.unit (map frame_of records) x →
        IsAmong (exchanges_of claim records) x }
{
    layers_say_what_frames_hold();
    unfolded_is_one_number();
    exchanges_are_those_of_the_pairs();
}

/// What is read of a claim's bytes is what their text says.
#[tactic(auto, using(crate::proofs::ClaimText::read))]
pub fn claims_are_what_their_text_says()
    ensures { (text : List ℕ) (claim : ClaimData) → claim_of text ≡ Ok claim →
        IsClaimText text claim }
{
    times_are_spelled();
    addresses_are_dotted();
    servers_are_in_their_groups();
    ratios_are_rounded_as_little_as_can_be();
}

/// A text says one claim at most.
pub fn texts_say_one_claim()
    ensures { (text : List ℕ) (claim other : ClaimData) → IsClaimText text claim →
        IsClaimText text other → claim ≡ other }
{
    times_are_spelled();
    addresses_are_dotted();
}

/// What is read of the bytes of a claim and of a capture is what they say.
fn what_is_read_is_said()
    ensures { ReadingLaw }
{
    claims_are_what_their_text_says();
    claims_are_lawful();
    what_is_read_is_a_capture();
    records_are_frames();
    exchanges_are_in_the_frames();
    exchanges_in_the_frames_are_collected();
    exchanges_keep_their_limits();
}

/// If a claim and a capture are read, and the verdict on some certificate is yes, the theorem holds
/// of their bytes, said in relations alone.
pub fn yes_shows_the_headline()
    ensures { ShowsHeadline }
{
    what_is_read_is_said();
    verdicts_are_traceable();
    yes_is_acceptance();
    pieces_hold_every_reading();
    widening_is_one_number();
    bounds_of_bytes_hold_in_nanoseconds();
}

/// The same if some certificate by covers is accepted.
pub fn yes_by_covers_shows_its_headline()
    ensures { ShowsHeadlineByCovers }
{
    what_is_read_is_said();
    covers_are_traceable();
    accepted_covers_bound_the_span();
    bounds_of_bytes_hold_in_nanoseconds();
}

/// If a claim and a capture are read, and in some course of events that fits them the clock is off
/// by more than the bound at a reading of the span, that is shown of their bytes, said in relations
/// alone: of all exchanges in the frames, none of which is missing.
#[tactic(auto, using(crate::proofs::Excess::contested))]
pub fn course_beyond_the_bound_contests_the_claim()
    ensures { CourseContests }
{
    what_is_read_is_said();
}

/// What these four tell of the bytes of a claim and of a capture.
pub(crate) fn bytes_tell_what_they_show()
    ensures { BytesLaws }
{
    bounds_of_bytes_hold_in_nanoseconds();
    yes_shows_the_headline();
    yes_by_covers_shows_its_headline();
    course_beyond_the_bound_contests_the_claim();
}

/// The same if some refutation is accepted, whose error doesn't change.
pub fn accepted_refutation_contests_the_claim()
    ensures { RefutationContests }
{
    what_is_read_is_said();
    test_is_passed_where_refuted();
    accepted_refutations_have_a_course();
    course_beyond_the_bound_contests_the_claim();
}

/// What is shown and what is contested never meet: no bytes of a claim and of a capture are both.
pub fn shown_claims_are_not_contested()
    ensures { NeverBoth }
{
    texts_say_one_claim();
    captures_say_one_list_of_frames();
    capture_fits_each_piece();
}

/// Nor do what is shown by covers and what is contested.
pub fn claims_shown_by_covers_are_not_contested()
    ensures { NeverBothByCovers }
{
    texts_say_one_claim();
    captures_say_one_list_of_frames();
    capture_fits_what_is_named();
}
