//! What follows from the definitions of the fields, in the words of the subject. Each law is a
//! function with no parameters, whose contract ranges over all lists of bytes.

ghost use Rattle.std.specs.Prelude.{◌≡◌, ℕ, ◌+◌, ◌*◌, ◌^◌, ◌<◌, ◌⊎◌, ℤ, pos, negsuc, ◌+ℤ◌, ◌≤ℤ◌, ◌<ℤ◌, List, slice_index, IfSome};
ghost use Rattle.ntp_packet.specs.Packet.{packet_of};
ghost use Rattle.byte_stream.specs.Bytes.{IsBytes};
ghost use Rattle.ntp_packet.specs.Header.{field, signed_field, leap_of, version_of, mode_of, precision_ticks_of, root_distance_of};

/// Leap indicator, version and mode make up the first byte, and each keeps to its two or three
/// bits.
#[tactic(auto, using(crate::proofs::Fields::byte_range), unfolding(crate::specs::Header::leap_of, crate::specs::Header::version_of, crate::specs::Header::mode_of,))]
pub fn first_byte_parts()
    ensures rebuilt { (bytes : List ℕ) →
        64 * leap_of bytes + 8 * version_of bytes + mode_of bytes ≡ slice_index bytes 0 }
    ensures leap { (bytes : List ℕ) → IsBytes bytes → leap_of bytes < 4 }
    ensures version { (bytes : List ℕ) → version_of bytes < 8 }
    ensures mode { (bytes : List ℕ) → mode_of bytes < 8 }
{}

/// A field of some bytes is a number of as many bytes.
#[tactic(auto, using(crate::proofs::Fields::field_lt))]
pub fn field_range()
    ensures { (first width : ℕ) (bytes : List ℕ) → IsBytes bytes →
        field first width bytes < 256 ^ width }
{}

/// A signed field lies from -128 to 127, and is its byte or 256 less.
#[tactic(auto, using(crate::proofs::Fields::signed_range), unfolding(crate::specs::Header::signed_field))]
pub fn signed_field_range()
    ensures least { (first : ℕ) (bytes : List ℕ) → negsuc 127 ≤ℤ signed_field first bytes }
    ensures greatest { (first : ℕ) (bytes : List ℕ) → IsBytes bytes →
        signed_field first bytes ≤ℤ pos 127 }
    ensures same_byte { (first : ℕ) (bytes : List ℕ) →
        (signed_field first bytes ≡ pos (field first 1 bytes))
        ⊎ (signed_field first bytes +ℤ pos 256 ≡ pos (field first 1 bytes)) }
{}

/// A precision of 0 is one second, each step above -32 doubles it, and at -32 and below it counts
/// as one tick.
#[tactic(auto, using(crate::proofs::PrecisionTicks::precision_doubles))]
pub fn precision_doubles()
    ensures second { precision_ticks_of (pos 0) ≡ 2 ^ 32 }
    ensures doubles { (precision : ℤ) → negsuc 31 ≤ℤ precision →
        precision_ticks_of (precision +ℤ pos 1) ≡ 2 * precision_ticks_of precision }
    ensures one_tick { (precision : ℤ) → precision ≤ℤ negsuc 31 → precision_ticks_of precision ≡ 1 }
{}

/// A root distance is at least one tick, and below 2^50 ticks.
#[tactic(auto, using(crate::proofs::PrecisionTicks::distance_range), unfolding(crate::specs::Header::root_distance_of))]
pub fn root_distance_range()
    ensures least { (bytes : List ℕ) → IsBytes bytes →
        IfSome (root_distance_of bytes) (λ ticks. pos 1 ≤ℤ ticks) }
    ensures greatest { (bytes : List ℕ) → IsBytes bytes →
        IfSome (root_distance_of bytes) (λ ticks. ticks <ℤ pos (2 ^ 50)) }
{}

/// The header of a frame's packet is made of bytes of the frame.
#[tactic(auto, using(crate::proofs::PacketHeader::packet_header_bytes))]
pub fn packet_header_is_bytes()
    ensures { (frame : List ℕ) → IsBytes frame →
        IfSome (packet_of frame) (λ packet. IsBytes packet.header) }
{}
