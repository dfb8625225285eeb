//! The fields of a claim by their codes.

ghost use Rattle.std.specs.Prelude.{◌≡◌};
ghost use Rattle.fault_words.specs.ClaimField as spec;
ghost use Rattle.fault_words.specs.Sentence.{IsSentence};

use crate::remedy::{self, WRITE_NANOSECONDS};
use crate::sentence::{Sentence, says};
use claim_file::{MAX_BOUND_NS, MAX_DRIFT_PPB, MAX_FALSE, MAX_READING_NS};

/// What the field of this code, from 1 to 9, is called; nothing for another number.
pub fn field_name(code: u8) -> &'static str
    ensures { result.now ≡ spec.field_name code }
{
    match code {
        1 => "client",
        2 => "servers",
        3 => "false_max",
        4 => "from",
        5 => "to",
        6 => "bound_ns",
        7 => "drift_ppb",
        8 => "reading_ns",
        9 => "groups",
        _ => "",
    }
}

/// The greatest number that may stand in the field of this code; any, if it has no number.
pub(crate) fn most_in(code: u8) -> u64 {
    match code {
        3 => MAX_FALSE,
        6 => MAX_BOUND_NS,
        7 => MAX_DRIFT_PPB,
        8 => MAX_READING_NS,
        _ => u64::MAX,
    }
}

/// Whether a field of a claim is called so.
pub(crate) fn is_field(name: &str) -> bool {
    for code in 1..10u8 {
        if field_name(code) == name {
            return true;
        }
    }
    false
}

/// What has to stand in a field that holds one number, of this code; the last is `reading_ns`.
fn number_sentence(code: u8) -> Sentence
    ensures { IsSentence result }
{
    match code {
        3 => says(
            "has to be a whole number from 0 to 31",
            "write how many groups of servers may be wrong, as a bare whole number",
        ),
        6 => says(
            "has to be a whole number from 0 to 10^15",
            WRITE_NANOSECONDS,
        ),
        7 => says(
            "has to be a whole number from 0 to 500000000",
            "write parts of 10^9 as a bare whole number: 100 ppm are 100000",
        ),
        _ => says("has to be a whole number from 0 to 10^9", WRITE_NANOSECONDS),
    }
}

/// What has to stand in the field of this code, and how it is mended; for another number, that no
/// field has that name.
pub(crate) fn field_sentence(code: u8) -> Sentence
    ensures { IsSentence result }
{
    match code {
        1 => says("has to be an IPv4 address", remedy::WRITE_AN_ADDRESS),
        2 => says(
            "has to be an array of 1 to 32 IPv4 addresses",
            remedy::WRITE_AN_ADDRESS,
        ),
        3 | 6..=8 => number_sentence(code),
        4 => says(
            "has to be a time of UTC, no later than \"to\"",
            remedy::WRITE_A_TIME,
        ),
        5 => says(
            "has to be a time of UTC, no earlier than \"from\"",
            remedy::WRITE_A_TIME,
        ),
        9 => says(
            "has to be an array of arrays of server numbers",
            "number the servers from 0, as [[0,1],[2]]; or leave \"groups\" out",
        ),
        _ => says(
            "has a name that no claim has, or is no object",
            "the names are client servers false_max from to bound_ns drift_ppb reading_ns groups",
        ),
    }
}
