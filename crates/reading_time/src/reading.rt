//! A reading, as a text writes it.

ghost use Rattle.std.specs.Prelude.{◌≡◌, ◌++◌, ◌+◌, ◌<◌, ◌≤◌, ◌*◌, ◌^◌, true, codes, length, option_map, IfSome};
ghost use Rattle.std.specs.List.{list_all, prefix_len};
ghost use Rattle.claim_file.specs.Time.{time_of};
ghost use Rattle.reading_time.specs.Reading as spec;
ghost use Rattle.reading_time.specs.Reading.{IsLawfulReading, reading_data};

use crate::decimal::{is_numeral, number_of, parts_of};
use arrayvec::ArrayVec;
use claim_file::read_time;
use std::str;

/// How long the longest text of a reading is: `2026-11-22T07:03:40.123456789Z`.
const LONGEST: usize = 30;

/// The last second of 32 bits: a reading's lies before it, so that the ticks have 64 bits.
const LAST_SECOND: u64 = u32::MAX as u64;

/// A reading of a clock, as it is written, and the ticks of 2^-32 s of the Unix epoch for which it
/// stands.
#[derive(Debug, Drop)]
pub struct Reading {
    /// What is written.
    pub text: ArrayVec<u8, LONGEST>,
    /// The last tick that isn't after its first moment.
    pub begin: u64,
    /// The first tick that isn't before the moment at which its last digit changes.
    pub end: u64,
}

/// Whether a text ends with the letter of a time in UTC.
fn is_utc(text: &[u8]) -> bool
    ensures { result ≡ spec.is_utc text.now }
{
    text.ends_with(b"Z")
}

/// The text without that letter.
fn without_z(text: &[u8]) -> &[u8]
    ensures { result.now ≡ spec.without_z text.now }
{
    text.strip_suffix(b"Z").unwrap_or(text)
}

/// How many bytes stand before the first point.
fn place_of_point(text: &[u8]) -> usize
    ensures exact { result ≡ prefix_len spec.is_no_point text.now }
    ensures at_most { result ≤ length text.now }
{
    text.iter().take_while(|byte| **byte != b'.').count()
}

/// What stands before the first point, and from it on.
fn at_point(text: &[u8]) -> (&[u8], &[u8])
    ensures whole { result.0.now ≡ spec.whole_of text.now }
    ensures fraction { result.1.now ≡ spec.fraction_of text.now }
{
    text.split_at(place_of_point(text))
}

/// Whether there is no fraction, or a point and one to nine digits.
fn is_fraction(text: &[u8]) -> bool
    ensures { result ≡ spec.is_fraction text.now }
{
    match text {
        [] => true,
        [byte, digits @ ..] => *byte == b'.' && is_numeral(9, digits),
    }
}

/// The digits behind the point.
fn digits_of(fraction: &[u8]) -> &[u8]
    ensures { result.now ≡ spec.digits_of fraction.now }
{
    match fraction {
        [] => fraction,
        [_, digits @ ..] => digits,
    }
}

/// A time in UTC that is written but for its last letter, with that.
fn with_z(whole: &[u8]) -> [u8; 20]
    requires { length whole.now ≡ 19 }
    ensures { result ≡ whole.now ++ codes "Z" }
{
    let mut text = [b'Z'; 20];
    text[..19].copy_from_slice(whole);
    text
}

/// The second of a time in UTC, which is written but for its last letter.
#[tactic(auto, using(crate::proofs::Utc::unsaid))]
fn utc_second(whole: &[u8]) -> Option<u32>
    ensures { result ≡ time_of (whole.now ++ codes "Z") }
{
    if whole.len() != 19 {
        return None;
    }
    let text = with_z(whole);
    match str::from_utf8(&text) {
        Ok(text) => read_time(text),
        Err(_) => None,
    }
}

/// The Unix second that is written in UTC, but for its last letter, or as a number.
fn second_of(utc: bool, whole: &[u8]) -> Option<u64>
    ensures { result ≡ spec.second_of utc whole.now }
{
    if utc {
        let second = utc_second(whole)?;
        Some(u64::from(second))
    } else if is_numeral(10, whole) {
        Some(number_of(whole))
    } else {
        None
    }
}

/// The ticks of a second.
const SECOND: u64 = 4_294_967_296;

/// The first tick of the reading of a second and these digits of its fraction.
fn begin_of(second: u64, digits: &[u8]) -> u64
    requires second { second < 4_294_967_295 }
    requires few { length digits.now ≤ 9 }
    requires digits { list_all spec.is_digit digits.now ≡ true }
    ensures { result ≡ spec.begin_of second digits.now }
{
    second * SECOND + number_of(digits) * SECOND / parts_of(digits)
}

/// Its last tick.
fn end_of(second: u64, digits: &[u8]) -> u64
    requires second { second < 4_294_967_295 }
    requires few { length digits.now ≤ 9 }
    requires digits { list_all spec.is_digit digits.now ≡ true }
    ensures { result ≡ spec.end_of second digits.now }
{
    let parts = parts_of(digits);
    second * SECOND + ((number_of(digits) + 1) * SECOND + (parts - 1)) / parts
}

/// The reading that a text says: a date and a time of day in UTC, `YYYY-MM-DDTHH:MM:SSZ`, or Unix
/// seconds, either with a fraction of one to nine digits or with none. The second is one from 0 to
/// 4294967294, which is 2106-02-07T06:28:14Z.
#[tactic(auto, using(crate::proofs::Ticks::begin_le_end))]
pub fn read_reading(text: &[u8]) -> Option<Reading>
    ensures exact { option_map reading_data result ≡ spec.reading_of text.now }
    ensures lawful { IfSome result (λ r. IsLawfulReading (reading_data r)) }
{
    let (whole, fraction) = at_point(without_z(text));
    let mut kept = ArrayVec::new();
    if kept.try_extend_from_slice(text).is_err() || !is_fraction(fraction) {
        return None;
    }
    let second = second_of(is_utc(text), whole)?;
    let digits = digits_of(fraction);
    if second >= LAST_SECOND {
        return None;
    }
    Some(Reading {
        text: kept,
        begin: begin_of(second, digits),
        end: end_of(second, digits),
    })
}
