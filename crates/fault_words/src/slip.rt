//! What looks like a slip of the pen in a claim. Nothing is refused for it.

ghost use Rattle.std.specs.Prelude.{◌≡◌, ◌+◌, ◌++◌, ◌*◌, ◌<◌, ◌≤◌, IfOk, OnOk, IfSome, IsSomeAnd, length};
ghost use Rattle.std.specs.Bool.{MatchBool};
ghost use Rattle.json.specs.Json.{document};
ghost use Rattle.json.specs.Strict.{HasUniqueKeys};
ghost use Rattle.claim_file.specs.Claim.{group_count};
ghost use Rattle.line_writer.specs.Date.{time_text};
ghost use Rattle.line_writer.specs.declared.line.TheConstants.{CAPACITY};
ghost use Rattle.fault_words.specs.Slip as spec;

use claim_file::{Claim, group_count};
use era_unfold::TICKS_PER_SECOND;
use json::{Error, Scratch, Value};
use line_writer::{Field, Line, Style, put_fields};
use std::alloc::{AllocError, Global};

/// The numbers of a claim that are looked at.
#[derive(Clone, Copy, Debug)]
pub struct ClaimNumbers {
    /// The bound, in nanoseconds.
    pub bound_ns: u64,
    /// The drift, in parts of 10^9.
    pub drift_ppb: u32,
    /// The allowance for stamps, in nanoseconds.
    pub reading_ns: u64,
    /// How many groups may be wrong.
    pub false_max: u8,
    /// How many groups there are.
    pub groups: u32,
    /// The Unix second at which the span begins.
    pub begin: u32,
    /// The Unix second at which it ends.
    pub end: u32,
}

/// The Unix second that begins at a tick, if it has 32 bits, and else 0.
fn second_at(tick: i128) -> u32 {
    u32::try_from(tick / TICKS_PER_SECOND as i128).unwrap_or(0)
}

impl ClaimNumbers {
    /// Those of a claim.
    pub fn of(claim: &Claim) -> ClaimNumbers
        ensures bound { result.bound_ns ≡ claim.now.bound_ns }
        ensures drift { result.drift_ppb ≡ claim.now.drift_ppb }
        ensures reading { result.reading_ns ≡ claim.now.reading_ns }
        ensures false_max { result.false_max ≡ claim.now.false_max }
        ensures groups { result.groups ≡ group_count claim.now.groups.items }
    {
        ClaimNumbers {
            bound_ns: claim.bound_ns,
            drift_ppb: claim.drift_ppb,
            reading_ns: claim.reading_ns,
            false_max: claim.false_max,
            groups: group_count(claim.groups.as_slice()),
            begin: second_at(claim.first),
            end: second_at(claim.last),
        }
    }
}

/// Whether an object of a JSON text has a name twice, so that its last value counts. A text that is
/// none has no name.
pub fn has_name_twice(alloc: Global, text: &str) -> Result<bool, AllocError>
    ensures exact { IfOk result (λ twice. MatchBool twice
        (IsSomeAnd (document text.now) (λ json. ¬ HasUniqueKeys json))
        (IfSome (document text.now) HasUniqueKeys)) }
{
    match Value::parse_strict(alloc, text, &mut Scratch::new(alloc)) {
        Ok(_) | Err(Error::Invalid | Error::TooLong) => Ok(false),
        Err(Error::DuplicateKey) => Ok(true),
        Err(Error::OutOfMemory) => Err(AllocError),
    }
}

/// When a capture was recorded.
#[derive(Clone, Copy, Debug)]
pub struct Recorded {
    /// The least Unix second of a record.
    pub first: u32,
    /// The greatest.
    pub last: u32,
}

/// By how many whole hours a local time may be beside UTC.
const ZONES: [u8; 14] = [1, 2, 3, 4, 5, 6, 7, 8, 9, 10, 11, 12, 13, 14];

/// Whether a span has no second of a capture.
fn is_outside(numbers: &ClaimNumbers, recorded: &Recorded) -> bool
    ensures { result ≡ spec.is_outside numbers.now.begin numbers.now.end recorded.now }
{
    numbers.end < recorded.first || recorded.last < numbers.begin
}

/// Whether the span would be of the capture if it was written this many hours later or earlier.
fn is_beside(numbers: &ClaimNumbers, recorded: &Recorded, hours: u8) -> bool
    ensures { result ≡ spec.is_beside numbers.now.begin numbers.now.end recorded.now hours }
{
    let away = 3600 * u64::from(hours);
    let (begin, end) = (u64::from(numbers.begin), u64::from(numbers.end));
    let (first, last) = (u64::from(recorded.first), u64::from(recorded.last));
    first <= begin + away && end + away <= last || first + away <= begin && end <= last + away
}

/// Whether it would be of the capture some hours later or earlier.
fn is_hours_beside(numbers: &ClaimNumbers, recorded: &Recorded) -> bool
    ensures { result ≡ spec.is_hours_beside numbers.now.begin numbers.now.end recorded.now }
{
    ZONES
        .iter()
        .any(|hours| is_beside(numbers, recorded, *hours))
}

/// Adds a line about a file of this name, if it is given.
fn add_line_if(text: &mut Vec<u8>, given: bool, name: &str, words: &[u8]) -> Result<(), AllocError>
    ensures { OnOk result (text.new.items
        ≡ text.old.items ++ spec.line_if given name.now words.now) }
{
    if given {
        text.extend_from_slice(b"  ")?;
        text.extend_from_slice(name.as_bytes())?;
        text.extend_from_slice(b": ")?;
        text.extend_from_slice(words)?;
        text.extend_from_slice(b"\n")?;
    }
    Ok(())
}

/// Adds a time of day.
fn add_time(text: &mut Vec<u8>, second: u32) -> Result<(), AllocError>
    ensures { OnOk result (text.new.items ≡ text.old.items ++ time_text second) }
{
    let mut line = Line::new();
    put_fields(&mut line, Style::Human, &[Field::Second(second)]);
    text.extend_from_slice(line.as_bytes())
}

/// What is said of a span outside a capture.
fn outside_words(alloc: Global, recorded: &Recorded, beside: bool) -> Result<Vec<u8>, AllocError>
    ensures { IfOk result (λ text. text.items
        ≡ spec.outside_words recorded.now ++ spec.beside_words beside) }
{
    let mut text = Vec::new(alloc);
    text.extend_from_slice(b"its span is outside the capture, which goes from ")?;
    add_time(&mut text, recorded.first)?;
    text.extend_from_slice(b" to ")?;
    add_time(&mut text, recorded.last)?;
    if beside {
        text.extend_from_slice(b"; some hours away it would be inside: write UTC, not local time")?;
    }
    Ok(text)
}

/// What is said of a claim's span outside a capture.
fn span_words(
    alloc: Global,
    numbers: &ClaimNumbers,
    recorded: &Recorded,
) -> Result<Vec<u8>, AllocError>
    ensures { IfOk result (λ text. text.items ≡ spec.span_words numbers.now recorded.now) }
{
    outside_words(alloc, recorded, is_hours_beside(numbers, recorded))
}

/// Adds the line about a claim's span, if a record of the capture was seen.
fn add_span_line(
    alloc: Global,
    text: &mut Vec<u8>,
    name: &str,
    numbers: &ClaimNumbers,
    recorded: &Option<Recorded>,
) -> Result<(), AllocError>
    ensures { OnOk result (text.new.items
        ≡ text.old.items ++ spec.span_line name.now numbers.now recorded.now) }
{
    match recorded {
        Some(recorded) => {
            let words = span_words(alloc, numbers, recorded)?;
            add_line_if(text, is_outside(numbers, recorded), name, words.as_slice())
        }
        None => Ok(()),
    }
}

/// What looks like a slip of the pen in a claim of this file, a line for each: a name that stands
/// twice, a bound below 1,000 ns, a drift below 1,000 ppb, an allowance below 1,000 ns that isn't 0,
/// as many false groups as there are, a span outside the capture.
pub fn slips(
    alloc: Global,
    name: &str,
    name_stands_twice: bool,
    numbers: &ClaimNumbers,
    recorded: &Option<Recorded>,
) -> Result<Vec<u8>, AllocError>
    ensures says { IfOk result (λ text.
        text.items ≡ spec.slips name.now name_stands_twice numbers.now recorded.now) }
{
    let mut text = Vec::new(alloc);
    let repeated = b"has a name twice; its last value counts";
    add_line_if(&mut text, name_stands_twice, name, repeated)?;
    let small_bound = b"\"bound_ns\" is below 1000, which are 0.001 ms; 5 ms are 5000000";
    add_line_if(&mut text, numbers.bound_ns < 1000, name, small_bound)?;
    let small_drift = b"\"drift_ppb\" is below 1000, which are 1 ppm; 100 ppm are 100000";
    add_line_if(&mut text, numbers.drift_ppb < 1000, name, small_drift)?;
    let small_reading = b"\"reading_ns\" is below 1000, which are 0.001 ms; 0.1 ms are 100000";
    let is_small = 0 < numbers.reading_ns && numbers.reading_ns < 1000;
    add_line_if(&mut text, is_small, name, small_reading)?;
    let all_false =
        b"\"false_max\" is no less than the number of groups, so that nothing can be shown";
    let may_all_be_false = numbers.groups <= u32::from(numbers.false_max);
    add_line_if(&mut text, may_all_be_false, name, all_false)?;
    add_span_line(alloc, &mut text, name, numbers, recorded)?;
    Ok(text)
}
