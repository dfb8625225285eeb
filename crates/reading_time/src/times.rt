//! The readings of a file.

ghost use Rattle.std.specs.Prelude.{◌≡◌, ◌≤◌, IfOk, drop, length};
ghost use Rattle.std.specs.List.{prefix_len};
ghost use Rattle.reading_time.specs.Fault.{Answers};
ghost use Rattle.reading_time.specs.Times.{AreLawfulTimes, first_line, is_no_feed, rest_of, times_data, times_of};

use crate::fault::TimesFault;
use crate::reading::{Reading, read_reading};
use std::alloc::{AllocError, Global};

/// The most readings of a file.
pub const MAX_READINGS: u64 = 1_000_000;

/// The readings of a file, in the order of its lines.
#[derive(Debug, Drop)]
pub struct Times {
    /// At most 1,000,000 of them.
    pub readings: Vec<Reading>,
}

/// How many bytes stand before the first line feed.
fn place_of_feed(text: &[u8]) -> usize
    ensures exact { result ≡ prefix_len is_no_feed text.now }
    ensures at_most { result ≤ length text.now }
{
    text.iter().take_while(|byte| **byte != b'\n').count()
}

/// A text without its first byte, if it has one.
fn without_first(text: &[u8]) -> &[u8]
    ensures { result.now ≡ drop 1 text.now }
{
    match text {
        [] => text,
        [_, rest @ ..] => rest,
    }
}

/// The first line of a text, and what stands behind its line feed.
fn at_feed(text: &[u8]) -> (&[u8], &[u8])
    ensures line { result.0.now ≡ first_line text.now }
    ensures rest { result.1.now ≡ rest_of text.now }
{
    let (line, rest) = text.split_at(place_of_feed(text));
    (line, without_first(rest))
}

/// The readings of a file, one a line, in their order. The last line may lack its line feed, and an
/// empty file has none.
///
/// `Time` comes with the number of the first line that isn't a reading, `TooMany` if there are more
/// than 1,000,000 lines and those are readings, and `Memory` if memory was refused.
pub fn read_times(alloc: Global, text: &[u8]) -> Result<Times, TimesFault>
    ensures exact { Answers result times_data (times_of text.now) }
    ensures lawful { IfOk result AreLawfulTimes }
{
    let mut readings = Vec::new(alloc);
    let mut rest = text;
    for done in 0..MAX_READINGS {
        if rest.is_empty() {
            return Ok(Times { readings });
        }
        let (line, after) = at_feed(rest);
        rest = after;
        match read_reading(line) {
            Some(reading) => readings.push(reading).map_err(AllocError::from)?,
            None => return Err(TimesFault::Time(done + 1)),
        }
    }
    if rest.is_empty() {
        Ok(Times { readings })
    } else {
        Err(TimesFault::TooMany)
    }
}
