//! Pairs of numbers of exchanges, read token by token: the entries of a piece, or conflicts.

ghost use Rattle.std.specs.Prelude.{◌≡◌, option_map, option_and_then};
ghost use Rattle.cover_certificate.specs.Common.{parse_map, next_value, next_items, Reads};
ghost use Rattle.cover_certificate.specs.Parts.{judged, list_in};
ghost use Rattle.certificate.specs.Reading as spec;

use crate::fault::{CoverFault, Judged};
use arrayvec::ArrayVec;
use json::{Invalid, Reader};
use json_text::{next_unsigned, open_array, pass_items};

/// The pairs that are left of an array, or their fault: `many` if they are more than `MOST`, `bad`
/// if an element is none.
pub(crate) fn read_pairs<const MOST: usize>(
    reader: &mut Reader<'_>,
    depth: usize,
    many: CoverFault,
    bad: CoverFault,
) -> Result<Judged<ArrayVec<(u32, u32), MOST>>, Invalid>
    ensures { Reads result (judged (λ entries. entries.items))
        (parse_map (list_in many bad MOST spec.entry_of) (next_items depth reader.old))
        reader.new }
{
    let mut entries = ArrayVec::new();
    let mut are_pairs = true;
    let mut count = 0;
    'entries: while !reader.take_end_array() {
        if count == MOST {
            pass_items(reader, depth)?;
            return Ok(Err(many));
        }
        match read_entry(reader, depth)? {
            Some(entry) => entries.push(entry),
            None => are_pairs = false,
        }
        count += 1;
    }
    if are_pairs {
        Ok(Ok(entries))
    } else {
        Ok(Err(bad))
    }
}

/// A pair of sample numbers, None if the next value is none.
fn read_entry(reader: &mut Reader<'_>, depth: usize) -> Result<Option<(u32, u32)>, Invalid>
    ensures { Reads result (λ entry. entry)
        (parse_map spec.entry_of (next_value depth reader.old)) reader.new }
{
    if open_array(reader, depth)? {
        read_pair(reader, depth - 1)
    } else {
        Ok(None)
    }
}

/// The two sample numbers that are left of an array, None if anything else is.
fn read_pair(reader: &mut Reader<'_>, depth: usize) -> Result<Option<(u32, u32)>, Invalid>
    ensures { Reads result (λ pair. pair)
        (parse_map spec.pair_of (next_items depth reader.old)) reader.new }
{
    if reader.take_end_array() {
        return Ok(None);
    }
    let low = read_sample(reader, depth)?;
    if reader.take_end_array() {
        return Ok(None);
    }
    let high = read_sample(reader, depth)?;
    if !reader.take_end_array() {
        pass_items(reader, depth)?;
        return Ok(None);
    }
    Ok(pair_of(low, high))
}

/// The pair of two sample numbers.
fn pair_of(low: Option<u32>, high: Option<u32>) -> Option<(u32, u32)>
    ensures { result ≡ option_and_then (λ a. option_map (λ b. (a, b)) high) low }
{
    Some((low?, high?))
}

/// The number of a sample, None if the next value is none.
fn read_sample(reader: &mut Reader<'_>, depth: usize) -> Result<Option<u32>, Invalid>
    ensures { Reads result (λ number. number)
        (parse_map spec.sample_of (next_value depth reader.old)) reader.new }
{
    match next_unsigned(reader, depth)? {
        Some(number) if number <= u32::MAX as u64 => Ok(Some(number as u32)),
        _ => Ok(None),
    }
}
