//! The groups of a case, read token by token.

ghost use Rattle.std.specs.Prelude.{◌≡◌, ◌^◌, ◌<◌};
ghost use Rattle.cover_certificate.specs.Common.{parse_map, next_value, next_items, Reads};
ghost use Rattle.cover_certificate.specs.CoverReading as spec;
ghost use Rattle.cover_certificate.specs.CoverReading.{max_groups};
ghost use Rattle.cover_certificate.specs.Parts.{judged, list_in};

use crate::fault::{CoverFault, Judged};
use arrayvec::ArrayVec;
use json::{Invalid, Reader};
use json_text::{next_unsigned, pass_items};

/// How many groups a case may name.
const MAX_GROUPS: usize = 32;

/// The numbers of groups.
pub(crate) type Groups = ArrayVec<u8, 32>;

/// The numbers of groups that are left of an array, or this fault.
pub(crate) fn read_groups(
    reader: &mut Reader<'_>,
    depth: usize,
    bad: CoverFault,
) -> Result<Judged<Groups>, Invalid>
    ensures { Reads result (judged (λ groups. groups.items))
        (parse_map (list_in bad bad max_groups spec.group_of) (next_items depth reader.old))
        reader.new }
{
    let mut groups = ArrayVec::new();
    let mut are_groups = true;
    let mut count = 0;
    'groups: while !reader.take_end_array() {
        if count == MAX_GROUPS {
            pass_items(reader, depth)?;
            return Ok(Err(bad));
        }
        match read_group(reader, depth)? {
            Some(group) => groups.push(group),
            None => are_groups = false,
        }
        count += 1;
    }
    if are_groups {
        Ok(Ok(groups))
    } else {
        Ok(Err(bad))
    }
}

/// The number of a group, None if the next value is none.
fn read_group(reader: &mut Reader<'_>, depth: usize) -> Result<Option<u8>, Invalid>
    ensures { Reads result (λ number. number)
        (parse_map spec.group_of (next_value depth reader.old)) reader.new }
{
    match next_unsigned(reader, depth)? {
        Some(number) if number <= u8::MAX as u64 => Ok(Some(number as u8)),
        _ => Ok(None),
    }
}
