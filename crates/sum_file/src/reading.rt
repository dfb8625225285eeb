//! The sums of a text.

ghost use Rattle.std.specs.Prelude.{◌≡◌, map};
ghost use Rattle.sum_file.specs.Fault.{Answers};
ghost use Rattle.sum_file.specs.Reading as spec;
ghost use Rattle.sum_file.specs.Sum.{data_of};

use crate::fault::SumFault;
use crate::line::read_line;
use crate::sum::Sum;
use std::alloc::{AllocError, Global};

/// The bytes without this one at their end, if it stands there.
fn without_last<'t>(byte: u8, bytes: &'t [u8]) -> &'t [u8]
    ensures exact { result.now ≡ spec.without_last byte bytes.now }
{
    bytes.strip_suffix([byte].as_slice()).unwrap_or(bytes)
}

/// The sums of a text, in the order of its lines.
///
/// Lines end in a line feed, before which a carriage return may stand; the last line may lack it.
/// An empty text has no sums. The fault is Form with the number of the first bad line, from 1, or
/// Memory. Each line is compared with those above it, so a text should be short: 65,536 bytes have
/// fewer than 1,000 good lines.
pub fn read_sums(alloc: Global, text: &[u8]) -> Result<Vec<Sum>, SumFault>
    ensures exact { Answers result (λ sums. map data_of sums.items) (spec.sums_of text.now) }
{
    let mut sums = Vec::new(alloc);
    if text.is_empty() {
        return Ok(sums);
    }
    for ended in without_last(b'\n', text).split(|byte| *byte == b'\n') {
        match read_line(alloc, without_last(b'\r', ended))? {
            Some(sum) if sums.iter().all(|other: &Sum| other.agrees(&sum)) => {
                sums.push(sum).map_err(AllocError::from)?
            }
            _ => return Err(SumFault::Form(sums.len() as u64 + 1)),
        }
    }
    Ok(sums)
}
