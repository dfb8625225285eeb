//! What looks like a slip of the pen in a claim that wasn't refused, for a person.
//!
//! Once a run has answered, the claim and the capture are looked at again, if they are regular
//! files. That changes neither answer nor status.

use crate::second_look::{open_regular, path_of, shown_name};
use byte_stream::ReadFeed;
use claim_file::read_claim;
use fault_words::{ClaimNumbers, Names, Recorded, has_name_twice, look_at_times, slips};
use report::{Input, MAX_CLAIM, read_input};
use std::alloc::AllocError;

/// The text of the claim of this path, if it can be read.
fn text_at(rt: &HostRuntime, path: &str) -> Option<String> {
    let mut feed = ReadFeed::new(open_regular(rt, path)?);
    let bytes = read_input(rt.alloc(), &mut feed, Input::Claim, MAX_CLAIM).ok()?;
    String::from_utf8(bytes).ok()
}

/// When the capture of this path was recorded, if it has a record.
fn times_at(rt: &HostRuntime, path: &str) -> Option<Recorded> {
    look_at_times(rt.alloc(), ReadFeed::new(open_regular(rt, path)?))
}

/// What looks like a slip of the pen in the claim of this name, and nothing if there is none.
pub(crate) fn warnings(rt: &HostRuntime, names: &Names<'_>) -> Result<Vec<u8>, AllocError> {
    let alloc = rt.alloc();
    let Some(text) = text_at(rt, path_of(names.claim)) else {
        return Ok(Vec::new(alloc));
    };
    let Ok(claim) = read_claim(alloc, text.as_bytes()) else {
        return Ok(Vec::new(alloc));
    };
    let recorded = times_at(rt, path_of(names.capture));
    let name = shown_name(alloc, names.claim)?;
    let stands_twice = has_name_twice(alloc, text.as_str())?;
    let numbers = ClaimNumbers::of(&claim);
    slips(alloc, name.as_str(), stands_twice, &numbers, &recorded)
}
