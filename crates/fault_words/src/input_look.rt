//! What is seen of a fault when its input is looked at again.

ghost use Rattle.std.specs.Prelude.{IfOk};
ghost use Rattle.fault_words.specs.Explanation.{IsToldQuietly};
ghost use Rattle.fault_words.specs.Quote.{IsQuiet};

use crate::claim_look::look_at_claim;
use crate::kind::{FileKind, is_object, kind_of};
use crate::seen::Seen;
use certificate::{CertificateFault, RefutationFault};
use claim_file::ClaimFault;
use cover_certificate::{AnyFault, CoverFault};
use json_text::parse;
use pcap_reader::CaptureFault;
use report::RunFault;
use serde_json::Value;
use std::alloc::{AllocError, Global};

/// What is seen of a fault in the first bytes of the input that it is of, which are all of them if
/// `is_whole` is true. Whatever stands there, a terminal obeys nothing of what is told of it.
pub fn look(
    alloc: Global,
    fault: &RunFault,
    bytes: &[u8],
    is_whole: bool,
) -> Result<Seen, AllocError>
    ensures { IfOk result IsToldQuietly }
{
    match fault {
        RunFault::Claim(ClaimFault::Json)
        | RunFault::Certificate(
            AnyFault::OfPieces(CertificateFault::Json) | AnyFault::ByCovers(CoverFault::Json),
        )
        | RunFault::Refutation(RefutationFault::Json) => no_json(alloc, bytes, is_whole),
        RunFault::Claim(fault) => look_at_claim(alloc, fault, bytes),
        RunFault::Certificate(AnyFault::OfPieces(CertificateFault::Top))
        | RunFault::Refutation(RefutationFault::Shape) => another_json(alloc, bytes, is_whole),
        RunFault::Capture(CaptureFault::TornHeader) if bytes.is_empty() => {
            Seen::of_kind(alloc, FileKind::Empty)
        }
        RunFault::TooBig(_) => Seen::of_kind(alloc, kind_of(bytes)),
        RunFault::Capture(CaptureFault::Magic) => no_capture(alloc, bytes),
        RunFault::Capture(CaptureFault::Link) => look_at_link(alloc, bytes),
        _ => Ok(Seen::nothing(alloc)),
    }
}

/// What a file looks like that isn't JSON, or else where its fault is, if there is memory for that.
fn no_json(alloc: Global, bytes: &[u8], is_whole: bool) -> Result<Seen, AllocError>
    ensures { IfOk result IsToldQuietly }
{
    let kind = kind_of(bytes);
    if !kind.word().is_empty() || !is_whole {
        return Seen::of_kind(alloc, kind);
    }
    match Value::from_slice(alloc, bytes) {
        Err(error) if error.is_memory() => Ok(Seen::nothing(alloc)),
        Err(error) => {
            let (line, column) = (error.line(), error.column());
            Ok(Seen::of_text(format!(in alloc; " at line {line}, column {column}")?))
        }
        Ok(_) => Ok(Seen::nothing(alloc)),
    }
}

/// What JSON it is instead of the second input.
fn another_json(alloc: Global, bytes: &[u8], is_whole: bool) -> Result<Seen, AllocError>
    ensures { IfOk result IsToldQuietly }
{
    if !is_whole {
        return Ok(Seen::nothing(alloc));
    }
    let Some(value) = parse(alloc, bytes)? else {
        return Ok(Seen::nothing(alloc));
    };
    if value.get("client").is_some() {
        return Seen::of_kind(alloc, FileKind::Claim);
    }
    if value.get("pieces").is_some() {
        return Seen::of_kind(alloc, FileKind::Certificate);
    }
    if value.get("reading").is_some() {
        return Seen::of_kind(alloc, FileKind::Refutation);
    }
    Ok(Seen::nothing(alloc))
}

/// What a file looks like that isn't a capture.
fn no_capture(alloc: Global, bytes: &[u8]) -> Result<Seen, AllocError>
    ensures { IfOk result IsToldQuietly }
{
    if is_object(bytes) {
        return Seen::of_kind(alloc, FileKind::Object);
    }
    Seen::of_kind(alloc, kind_of(bytes))
}

/// The number in the capture's field of the link type.
fn link_of(bytes: &[u8]) -> Option<u32> {
    let field: [u8; 4] = bytes.get(20..24)?.try_into().ok()?;
    match bytes.first()? {
        0xa1 => Some(u32::from_be_bytes(field)),
        _ => Some(u32::from_le_bytes(field)),
    }
}

/// The name of a link type.
#[tactic(auto, using(crate::proofs::Quiet::visible_is_quiet))]
fn link_name(link: u32) -> &'static str
    ensures { IsQuiet result.now }
{
    match link {
        0 => ", NULL",
        9 => ", PPP",
        12 | 14 | 101 => ", RAW",
        105 => ", IEEE802_11",
        113 => ", LINUX_SLL",
        127 => ", IEEE802_11_RADIO",
        228 => ", IPV4",
        276 => ", LINUX_SLL2",
        _ => "",
    }
}

/// The capture's link type.
fn look_at_link(alloc: Global, bytes: &[u8]) -> Result<Seen, AllocError>
    ensures { IfOk result IsToldQuietly }
{
    let Some(link) = link_of(bytes) else {
        return Ok(Seen::nothing(alloc));
    };
    let name = link_name(link);
    Ok(Seen::of_text(format!(in alloc; "; its link type is {link}{name}")?))
}
