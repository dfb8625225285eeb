//! How many records of a capture stand before its fault.

ghost use Rattle.std.specs.Prelude.{◌≡◌, ◌^◌, ◌-◌, ◌<◌, IfOk, string_bytes};
ghost use Rattle.byte_stream.specs.State.{IsReadable};
ghost use Rattle.fault_words.specs.Explanation.{IsToldQuietly, seen_data, nothing_seen};
ghost use Rattle.fault_words.specs.Quote.{IsQuiet};
ghost use Rattle.fault_words.specs.declared.kind.FileKind.TheVariants.{Unknown};

use crate::seen::Seen;
use byte_stream::Feed;
use pcap_reader::{Capture, CaptureFault, RecordSource};
use std::alloc::{AllocError, Global};

/// One more than the records that a capture has at most: its end.
pub(crate) const MAX_CALLS: u32 = 4_000_001;

/// How many whole records a source gives before this fault, if it has it.
fn whole_records<S: RecordSource>(source: &mut S, fault: &CaptureFault) -> Option<u32>
    requires room { (S.state source.old).fault_count < 2 ^ 64 - 1 }
{
    for count in 0..MAX_CALLS {
        match source.next_record() {
            Ok(Some(_)) => {}
            Ok(None) => return None,
            Err(seen) => return if seen == *fault { Some(count) } else { None },
        }
    }
    None
}

/// The same in words, and none if the source hasn't this fault.
#[tactic(auto, using(crate::proofs::Quiet::visible_is_quiet))]
fn record_words(alloc: Global, count: Option<u32>) -> Result<String, AllocError>
    ensures { IfOk result (λ words. IsQuiet (string_bytes words)) }
{
    match count {
        Some(1) => String::from_str(alloc, "; 1 whole record stands before it"),
        Some(count) => Ok(format!(in alloc; "; {count} whole records stand before it")?),
        None => Ok(String::new(alloc)),
    }
}

/// How many whole records stand before a record's fault, in the words of a person. It changes no
/// sentence.
pub fn look_at_records<F: Feed + Drop>(
    alloc: Global,
    feed: F,
    fault: &CaptureFault,
) -> Result<Seen, AllocError>
    requires { IsReadable (F.state feed) }
    ensures nothing_else { IfOk result (λ found.
        seen_data found ≡ nothing_seen Unknown (string_bytes found.seen)) }
    ensures quiet { IfOk result IsToldQuietly }
{
    let Ok(mut source) = Capture::begin(alloc, feed) else {
        return Ok(Seen::nothing(alloc));
    };
    let seen = record_words(alloc, whole_records(&mut source, fault))?;
    Ok(Seen::of_text(seen))
}
