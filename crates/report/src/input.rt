//! An input that is read whole.

ghost use Rattle.std.specs.Prelude.{◌≡◌, ◌≤◌, Ok, Err, IfOk, IfErr, IfSome, MatchResult, length};
ghost use Rattle.report.specs.Common.{CountsFault, TakesAtMost, IsReadable};
ghost use Rattle.report.specs.Input.{IsBeyond, IsInputFault, ReadsWhole, Takes, most_read, read_failed};

use crate::fault::{Input, RunFault};
use byte_stream::Feed;
use std::alloc::{AllocError, Global};

/// How many bytes are asked for at once.
const CHUNK: usize = 65536;

/// All bytes of an input, if they are no more than `limit`.
///
/// `TooBig(which)` comes if there are more, after one byte past the limit; `Device(which)` exactly
/// if the feed failed, and `Memory` if memory was refused. At these two no byte past the limit was
/// taken.
pub fn read_input<F: Feed>(
    alloc: Global,
    feed: &mut F,
    which: Input,
    limit: u64,
) -> Result<Vec<u8>, RunFault>
    requires { IsReadable (F.state feed.old) }
    ensures whole { IfSome (F.state feed.old).remaining (λ bytes. MatchResult result
        (λ read. ReadsWhole bytes limit (Ok read.items))
        (λ fault. ReadsWhole bytes limit (Err fault))) }
    ensures fault { IfErr result (IsInputFault which) }
    ensures counts_fault { CountsFault (read_failed result)
        (F.state feed.old).faults (F.state feed.new).faults }
    ensures at_most { TakesAtMost (most_read which limit result)
        (F.state feed.old) (F.state feed.new) }
{
    let mut read = Vec::new(alloc);
    read_onto(alloc, feed, which, limit, &mut read)?;
    Ok(read)
}

/// Reads an input as `read_input` does, into `read`, which has what was taken of it whatever the
/// answer is: more than `limit` if it is too big.
pub fn read_onto<F: Feed>(
    alloc: Global,
    feed: &mut F,
    which: Input,
    limit: u64,
    read: &mut Vec<u8>,
) -> Result<(), RunFault>
    requires { IsReadable (F.state feed.old) }
    ensures whole { IfSome (F.state feed.old).remaining (λ bytes. MatchResult result
        (λ done. ReadsWhole bytes limit (Ok read.new.items))
        (λ fault. ReadsWhole bytes limit (Err fault))) }
    ensures fault { IfErr result (IsInputFault which) }
    ensures counts_fault { CountsFault (read_failed result)
        (F.state feed.old).faults (F.state feed.new).faults }
    ensures taken { Takes read.new.items (F.state feed.old) (F.state feed.new) }
    ensures at_most { length read.new.items ≤ most_read which limit result }
    ensures too_big { IfErr result (IsBeyond limit read.new.items) }
{
    read.clear();
    let mut chunk = make_chunk(alloc)?;
    'pulls: loop {
        let room = limit - read.len() as u64;
        let wanted = room.min(CHUNK as u64 - 1) as usize + 1;
        read.reserve(wanted)?;
        let (front, _) = chunk.split_at_mut(wanted);
        let Ok(n) = feed.pull(front) else {
            return Err(RunFault::Device(which));
        };
        if n == 0 {
            return Ok(());
        }
        read.extend_from_slice(&front[..n])?;
        if n as u64 > room {
            return Err(RunFault::TooBig(which));
        }
    }
}

/// The room for one pull.
fn make_chunk(alloc: Global) -> Result<Vec<u8>, AllocError>
    ensures { IfOk result (λ chunk. length chunk.items ≡ CHUNK) }
{
    vec![in alloc; 0; CHUNK]
}
