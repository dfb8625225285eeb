//! The inputs of a run, read whole and held to their sums.

ghost use Rattle.std.specs.Prelude.{IfOk, IfErr};
ghost use Rattle.byte_stream.specs.State.{IsReadable};
ghost use Rattle.summed_inputs.specs.Holding.{AreSummed, CountFaults, IsUnjudgedFor, TakeAtMost, feeds};
ghost use Rattle.summed_inputs.specs.InputBytes.{data_of};
ghost use Rattle.summed_inputs.specs.Sums.{sums_data};

use crate::holding::read_held;
use crate::input_bytes::InputBytes;
use crate::named_feed::NamedFeed;
use crate::second::SummedSource;
use crate::sums::input_sums;
use audit::SecondInput;
use report::{Input, RunFault};
use std::alloc::Global;

/// Holds the inputs of a run to the text of a file of sums, which has them by their names: none is
/// read unless it gives a sum for each. `read` gets what was read.
///
/// The faults come as `answer_by_sums` has them, before anything is judged.
pub fn hold_inputs<V: SecondInput, C: NamedFeed, T: SummedSource<V>, F: NamedFeed>(
    alloc: Global,
    sums: &[u8],
    claim: &mut C,
    second: &mut T,
    capture: &mut F,
    read: &mut InputBytes,
) -> Result<(), RunFault>
    requires claim { IsReadable (C.state claim.old) }
    requires second { IsReadable (T.state second.old) }
    requires capture { IsReadable (F.state capture.old) }
    ensures held { IfOk result (λ done. AreSummed V.kind
        (sums_data sums.now (C.named claim.old) (T.named second.old) (F.named capture.old))
        (feeds (C.state claim.old) (T.state second.old) (F.state capture.old))
        (data_of read.new)) }
    ensures fault { IfErr result (IsUnjudgedFor V.kind
        (sums_data sums.now (C.named claim.old) (T.named second.old) (F.named capture.old))
        (feeds (C.state claim.old) (T.state second.old) (F.state capture.old))
        (feeds (C.state claim.new) (T.state second.new) (F.state capture.new))
        (data_of read.new)) }
    ensures counts_faults { CountFaults result
        (feeds (C.state claim.old) (T.state second.old) (F.state capture.old))
        (feeds (C.state claim.new) (T.state second.new) (F.state capture.new)) }
    ensures at_most { TakeAtMost V.kind
        (feeds (C.state claim.old) (T.state second.old) (F.state capture.old))
        (feeds (C.state claim.new) (T.state second.new) (F.state capture.new)) }
{
    let sums = input_sums(alloc, sums, claim, second, capture)?;
    read_held(alloc, claim, Input::Claim, &sums.claim, &mut read.claim)?;
    second.hold(alloc, &sums.second, &mut read.second)?;
    let read = &mut read.capture;
    read_held(alloc, capture, Input::Capture, &sums.capture, read)
}
