//! A whole text, brought to a sink.

ghost use Rattle.std.specs.Prelude.{◌≡◌, ◌<◌, length, take, OnOk, IfErr, is_ok, is_err};
ghost use Rattle.report.specs.Common.{Appends, CountsFault, IsWritable};
ghost use Rattle.report.specs.Delivery.{Delivers};

use byte_stream::Sink;

/// Pushes all the bytes, or answers how many went out before the sink failed.
pub(crate) fn push_all<S: Sink>(out: &mut S, bytes: &[u8]) -> Result<(), usize>
    requires { IsWritable (S.state out.old) }
    ensures ok { OnOk result
        (Appends (S.state out.old).contents (S.state out.new).contents bytes.now) }
    ensures cut { IfErr result (λ gone. gone < length bytes.now) }
    ensures err { IfErr result (λ gone.
        Appends (S.state out.old).contents (S.state out.new).contents (take gone bytes.now)) }
    ensures stays_open { (S.state out.new).is_open ≡ is_ok result }
    ensures counts_fault { CountsFault (is_err result)
        (S.state out.old).faults (S.state out.new).faults }
{
    let mut gone = 0;
    while gone < bytes.len() {
        let (_, rest) = bytes.split_at(gone);
        match out.push(rest) {
            Ok(n) => gone += n,
            Err(_) => return Err(gone),
        }
    }
    Ok(())
}

/// Pushes a text whole and finishes the sink, or answers how many bytes went out before the sink
/// failed: all of them if only `finish` failed. It takes no memory.
pub fn deliver<S: Sink>(text: &[u8], out: &mut S) -> Result<(), usize>
    requires { IsWritable (S.state out.old) }
    ensures { Delivers text.now (S.state out.old) (S.state out.new) result }
{
    push_all(out, text)?;
    out.finish().map_err(|_| text.len())
}
