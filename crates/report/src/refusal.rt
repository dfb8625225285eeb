//! A refused command line, reported.

ghost use Rattle.std.specs.Prelude.{◌≡◌, codes, string_bytes};
ghost use Rattle.byte_stream.specs.State.{IsWritable};
ghost use Rattle.report.specs.Conclusion.{refused_conclusion};
ghost use Rattle.report.specs.Delivery.{IsDelivered};

use crate::conclusion::Conclusion;
use crate::delivery::deliver;
use byte_stream::Sink;

/// The conclusion of a refused command line.
const REFUSED_COMMAND_LINE: Conclusion = Conclusion {
    code: 5,
    fault: None,
};

/// Says on `err` why a command line is refused, and finishes it. The conclusion is the same
/// whatever the sink does.
pub fn refuse<E: Sink>(text: String, err: &mut E) -> Conclusion
    requires { IsWritable (E.state err.old) }
    ensures says { IsDelivered (string_bytes text) (E.state err.old) (E.state err.new) }
    ensures exact { result ≡ refused_conclusion }
{
    let _ = deliver(text.as_bytes(), err);
    REFUSED_COMMAND_LINE
}

/// Says on `err` that a TIME isn't written as a claim's times are, and finishes it. The conclusion
/// is the same whatever the sink does. It takes no memory.
pub fn refuse_time<E: Sink>(err: &mut E) -> Conclusion
    requires { IsWritable (E.state err.old) }
    ensures says { IsDelivered (codes "ntpaudit: time\n") (E.state err.old) (E.state err.new) }
    ensures exact { result ≡ refused_conclusion }
{
    let _ = deliver(b"ntpaudit: time\n", err);
    REFUSED_COMMAND_LINE
}
