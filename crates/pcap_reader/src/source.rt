//! A source of records, whatever holds their bytes.

ghost use Rattle.std.specs.Prelude.{◌≡◌, ◌-◌, ◌^◌, ◌<◌, IsTrue};
ghost use Rattle.pcap_reader.specs.Source.{SourceState, IsNextShown, IsStep};

use crate::fault::CaptureFault;
use crate::format::RecordHead;

/// A source that gives the records of a capture, one at a time.
///
/// If its bytes are known it has, by what it holds now, a list of records still to give, and then a
/// whole end or a fault. A call needs the source's count of faults below `u64::MAX`.
pub trait RecordSource {
    /// What remains, how many records were given, whether a fault was answered, what is lent, how
    /// often the device has failed, how many of its bytes were taken, and how many more may be.
    ghost state: { Self → SourceState };

    /// The header of the next record, or `None` at a whole end. It takes no memory.
    ///
    /// A fault of the bytes stands at the end of what was still to come. `Read` comes exactly if
    /// the device failed in this call, and `Failed` exactly if a fault was answered before. After a
    /// fault every later call answers `Failed`.
    fn next_record(&mut self) -> Result<Option<RecordHead>, CaptureFault>
        requires { (state self.old).fault_count < 2 ^ 64 - 1 }
        ensures { IsStep (state self.old) result (state self.new) };

    /// The captured bytes of the record given last, and no bytes at other times.
    fn bytes(&self) -> &[u8]
        ensures { result.now ≡ (state self.now).lent };

    /// Whether the next call needn't wait for the device: a yes comes only if its answer is shown
    /// without another byte. A no says nothing, so this is a hint.
    fn is_ready(&self) -> bool
        ensures { IsTrue result → IsNextShown (state self.now) };

    /// How often the device has failed: 0 if there is none.
    fn faults(&self) -> u64
        ensures { result ≡ (state self.now).fault_count };
}
