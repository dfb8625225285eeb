//! The window of a record's time, as it is held.

ghost use Rattle.std.specs.Prelude.{◌≡◌, ◌<◌};
ghost use Rattle.era_unfold.specs.Window.{per_second};
ghost use Rattle.pairing.specs.CompactWindow.{window_of};

use era_unfold::{high, low};
use pcap_reader::RecordHead;

/// The window of a record's time, in ticks.
#[derive(Clone, Copy)]
pub(crate) struct CompactWindow {
    /// The first tick.
    pub low: u64,
    /// How many ticks after the first one the window ends: a microsecond has fewer than 4,300.
    pub width: u16,
}

impl CompactWindow {
    /// The window of this record.
    #[inline(always)]
    pub(crate) fn new(head: &RecordHead) -> CompactWindow
        requires { head.now.sub < per_second head.now.unit }
        ensures { result ≡ window_of head.now }
    {
        let first = low(head.sec, head.sub, head.unit);
        let last = high(head.sec, head.sub, head.unit);
        CompactWindow {
            low: first as u64,
            width: (last - first) as u16,
        }
    }
}
