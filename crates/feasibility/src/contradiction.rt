//! Two exchanges that contradict each other.

ghost use Rattle.std.specs.Prelude.{◌≡◌};
ghost use Rattle.feasibility.specs.PairMarks as spec;
ghost use Rattle.feasibility.specs.PairMarks.{is_no_later};

/// Two exchanges that can't both be of true servers, by their numbers. An exchange that is
/// impossible by itself stands for both.
#[derive(Clone, Copy)]
pub struct Contradiction {
    /// The exchange whose low mark it is.
    pub low: usize,
    /// The exchange whose high mark it is.
    pub high: usize,
}

impl Contradiction {
    /// Whether this one comes no later than another: by the number of the low mark's exchange, and
    /// then by that of the high mark's.
    fn is_no_later(self, other: Contradiction) -> bool
        ensures { result ≡ is_no_later self other }
    {
        self.low < other.low || (self.low == other.low && self.high <= other.high)
    }
}

/// The one that comes first, of those that there are.
pub(crate) fn earlier(
    one: Option<Contradiction>,
    other: Option<Contradiction>,
) -> Option<Contradiction>
    ensures { result ≡ spec.earlier one other }
{
    match (one, other) {
        (None, _) => other,
        (Some(_), None) => one,
        (Some(a), Some(b)) => { if a.is_no_later(b) { one } else { other } }
    }
}
