//! The types that this crate speaks of.

/// A closed interval of whole points, with both its ends: in ticks of 2^-32 s if it bounds a
/// clock's error.
///
/// An interval with `lo` above `hi` has no point.
#[derive(Clone, Copy, Debug, Default, PartialEq, Eq)]
pub struct Interval {
    /// The least point.
    pub lo: i128,
    /// The greatest point.
    pub hi: i128,
}

/// What is known about a point that at most f intervals of a list leave out.
#[derive(Clone, Copy, Debug, PartialEq, Eq)]
pub enum Hull {
    /// Nothing: every interval of the list may be wrong.
    Unbounded,
    /// There is no such point.
    Empty,
    /// It lies between these two, which are such points themselves.
    Bounded {
        /// The least admissible point.
        lo: i128,
        /// The greatest admissible point.
        hi: i128,
    },
}
