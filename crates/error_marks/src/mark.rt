//! A mark.

/// At a reading of the clock the error can't lie below a mark (or above it).
///
/// Both numbers are ticks of 2^-32 s, the place a reading since 1970.
#[derive(Clone, Copy, Debug, PartialEq, Eq)]
pub struct Mark {
    /// What the clock reads.
    pub place: i128,
    /// The least error (or the greatest): reading less true time.
    pub error: i128,
}
