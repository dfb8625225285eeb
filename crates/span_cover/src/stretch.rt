//! A part of the span.

/// The readings from one tick to another, both ends among them, in ticks of 2^-32 s since 1970.
#[derive(Clone, Copy, Debug, PartialEq, Eq)]
pub struct Stretch {
    /// The first reading.
    pub begin: i128,
    /// The last reading.
    pub end: i128,
}
