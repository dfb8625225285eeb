//! The highest marks on a way, as they are kept.

ghost use Rattle.std.specs.Prelude.{◌<◌, ◌≤◌, ◌^◌, unsigned_abs};

use error_marks::Mark;

/// A mark with the number of its exchange.
#[derive(Clone, Copy)]
pub(crate) struct Numbered {
    pub(crate) mark: Mark,
    pub(crate) number: u32,
}

/// A mark that stands higher than all that come before it on its way.
#[derive(Clone, Copy)]
pub(crate) struct Peak {
    /// Where it is on the way.
    pub(crate) place: i128,
    /// How high it stands, in parts of a tick.
    pub(crate) height: i128,
    /// The number of its exchange.
    pub(crate) number: u32,
    ghost in_range: { unsigned_abs height ≤ 2 ^ 106 },
}

/// An end that was found: where a mark is moved to, in ticks, and the number of its exchange.
#[derive(Clone, Copy)]
pub(crate) struct End {
    pub(crate) error: i128,
    pub(crate) number: u32,
}

/// The highest marks of a server on a way through the places. From a mark's place on its error is
/// lowered by `drift` for each `rate` of the way.
#[derive(Drop)]
pub(crate) struct Ridge {
    pub(crate) peaks: Vec<Peak>,
    pub(crate) drift: u32,
    pub(crate) rate: u32,
    ghost some: { 0 < rate },
}
