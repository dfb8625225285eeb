//! What a capture's header settles, and what a record's header says.

use era_unfold::Unit;

/// The order in which a capture's writer put the bytes of a number.
#[derive(Clone, Copy, Debug, PartialEq, Eq)]
pub enum Endian {
    /// The highest byte first.
    Big,
    /// The lowest byte first.
    Little,
}

/// What the magic number of a capture settles.
#[derive(Clone, Copy, Debug, PartialEq, Eq)]
pub struct Format {
    /// The byte order of each field of the file's and the records' headers.
    pub order: Endian,
    /// The unit of the records' sub-second fields.
    pub unit: Unit,
}

/// The header of one record.
#[derive(Clone, Copy, Debug, PartialEq, Eq)]
pub struct RecordHead {
    /// The byte offset of the record's header in the file.
    pub place: u64,
    /// How many records stand before it.
    pub number: u32,
    /// Seconds since 1970-01-01T00:00:00Z.
    pub sec: u32,
    /// The part of the second, in units.
    pub sub: u32,
    /// The unit of `sub`, a microsecond or a nanosecond.
    pub unit: Unit,
    /// How many bytes of the frame were captured, at most 262,144.
    pub captured: u32,
    /// How many bytes the frame had on the wire, as its writer says. It isn't checked.
    pub original: u32,
}
