//! The unit of a capture's sub-second field.

ghost use Rattle.std.specs.Prelude.{◌≡◌};

/// How many microseconds one second has.
pub const MICROSECONDS_PER_SECOND: u32 = 1_000_000;

/// How many nanoseconds one second has: 10^9.
pub const NANOSECONDS_PER_SECOND: u32 = 1_000_000_000;

/// The unit that the sub-second field of a capture's records counts.
#[derive(Clone, Copy, Debug, PartialEq, Eq)]
pub enum Unit {
    /// Microseconds, a million to the second.
    Micro,
    /// Nanoseconds, a thousand million to the second.
    Nano,
}

impl Unit {
    ghost use Rattle.era_unfold.specs.Window.{per_second};

    /// How many of the unit make one second: 1,000,000 or 1,000,000,000.
    pub const fn per_second(self) -> u32
        ensures { result ≡ per_second self }
    {
        match self {
            Unit::Micro => MICROSECONDS_PER_SECOND,
            Unit::Nano => NANOSECONDS_PER_SECOND,
        }
    }
}
