//! Ticks counted from an origin that lies before everything.

ghost use Rattle.std.specs.Prelude.{◌≡◌, ◌+◌, ◌-◌, ◌^◌, ◌≤◌, pos, ◌+ℤ◌, ◌-ℤ◌, unsigned_abs};

/// 2^75 ticks before zero.
const ORIGIN: i128 = 1 << 75;

/// Twice as far from the origin as zero.
const TWICE: u128 = 1 << 76;

/// A number of ticks from -2^74 to 2^74, counted from the origin.
pub fn from_origin(ticks: i128) -> u128
    requires { unsigned_abs ticks ≤ 2 ^ 74 }
    ensures { pos result ≡ ticks +ℤ pos (2 ^ 75) }
{
    (ticks + ORIGIN) as u128
}

/// A number of ticks that was counted from the origin, counted from zero.
pub fn from_zero(counted: u128) -> i128
    requires { counted ≤ 2 ^ 100 }
    ensures { result ≡ pos counted -ℤ pos (2 ^ 75) }
{
    counted as i128 - ORIGIN
}

/// The same tick with time running backwards through zero.
pub fn mirrored_tick(tick: u128) -> u128
    requires { tick ≤ 2 ^ 76 }
    ensures { result ≡ 2 ^ 76 - tick }
{
    TWICE - tick
}
