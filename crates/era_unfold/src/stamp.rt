//! The moment that an NTP timestamp stands for.

ghost use Rattle.std.specs.Prelude.{◌≡◌, ◌%◌, pos, ◌+ℤ◌, ◌≤ℤ◌, unsigned_abs};
ghost use Rattle.era_unfold.specs.Stamp.{StandsFor, IsUnfolded, unfolded, era};

/// How many ticks of 2^-32 second an era of NTP timestamps has: 2^64 (RFC 5905, section 6).
pub const ERA: i128 = 1 << 64;

const HALF_ERA: u64 = 1 << 63;

/// 1970-01-01T00:00:00Z as a timestamp of era 0.
const UNIX_EPOCH: u64 = 2_208_988_800 << 32;

/// The Unix tick that a 64-bit NTP timestamp stands for (RFC 5905, section 6), of all eras the one
/// nearest to `near`: from 2^63 ticks before it to less than 2^63 ticks after it. Both count ticks
/// of 2^-32 second from 1970-01-01T00:00:00Z, and `near` is from 0 to 2^64. The timestamp zero,
/// which says "unknown" in a packet, is unfolded as any other.
pub fn unfold(stamp: u64, near: i128) -> i128
    requires from_1970 { pos 0 ≤ℤ near }
    requires one_era { near ≤ℤ pos era }
    ensures congruent_and_near { IsUnfolded stamp near result }
    ensures value { result ≡ unfolded stamp near }
{
    let ahead = ticks_ahead(stamp, near);
    if ahead < HALF_ERA {
        near + ahead as i128
    } else {
        near + ahead as i128 - ERA
    }
}

/// How far the timestamp's next tick is ahead of `near`.
fn ticks_ahead(stamp: u64, near: i128) -> u64
    requires from_1970 { pos 0 ≤ℤ near }
    requires one_era { near ≤ℤ pos era }
    ensures { StandsFor stamp (near +ℤ pos result) }
{
    stamp
        .wrapping_sub(UNIX_EPOCH)
        .wrapping_sub(place_in_era(near))
}

/// The low 64 bits of a tick.
fn place_in_era(tick: i128) -> u64
    requires { pos 0 ≤ℤ tick }
    ensures { result ≡ unsigned_abs tick % era }
{
    (tick & (ERA - 1)) as u64
}
