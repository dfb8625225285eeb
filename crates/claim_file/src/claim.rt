//! A claim, which keeps every limit that a calculation asks for.

ghost use Rattle.claim_file.specs.Limits.{IsLawful};

/// The most servers that a claim may name.
pub const MAX_SERVERS: usize = 32;

/// The most groups of servers that may be false.
pub const MAX_FALSE: u64 = 31;

/// The greatest bound in nanoseconds: a million seconds.
pub const MAX_BOUND_NS: u64 = 1_000_000_000_000_000;

/// The greatest drift in parts of 10^9: a half.
pub const MAX_DRIFT_PPB: u64 = 500_000_000;

/// The greatest allowance for readings in nanoseconds: a second.
pub const MAX_READING_NS: u64 = 1_000_000_000;

/// A claim: the client's clock stayed within a bound of UTC over a span, if at most `false_max`
/// groups of servers are false.
#[derive(Debug, Drop)]
pub struct Claim {
    /// The client's address.
    pub client: [u8; 4],
    /// The servers' addresses, 1 to 32. A server's number is its place here, from 0.
    pub servers: Vec<[u8; 4]>,
    /// For each server the number of its group, below the count of servers.
    pub groups: Vec<u8>,
    /// How many groups of servers may be false, at most 31.
    pub false_max: u8,
    /// The first tick of the span.
    pub first: i128,
    /// The last tick of the span, which belongs to it.
    pub last: i128,
    /// The bound, in ticks, rounded down.
    pub bound: i128,
    /// The bound in nanoseconds, as it is claimed.
    pub bound_ns: u64,
    /// The greatest drift of the client's clock, in parts of 10^9.
    pub drift_ppb: u32,
    /// How far a record time may be from the client's reading, in ticks, rounded up.
    pub reading: i128,
    /// The same in nanoseconds, as it is claimed.
    pub reading_ns: u64,
    pub ghost lawful: { IsLawful (record {
      client = client;
      servers = servers.items;
      groups = groups.items;
      false_max = false_max;
      first = first;
      last = last;
      bound = bound;
      bound_ns = bound_ns;
      drift_ppb = drift_ppb;
      reading = reading;
      reading_ns = reading_ns;
    }) },
}
