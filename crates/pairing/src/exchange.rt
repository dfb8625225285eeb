//! An exchange: a reply, and the one request that it answers.

/// One request and its reply (RFC 5905, section 8), with the four times in ticks of 2^-32 s since
/// 1970.
///
/// T1 and T4 are the client's readings, each known as a range of ticks; T2 and T3 are what the
/// server says. Each number of ticks lies from -2^70 to 2^70, `distance` is at least 0, and no
/// range's low end is above its high end.
#[derive(Clone, Copy, Debug, PartialEq, Eq)]
pub struct Exchange {
    /// The server's number in the claim.
    pub server: u8,
    /// The leap indicator, 0 to 2.
    pub leap: u8,
    /// The stratum, 1 to 15.
    pub stratum: u8,
    /// The reference identifier.
    pub reference: [u8; 4],
    /// The number of the request's record.
    pub request: u32,
    /// The number of the reply's record.
    pub reply: u32,
    /// The first tick of the request's record time.
    pub t1_low: i128,
    /// The last tick of the request's record time.
    pub t1_high: i128,
    /// The first tick of the reply's record time.
    pub t4_low: i128,
    /// The last tick of the reply's record time.
    pub t4_high: i128,
    /// The receive timestamp, unfolded near the request's record time.
    pub t2: i128,
    /// The transmit timestamp, unfolded near the request's record time.
    pub t3: i128,
    /// The announced root distance, in ticks.
    pub distance: i128,
}
