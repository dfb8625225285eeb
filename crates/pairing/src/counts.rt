//! How many records of each kind a capture has.

ghost use Rattle.std.specs.Prelude.{◌≡◌, ◌-◌, ◌^◌, ◌<◌};

use crate::refusal::Refusal;

/// How many records, requests and replies a capture has, and what became of the replies.
///
/// Each reply is counted under exactly one reason, or gives one exchange.
#[derive(Clone, Copy, Debug, PartialEq, Eq)]
pub struct Counts {
    /// Records of any kind.
    pub records: u32,
    /// Requests of the client to a listed server.
    pub requests: u32,
    /// Replies of a listed server to the client.
    pub replies: u32,
    /// Replies of another version than 4.
    pub version: u32,
    /// Replies that say that the server's clock is unsynchronized.
    pub leap: u32,
    /// Replies with a stratum that isn't 1 to 15.
    pub stratum: u32,
    /// Replies with a precision above 16.
    pub precision: u32,
    /// Replies with an origin, receive or transmit timestamp of zero.
    pub zero_stamp: u32,
    /// Replies that answer no request.
    pub no_request: u32,
    /// Replies that answer two requests or more.
    pub ambiguous: u32,
    /// Exchanges whose reply warns of a leap second.
    pub warnings: u32,
}

impl Counts {
    ghost use Rattle.pairing.specs.Counts.{count_for, with_leap, with_refusal, zero_counts};

    /// Nothing is counted yet.
    pub(crate) fn zero() -> Counts
        ensures { result ≡ zero_counts }
    {
        Counts {
            records: 0,
            requests: 0,
            replies: 0,
            version: 0,
            leap: 0,
            stratum: 0,
            precision: 0,
            zero_stamp: 0,
            no_request: 0,
            ambiguous: 0,
            warnings: 0,
        }
    }

    /// Counts an exchange whose reply has this leap indicator.
    #[inline(always)]
    pub(crate) fn accept(&mut self, leap: u8)
        requires { self.old.warnings < 2 ^ 32 - 1 }
        ensures { self.new ≡ with_leap leap self.old }
    {
        self.warnings += u32::from(leap == 1 || leap == 2);
    }

    /// Counts a reply that is refused for this reason.
    pub(crate) fn refuse(&mut self, refusal: Refusal)
        requires { count_for refusal self.old < 2 ^ 32 - 1 }
        ensures { self.new ≡ with_refusal refusal self.old }
    {
        match refusal {
            Refusal::Version => self.version += 1,
            Refusal::Leap => self.leap += 1,
            Refusal::Stratum => self.stratum += 1,
            Refusal::Precision => self.precision += 1,
            Refusal::ZeroStamp => self.zero_stamp += 1,
            Refusal::NoRequest => self.no_request += 1,
            Refusal::Ambiguous => self.ambiguous += 1,
        }
    }
}
