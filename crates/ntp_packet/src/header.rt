//! The header of an NTP packet.

ghost use Rattle.std.specs.Prelude.{◌≡◌, ◌<◌, ◌↔◌, length, IsNone, IfSome};
ghost use Rattle.ntp_packet.specs.Header.{header_of, leap_of, version_of, mode_of, stratum_of, poll_of, precision_of, root_delay_of, root_dispersion_of, reference_id_of, reference_of, origin_of, receive_of, transmit_of};

use byteorder::{BigEndian, ByteOrder};
use std::marker::Model;

/// How many bytes a header has.
const HEADER_BYTES: usize = 48;

/// The header of an NTP packet, read where it stands in a payload (RFC 5905, section 7.3; its
/// formats of time are those of section 6). In clauses it is the list of its 48 bytes.
#[derive(Debug, Drop)]
pub struct NtpView<'a> {
    bytes: &'a [u8],
}

impl<'a> Model for NtpView<'a> {
    ghost use Rattle.std.specs.Prelude.{◌≡◌, ℕ, List, length};

    ghost Value = { List ℕ };

    ghost view = { λ header. header.bytes.now };

    ghost invariant = { λ header. length header.bytes.now ≡ 48 };
}

/// The header at the start of an NTP packet, the payload of a UDP datagram. What follows its 48
/// bytes is ignored. `None` comes for a payload of fewer than 48 bytes and no other.
pub fn view(payload: &[u8]) -> Option<NtpView<'_>>
    ensures none { IsNone result ↔ (length payload.now < 48) }
    ensures header { IfSome result (λ header. header ≡ header_of payload.now) }
{
    let bytes = payload.get(..HEADER_BYTES)?;
    Some(NtpView { bytes })
}

#[tactic(auto, unfolding(crate::specs::Header::field))]
impl NtpView<'_> {
    /// The leap indicator, 0 to 3. 1 and 2 warn of a leap second, and 3 says that the clock is
    /// unsynchronized.
    #[tactic(auto, unfolding(crate::specs::Header::leap_of))]
    pub fn leap(&self) -> u8
        ensures { result ≡ leap_of self.now }
    {
        self.bytes[0] >> 6
    }

    /// The version number, 0 to 7.
    #[tactic(auto, unfolding(crate::specs::Header::version_of), using(crate::proofs::Fields::bits))]
    pub fn version(&self) -> u8
        ensures { result ≡ version_of self.now }
    {
        self.bytes[0] >> 3 & 7
    }

    /// The mode, 0 to 7. 3 is a client and 4 a server.
    #[tactic(auto, unfolding(crate::specs::Header::mode_of), using(crate::proofs::Fields::bits))]
    pub fn mode(&self) -> u8
        ensures { result ≡ mode_of self.now }
    {
        self.bytes[0] & 7
    }

    /// The stratum: 1 is a primary server, 2 to 15 a secondary one, 0 unspecified or a kiss code,
    /// 16 unsynchronized, and the rest reserved.
    pub fn stratum(&self) -> u8
        ensures { result ≡ stratum_of self.now }
    {
        self.bytes[1]
    }

    /// The longest time between messages, in log2 seconds, -128 to 127.
    #[tactic(auto, unfolding(crate::specs::Header::field, crate::specs::Header::signed_field))]
    pub fn poll(&self) -> i8
        ensures { result ≡ poll_of self.now }
    {
        self.bytes[2].cast_signed()
    }

    /// The precision of the sender's clock, in log2 seconds, -128 to 127.
    #[tactic(auto, unfolding(crate::specs::Header::field, crate::specs::Header::signed_field))]
    pub fn precision(&self) -> i8
        ensures { result ≡ precision_of self.now }
    {
        self.bytes[3].cast_signed()
    }

    /// The round trip to the reference clock, in units of 2^-16 s, read as unsigned.
    pub fn root_delay(&self) -> u32
        ensures { result ≡ root_delay_of self.now }
    {
        BigEndian::read_u32(&self.bytes[4..8])
    }

    /// The dispersion to the reference clock, in units of 2^-16 s, read as unsigned.
    pub fn root_dispersion(&self) -> u32
        ensures { result ≡ root_dispersion_of self.now }
    {
        BigEndian::read_u32(&self.bytes[8..12])
    }

    /// The reference identifier: the source that the sender takes its time from, or a kiss code.
    #[tactic(auto, unfolding(crate::specs::Header::reference_id_of))]
    pub fn reference_id(&self) -> [u8; 4]
        ensures { result ≡ reference_id_of self.now }
    {
        [
            self.bytes[12],
            self.bytes[13],
            self.bytes[14],
            self.bytes[15],
        ]
    }

    /// The reference timestamp, when the sender's clock was last set, in units of 2^-32 s.
    pub fn reference(&self) -> u64
        ensures { result ≡ reference_of self.now }
    {
        BigEndian::read_u64(&self.bytes[16..24])
    }

    /// The origin timestamp, in a reply the transmit timestamp of its request, in units of 2^-32 s.
    pub fn origin(&self) -> u64
        ensures { result ≡ origin_of self.now }
    {
        BigEndian::read_u64(&self.bytes[24..32])
    }

    /// The receive timestamp, when the request reached the server, in units of 2^-32 s.
    pub fn receive(&self) -> u64
        ensures { result ≡ receive_of self.now }
    {
        BigEndian::read_u64(&self.bytes[32..40])
    }

    /// The transmit timestamp, when the packet left its sender, in units of 2^-32 s.
    pub fn transmit(&self) -> u64
        ensures { result ≡ transmit_of self.now }
    {
        BigEndian::read_u64(&self.bytes[40..48])
    }
}
