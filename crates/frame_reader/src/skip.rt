//! Why a frame is skipped.

ghost use Rattle.std.specs.Prelude.{◌≡◌};

/// Why a frame holds no datagram: the first reason that applies, as the layers are read.
#[derive(Clone, Copy, Debug, PartialEq, Eq)]
pub enum Skip {
    /// The frame ends within the Ethernet header, the shortest IPv4 header or the IPv4 total
    /// length.
    Short,
    /// The type after at most one 802.1Q tag is not IPv4 (0x0800).
    OtherType,
    /// The version is not 4, the header length is below 5 words, or the total length is below it
    /// (RFC 791, section 3.1).
    IpHeader,
    /// The packet is a fragment: more fragments follow, or its offset is not zero (RFC 791,
    /// section 3.2).
    Fragment,
    /// The protocol is not UDP (17).
    OtherProtocol,
    /// Fewer than 8 bytes stand after the IPv4 header, or the UDP length is below 8 or reaches
    /// beyond the total length (RFC 768).
    UdpLength,
}

impl Skip {
    ghost use Rattle.frame_reader.specs.Skip.{skip_number};

    /// The number of the reason, from 1 to 6 in the order of declaration.
    pub fn number(&self) -> u8
        ensures { result ≡ skip_number self.now }
    {
        match self {
            Skip::Short => 1,
            Skip::OtherType => 2,
            Skip::IpHeader => 3,
            Skip::Fragment => 4,
            Skip::OtherProtocol => 5,
            Skip::UdpLength => 6,
        }
    }
}
