//! Exchanges as they are held, in 64 bytes each.

ghost use Rattle.std.specs.Prelude.{◌≡◌, ◌<◌, pos};
ghost use Rattle.pairing.specs.Common.{per_second, packet_shown};
ghost use Rattle.pairing.specs.Compact.{exchange_shown, exchange_with, compact_of};
ghost use Rattle.pairing.specs.Message.{reply_from};
ghost use Rattle.pairing.specs.Pairing.{distance_of};

use crate::compact_window::CompactWindow;
use crate::counts::Counts;
use crate::exchange::Exchange;
use crate::to_exchange::ToExchange;
use era_unfold::unfold;
use ntp_packet::kinds::Packet;
use pcap_reader::RecordHead;

/// The request of a reply.
#[derive(Clone, Copy, Debug, PartialEq, Eq)]
pub(crate) enum CompactRequest {
    /// What names it, beside the server.
    Named {
        /// The client's port.
        port: u16,
        /// The request's transmit timestamp.
        stamp: u64,
    },
    /// Its record.
    Found {
        /// How many ticks after the first one the record's window ends.
        width: u16,
        /// The record's number.
        number: u32,
        /// The first tick of the record's window.
        low: u64,
    },
}

/// An exchange as it is held: a reply, its record's window, its timestamps as they were sent, and
/// its request.
///
/// While its request is sought it has what names it, and then the request's record.
#[derive(Clone, Copy, Debug, PartialEq, Eq)]
pub struct CompactExchange {
    /// The reference identifier.
    pub(crate) reference: [u8; 4],
    /// The number of the reply's record.
    pub(crate) reply: u32,
    /// How many ticks after the first one the window of the reply's record ends.
    pub(crate) width: u16,
    /// The server's number.
    pub(crate) server: u8,
    /// The leap indicator.
    pub(crate) leap: u8,
    /// The stratum.
    pub(crate) stratum: u8,
    /// The first tick of the window of the reply's record.
    pub(crate) low: u64,
    /// The receive timestamp.
    pub(crate) receive: u64,
    /// The transmit timestamp.
    pub(crate) transmit: u64,
    /// The root distance, in ticks.
    pub(crate) distance: u64,
    /// Its request.
    pub(crate) request: CompactRequest,
}

/// A line of the processor's cache, and half of what an `Exchange` takes.
const _: () = prove!(size_of::<CompactExchange>() == 64);

impl CompactExchange {
    /// A reply of this server, with the root distance that it announces. What names its request is
    /// known.
    #[inline(always)]
    pub(crate) fn new(
        server: u8,
        head: &RecordHead,
        packet: &Packet<'_>,
        distance: u64,
    ) -> CompactExchange
        requires distance { pos distance ≡ distance_of packet.now.header }
        requires part_of_a_second { head.now.sub < per_second head.now.unit }
        ensures { result ≡ compact_of (reply_from head.now (packet_shown packet.now) server) }
    {
        let header = &packet.header;
        let CompactWindow { low, width } = CompactWindow::new(head);
        CompactExchange {
            server,
            leap: header.leap(),
            stratum: header.stratum(),
            reference: header.reference_id(),
            reply: head.number,
            width,
            low,
            receive: header.receive(),
            transmit: header.transmit(),
            distance,
            request: CompactRequest::Named {
                port: packet.datagram.destination_port,
                stamp: header.origin(),
            },
        }
    }

    /// The server's number.
    #[inline(always)]
    #[tactic(auto, using(crate::proofs::Parts::server_is))]
    pub(crate) fn server(&self) -> u8
        ensures { result ≡ (exchange_shown self.now).server }
    {
        self.server
    }

    /// The reference identifier.
    #[inline(always)]
    #[tactic(auto, using(crate::proofs::Parts::reference_is))]
    pub(crate) fn reference(&self) -> [u8; 4]
        ensures { result ≡ (exchange_shown self.now).reference }
    {
        self.reference
    }

    /// The exchange with the request of this record and this window.
    #[inline(always)]
    fn exchange_with(&self, width: u16, number: u32, low: u64) -> Exchange
        ensures { result ≡ exchange_with width number low self.now }
    {
        let t1_low = i128::from(low);
        let t4_low = i128::from(self.low);
        Exchange {
            server: self.server,
            request: number,
            reply: self.reply,
            t1_low,
            t1_high: t1_low + i128::from(width),
            t4_low,
            t4_high: t4_low + i128::from(self.width),
            t2: unfold(self.receive, t1_low),
            t3: unfold(self.transmit, t1_low),
            distance: i128::from(self.distance),
            leap: self.leap,
            stratum: self.stratum,
            reference: self.reference,
        }
    }
}

impl ToExchange for CompactExchange {
    ghost shown = { exchange_shown };

    /// The exchange. If the request is still sought, it stands at record 0 and tick 0.
    #[inline(always)]
    #[tactic(auto, unfolding(crate::specs::Compact::exchange_shown))]
    fn to_exchange(&self) -> Exchange {
        match self.request {
            CompactRequest::Named { .. } => self.exchange_with(0, 0, 0),
            CompactRequest::Found { width, number, low } => self.exchange_with(width, number, low),
        }
    }
}

/// The exchanges of a capture as they are held, in the order of their replies, and its counts.
#[derive(Debug, Drop)]
pub struct CompactCollection {
    /// At most 1,000,000 exchanges.
    pub exchanges: Vec<CompactExchange>,
    /// How many records of each kind there are.
    pub counts: Counts,
}
