//! Why a capture is refused.

ghost use Rattle.std.specs.Prelude.{◌≡◌};
ghost use Rattle.pcap_reader.specs.Fault.{number_of};

use thiserror::Error;

/// Why a capture is refused. A place is the byte offset of a record's header in the file.
#[derive(Clone, Copy, Debug, PartialEq, Eq, Error)]
pub enum CaptureFault {
    /// Fewer than 24 bytes.
    #[error("fewer than 24 bytes")]
    TornHeader,
    /// The first four bytes are no magic number of a classic capture.
    #[error("no classic capture")]
    Magic,
    /// The version isn't 2.4.
    #[error("the version isn't 2.4")]
    Version,
    /// The link type isn't Ethernet, 1.
    #[error("the link type isn't Ethernet")]
    Link,
    /// The bytes end inside the record at this place.
    #[error("the record at {0} is cut off")]
    TornRecord(u64),
    /// The record at this place says that it holds more than 262,144 bytes.
    #[error("the record at {0} is over 262144 bytes")]
    TooLong(u64),
    /// The sub-second field of the record at this place is a second or more.
    #[error("the record at {0} has a fraction of a second or more")]
    BadFraction(u64),
    /// Bytes stand after 4,000,000 records.
    #[error("over 4000000 records")]
    TooMany,
    /// The device failed.
    #[error("the device failed")]
    Read,
    /// Out of memory.
    #[error("out of memory")]
    Memory,
    /// An earlier call answered a fault.
    #[error("a fault was answered before")]
    Failed,
}

impl CaptureFault {
    /// The fault's number, from 1 in the order of the variants.
    pub fn number(&self) -> u8
        ensures { result ≡ number_of self.now }
    {
        match self {
            CaptureFault::TornHeader => 1,
            CaptureFault::Magic => 2,
            CaptureFault::Version => 3,
            CaptureFault::Link => 4,
            CaptureFault::TornRecord(_) => 5,
            CaptureFault::TooLong(_) => 6,
            CaptureFault::BadFraction(_) => 7,
            CaptureFault::TooMany => 8,
            CaptureFault::Read => 9,
            CaptureFault::Memory => 10,
            CaptureFault::Failed => 11,
        }
    }
}
