//! Frames that are skipped, and why, and frames that hold a datagram, by hand.

use crate::expectation::{assert_equal, assert_equal_at};
use frame_reader::kinds::Datagram;
use frame_reader::{Skip, datagram};
use vectors::V1;

/// The frame of the request of `V1` with other bytes at some places.
fn edited(edits: &[(usize, u8)]) -> [u8; 90] {
    let mut frame = [0; 90];
    frame.copy_from_slice(&V1[40..130]);
    for (at, byte) in edits {
        if let Some(place) = frame.get_mut(*at) {
            *place = *byte;
        }
    }
    frame
}

#[test]
fn skips_for_the_first_reason(rt: HostRuntime) {
    let skipped: [(&[(usize, u8)], Skip); 14] = [
        (&[(12, 0x86), (13, 0xdd)], Skip::OtherType),
        (&[(14, 0x65)], Skip::IpHeader),
        (&[(14, 0x44)], Skip::IpHeader),
        (&[(17, 19)], Skip::IpHeader),
        (&[(17, 77)], Skip::Short),
        (&[(20, 0x20)], Skip::Fragment),
        (&[(21, 1)], Skip::Fragment),
        (&[(20, 0x20), (23, 6)], Skip::Fragment),
        (&[(23, 6)], Skip::OtherProtocol),
        (&[(39, 57)], Skip::UdpLength),
        (&[(39, 7)], Skip::UdpLength),
        (&[(17, 27)], Skip::UdpLength),
        (&[(17, 77), (20, 0x20)], Skip::Short),
        (&[(14, 0x44), (17, 77)], Skip::IpHeader),
    ];
    for (edits, skip) in &skipped {
        assert_equal_at(&rt, datagram(&edited(edits)), Err(*skip), edits);
    }
}

#[test]
fn any_cut_is_short(rt: HostRuntime) {
    let frame = edited(&[]);
    for end in 0..90 {
        assert_equal_at(&rt, datagram(&frame[..end]), Err(Skip::Short), end);
    }
}

/// The datagram of the request of `V1`: its payload is the frame's last 48 bytes.
const REQUEST: Datagram<'static> = Datagram {
    source: [192, 0, 2, 10],
    destination: [192, 0, 2, 1],
    source_port: 49_152,
    destination_port: 123,
    payload: &[
        0x23, 0x00, 0x06, 0x00, 0x00, 0x00, 0x00, 0x00, 0x00, 0x00, 0x00, 0x00, 0x00, 0x00, 0x00,
        0x00, 0x00, 0x00, 0x00, 0x00, 0x00, 0x00, 0x00, 0x00, 0x00, 0x00, 0x00, 0x00, 0x00, 0x00,
        0x00, 0x00, 0x00, 0x00, 0x00, 0x00, 0x00, 0x00, 0x00, 0x00, 0x11, 0x22, 0x33, 0x44, 0x55,
        0x66, 0x77, 0x88,
    ],
};

/// What stands behind the datagram is padding: it belongs to neither the packet nor the payload.
#[test]
fn padding(rt: HostRuntime) {
    let mut frame = [0xff; 100];
    frame[..90].copy_from_slice(&V1[40..130]);
    assert_equal(&rt, datagram(&frame[..90]), Ok(REQUEST));
    assert_equal(&rt, datagram(&frame), Ok(REQUEST));
}
