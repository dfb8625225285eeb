//! NTP headers and root distances, by hand.

use crate::expectation::{assert_equal, assert_equal_at};
use ntp_packet::{NtpView, view};

/// A header whose bytes all differ.
const MIXED: [u8; 48] = [
    0xd9, 0x93, 0x96, 0x99, 0x9c, 0x9f, 0xa2, 0xa5, 0xa8, 0xab, 0xae, 0xb1, 0xb4, 0xb7, 0xba, 0xbd,
    0xc0, 0xc3, 0xc6, 0xc9, 0xcc, 0xcf, 0xd2, 0xd5, 0xd8, 0xdb, 0xde, 0xe1, 0xe4, 0xe7, 0xea, 0xed,
    0xf0, 0xf3, 0xf6, 0xf9, 0xfc, 0xff, 0x02, 0x05, 0x08, 0x0b, 0x0e, 0x11, 0x14, 0x17, 0x1a, 0x1d,
];

/// Leap indicator, version, mode and stratum; poll and precision; root delay and root dispersion;
/// the reference identifier; and the reference, origin, receive and transmit timestamps.
type Fields = ([u8; 4], [i8; 2], [u32; 2], [u8; 4], [u64; 4]);

const MIXED_FIELDS: Fields = (
    [3, 3, 1, 147],
    [-106, -103],
    [0x9c9f_a2a5, 0xa8ab_aeb1],
    [0xb4, 0xb7, 0xba, 0xbd],
    [
        0xc0c3_c6c9_cccf_d2d5,
        0xd8db_dee1_e4e7_eaed,
        0xf0f3_f6f9_fcff_0205,
        0x080b_0e11_1417_1a1d,
    ],
);

fn fields_of(h: &NtpView<'_>) -> Fields {
    (
        [h.leap(), h.version(), h.mode(), h.stratum()],
        [h.poll(), h.precision()],
        [h.root_delay(), h.root_dispersion()],
        h.reference_id(),
        [h.reference(), h.origin(), h.receive(), h.transmit()],
    )
}

#[test]
fn reads_every_field(rt: HostRuntime) {
    let got = view(&MIXED).map(|header| fields_of(&header));
    assert_equal(&rt, got, Some(MIXED_FIELDS));
}

/// Root delay, root dispersion, precision (its byte), and the root distance that they make.
const DISTANCES: [(u32, u32, u8, Option<u64>); 10] = [
    (0, 0, 0xe0, Some(1)),
    (256, 16, 0xec, Some(9_441_280)),
    (0xffff_ffff, 0, 0xe0, Some(140_737_488_322_561)),
    (0xffff_ffff, 0xffff_ffff, 16, Some(703_687_441_678_336)),
    (0, 0, 17, None),
    (0, 0, 127, None),
    (0, 0, 0, Some(4_294_967_296)),
    (0, 0, 0xe1, Some(2)),
    (2, 0, 0xdf, Some(65_537)),
    (0, 0, 0x80, Some(1)),
];

#[test]
fn adds_up_the_root_distance(rt: HostRuntime) {
    for (delay, dispersion, precision, want) in DISTANCES {
        let mut payload = MIXED;
        payload[3] = precision;
        payload[4..8].copy_from_slice(&delay.to_be_bytes());
        payload[8..12].copy_from_slice(&dispersion.to_be_bytes());
        let got = view(&payload).map(|header| header.root_distance());
        assert_equal_at(&rt, got, Some(want), (delay, dispersion, precision));
    }
}
