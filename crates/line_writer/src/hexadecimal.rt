//! Bytes and numbers in hexadecimal.

ghost use Rattle.std.specs.Prelude.{◌≡◌, ◌+◌, ◌*◌, ◌≤◌, ◌++◌, length};
ghost use Rattle.hex.specs.Hex.{encode_lower};
ghost use Rattle.line_writer.specs.Text.{hexadecimal};

use crate::line::{CAPACITY, Line};

/// The two digits of each byte, one byte after another.
static PAIRS: [u8; 512] = *b"000102030405060708090a0b0c0d0e0f101112131415161718191a1b1c1d1e1f\
        202122232425262728292a2b2c2d2e2f303132333435363738393a3b3c3d3e3f\
        404142434445464748494a4b4c4d4e4f505152535455565758595a5b5c5d5e5f\
        606162636465666768696a6b6c6d6e6f707172737475767778797a7b7c7d7e7f\
        808182838485868788898a8b8c8d8e8f909192939495969798999a9b9c9d9e9f\
        a0a1a2a3a4a5a6a7a8a9aaabacadaeafb0b1b2b3b4b5b6b7b8b9babbbcbdbebf\
        c0c1c2c3c4c5c6c7c8c9cacbcccdcecfd0d1d2d3d4d5d6d7d8d9dadbdcdddedf\
        e0e1e2e3e4e5e6e7e8e9eaebecedeeeff0f1f2f3f4f5f6f7f8f9fafbfcfdfeff";

impl Line {
    /// Writes bytes in hexadecimal, two digits each, in lower case.
    #[inline]
    pub fn put_hexadecimal(&mut self, bytes: &[u8])
        requires { length self.old + 2 * length bytes.now ≤ CAPACITY }
        ensures text { self.new ≡ encode_lower bytes.now ++ self.old }
        ensures grows { length self.new ≡ length self.old + 2 * length bytes.now }
    {
        let mut left = bytes.len();
        while left > 0 {
            left -= 1;
            let pair = usize::from(bytes[left]) * 2;
            self.put_pair(PAIRS[pair], PAIRS[pair + 1]);
        }
    }

    /// Writes a number of 64 bits as sixteen hexadecimal digits, as a timestamp stands in a packet.
    #[inline]
    pub fn put_stamp(&mut self, n: u64)
        requires { length self.old + 16 ≤ CAPACITY }
        ensures text { self.new ≡ hexadecimal 8 n ++ self.old }
        ensures grows { length self.new ≡ length self.old + 16 }
    {
        self.put_hexadecimal(&n.to_be_bytes());
    }
}
