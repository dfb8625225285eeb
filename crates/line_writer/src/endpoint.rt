//! Addresses and ports.

ghost use Rattle.std.specs.Prelude.{◌≡◌, ◌+◌, ◌≤◌, ◌++◌, length};
ghost use Rattle.line_writer.specs.Text.{address, endpoint};

use crate::line::{CAPACITY, Line};

impl Line {
    /// Writes an IPv4 address: its four numbers, joined by dots.
    #[inline]
    pub fn put_address(&mut self, bytes: &[u8; 4])
        requires { length self.old + 15 ≤ CAPACITY }
        ensures text { self.new ≡ address bytes.now ++ self.old }
        ensures at_most { length self.new ≤ length self.old + 15 }
    {
        self.put_number(bytes[3]);
        self.put_byte(b'.');
        self.put_number(bytes[2]);
        self.put_byte(b'.');
        self.put_number(bytes[1]);
        self.put_byte(b'.');
        self.put_number(bytes[0]);
    }

    /// Writes an IPv4 address and a port, with a colon between them.
    #[inline]
    pub fn put_endpoint(&mut self, bytes: &[u8; 4], port: u16)
        requires { length self.old + 21 ≤ CAPACITY }
        ensures text { self.new ≡ endpoint bytes.now port ++ self.old }
        ensures at_most { length self.new ≤ length self.old + 21 }
    {
        self.put_number(port);
        self.put_byte(b':');
        self.put_address(bytes);
    }
}
