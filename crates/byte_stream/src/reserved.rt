//! A list whose room is reserved when it's made.

ghost use Rattle.std.specs.Prelude.{◌≡◌, ◌+◌, ◌-◌, ◌≤◌, [], ◌++◌, length, nat_le, IfOk, true, false, if◌then◌else◌, vec_len};
ghost use Rattle.std.specs.Vec.{vec_capacity};

use std::alloc::{AllocError, Global};

/// Bytes, and room for some more.
#[derive(Debug, Drop)]
pub(crate) struct Reserved {
    pub(crate) bytes: Vec<u8>,
    pub(crate) room: usize,
    ghost reserved: { vec_len bytes + room ≤ vec_capacity bytes },
}

impl Reserved {
    /// No bytes, and room for this many.
    pub(crate) fn new(alloc: Global, room: usize) -> Result<Reserved, AllocError>
        ensures empty { IfOk result (λ list. list.bytes.items ≡ []) }
        ensures room { IfOk result (λ list. list.room ≡ room) }
    {
        Ok(Reserved {
            bytes: Vec::with_capacity(alloc, room)?,
            room,
        })
    }

    /// Appends the bytes if there is room for all of them, and answers whether there is.
    pub(crate) fn put(&mut self, more: &[u8]) -> bool
        ensures fits { result ≡ nat_le (length more.now) self.old.room }
        ensures appended { result ≡ true →
            self.new.bytes.items ≡ self.old.bytes.items ++ more.now }
        ensures kept { result ≡ false → self.new.bytes.items ≡ self.old.bytes.items }
        ensures room { self.new.room
            ≡ (if result then self.old.room - length more.now else self.old.room) }
    {
        if self.room < more.len() || self.bytes.extend_from_slice(more).is_err() {
            return false;
        }
        self.room -= more.len();
        true
    }
}
