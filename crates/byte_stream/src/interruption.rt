//! Calls of a device that a signal interrupted.

/// How many times an interrupted call is made in all before it counts as failed. Only a device that
/// never gets to work is interrupted this often.
pub(crate) const MAX_TRIES: u32 = 1_000;
