//! The windows of an exchange's two client moments.

ghost use Rattle.std.specs.Prelude.{◌≡◌, ◌≤◌, ◌^◌, pos, ◌≤ℤ◌, unsigned_abs};
ghost use Rattle.sample_interval.specs.Exchange.{IsOfSomeClaim};
ghost use Rattle.sample_interval.specs.Window.{request_start, request_end, reply_start, reply_end};

use pairing::Exchange;

/// The readings that the client's clock can have had at a moment.
#[derive(Clone, Copy)]
pub struct Window {
    pub start: i128,
    pub end: i128,
}

/// The client's readings at the request.
pub fn request_window(x: &Exchange, reading: i128) -> Window
    requires exchange { IsOfSomeClaim x.now }
    requires from_zero { pos 0 ≤ℤ reading }
    requires at_most_a_second { reading ≤ℤ pos (2 ^ 32) }
    ensures start { result.start ≡ request_start x.now reading }
    ensures end { result.end ≡ request_end x.now reading }
    ensures start_in_range { unsigned_abs result.start ≤ 2 ^ 71 }
    ensures end_in_range { unsigned_abs result.end ≤ 2 ^ 71 }
{
    Window {
        start: x.t1_low - reading,
        end: x.t1_high + reading,
    }
}

/// The client's readings at the reply.
pub fn reply_window(x: &Exchange, reading: i128) -> Window
    requires exchange { IsOfSomeClaim x.now }
    requires from_zero { pos 0 ≤ℤ reading }
    requires at_most_a_second { reading ≤ℤ pos (2 ^ 32) }
    ensures start { result.start ≡ reply_start x.now reading }
    ensures end { result.end ≡ reply_end x.now reading }
    ensures start_in_range { unsigned_abs result.start ≤ 2 ^ 71 }
    ensures end_in_range { unsigned_abs result.end ≤ 2 ^ 71 }
{
    Window {
        start: x.t4_low - reading,
        end: x.t4_high + reading,
    }
}
