//! Exchanges by their numbers.

ghost use Rattle.std.specs.Prelude.{◌≡◌, IfSome, length, map, slice_get, All};
ghost use Rattle.cover_checker.specs.Common.{IsLawful};

use pairing::{Exchange, ToExchange};

/// The exchange of this number, if there is one.
pub fn exchange_named<X: ToExchange>(exchanges: &[X], number: u32) -> Option<Exchange>
    ensures { result ≡ slice_get (map X.shown exchanges.now) number }
{
    let number = number as usize;
    if number < exchanges.len() {
        Some(exchanges[number].to_exchange())
    } else {
        None
    }
}
