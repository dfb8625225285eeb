//! What says an exchange.

ghost use Rattle.std.specs.Prelude.{◌≡◌};
ghost use Rattle.pairing.specs.declared.exchange.Exchange.{Exchange};

use crate::exchange::Exchange;

/// What says one exchange, in whatever form it is held.
pub trait ToExchange: Copy {
    /// The exchange that it says.
    ghost shown: { Self → Exchange };

    /// The exchange that it says.
    fn to_exchange(&self) -> Exchange
        ensures { result ≡ shown self.now };
}

impl ToExchange for Exchange {
    ghost shown = { λ x. x };

    #[inline(always)]
    fn to_exchange(&self) -> Exchange {
        *self
    }
}
