//! What one exchange with a server says about the client's clock: an interval for its error
//! (RFC 5905, section 8).
//!
//! - [`sample`] gives the least error that the clock can have had at the request and the greatest
//!   at the reply, if the server isn't false, each with the readings at which it holds.
//! - [`offset`] and [`delay`] give the two numbers of RFC 5905, each as an interval, since the
//!   client's two times are known as windows.
//! - [`widen`] gives how far the error can drift while the clock advances by this much.
//!
//! Each is exact by its contract, takes no memory and refuses nothing. [`laws`] has what holds of
//! the definitions.
//!
//! A [`SampleSource`] gives samples under their numbers. A slice of them is one, and so is
//! [`ExchangeSamples`], which makes each sample from its exchange when it is asked for.
//!
//! What an exchange of 20 ms says, as `exact_readings` of `worked_examples/src/checking/samples.rt`
//! asks for it, which the gate runs:
//!
//! ```text
//! let x = exchange();
//! assert_equal(&rt, offset(&x, 0), (-4295, 1));
//! assert_equal(&rt, delay(&x, 0), (85_895_050, 85_903_641));
//! assert_equal(&rt, sample(&x, 0), twenty_milliseconds());
//! ```

#![tactic(auto)]

mod bounds;
mod exchange_samples;
pub mod kinds;
pub mod laws;
mod on_wire;
mod source;
mod widening;
mod window;

pub use bounds::sample;
pub use exchange_samples::ExchangeSamples;
pub use on_wire::{delay, offset};
pub use source::SampleSource;
pub use widening::{PARTS, widen};
