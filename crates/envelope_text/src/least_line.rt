//! The line of the least bound that a certificate carries.

ghost use Rattle.std.specs.Prelude.{◌≡◌, ◌++◌, IfOk};
ghost use Rattle.envelope_text.specs.LeastLine as spec;

use audit_text::word_for;
use line_writer::{Field, Style, add_line};
use std::alloc::AllocError;

/// What is said of the least bound that a certificate carries.
#[derive(Clone, Copy, Debug)]
pub enum LeastLine {
    /// It isn't asked for.
    NotAsked,
    /// No certificate carries any bound.
    NoneHolds,
    /// There is one.
    Holds {
        /// The bound in nanoseconds.
        bound_ns: u64,
        /// The piece of the envelope that holds the tick at which the search for a certificate
        /// stops with a nanosecond less, counted from 0.
        piece: u32,
    },
}

/// Adds the line of the least bound, if it is asked for.
#[tactic(auto, unfolding(crate::specs::LeastLine::least_line))]
pub(crate) fn add_least(
    text: &mut Vec<u8>,
    style: Style,
    least: LeastLine,
) -> Result<(), AllocError>
    ensures { IfOk result (λ _. text.new.items ≡ text.old.items ++ spec.least_line style least) }
{
    match least {
        LeastLine::NotAsked => Ok(()),
        LeastLine::NoneHolds => {
            let none = word_for(style, "least_ns none", "least none");
            add_line(text, style, &[none])
        }
        LeastLine::Holds { bound_ns, piece } => {
            let least = word_for(style, "least_ns", "least");
            let bound = Field::Nanoseconds(u128::from(bound_ns));
            let piece = Field::Named("piece", u64::from(piece));
            add_line(text, style, &[least, bound, piece])
        }
    }
}
