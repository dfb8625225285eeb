//! How long the pieces of a certificate are.

ghost use Rattle.std.specs.Prelude.{◌≡◌, ◌≤◌, ◌↔◌, IsSome, IfSome};
ghost use Rattle.finder.specs.Piece.{max_step};

/// The longest piece, in seconds: a day.
const MAX_SECONDS: u32 = 86_400;

/// How long each piece of a certificate is.
#[derive(Clone, Copy, Debug)]
pub struct Step {
    /// In seconds, from 1 to 86,400.
    pub seconds: u32,
    ghost least: { 1 ≤ seconds },
    ghost most: { seconds ≤ max_step },
}

impl Step {
    /// A step of this many seconds; none if they aren't from 1 to 86,400.
    pub fn new(seconds: u32) -> Option<Step>
        ensures range { IsSome result ↔ ((1 ≤ seconds) × (seconds ≤ max_step)) }
        ensures value { IfSome result (λ step. step.seconds ≡ seconds) }
    {
        if 1 <= seconds && seconds <= MAX_SECONDS {
            Some(Step { seconds })
        } else {
            None
        }
    }
}
