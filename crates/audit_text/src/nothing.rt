//! The text of `find` if nothing is found.

ghost use Rattle.std.specs.Prelude.{◌≡◌, IfOk};
ghost use Rattle.audit_text.specs.Nothing as spec;

use crate::table::{hull_high, hull_low};
use intersection::kinds::Hull;
use line_writer::{Field, Style, add_line};
use std::alloc::{AllocError, Global};

/// The text of `find` if no certificate is found: the number of the piece that fails, and its hull,
/// in ticks of 2^-32 s.
#[tactic(auto, unfolding(crate::specs::Nothing::nothing_text))]
pub fn nothing_text(
    alloc: Global,
    style: Style,
    piece: u32,
    hull: Hull,
) -> Result<Vec<u8>, AllocError>
    ensures { IfOk result (λ text. text.items ≡ spec.nothing_text style piece hull) }
{
    let mut text = Vec::new(alloc);
    let fields = [
        Field::Word("nothing"),
        Field::Named("piece", u64::from(piece)),
        Field::Word("hull"),
        hull_low(hull),
        hull_high(hull),
    ];
    add_line(&mut text, style, &fields)?;
    Ok(text)
}
