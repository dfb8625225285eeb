//! The texts of `refute`, and of `find --refutation` if nothing is found.

ghost use Rattle.std.specs.Prelude.{◌≡◌, IfOk};
ghost use Rattle.audit_text.specs.Refutation as spec;

use line_writer::Style;
use std::alloc::{AllocError, Global};

/// The text of `refute`: whether the refutation is accepted.
pub fn refuted_text(alloc: Global, refuted: bool) -> Result<Vec<u8>, AllocError>
    ensures { IfOk result (λ text. text.items ≡ spec.refuted_text refuted) }
{
    let text = if refuted {
        "refuted yes\n"
    } else {
        "refuted no\n"
    };
    text.as_bytes().to_vec(alloc)
}

/// The text of `find --refutation` if no refutation is found.
pub fn no_refutation_text(alloc: Global, style: Style) -> Result<Vec<u8>, AllocError>
    ensures { IfOk result (λ text. text.items ≡ spec.no_refutation_text style) }
{
    let text = match style {
        Style::Plain => "nothing refutation\n",
        _ => "no refutation found\n",
    };
    text.as_bytes().to_vec(alloc)
}
