//! What stands in a file or on the command line, as it can be shown.

ghost use Rattle.std.specs.Prelude.{◌≡◌, ◌++◌, IfOk, OnOk, string_bytes};
ghost use Rattle.fault_words.specs.Quote as spec;

use std::alloc::{AllocError, Global};

/// How many characters of what stands in a file are shown at most.
const MAX_SHOWN: usize = 40;

/// Whether a character turns the direction in which those beside it are shown (Unicode's
/// Bidi_Control), so that a name could be read as another.
fn turns(c: char) -> bool
    ensures { result ≡ spec.turns c }
{
    matches!(
        c,
        '\u{61c}' | '\u{200e}'..='\u{200f}' | '\u{202a}'..='\u{202e}' | '\u{2066}'..='\u{2069}'
    )
}

/// Adds a character, or its number if it is a control character or turns others.
pub(crate) fn add_shown(text: &mut String, alloc: Global, c: char) -> Result<(), AllocError>
    ensures { OnOk result (string_bytes text.new ≡ string_bytes text.old ++ spec.shown_char c) }
{
    if c.is_control() || turns(c) {
        let number = format!(in alloc; "\\u{{{:x}}}", u32::from(c))?;
        text.push_str(number.as_str())
    } else {
        text.push(c)
    }
}

/// A text with its control characters, and those that turn others, as their numbers.
pub fn shown(alloc: Global, text: &str) -> Result<String, AllocError>
    ensures escaped { IfOk result (λ out. string_bytes out ≡ spec.shown text.now) }
    ensures quiet { IfOk result (λ out. spec.IsQuiet (string_bytes out)) }
{
    let mut out = String::new(alloc);
    for c in text.chars() {
        add_shown(&mut out, alloc, c)?;
    }
    Ok(out)
}

/// The first 40 characters of a text, shown so.
fn front(alloc: Global, text: &str) -> Result<String, AllocError>
    ensures escaped { IfOk result (λ out. string_bytes out ≡ spec.front text.now) }
    ensures quiet { IfOk result (λ out. spec.IsQuiet (string_bytes out)) }
{
    let mut out = String::new(alloc);
    for c in text.chars().take(MAX_SHOWN) {
        add_shown(&mut out, alloc, c)?;
    }
    Ok(out)
}

/// The first 40 characters of a text, shown so, and two dots if there are more.
pub fn quoted(alloc: Global, text: &str) -> Result<String, AllocError>
    ensures short { IfOk result (λ out. spec.IsQuoted text.now (string_bytes out)) }
    ensures quiet { IfOk result (λ out. spec.IsQuiet (string_bytes out)) }
{
    let mut out = front(alloc, text)?;
    if MAX_SHOWN < text.chars().count() {
        out.push_str("..")?;
    }
    Ok(out)
}
