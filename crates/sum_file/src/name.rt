//! A name with its escapes.

ghost use Rattle.std.specs.Prelude.{◌≡◌, IfOk, option_map};
ghost use Rattle.sum_file.specs.Name as spec;

use std::alloc::{AllocError, Global};

/// The byte that a backslash and this byte stand for.
fn unescape(byte: u8) -> Option<u8>
    ensures exact { result ≡ spec.unescape byte }
{
    match byte {
        b'\\' => Some(b'\\'),
        b'n' => Some(b'\n'),
        b'r' => Some(b'\r'),
        _ => None,
    }
}

/// The name that is written so, None if a backslash stands before anything but a backslash, `n` or
/// `r`.
pub(crate) fn unescaped(alloc: Global, shown: &[u8]) -> Result<Option<Vec<u8>>, AllocError>
    ensures exact { IfOk result (λ name.
        option_map (λ bytes. bytes.items) name ≡ spec.unescaped shown.now) }
{
    let mut name = Vec::new(alloc);
    let mut rest = shown;
    while let Some((byte, after)) = rest.split_first() {
        rest = after;
        if *byte != b'\\' {
            name.push(*byte)?;
            continue;
        }
        let Some((escape, after)) = rest.split_first() else {
            return Ok(None);
        };
        let Some(byte) = unescape(*escape) else {
            return Ok(None);
        };
        name.push(byte)?;
        rest = after;
    }
    Ok(Some(name))
}
