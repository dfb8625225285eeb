//! One line of a file of sums.

ghost use Rattle.std.specs.Prelude.{◌≡◌, IfOk, option_map};
ghost use Rattle.sum_file.specs.Line as spec;
ghost use Rattle.sum_file.specs.Sum.{data_of};

use crate::name::unescaped;
use crate::sum::Sum;
use hex::FromHex;
use std::alloc::{AllocError, Global};

/// Whether the line has its name escaped.
fn is_escaped(line: &[u8]) -> bool
    ensures exact { result ≡ spec.is_escaped line.now }
{
    line.first() == Some(&b'\\')
}

/// The line without the backslash before it.
fn without_backslash(line: &[u8]) -> &[u8]
    ensures exact { result.now ≡ spec.without_backslash line.now }
{
    if is_escaped(line) { &line[1..] } else { line }
}

/// The digits and the shown name of a line without a backslash before it.
fn parts(line: &[u8]) -> Option<(&[u8], &[u8])>
    ensures exact { option_map (λ p. (p.0.now, p.1.now)) result ≡ spec.parts_of line.now }
{
    let (digits, rest) = line.split_at_checked(64)?;
    match rest {
        [b' ', b' ' | b'*', name @ ..] if !name.is_empty() => Some((digits, name)),
        _ => None,
    }
}

/// The name that is shown so, None if it has an escape that isn't one.
fn read_name(alloc: Global, is_escaped: bool, shown: &[u8]) -> Result<Option<Vec<u8>>, AllocError>
    ensures exact { IfOk result (λ name.
        option_map (λ bytes. bytes.items) name ≡ spec.name_of is_escaped shown.now) }
{
    if is_escaped {
        return unescaped(alloc, shown);
    }
    Ok(Some(Vec::from_slice(alloc, shown)?))
}

/// The sum that a line says, None if it isn't of the form.
pub(crate) fn read_line(alloc: Global, line: &[u8]) -> Result<Option<Sum>, AllocError>
    ensures exact { IfOk result (λ sum. option_map data_of sum ≡ spec.line_of line.now) }
{
    let Some((digits, shown)) = parts(without_backslash(line)) else {
        return Ok(None);
    };
    let Ok(digest) = <[u8; 32] as FromHex>::from_hex(digits) else {
        return Ok(None);
    };
    let name = read_name(alloc, is_escaped(line), shown)?;
    Ok(name.map(|name| Sum { digest, name }))
}
