//! A JSON text read token by token, without a tree of values.
//!
//! The `depth` of each function is how deep arrays and objects may still nest. Invalid says that no
//! value of JSON comes next: the grammar is broken, no float holds a number, or something nests too
//! deep. After it nothing is known of what the reader gives.

ghost use Rattle.std.specs.Prelude.{◌≡◌, ◌-◌, ◌<◌, length, MatchResult, OnOk, Some, None};
ghost use Rattle.std.specs.Bool.{MatchBool};
ghost use Rattle.json.specs.Json.{parse_map};
ghost use Rattle.serde_json.specs.Data.{array, object, no_members};
ghost use Rattle.serde_json.specs.Find.{as_array, as_object};
ghost use Rattle.json_text.specs.Member.{unsigned_of};
ghost use Rattle.json_text.specs.Next.{next_value, next_items, next_members, rest_after, HasOther, Opens, Reads};

use crate::number::unsigned_in;
use json::{Invalid, Reader, Token};

/// How a value begins.
pub(crate) enum Opening {
    /// With an integer from 0 to 2^64 - 1, written without sign, fraction or exponent. It is whole.
    Unsigned(u64),
    /// With the bracket of an array, whose elements come next.
    Array,
    /// With the brace of an object, whose members come next.
    Object,
    /// With a text, another number, true, false or null. It is whole.
    Other,
}

/// How the next value begins. Invalid exactly if none does: what is after the beginning of an array
/// or an object is not looked at.
#[inline(always)]
fn open_value(reader: &mut Reader<'_>, depth: usize) -> Result<Opening, Invalid>
    ensures opened { MatchResult result (λ opening. Opens opening depth reader.old reader.new)
        (λ _. next_value depth reader.old ≡ None) }
    ensures shorter { OnOk result (length reader.new < length reader.old) }
{
    let token = reader.next().ok_or(Invalid)?;
    match token {
        Token::Number(text) => match unsigned_in(text) {
            Some(Some(number)) => Ok(Opening::Unsigned(number)),
            Some(None) => Ok(Opening::Other),
            None => Err(Invalid),
        },
        Token::String(_) => Ok(Opening::Other),
        Token::Bool(_) => Ok(Opening::Other),
        Token::Null => Ok(Opening::Other),
        Token::BeginArray => {
            if depth == 0 {
                return Err(Invalid);
            }
            Ok(Opening::Array)
        }
        Token::BeginObject => {
            if depth == 0 {
                return Err(Invalid);
            }
            Ok(Opening::Object)
        }
        Token::EndObject | Token::EndArray | Token::Key(_) | Token::Bad => Err(Invalid),
    }
}

/// The next value, if it is an integer from 0 to 2^64 - 1, written without sign, fraction or
/// exponent, and None if it is another. Invalid exactly if there is no value.
pub fn next_unsigned(reader: &mut Reader<'_>, depth: usize) -> Result<Option<u64>, Invalid>
    ensures { Reads result (λ n. n) (parse_map unsigned_of (next_value depth reader.old))
        reader.new }
{
    match open_value(reader, depth)? {
        Opening::Unsigned(number) => Ok(Some(number)),
        Opening::Other => Ok(None),
        Opening::Array => {
            pass_items(reader, depth - 1)?;
            Ok(None)
        }
        Opening::Object => {
            pass_members(reader, depth - 1)?;
            Ok(None)
        }
    }
}

/// Whether the next value is an array. If so, its elements come next; if not, it is skipped.
/// Invalid exactly if neither an array begins nor another value comes whole.
pub fn open_array(reader: &mut Reader<'_>, depth: usize) -> Result<bool, Invalid>
    ensures { MatchResult result (λ opened. MatchBool opened
        ((0 < depth) × (next_value depth reader.old
        ≡ parse_map array (next_items (depth - 1) reader.new)))
        (HasOther as_array depth reader.old reader.new))
        (λ _. next_value depth reader.old ≡ None) }
{
    match open_value(reader, depth)? {
        Opening::Array => Ok(true),
        Opening::Unsigned(_) => Ok(false),
        Opening::Other => Ok(false),
        Opening::Object => {
            pass_members(reader, depth - 1)?;
            Ok(false)
        }
    }
}

/// Whether the next value is an object. If so, its members come next; if not, it is skipped.
/// Invalid exactly if neither an object begins nor another value comes whole.
pub fn open_object(reader: &mut Reader<'_>, depth: usize) -> Result<bool, Invalid>
    ensures { MatchResult result (λ opened. MatchBool opened
        ((0 < depth) × (next_value depth reader.old
        ≡ parse_map object (next_members (depth - 1) no_members reader.new)))
        (HasOther as_object depth reader.old reader.new))
        (λ _. next_value depth reader.old ≡ None) }
{
    match open_value(reader, depth)? {
        Opening::Object => Ok(true),
        Opening::Unsigned(_) => Ok(false),
        Opening::Other => Ok(false),
        Opening::Array => {
            pass_items(reader, depth - 1)?;
            Ok(false)
        }
    }
}

/// Passes over the next value. Invalid exactly if there is none.
#[cycle(pass)]
#[inline(always)]
pub fn pass_value(reader: &mut Reader<'_>, depth: usize) -> Result<(), Invalid>
    ensures passed { MatchResult result
        (λ _. rest_after (next_value depth reader.old) ≡ Some reader.new)
        (λ _. next_value depth reader.old ≡ None) }
    ensures shorter { OnOk result (length reader.new < length reader.old) }
{
    match open_value(reader, depth)? {
        Opening::Unsigned(_) => Ok(()),
        Opening::Other => Ok(()),
        Opening::Array => pass_items(reader, depth - 1),
        Opening::Object => pass_members(reader, depth - 1),
    }
}

/// Passes over the elements that are left of an array, and its bracket. Invalid exactly if one of
/// them is no value, or the array doesn't end.
#[cycle(pass)]
#[inline(never)]
pub fn pass_items(reader: &mut Reader<'_>, depth: usize) -> Result<(), Invalid>
    ensures passed { MatchResult result
        (λ _. rest_after (next_items depth reader.old) ≡ Some reader.new)
        (λ _. next_items depth reader.old ≡ None) }
    ensures shorter { OnOk result (length reader.new < length reader.old) }
{
    'items: while !reader.take_end_array() {
        pass_value(reader, depth)?;
    }
    Ok(())
}

/// Passes over the members that are left of an object, and its brace. Invalid exactly if one of
/// them has no name or no value, or the object doesn't end.
#[cycle(pass)]
#[inline(never)]
pub fn pass_members(reader: &mut Reader<'_>, depth: usize) -> Result<(), Invalid>
    ensures passed { MatchResult result
        (λ _. rest_after (next_members depth no_members reader.old) ≡ Some reader.new)
        (λ _. next_members depth no_members reader.old ≡ None) }
    ensures shorter { OnOk result (length reader.new < length reader.old) }
{
    'members: while let Some(_) = reader.next_key()? {
        pass_value(reader, depth)?;
    }
    Ok(())
}
