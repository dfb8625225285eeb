//! The elements of a JSON array.

ghost use Rattle.std.specs.Prelude.{◌≡◌, ◌≤◌, nat_le, IsTrue, length};
ghost use Rattle.certificate.specs.Common.{items_len, items_view};

use serde_json::Value;

/// Whether an array has at most `most` elements.
pub(crate) fn is_at_most(items: &[Value], most: usize) -> bool
    ensures exact { result ≡ nat_le (items_len (items_view items.now)) most }
    ensures few { IsTrue result → length items.now ≤ most }
{
    items.len() <= most
}
