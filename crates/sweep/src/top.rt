//! The highest level that is reached.

ghost use Rattle.std.specs.Prelude.{◌≡◌};
ghost use Rattle.sweep.specs.Top.{higher_of, is_above};

/// The highest level, and the first index that reaches it.
#[derive(Clone, Copy)]
pub struct Top {
    pub level: u128,
    pub index: usize,
}

/// The higher of two.
pub fn higher(one: Option<Top>, other: Option<Top>) -> Option<Top>
    ensures { result ≡ higher_of one other }
{
    match (one, other) {
        (Some(a), Some(b)) => Some(if is_above(b, a) { b } else { a }),
        (Some(a), None) => Some(a),
        (None, other) => other,
    }
}

/// Whether the one is at a higher level, or at the same level and an index before the other.
fn is_above(one: Top, other: Top) -> bool
    ensures { result ≡ is_above one other }
{
    one.level > other.level || (one.level == other.level && one.index < other.index)
}
