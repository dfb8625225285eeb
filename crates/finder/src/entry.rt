//! The entries of a piece.

ghost use Rattle.std.specs.Prelude.{◌≡◌, ◌<◌, ◌≤◌, length, All, slice_get};
ghost use Rattle.std.specs.List.{filter_map};

use arrayvec::ArrayVec;

/// The entries of the piece of this number: one of each table, in their order.
pub(crate) fn entries_at(tables: &[Vec<(u32, u32)>], number: usize) -> ArrayVec<(u32, u32), 32>
    requires few { length tables.now ≤ 32 }
    requires long { All (λ table. number < length table.items) tables.now }
    ensures { result.items ≡ filter_map (λ table. slice_get table.items number) tables.now }
{
    let mut entries = ArrayVec::new();
    for table in tables {
        entries.push(table[number]);
    }
    entries
}
