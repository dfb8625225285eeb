//! The text of pieces and of pairs.

ghost use Rattle.std.specs.Prelude.{◌≡◌, ◌+◌, ◌≤◌, ◌++◌, OnOk, length, map, All};
ghost use Rattle.std.specs.List.{join_with_byte};
ghost use Rattle.line_writer.specs.declared.line.TheConstants.{CAPACITY};
ghost use Rattle.certificate.specs.Certificate.{NamesSamples, IsHeld, piece_data};
ghost use Rattle.certificate.specs.Writing as spec;
ghost use Rattle.certificate.specs.Writing.{comma, comma_before};

use certificate::Piece;
use line_writer::Line;
use std::alloc::AllocError;

/// Writes the pieces, with commas between them.
pub(crate) fn push_pieces(text: &mut Vec<u8>, pieces: &[Piece]) -> Result<(), AllocError>
    ensures text { OnOk result (text.new.items ≡ text.old.items
        ++ join_with_byte comma (map spec.piece_text (map piece_data pieces.now))) }
    ensures held { OnOk result (All IsHeld (map piece_data pieces.now)) }
{
    let mut line = Line::new();
    for (index, piece) in pieces.iter().enumerate() {
        push_piece(text, &mut line, index, piece)?;
    }
    Ok(())
}

/// Writes the piece with this number, after its comma. `line` holds one part of it at a time.
fn push_piece(
    text: &mut Vec<u8>,
    line: &mut Line,
    index: usize,
    piece: &Piece,
) -> Result<(), AllocError>
    ensures text { OnOk result (text.new.items
        ≡ text.old.items ++ comma_before index ++ spec.piece_text (piece_data piece.now)) }
    ensures held { OnOk result (IsHeld (piece_data piece.now)) }
{
    line.clear();
    line.put_text("{\"entries\":[");
    put_comma(line, index);
    text.extend_from_slice(line.as_bytes())?;
    push_entries(text, line, &piece.entries)?;
    line.clear();
    line.put_byte(b'}');
    line.put_number(piece.upto);
    line.put_text("],\"upto\":");
    text.extend_from_slice(line.as_bytes())?;
    Ok(())
}

/// Writes the entries of a piece, with commas between them.
pub(crate) fn push_entries(
    text: &mut Vec<u8>,
    line: &mut Line,
    entries: &[(u32, u32)],
) -> Result<(), AllocError>
    ensures text { OnOk result (text.new.items
        ≡ text.old.items ++ join_with_byte comma (map spec.entry_text entries.now)) }
    ensures named { OnOk result (All NamesSamples entries.now) }
{
    for (index, entry) in entries.iter().enumerate() {
        write_entry(line, index, *entry);
        text.extend_from_slice(line.as_bytes())?;
    }
    Ok(())
}

/// Writes the entry with this number, after its comma, in place of what `line` held.
fn write_entry(line: &mut Line, index: usize, entry: (u32, u32))
    ensures text { line.new ≡ comma_before index ++ spec.entry_text entry }
    ensures named { NamesSamples entry }
{
    line.clear();
    line.put_byte(b']');
    line.put_number(entry.1);
    line.put_byte(b',');
    line.put_number(entry.0);
    line.put_byte(b'[');
    put_comma(line, index);
}

/// Writes a comma, but before the first element none.
#[inline]
pub(crate) fn put_comma(line: &mut Line, index: usize)
    requires { length line.old + 1 ≤ CAPACITY }
    ensures { line.new ≡ comma_before index ++ line.old }
{
    if index > 0 {
        line.put_byte(b',');
    }
}
