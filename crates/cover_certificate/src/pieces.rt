//! The array of pieces, read token by token.

ghost use Rattle.std.specs.Prelude.{◌≤◌};
ghost use Rattle.certificate.specs.Certificate.{max_pieces};
ghost use Rattle.cover_certificate.specs.Common.{parse_map, next_value, next_items};
ghost use Rattle.cover_certificate.specs.Fault.{ReadsOn};
ghost use Rattle.cover_certificate.specs.PartsData.{pieces_data};
ghost use Rattle.cover_certificate.specs.Parts.{judged, pieces_and, pieces_in};

use crate::fault::{CoverFault, Judged};
use crate::piece::read_piece;
use certificate::{MAX_PIECES, Piece};
use json::Reader;
use json_text::{pass_items, pass_value};
use std::alloc::{AllocError, Global};

/// The pieces that are left of an array, counted from `first` on, or the first fault that they
/// have.
pub(crate) fn read_pieces(
    alloc: Global,
    reader: &mut Reader<'_>,
    depth: usize,
    first: usize,
) -> Result<Judged<Vec<Piece>>, CoverFault>
    requires { first ≤ max_pieces }
    ensures { ReadsOn result (judged pieces_data)
        (parse_map (pieces_in first) (next_items depth reader.old)) reader.new }
{
    let mut found = Ok(Vec::new(alloc));
    let mut count = first;
    'pieces: while !reader.take_end_array() {
        if count == MAX_PIECES {
            pass_items(reader, depth)?;
            return Ok(Err(CoverFault::TooManyPieces));
        }
        found = read_next(reader, depth, count as u32, found)?;
        count += 1;
    }
    Ok(found)
}

/// The pieces before this one and this one, whose number is given, or the first fault that they
/// have.
fn read_next(
    reader: &mut Reader<'_>,
    depth: usize,
    number: u32,
    found: Judged<Vec<Piece>>,
) -> Result<Judged<Vec<Piece>>, CoverFault>
    ensures { ReadsOn result (judged pieces_data)
        (parse_map (pieces_and number (judged pieces_data found)) (next_value depth reader.old))
        reader.new }
{
    match found {
        Ok(mut pieces) => {
            match read_piece(reader, depth, number)? {
                Ok(piece) => {
                    pieces.push(piece).map_err(AllocError::from)?;
                    Ok(Ok(pieces))
                }
                Err(fault) => Ok(Err(fault)),
            }
        }
        Err(fault) => {
            pass_value(reader, depth)?;
            Ok(Err(fault))
        }
    }
}
