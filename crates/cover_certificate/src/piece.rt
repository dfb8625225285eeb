//! The pieces of a certificate, read token by token.

ghost use Rattle.std.specs.Prelude.{◌≡◌, Some, None, MatchResult, option_map};
ghost use Rattle.cover_certificate.specs.Common.{parse_map, Data, no_members, as_array, next_value, next_members, Reads};
ghost use Rattle.certificate.specs.Certificate.{piece_data};
ghost use Rattle.cover_certificate.specs.Parts.{AddsMember, entries_in, judged, parts_of, piece_from};
ghost use Rattle.cover_certificate.specs.PartsData.{parts_data};
ghost use Rattle.cover_certificate.specs.PieceReading.{piece_of};

use crate::entry::read_pairs;
use crate::fault::{CoverFault, Judged};
use arrayvec::ArrayVec;
use certificate::Piece;
use json::{Invalid, Reader};
use json_text::{next_unsigned, open_array, open_object, pass_value};

/// What the members of a piece say, as far as they're read. The last member of a name counts.
#[derive(Drop)]
pub(crate) struct Parts {
    /// Whether every name so far is one of a piece.
    is_known: bool,
    /// The end, if it is an integer below 2^64.
    upto: Option<u64>,
    /// The entries or their first fault, if they are an array.
    entries: Option<Judged<ArrayVec<(u32, u32), 32>>>,
}

/// The piece with this number, or its first fault.
pub(crate) fn read_piece(
    reader: &mut Reader<'_>,
    depth: usize,
    number: u32,
) -> Result<Judged<Piece>, Invalid>
    ensures { Reads result (judged piece_data)
        (parse_map (piece_of number) (next_value depth reader.old)) reader.new }
{
    if open_object(reader, depth)? {
        Ok(read_parts(reader, depth - 1, number)?.piece(number))
    } else {
        Ok(Err(CoverFault::Shape(number)))
    }
}

/// What the members that are left of an object say about the piece with this number.
fn read_parts(reader: &mut Reader<'_>, depth: usize, number: u32) -> Result<Parts, Invalid>
    ensures { Reads result parts_data
        (parse_map (parts_of number) (next_members depth no_members reader.old)) reader.new }
{
    let mut parts = Parts {
        is_known: true,
        upto: None,
        entries: None,
    };
    'members: while let Some(name) = reader.next_key()? {
        parts.read(reader, depth, number, name)?;
    }
    Ok(parts)
}

impl Parts {
    /// Reads the member of this name.
    fn read(
        &mut self,
        reader: &mut Reader<'_>,
        depth: usize,
        number: u32,
        name: &str,
    ) -> Result<(), Invalid>
        ensures { MatchResult result
            (λ _. (value : Data) × (next_value depth reader.old ≡ Some (value, reader.new))
            × AddsMember (parts_of number) name.now value
            (parts_data self.old) (parts_data self.new))
            (λ _. next_value depth reader.old ≡ None) }
    {
        match name {
            "entries" => self.entries = read_listed(reader, depth, number)?,
            "upto" => self.upto = next_unsigned(reader, depth)?,
            _ => {
                pass_value(reader, depth)?;
                self.is_known = false;
            }
        }
        Ok(())
    }

    /// The piece with this number, which has these parts.
    fn piece(self, number: u32) -> Judged<Piece>
        ensures { judged piece_data result ≡ piece_from number (parts_data self) }
    {
        if !self.is_known {
            return Err(CoverFault::Shape(number));
        }
        let upto = self.upto.ok_or(CoverFault::Shape(number))?;
        let entries = self.entries.ok_or(CoverFault::Shape(number))??;
        Ok(Piece { upto, entries })
    }
}

/// The entries of the piece with this number or their first fault, None if the next value is no
/// array.
fn read_listed(
    reader: &mut Reader<'_>,
    depth: usize,
    number: u32,
) -> Result<Option<Judged<ArrayVec<(u32, u32), 32>>>, Invalid>
    ensures { Reads result (option_map (judged (λ entries. entries.items)))
        (parse_map (λ value. option_map (entries_in number) (as_array value))
        (next_value depth reader.old)) reader.new }
{
    if open_array(reader, depth)? {
        let many = CoverFault::TooManyEntries(number);
        let bad = CoverFault::Shape(number);
        Ok(Some(read_pairs(reader, depth - 1, many, bad)?))
    } else {
        Ok(None)
    }
}
