//! A case of a certificate by covers, read token by token.

ghost use Rattle.std.specs.Prelude.{◌≡◌, ◌⊎◌, ◌≤◌, ◌<◌, ◌^◌, Some, None, MatchResult, length, map, option_map};
ghost use Rattle.certificate.specs.Certificate.{max_pieces};
ghost use Rattle.cover_certificate.specs.Common.{parse_map, Data, no_members, as_array, next_value, next_members, Reads};
ghost use Rattle.cover_certificate.specs.CoverCertificate.{case_data};
ghost use Rattle.cover_certificate.specs.CoverParts.{case_of_parts, case_parts_data, case_parts_of};
ghost use Rattle.cover_certificate.specs.CoverReading.{case_of, groups_in};
ghost use Rattle.cover_certificate.specs.declared.fault.CoverFault.TheVariants.{Json, Memory};
ghost use Rattle.cover_certificate.specs.Fault.{ReadsOn};
ghost use Rattle.cover_certificate.specs.Parts.{AddsMember, judged, pieces_in};
ghost use Rattle.cover_certificate.specs.PartsData.{pieces_data};

use crate::cover_certificate::Case;
use crate::fault::{CoverFault, Judged};
use crate::groups::{Groups, read_groups};
use crate::pieces::read_pieces;
use certificate::Piece;
use json::{Invalid, Reader};
use json_text::{open_array, open_object, pass_value};
use std::alloc::Global;

/// What the members of a case say, as far as they're read. The last member of a name counts.
#[derive(Drop)]
pub(crate) struct CaseParts {
    /// Whether every name so far is one of a case.
    is_known: bool,
    /// The groups or their fault, if they are an array.
    groups: Option<Judged<Groups>>,
    /// The pieces or their first fault, if they are an array.
    pieces: Option<Judged<Vec<Piece>>>,
}

/// The case with this number, whose pieces are counted from `first` on, or its first fault.
pub(crate) fn read_case(
    alloc: Global,
    reader: &mut Reader<'_>,
    depth: usize,
    number: u32,
    first: usize,
) -> Result<Judged<Case>, CoverFault>
    requires { first ≤ max_pieces }
    ensures { ReadsOn result (judged case_data)
        (parse_map (case_of number first) (next_value depth reader.old)) reader.new }
{
    if open_object(reader, depth)? {
        Ok(read_parts(alloc, reader, depth - 1, number, first)?.case(number))
    } else {
        Ok(Err(CoverFault::CaseShape(number)))
    }
}

/// What the members that are left of an object say about the case with this number.
fn read_parts(
    alloc: Global,
    reader: &mut Reader<'_>,
    depth: usize,
    number: u32,
    first: usize,
) -> Result<CaseParts, CoverFault>
    requires { first ≤ max_pieces }
    ensures { ReadsOn result case_parts_data
        (parse_map (case_parts_of number first) (next_members depth no_members reader.old))
        reader.new }
{
    let mut parts = CaseParts {
        is_known: true,
        groups: None,
        pieces: None,
    };
    'members: while let Some(name) = reader.next_key()? {
        parts.read(alloc, reader, depth, number, first, name)?;
    }
    Ok(parts)
}

impl CaseParts {
    /// Reads the member of this name.
    fn read(
        &mut self,
        alloc: Global,
        reader: &mut Reader<'_>,
        depth: usize,
        number: u32,
        first: usize,
        name: &str,
    ) -> Result<(), CoverFault>
        requires { first ≤ max_pieces }
        ensures { MatchResult result
            (λ _. (value : Data) × (next_value depth reader.old ≡ Some (value, reader.new))
            × AddsMember (case_parts_of number first) name.now value
            (case_parts_data self.old) (case_parts_data self.new))
            (λ fault. (fault ≡ Memory)
            ⊎ ((fault ≡ Json) × (next_value depth reader.old ≡ None))) }
    {
        match name {
            "groups" => self.groups = read_listed_groups(reader, depth, number)?,
            "pieces" => self.pieces = read_listed_pieces(alloc, reader, depth, first)?,
            _ => {
                pass_value(reader, depth)?;
                self.is_known = false;
            }
        }
        Ok(())
    }

    /// The case with this number, which has these parts.
    fn case(self, number: u32) -> Judged<Case>
        ensures { judged case_data result ≡ case_of_parts number (case_parts_data self) }
    {
        if !self.is_known {
            return Err(CoverFault::CaseShape(number));
        }
        let groups = self.groups.ok_or(CoverFault::CaseShape(number))?;
        let pieces = self.pieces.ok_or(CoverFault::CaseShape(number))?;
        Ok(Case {
            groups: groups?,
            pieces: pieces?,
        })
    }
}

/// The groups of the case with this number or their fault, None if the next value is no array.
fn read_listed_groups(
    reader: &mut Reader<'_>,
    depth: usize,
    number: u32,
) -> Result<Option<Judged<Groups>>, Invalid>
    ensures { Reads result (option_map (judged (λ groups. groups.items)))
        (parse_map (λ value. option_map (groups_in number) (as_array value))
        (next_value depth reader.old)) reader.new }
{
    if open_array(reader, depth)? {
        let bad = CoverFault::CaseShape(number);
        Ok(Some(read_groups(reader, depth - 1, bad)?))
    } else {
        Ok(None)
    }
}

/// The pieces, counted from `first` on, or their first fault; None if the next value is no array.
fn read_listed_pieces(
    alloc: Global,
    reader: &mut Reader<'_>,
    depth: usize,
    first: usize,
) -> Result<Option<Judged<Vec<Piece>>>, CoverFault>
    requires { first ≤ max_pieces }
    ensures { ReadsOn result (option_map (judged pieces_data))
        (parse_map (λ value. option_map (pieces_in first) (as_array value))
        (next_value depth reader.old)) reader.new }
{
    if open_array(reader, depth)? {
        Ok(Some(read_pieces(alloc, reader, depth - 1, first)?))
    } else {
        Ok(None)
    }
}
