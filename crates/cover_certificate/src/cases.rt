//! The array of cases, read token by token.

ghost use Rattle.std.specs.Prelude.{◌≡◌, ◌≤◌, IfOk, [], length, map};
ghost use Rattle.certificate.specs.Certificate.{max_pieces};
ghost use Rattle.cover_certificate.specs.Common.{parse_map, next_items};
ghost use Rattle.cover_certificate.specs.CoverCertificate.{case_data, max_cases};
ghost use Rattle.cover_certificate.specs.CoverParts.{cases_data};
ghost use Rattle.cover_certificate.specs.CoverReading.{cases_from, pieces_of};
ghost use Rattle.cover_certificate.specs.Fault.{ReadsOn};
ghost use Rattle.cover_certificate.specs.Parts.{judged};

use crate::case::read_case;
use crate::cover_certificate::{Case, MAX_CASES};
use crate::fault::{CoverFault, Judged};
use json::Reader;
use json_text::pass_items;
use std::alloc::{AllocError, Global};

/// The cases that are left of an array, or the first fault that they have.
pub(crate) fn read_cases(
    alloc: Global,
    reader: &mut Reader<'_>,
    depth: usize,
) -> Result<Judged<Vec<Case>>, CoverFault>
    ensures { ReadsOn result (judged cases_data)
        (parse_map (cases_from []) (next_items depth reader.old)) reader.new }
{
    let mut cases = Vec::new(alloc);
    'cases: while !reader.take_end_array() {
        if cases.len() == MAX_CASES {
            pass_items(reader, depth)?;
            return Ok(Err(CoverFault::TooManyCases));
        }
        let first = piece_count(&cases);
        match read_case(alloc, reader, depth, cases.len() as u32, first)? {
            Ok(case) => cases.push(case).map_err(AllocError::from)?,
            Err(fault) => {
                pass_items(reader, depth)?;
                return Ok(Err(fault));
            }
        }
    }
    Ok(Ok(cases))
}

/// How many pieces these cases have.
fn piece_count(cases: &[Case]) -> usize
    requires { pieces_of (map case_data cases.now) ≤ max_pieces }
    ensures { result ≡ pieces_of (map case_data cases.now) }
{
    let mut count = 0;
    for case in cases {
        count += case.pieces.len();
    }
    count
}
