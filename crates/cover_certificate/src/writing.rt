//! The text that writes a certificate by covers.

ghost use Rattle.std.specs.Prelude.{◌≡◌, ◌++◌, ◌<◌, ◌^◌, IfOk, OnOk, Ok, map, All, string_bytes, decimal};
ghost use Rattle.std.specs.List.{join_with_byte};
ghost use Rattle.cover_certificate.specs.CoverCertificate.{IsFew, case_data, data_of};
ghost use Rattle.cover_certificate.specs.CoverReading.{IsHeldCase, IsHeldCovers, covers_of};
ghost use Rattle.cover_certificate.specs.CoverWriting as spec;
ghost use Rattle.certificate.specs.Writing.{comma, comma_before};

use crate::cover_certificate::{Case, CoverCertificate};
use crate::pieces_writing::{push_entries, push_pieces, put_comma};
use line_writer::Line;
use std::alloc::{AllocError, Global};

/// The text of a certificate by covers: compact, with `cases` before `conflicts`, `groups` before
/// `pieces` and numbers in decimal.
///
/// It reads again as the same certificate, if that has few enough of each.
pub fn write_covers(alloc: Global, certificate: &CoverCertificate) -> Result<String, AllocError>
    ensures text { IfOk result (λ text. string_bytes text
        ≡ spec.covers_text (data_of certificate.now)) }
    ensures reads_back { IfOk result (λ text. IsFew (data_of certificate.now) →
        covers_of (string_bytes text) ≡ Ok (data_of certificate.now)) }
{
    let bytes = covers_bytes(alloc, certificate)?;
    Ok(String::from_utf8(bytes).unwrap())
}

/// The bytes of its text.
fn covers_bytes(alloc: Global, certificate: &CoverCertificate) -> Result<Vec<u8>, AllocError>
    ensures text { IfOk result (λ text. text.items ≡ spec.covers_text (data_of certificate.now)) }
    ensures held { IfOk result (λ _. IsHeldCovers (data_of certificate.now)) }
{
    let mut text = Vec::from_slice(alloc, b"{\"cases\":[")?;
    push_cases(&mut text, &certificate.cases)?;
    text.extend_from_slice(b"],\"conflicts\":[")?;
    push_entries(&mut text, &mut Line::new(), &certificate.conflicts)?;
    text.extend_from_slice(b"]}")?;
    Ok(text)
}

/// Writes the cases, with commas between them.
fn push_cases(text: &mut Vec<u8>, cases: &[Case]) -> Result<(), AllocError>
    ensures text { OnOk result (text.new.items ≡ text.old.items
        ++ join_with_byte comma (map spec.case_text (map case_data cases.now))) }
    ensures held { OnOk result (All IsHeldCase (map case_data cases.now)) }
{
    for (index, case) in cases.iter().enumerate() {
        push_case(text, index, case)?;
    }
    Ok(())
}

/// Writes the case with this number, after its comma.
fn push_case(text: &mut Vec<u8>, index: usize, case: &Case) -> Result<(), AllocError>
    ensures text { OnOk result (text.new.items
        ≡ text.old.items ++ comma_before index ++ spec.case_text (case_data case.now)) }
    ensures held { OnOk result (IsHeldCase (case_data case.now)) }
{
    let mut line = Line::new();
    line.put_text("{\"groups\":[");
    put_comma(&mut line, index);
    text.extend_from_slice(line.as_bytes())?;
    push_groups(text, &mut line, &case.groups)?;
    text.extend_from_slice(b"],\"pieces\":[")?;
    push_pieces(text, &case.pieces)?;
    text.extend_from_slice(b"]}")?;
    Ok(())
}

/// Writes the groups of a case, with commas between them.
fn push_groups(text: &mut Vec<u8>, line: &mut Line, groups: &[u8]) -> Result<(), AllocError>
    ensures text { OnOk result (text.new.items
        ≡ text.old.items ++ join_with_byte comma (map decimal groups.now)) }
    ensures named { OnOk result (All (λ group. group < 2 ^ 8) groups.now) }
{
    for (index, group) in groups.iter().enumerate() {
        write_group(line, index, *group);
        text.extend_from_slice(line.as_bytes())?;
    }
    Ok(())
}

/// Writes the group with this number, after its comma, in place of what `line` held.
fn write_group(line: &mut Line, index: usize, group: u8)
    ensures text { line.new ≡ comma_before index ++ decimal group }
    ensures named { group < 2 ^ 8 }
{
    line.clear();
    line.put_number(u64::from(group));
    put_comma(line, index);
}
