//! The text of a certificate as `write_certificate` writes it, read without a tree of values.
//!
//! Any other spelling is left to the reader of JSON.

ghost use Rattle.std.specs.Prelude.{◌≡◌, ◌≤◌, ◌<◌, ◌^◌, ◌++◌, Ok, IfOk, IfSome, OnSome, IsTrue, All, codes, length, map, decimal};
ghost use Rattle.std.specs.List.{join_with_byte};
ghost use Rattle.certificate.specs.Certificate.{NamesSamples, IsHeld, data_of, piece_data, max_pieces};
ghost use Rattle.certificate.specs.Compact.{IsEnding};
ghost use Rattle.certificate.specs.Reading.{certificate_of};
ghost use Rattle.certificate.specs.Writing.{comma, comma_before, entry_text, piece_text};

use crate::certificate::{Certificate, MAX_ENTRIES, MAX_PIECES, Piece};
use crate::scanner::Scanner;
use arrayvec::ArrayVec;
use std::alloc::{AllocError, Global};

/// The certificate that a text says, if the text is the one that `write_certificate` writes of it,
/// with or without a line feed after it. None leaves open what the text says.
pub(crate) fn read_compact(alloc: Global, text: &[u8]) -> Result<Option<Certificate>, AllocError>
    ensures exact { IfOk result (λ found. IfSome found (λ certificate.
        certificate_of text.now ≡ Ok (data_of certificate))) }
    ensures few { IfOk result (λ found. IfSome found (λ certificate.
        length certificate.pieces.items ≤ max_pieces)) }
{
    let mut scanner = Scanner::new(text);
    let Some(()) = scanner.text(b"{\"pieces\":[") else {
        return Ok(None);
    };
    let Some(pieces) = pieces(alloc, &mut scanner)? else {
        return Ok(None);
    };
    if is_ending(scanner.rest()) {
        Ok(Some(Certificate { pieces }))
    } else {
        Ok(None)
    }
}

/// Whether these bytes end a certificate: the brackets, and perhaps a line feed.
fn is_ending(rest: &[u8]) -> bool
    ensures { IsTrue result → IsEnding rest.now }
{
    rest == b"]}".as_slice() || rest == b"]}\n".as_slice()
}

/// Reads the pieces, up to the bracket after the last.
fn pieces(alloc: Global, scanner: &mut Scanner<'_>) -> Result<Option<Vec<Piece>>, AllocError>
    ensures text { IfOk result (λ found. IfSome found (λ pieces. scanner.old
        ≡ join_with_byte comma (map piece_text (map piece_data pieces.items)) ++ scanner.new)) }
    ensures held { IfOk result (λ found. IfSome found (λ pieces.
        All IsHeld (map piece_data pieces.items))) }
    ensures few { IfOk result (λ found. IfSome found (λ pieces. length pieces.items ≤ max_pieces)) }
{
    let mut pieces = Vec::new(alloc);
    for index in 0..MAX_PIECES {
        if scanner.is_next(b']') {
            break;
        }
        let Some(piece) = next_piece(scanner, index) else {
            return Ok(None);
        };
        pieces.push(piece)?;
    }
    Ok(Some(pieces))
}

/// Reads the piece of this index, after its comma.
fn next_piece(scanner: &mut Scanner<'_>, index: usize) -> Option<Piece>
    ensures text { IfSome result (λ piece.
        scanner.old ≡ comma_before index ++ piece_text (piece_data piece) ++ scanner.new) }
    ensures held { IfSome result (λ piece. IsHeld (piece_data piece)) }
{
    comma(scanner, index)?;
    scanner.text(b"{\"entries\":[")?;
    let entries = entries(scanner)?;
    scanner.text(b"],\"upto\":")?;
    let upto = scanner.number()?;
    scanner.byte(b'}')?;
    Some(Piece { upto, entries })
}

/// Reads the entries of a piece, up to the bracket after the last.
fn entries(scanner: &mut Scanner<'_>) -> Option<ArrayVec<(u32, u32), 32>>
    ensures text { IfSome result (λ entries.
        scanner.old ≡ join_with_byte comma (map entry_text entries.items) ++ scanner.new) }
    ensures named { IfSome result (λ entries. All NamesSamples entries.items) }
{
    let mut entries = ArrayVec::new();
    for index in 0..MAX_ENTRIES {
        if scanner.is_next(b']') {
            break;
        }
        entries.push(next_entry(scanner, index)?);
    }
    Some(entries)
}

/// Reads the entry of this index, after its comma.
fn next_entry(scanner: &mut Scanner<'_>, index: usize) -> Option<(u32, u32)>
    ensures text { IfSome result (λ entry.
        scanner.old ≡ comma_before index ++ entry_text entry ++ scanner.new) }
    ensures named { IfSome result NamesSamples }
{
    comma(scanner, index)?;
    scanner.byte(b'[')?;
    let low = sample(scanner)?;
    scanner.byte(b',')?;
    let high = sample(scanner)?;
    scanner.byte(b']')?;
    Some((low, high))
}

/// Reads the comma before every element but the first.
fn comma(scanner: &mut Scanner<'_>, index: usize) -> Option<()>
    ensures { OnSome result (scanner.old ≡ comma_before index ++ scanner.new) }
{
    if index > 0 {
        scanner.byte(b',')?;
    }
    Some(())
}

/// Reads the number of a sample.
fn sample(scanner: &mut Scanner<'_>) -> Option<u32>
    ensures { IfSome result (λ number. scanner.old ≡ decimal number ++ scanner.new) }
{
    u32::try_from(scanner.number()?).ok()
}
