//! What the text of a certificate says.
//!
//! A text that `write_certificate` wrote is read by the reader of that form alone. Any other is
//! read token by token. What is no part of a certificate is only judged, so beside the pieces that
//! are listed a reading takes no more memory than the text has bytes.

ghost use Rattle.std.specs.Prelude.{◌≡◌, ◌≤◌, ◌⊎◌, Some, None, IfOk, MatchResult, length, option_map};
ghost use Rattle.certificate.specs.Common.{parse_map, Data, no_members, as_array, read, next_value, next_members, given};
ghost use Rattle.certificate.specs.declared.fault.CertificateFault.TheVariants.{Json, Memory};
ghost use Rattle.certificate.specs.Certificate.{data_of, max_pieces};
ghost use Rattle.certificate.specs.Fault.{Answers, ReadsOn};
ghost use Rattle.certificate.specs.PartsData.{pieces_data, whole_data};
ghost use Rattle.certificate.specs.Parts.{AddsMember, certificate_of_parts, judged, pieces_in, top_parts_of};
ghost use Rattle.certificate.specs.Reading as spec;

use crate::certificate::{Certificate, Piece};
use crate::compact::read_compact;
use crate::fault::{CertificateFault, Judged};
use crate::pieces::read_pieces;
use json::{Reader, Scratch};
use json_text::{open_array, open_object, pass_value};
use std::alloc::Global;

/// How deep arrays and objects may nest.
const MAX_DEPTH: usize = 127;

/// The certificate that the bytes of a JSON text say, or the first fault that it has: at most
/// 100,000 pieces, each with at most 32 entries.
pub fn read_certificate(alloc: Global, bytes: &[u8]) -> Result<Certificate, CertificateFault>
    ensures exact { Answers result data_of (spec.certificate_of bytes.now) }
    ensures few { IfOk result (λ certificate. length certificate.pieces.items ≤ max_pieces) }
{
    if let Some(certificate) = read_compact(alloc, bytes)? {
        return Ok(certificate);
    }
    match std::str::from_utf8(bytes) {
        Ok(text) => read_text(alloc, text, &mut Scratch::new(alloc)),
        Err(_) => Err(CertificateFault::Json),
    }
}

/// The certificate that a JSON text says.
fn read_text(
    alloc: Global,
    text: &str,
    scratch: &mut Scratch,
) -> Result<Certificate, CertificateFault>
    ensures { Answers result data_of (given Json (read text.now) spec.certificate_from) }
{
    let mut reader = Reader::new(text, scratch)?;
    let read = read_value(alloc, &mut reader, MAX_DEPTH)?;
    if reader.next().is_some() {
        return Err(CertificateFault::Json);
    }
    read
}

/// The certificate that the next value says, or its first fault.
fn read_value(
    alloc: Global,
    reader: &mut Reader<'_>,
    depth: usize,
) -> Result<Judged<Certificate>, CertificateFault>
    ensures { ReadsOn result (judged data_of)
        (parse_map spec.certificate_from (next_value depth reader.old)) reader.new }
{
    if open_object(reader, depth)? {
        Ok(read_whole(alloc, reader, depth - 1)?.certificate())
    } else {
        Ok(Err(CertificateFault::Top))
    }
}

/// What the members of the object say, as far as they're read. The last member of a name counts.
#[derive(Drop)]
pub(crate) struct Whole {
    /// Whether every name so far is the one of the pieces.
    is_known: bool,
    /// The pieces or their first fault, if they are an array.
    pieces: Option<Judged<Vec<Piece>>>,
}

/// What the members that are left of an object say.
fn read_whole(
    alloc: Global,
    reader: &mut Reader<'_>,
    depth: usize,
) -> Result<Whole, CertificateFault>
    ensures { ReadsOn result whole_data
        (parse_map top_parts_of (next_members depth no_members reader.old)) reader.new }
{
    let mut whole = Whole {
        is_known: true,
        pieces: None,
    };
    'members: while let Some(name) = reader.next_key()? {
        whole.read(alloc, reader, depth, name)?;
    }
    Ok(whole)
}

impl Whole {
    /// Reads the member of this name.
    fn read(
        &mut self,
        alloc: Global,
        reader: &mut Reader<'_>,
        depth: usize,
        name: &str,
    ) -> Result<(), CertificateFault>
        ensures { MatchResult result
            (λ _. (value : Data) × (next_value depth reader.old ≡ Some (value, reader.new))
            × AddsMember top_parts_of name.now value (whole_data self.old) (whole_data self.new))
            (λ fault. (fault ≡ Memory)
            ⊎ ((fault ≡ Json) × (next_value depth reader.old ≡ None))) }
    {
        match name {
            "pieces" => self.pieces = read_listed(alloc, reader, depth)?,
            _ => {
                pass_value(reader, depth)?;
                self.is_known = false;
            }
        }
        Ok(())
    }

    /// The certificate of these parts.
    fn certificate(self) -> Judged<Certificate>
        ensures { judged data_of result ≡ certificate_of_parts (whole_data self) }
    {
        if !self.is_known {
            return Err(CertificateFault::Top);
        }
        let pieces = self.pieces.ok_or(CertificateFault::Top)??;
        Ok(Certificate { pieces })
    }
}

/// The pieces or their first fault, None if the next value is no array.
fn read_listed(
    alloc: Global,
    reader: &mut Reader<'_>,
    depth: usize,
) -> Result<Option<Judged<Vec<Piece>>>, CertificateFault>
    ensures { ReadsOn result (option_map (judged pieces_data))
        (parse_map (λ value. option_map pieces_in (as_array value)) (next_value depth reader.old))
        reader.new }
{
    if open_array(reader, depth)? {
        Ok(Some(read_pieces(alloc, reader, depth - 1)?))
    } else {
        Ok(None)
    }
}
