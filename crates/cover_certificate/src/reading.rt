//! What the text of a certificate by covers says, read token by token as that of a certificate.

ghost use Rattle.std.specs.Prelude.{◌≡◌, ◌⊎◌, Some, None, IfOk, MatchResult, option_map, []};
ghost use Rattle.cover_certificate.specs.Common.{parse_map, Data, no_members, as_array, read, next_value, next_items, next_members, given};
ghost use Rattle.cover_certificate.specs.declared.fault.CoverFault.TheVariants.{Json, Memory};
ghost use Rattle.cover_certificate.specs.CoverCertificate.{IsFew, data_of};
ghost use Rattle.cover_certificate.specs.CoverParts.{cases_data, covers_of_parts, covers_parts_data, covers_parts_of};
ghost use Rattle.cover_certificate.specs.CoverReading.{cases_from, conflicts_in, covers_from, covers_of};
ghost use Rattle.cover_certificate.specs.Fault.{Answers, ReadsOn};
ghost use Rattle.cover_certificate.specs.Parts.{AddsMember, judged};

use crate::cases::read_cases;
use crate::cover_certificate::{Case, CoverCertificate, MAX_CONFLICTS};
use crate::entry::read_pairs;
use crate::fault::{CoverFault, Judged};
use json::{Reader, Scratch};
use json_text::{open_array, open_object, pass_value};
use std::alloc::{AllocError, Global};

/// How deep arrays and objects may nest.
const MAX_DEPTH: usize = 127;

/// The certificate by covers that the bytes of a JSON text say, or the first fault that it has: at
/// most 528 conflicts and 64 cases, which have at most 100,000 pieces in all.
pub fn read_covers(alloc: Global, bytes: &[u8]) -> Result<CoverCertificate, CoverFault>
    ensures exact { Answers result data_of (covers_of bytes.now) }
    ensures few { IfOk result (λ certificate. IsFew (data_of certificate)) }
{
    match std::str::from_utf8(bytes) {
        Ok(text) => read_text(alloc, text, &mut Scratch::new(alloc)),
        Err(_) => Err(CoverFault::Json),
    }
}

/// The certificate that a JSON text says.
fn read_text(
    alloc: Global,
    text: &str,
    scratch: &mut Scratch,
) -> Result<CoverCertificate, CoverFault>
    ensures { Answers result data_of (given Json (read text.now) covers_from) }
{
    let mut reader = Reader::new(text, scratch)?;
    let read = read_value(alloc, &mut reader, MAX_DEPTH)?;
    if reader.next().is_some() {
        return Err(CoverFault::Json);
    }
    read
}

/// The certificate that the next value says, or its first fault.
fn read_value(
    alloc: Global,
    reader: &mut Reader<'_>,
    depth: usize,
) -> Result<Judged<CoverCertificate>, CoverFault>
    ensures { ReadsOn result (judged data_of)
        (parse_map covers_from (next_value depth reader.old)) reader.new }
{
    if open_object(reader, depth)? {
        Ok(read_whole(alloc, reader, depth - 1)?.certificate())
    } else {
        Ok(Err(CoverFault::Top))
    }
}

/// What the members of the object say, as far as they're read. The last member of a name counts.
#[derive(Drop)]
pub(crate) struct Covers {
    /// Whether every name so far is one of the object.
    is_known: bool,
    /// The conflicts or their fault, if they are an array.
    conflicts: Option<Judged<Vec<(u32, u32)>>>,
    /// The cases or their first fault, if they are an array.
    cases: Option<Judged<Vec<Case>>>,
}

/// What the members that are left of an object say.
fn read_whole(alloc: Global, reader: &mut Reader<'_>, depth: usize) -> Result<Covers, CoverFault>
    ensures { ReadsOn result covers_parts_data
        (parse_map covers_parts_of (next_members depth no_members reader.old)) reader.new }
{
    let mut whole = Covers {
        is_known: true,
        conflicts: None,
        cases: None,
    };
    'members: while let Some(name) = reader.next_key()? {
        whole.read(alloc, reader, depth, name)?;
    }
    Ok(whole)
}

impl Covers {
    /// Reads the member of this name.
    fn read(
        &mut self,
        alloc: Global,
        reader: &mut Reader<'_>,
        depth: usize,
        name: &str,
    ) -> Result<(), CoverFault>
        ensures { MatchResult result
            (λ _. (value : Data) × (next_value depth reader.old ≡ Some (value, reader.new))
            × AddsMember covers_parts_of name.now value
            (covers_parts_data self.old) (covers_parts_data self.new))
            (λ fault. (fault ≡ Memory)
            ⊎ ((fault ≡ Json) × (next_value depth reader.old ≡ None))) }
    {
        match name {
            "cases" => self.cases = read_listed_cases(alloc, reader, depth)?,
            "conflicts" => self.conflicts = read_listed_conflicts(alloc, reader, depth)?,
            _ => {
                pass_value(reader, depth)?;
                self.is_known = false;
            }
        }
        Ok(())
    }

    /// The certificate of these parts.
    fn certificate(self) -> Judged<CoverCertificate>
        ensures { judged data_of result ≡ covers_of_parts (covers_parts_data self) }
    {
        if !self.is_known {
            return Err(CoverFault::Top);
        }
        let conflicts = self.conflicts.ok_or(CoverFault::Top)?;
        let cases = self.cases.ok_or(CoverFault::Top)?;
        Ok(CoverCertificate {
            conflicts: conflicts?,
            cases: cases?,
        })
    }
}

/// The cases or their first fault, None if the next value is no array.
fn read_listed_cases(
    alloc: Global,
    reader: &mut Reader<'_>,
    depth: usize,
) -> Result<Option<Judged<Vec<Case>>>, CoverFault>
    ensures { ReadsOn result (option_map (judged cases_data))
        (parse_map (λ value. option_map (cases_from []) (as_array value))
        (next_value depth reader.old)) reader.new }
{
    if open_array(reader, depth)? {
        Ok(Some(read_cases(alloc, reader, depth - 1)?))
    } else {
        Ok(None)
    }
}

/// The conflicts or their fault, None if the next value is no array.
fn read_listed_conflicts(
    alloc: Global,
    reader: &mut Reader<'_>,
    depth: usize,
) -> Result<Option<Judged<Vec<(u32, u32)>>>, CoverFault>
    ensures { ReadsOn result (option_map (judged (λ conflicts. conflicts.items)))
        (parse_map (λ value. option_map conflicts_in (as_array value))
        (next_value depth reader.old)) reader.new }
{
    if open_array(reader, depth)? {
        Ok(Some(read_conflicts(alloc, reader, depth - 1)?))
    } else {
        Ok(None)
    }
}

/// The conflicts that are left of an array, or their fault.
fn read_conflicts(
    alloc: Global,
    reader: &mut Reader<'_>,
    depth: usize,
) -> Result<Judged<Vec<(u32, u32)>>, CoverFault>
    ensures { ReadsOn result (judged (λ conflicts. conflicts.items))
        (parse_map conflicts_in (next_items depth reader.old)) reader.new }
{
    let many = CoverFault::TooManyConflicts;
    match read_pairs::<MAX_CONFLICTS>(reader, depth, many, CoverFault::Conflicts)? {
        Ok(conflicts) => Ok(Ok(Vec::from_slice(alloc, &conflicts).map_err(AllocError::from)?)),
        Err(fault) => Ok(Err(fault)),
    }
}
