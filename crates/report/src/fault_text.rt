//! The line of a fault.

ghost use Rattle.std.specs.Prelude.{◌≡◌, ◌+◌, ◌≤◌, ◌++◌, [], ◌∷◌, length, IfOk, string_bytes};
ghost use Rattle.line_writer.specs.declared.line.TheConstants.{CAPACITY};
ghost use Rattle.report.specs.Common.{Plain, Word, field_data, fields_text, most_of, room_of};
ghost use Rattle.report.specs.FaultText as spec;
ghost use Rattle.report.specs.FaultText.{capture_said, claim_said, certificate_said, covers_said, fault_text, pieces_said, refutation_said, refused, times_said};

use crate::fault::{Input, RunFault, SumsFault};
use certificate::{CertificateFault, RefutationFault};
use claim_file::ClaimFault;
use cover_certificate::{AnyFault, CoverFault};
use line_writer::{Field, Line, Style, put_fields};
use pcap_reader::CaptureFault;
use reading_time::TimesFault;
use std::alloc::{AllocError, Global};
use std::str;

/// The word for a capture's fault, and the place of the record whose fault it is.
fn capture_words(fault: &CaptureFault) -> (&'static str, Field<'static>)
    ensures said { (Word result.0.now ∷ field_data result.1 ∷ []) ≡ capture_said fault.now }
    ensures room { length result.0.now + most_of (field_data result.1) ≤ 70 }
{
    match fault {
        CaptureFault::TornHeader => ("torn-header", Field::Nothing),
        CaptureFault::Magic => ("magic", Field::Nothing),
        CaptureFault::Version => ("version", Field::Nothing),
        CaptureFault::Link => ("link", Field::Nothing),
        CaptureFault::TornRecord(place) => ("torn-record", Field::Named("at", *place)),
        CaptureFault::TooLong(place) => ("too-long", Field::Named("at", *place)),
        CaptureFault::BadFraction(place) => ("bad-fraction", Field::Named("at", *place)),
        CaptureFault::TooMany => ("too-many", Field::Nothing),
        CaptureFault::Read => ("read", Field::Nothing),
        CaptureFault::Memory => ("memory", Field::Nothing),
        CaptureFault::Failed => ("failed", Field::Nothing),
    }
}

/// The word for a claim's fault, and the code of the field whose fault it is.
fn claim_words(fault: &ClaimFault) -> (&'static str, Field<'static>)
    ensures said { (Word result.0.now ∷ field_data result.1 ∷ []) ≡ claim_said fault.now }
    ensures room { length result.0.now + most_of (field_data result.1) ≤ 70 }
{
    match fault {
        ClaimFault::Json => ("json", Field::Nothing),
        ClaimFault::Field(code) => ("field", Field::Named("field", u64::from(*code))),
        ClaimFault::Address => ("address", Field::Nothing),
        ClaimFault::Time => ("time", Field::Nothing),
        ClaimFault::Range => ("range", Field::Nothing),
        ClaimFault::RepeatedServer => ("repeated-server", Field::Nothing),
        ClaimFault::Memory => ("memory", Field::Nothing),
        ClaimFault::Groups => ("groups", Field::Nothing),
    }
}

/// The word for a fault of a certificate of pieces, and the number of the piece whose fault it is.
fn pieces_words(fault: &CertificateFault) -> (&'static str, Field<'static>)
    ensures said { (Word result.0.now ∷ field_data result.1 ∷ []) ≡ pieces_said fault.now }
    ensures room { length result.0.now + most_of (field_data result.1) ≤ 70 }
{
    match fault {
        CertificateFault::Json => ("json", Field::Nothing),
        CertificateFault::Top => ("top", Field::Nothing),
        CertificateFault::Shape(piece) => ("shape", Field::Named("piece", u64::from(*piece))),
        CertificateFault::TooManyEntries(piece) => {
            ("too-many-entries", Field::Named("piece", u64::from(*piece)))
        }
        CertificateFault::TooManyPieces => ("too-many-pieces", Field::Nothing),
        CertificateFault::Memory => ("memory", Field::Nothing),
    }
}

/// That of one by covers, and the number of the case or of the piece.
fn covers_words(fault: &CoverFault) -> (&'static str, Field<'static>)
    ensures said { (Word result.0.now ∷ field_data result.1 ∷ []) ≡ covers_said fault.now }
    ensures room { length result.0.now + most_of (field_data result.1) ≤ 70 }
{
    match fault {
        CoverFault::Json => ("json", Field::Nothing),
        CoverFault::Top => ("top", Field::Nothing),
        CoverFault::TooManyConflicts => ("too-many-conflicts", Field::Nothing),
        CoverFault::Conflicts => ("conflicts", Field::Nothing),
        CoverFault::TooManyCases => ("too-many-cases", Field::Nothing),
        CoverFault::CaseShape(case) => ("case", Field::Number(u64::from(*case))),
        CoverFault::TooManyPieces => ("too-many-pieces", Field::Nothing),
        CoverFault::Shape(piece) => ("shape", Field::Named("piece", u64::from(*piece))),
        CoverFault::TooManyEntries(piece) => {
            ("too-many-entries", Field::Named("piece", u64::from(*piece)))
        }
        CoverFault::Memory => ("memory", Field::Nothing),
    }
}

/// That of a certificate of either form.
fn certificate_words(fault: &AnyFault) -> (&'static str, Field<'static>)
    ensures said { (Word result.0.now ∷ field_data result.1 ∷ []) ≡ certificate_said fault.now }
    ensures room { length result.0.now + most_of (field_data result.1) ≤ 70 }
{
    match fault {
        AnyFault::OfPieces(fault) => pieces_words(fault),
        AnyFault::ByCovers(fault) => covers_words(fault),
    }
}

/// The word for a refutation's fault.
fn refutation_words(fault: &RefutationFault) -> (&'static str, Field<'static>)
    ensures said { (Word result.0.now ∷ field_data result.1 ∷ []) ≡ refutation_said fault.now }
    ensures room { length result.0.now + most_of (field_data result.1) ≤ 70 }
{
    match fault {
        RefutationFault::Json => ("json", Field::Nothing),
        RefutationFault::Shape => ("shape", Field::Nothing),
        RefutationFault::Memory => ("memory", Field::Nothing),
    }
}

/// The word for a fault of a file of readings, and the number of the line whose fault it is.
fn times_words(fault: &TimesFault) -> (&'static str, Field<'static>)
    ensures said { (Word result.0.now ∷ field_data result.1 ∷ []) ≡ times_said fault.now }
    ensures room { length result.0.now + most_of (field_data result.1) ≤ 70 }
{
    match fault {
        TimesFault::Time(line) => ("time", Field::Named("line", *line)),
        TimesFault::TooMany => ("too-many", Field::Nothing),
        TimesFault::Memory => ("memory", Field::Nothing),
    }
}

/// The word for an input.
pub fn input_word(input: Input) -> &'static str
    ensures word { result.now ≡ spec.input_word input }
    ensures room { length result.now ≤ 15 }
{
    match input {
        Input::Claim => "claim",
        Input::Capture => "capture",
        Input::Certificate => "certificate",
        Input::Refutation => "refutation",
        Input::Sums => "sums",
        Input::Times => "times",
    }
}

/// The field of that word.
fn word_of(input: &Input) -> Field<'static>
    ensures word { field_data result ≡ Word (spec.input_word input.now) }
    ensures room { most_of (field_data result) ≤ 16 }
{
    Field::Word(input_word(*input))
}

/// Writes the line of an input that is refused: which one, its fault's number and word, and where.
fn put_refused(line: &mut Line, input: Input, number: u8, words: (&'static str, Field<'static>))
    requires room { length line.old + 200 ≤ CAPACITY }
    requires words { length words.0.now + most_of (field_data words.1) ≤ 70 }
    ensures { line.new ≡ fields_text Plain
        (refused input number (Word words.entry.0.now ∷ field_data words.entry.1 ∷ []))
        ++ line.old }
{
    let fields = [
        Field::Word("ntpaudit:"),
        word_of(&input),
        Field::Number(u64::from(number)),
        Field::Word(words.0),
        words.1,
    ];
    put_fields(line, Style::Plain, &fields);
}

/// Writes a line of these words and of what they are said.
fn put_words(line: &mut Line, words: &'static str, last: Field<'static>)
    requires room { length line.old + 200 ≤ CAPACITY }
    requires words { room_of (Word words.now ∷ field_data last ∷ []) ≤ 150 }
    ensures { line.new ≡ fields_text Plain
        (Word words.now ∷ field_data last.entry ∷ []) ++ line.old }
{
    put_fields(line, Style::Plain, &[Field::Word(words), last]);
}

/// Writes the line of a fault before what stands in `line`, with no line feed, in at most 200
/// bytes. No memory is taken for it.
pub(crate) fn put_fault(line: &mut Line, fault: &RunFault)
    requires { length line.old + 200 ≤ CAPACITY }
    ensures { line.new ≡ fault_text fault.now ++ line.old }
{
    match fault {
        RunFault::Capture(f) => put_refused(line, Input::Capture, f.number(), capture_words(f)),
        RunFault::Claim(f) => put_refused(line, Input::Claim, f.number(), claim_words(f)),
        RunFault::Certificate(f) => {
            put_refused(line, Input::Certificate, f.number(), certificate_words(f));
        }
        RunFault::Refutation(f) => {
            put_refused(line, Input::Refutation, f.number(), refutation_words(f));
        }
        RunFault::Times(f) => put_refused(line, Input::Times, f.number(), times_words(f)),
        RunFault::Exchanges => put_words(line, "ntpaudit: exchanges over 1000000", Field::Nothing),
        RunFault::Pieces => put_words(line, "ntpaudit: pieces over 100000", Field::Nothing),
        RunFault::TooBig(input) => put_words(line, "ntpaudit: too-big", word_of(input)),
        RunFault::Device(input) => put_words(line, "ntpaudit: device", word_of(input)),
        RunFault::Write(n) => put_words(line, "ntpaudit: device output", Field::Named("after", *n)),
        RunFault::Memory => put_words(line, "ntpaudit: memory", Field::Nothing),
        RunFault::Sums(fault) => match fault {
            SumsFault::Form(n) => put_words(line, "ntpaudit: sums form", Field::Named("line", *n)),
            SumsFault::Missing(input) => put_words(line, "ntpaudit: sums missing", word_of(input)),
            SumsFault::Differ(input) => put_words(line, "ntpaudit: sums differ", word_of(input)),
        },
    }
}

/// The line of a fault, without its line feed. Its only error is that memory was refused.
pub fn fault_line(alloc: Global, fault: &RunFault) -> Result<String, AllocError>
    ensures { IfOk result (λ line. string_bytes line ≡ fault_text fault.now) }
{
    let mut line = Line::new();
    put_fault(&mut line, fault);
    let text = str::from_utf8(line.as_bytes()).unwrap();
    String::from_str(alloc, text)
}
