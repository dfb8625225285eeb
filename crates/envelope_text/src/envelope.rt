//! The text of `envelope`.

ghost use Rattle.std.specs.Prelude.{◌≡◌, ◌^◌, ◌<◌, ◌≤◌, ◌++◌, IfOk, length, map, flat_map, All};
ghost use Rattle.envelope_text.specs.Common.{max_pieces, data_of, envelope_data, piece_data, IsLawfulEnvelope, IsLawfulPiece, AreSamplesOf, field_data};
ghost use Rattle.audit_text.specs.Second.{second_of};
ghost use Rattle.envelope_text.specs.Envelope as spec;
ghost use Rattle.envelope_text.specs.Envelope.{bound_line, piece_columns, piece_line, piece_lines, server_line, server_lines};
ghost use Rattle.audit_text.specs.Table.{rows_from};

use crate::least_line::{LeastLine, add_least};
use crate::step::Step;
use audit_text::{
    add_heading, add_row, hull_high, hull_low, is_plain, second_of, server_of, word_for,
};
use claim_file::Claim;
use finder::{LeastBound, PieceHull, parts};
use line_writer::{ColumnKind, Field, Style, add_line};
use sample_interval::SampleSource;
use span_cover::Part;
use std::alloc::{AllocError, Global};

/// How far off may the clock have been, piece by piece?
#[derive(Clone, Copy, Debug)]
pub struct EnvelopeOptions {
    /// How long the pieces are.
    pub step: Step,
    /// Whether to show what each server says about each piece.
    pub servers: bool,
    /// Whether to show the least bound that a certificate carries.
    pub least: bool,
}

/// Pieces of 64 seconds, with nothing that has to be asked for.
pub const PLAIN_ENVELOPE: EnvelopeOptions = EnvelopeOptions {
    step: Step { seconds: 64 },
    servers: false,
    least: false,
};

/// The columns, the last of them for what servers say.
const COLUMNS: [Field<'static>; 6] = [
    Field::Heading("piece", ColumnKind::Number),
    Field::Heading("begin", ColumnKind::Second),
    Field::Heading("end", ColumnKind::Second),
    Field::Heading("low error ms", ColumnKind::End),
    Field::Heading("high error ms", ColumnKind::End),
    Field::Heading("server", ColumnKind::Name),
];

/// The columns of pieces, and of what servers say in them.
fn columns(asked: EnvelopeOptions) -> &'static [Field<'static>]
    ensures { map field_data result.now ≡ piece_columns asked }
{
    if asked.servers {
        &COLUMNS
    } else {
        &COLUMNS[..COLUMNS.len() - 1]
    }
}

/// The fields of a piece, with these ends of a range of the error.
fn fields_with(
    number: u32,
    piece: &PieceHull,
    low: Field<'static>,
    high: Field<'static>,
) -> [Field<'static>; 5]
    requires begin { second_of piece.now.stretch.begin < 2 ^ 32 }
    requires end { second_of piece.now.stretch.end < 2 ^ 32 }
    ensures { map field_data result ≡ spec.fields_with
        number (piece_data piece.now) (field_data low.entry) (field_data high.entry) }
{
    [
        Field::Number(u64::from(number)),
        Field::Second(second_of(piece.stretch.begin)),
        Field::Second(second_of(piece.stretch.end)),
        low,
        high,
    ]
}

/// Adds the line of a piece.
#[tactic(auto, unfolding(crate::specs::Envelope::piece_line))]
fn add_piece(
    text: &mut Vec<u8>,
    style: Style,
    number: u32,
    piece: &PieceHull,
) -> Result<(), AllocError>
    requires begin { second_of piece.now.stretch.begin < 2 ^ 32 }
    requires end { second_of piece.now.stretch.end < 2 ^ 32 }
    ensures { IfOk result (λ _. text.new.items ≡
        text.old.items ++ piece_line style number (piece_data piece.now)) }
{
    let fields = fields_with(number, piece, hull_low(piece.hull), hull_high(piece.hull));
    add_row(text, style, &fields)
}

/// The fields of a server in the columns of a piece.
fn server_columns(claim: &Claim, number: u32, piece: &PieceHull, part: &Part) -> [Field<'static>; 6]
    requires listed { part.now.server < length claim.now.servers.items }
    requires begin { second_of piece.now.stretch.begin < 2 ^ 32 }
    requires end { second_of piece.now.stretch.end < 2 ^ 32 }
    ensures { map field_data result
        ≡ spec.server_columns (data_of claim.now) number (piece_data piece.now) part.now }
{
    let low = Field::Low(part.interval.lo);
    let high = Field::High(part.interval.hi);
    let [number, begin, end, low, high] = fields_with(number, piece, low, high);
    let server = Field::Address(server_of(claim, part.server));
    [number, begin, end, low, high, server]
}

/// Adds the line of a server in a piece.
#[tactic(auto, unfolding(crate::specs::Envelope::server_line))]
fn add_part(
    text: &mut Vec<u8>,
    style: Style,
    claim: &Claim,
    number: u32,
    piece: &PieceHull,
    part: &Part,
) -> Result<(), AllocError>
    requires listed { part.now.server < length claim.now.servers.items }
    requires begin { second_of piece.now.stretch.begin < 2 ^ 32 }
    requires end { second_of piece.now.stretch.end < 2 ^ 32 }
    ensures { IfOk result (λ _. text.new.items ≡ text.old.items ++ server_line
        style (data_of claim.now) number (piece_data piece.now) part.now) }
{
    if !is_plain(style) {
        return add_row(text, style, &server_columns(claim, number, piece, part));
    }
    let fields = [
        Field::Number(u64::from(number)),
        Field::Address(server_of(claim, part.server)),
        Field::Low(part.interval.lo),
        Field::High(part.interval.hi),
    ];
    add_row(text, style, &fields)
}

/// Adds the line of each of these servers.
fn add_parts(
    text: &mut Vec<u8>,
    style: Style,
    claim: &Claim,
    number: u32,
    piece: &PieceHull,
    parts: &[Part],
) -> Result<(), AllocError>
    requires listed { All (λ part. part.server < length claim.now.servers.items) parts.now }
    requires begin { second_of piece.now.stretch.begin < 2 ^ 32 }
    requires end { second_of piece.now.stretch.end < 2 ^ 32 }
    ensures { IfOk result (λ _. text.new.items ≡ text.old.items ++ flat_map
        (server_line style (data_of claim.now) number (piece_data piece.now)) parts.now) }
{
    for part in parts {
        add_part(text, style, claim, number, piece, part)?;
    }
    Ok(())
}

/// What each server says in a piece.
fn add_servers<S: SampleSource>(
    text: &mut Vec<u8>,
    style: Style,
    samples: S,
    claim: &Claim,
    number: u32,
    piece: &PieceHull,
) -> Result<(), AllocError>
    requires samples { AreSamplesOf (data_of claim.now) (S.samples samples) }
    requires piece { IsLawfulPiece (length (S.samples samples)) (piece_data piece.now) }
    ensures { IfOk result (λ _. text.new.items ≡ text.old.items ++ server_lines
        style (S.samples samples) (data_of claim.now) number (piece_data piece.now)) }
{
    let parts = parts(samples, claim, piece.stretch, &piece.entries);
    add_parts(text, style, claim, number, piece, parts.as_slice())
}

/// Adds the line of the least bound of the pieces.
#[tactic(auto, unfolding(crate::specs::Envelope::bound_line))]
fn add_bound(text: &mut Vec<u8>, style: Style, least: LeastBound) -> Result<(), AllocError>
    ensures { IfOk result (λ _. text.new.items ≡ text.old.items ++ bound_line style least) }
{
    match least {
        LeastBound::Holds { bound_ns, piece } => {
            let bound = word_for(style, "bound_ns", "bound");
            let piece = Field::Named("piece", u64::from(piece));
            add_line(text, style, &[bound, Field::Nanoseconds(bound_ns), piece])
        }
        LeastBound::NoneHolds { piece } => {
            let none = word_for(style, "bound_ns none", "bound none");
            let piece = Field::Named("piece", u64::from(piece));
            add_line(text, style, &[none, piece])
        }
    }
}

/// The lines of a piece.
fn add_lines<S: SampleSource>(
    text: &mut Vec<u8>,
    style: Style,
    asked: EnvelopeOptions,
    samples: S,
    claim: &Claim,
    number: u32,
    piece: &PieceHull,
) -> Result<(), AllocError>
    requires samples { AreSamplesOf (data_of claim.now) (S.samples samples) }
    requires piece { IsLawfulPiece (length (S.samples samples)) (piece_data piece.now) }
    ensures { IfOk result (λ _. text.new.items ≡ text.old.items ++ piece_lines
        style asked (S.samples samples) (data_of claim.now) number (piece_data piece.now)) }
{
    if asked.servers {
        add_servers(text, style, samples, claim, number, piece)?;
    }
    add_piece(text, style, number, piece)
}

/// The lines of the pieces, in their order.
fn add_pieces<S: SampleSource>(
    text: &mut Vec<u8>,
    style: Style,
    asked: EnvelopeOptions,
    samples: S,
    claim: &Claim,
    pieces: &[PieceHull],
) -> Result<(), AllocError>
    requires samples { AreSamplesOf (data_of claim.now) (S.samples samples) }
    requires few { length pieces.now ≤ max_pieces }
    requires pieces { All (λ piece. IsLawfulPiece (length (S.samples samples)) (piece_data piece))
        pieces.now }
    ensures { IfOk result (λ _. text.new.items ≡ text.old.items ++ rows_from
        (piece_lines style asked (S.samples samples) (data_of claim.now)) 0
        (map piece_data pieces.now)) }
{
    for (number, piece) in pieces.iter().enumerate() {
        add_lines(text, style, asked, samples, claim, number as u32, piece)?;
    }
    Ok(())
}

/// The text of `envelope`: a line for each piece, numbered from 0, with its begin and end in Unix
/// seconds and its hull in ticks of 2^-32 s; before it, if servers are asked for, a line for each
/// server that has a sample, with its address and its interval in the piece; then the least bound
/// in nanoseconds, and the first piece that needs it, or the first piece in which no bound holds;
/// and last `least`, the least bound that a certificate carries, if it is asked for.
///
/// The envelope is of these samples, at most 1,000,000, and of this claim.
#[tactic(auto, unfolding(crate::specs::Envelope::envelope_text))]
pub fn envelope_text<S: SampleSource>(
    alloc: Global,
    style: Style,
    asked: EnvelopeOptions,
    samples: S,
    claim: &Claim,
    envelope: &finder::Envelope,
    least: LeastLine,
) -> Result<Vec<u8>, AllocError>
    requires samples { AreSamplesOf (data_of claim.now) (S.samples samples) }
    requires few { length envelope.now.pieces.items ≤ max_pieces }
    requires envelope { IsLawfulEnvelope (length (S.samples samples)) envelope.now }
    ensures { IfOk result (λ text. text.items ≡ spec.envelope_text style asked
        (S.samples samples) (data_of claim.now) (envelope_data envelope.now) least) }
{
    let mut text = Vec::new(alloc);
    add_heading(&mut text, style, columns(asked))?;
    add_pieces(&mut text, style, asked, samples, claim, &envelope.pieces)?;
    add_bound(&mut text, style, envelope.least)?;
    add_least(&mut text, style, least)?;
    Ok(text)
}
