//! The line of a verdict.

ghost use Rattle.std.specs.Prelude.{◌≡◌, ◌++◌, IfOk};
ghost use Rattle.audit_text.specs.VerdictLine as spec;
ghost use Rattle.audit_text.specs.VerdictLine.{covers_line, pieces_line, verdict_line};

use checker::{Verdict, Why};
use cover_checker::{CaseWhy, CoverVerdict, PieceWhy};
use line_writer::{Field, Style, add_line};
use std::alloc::AllocError;

/// The verdict on a certificate of either form.
#[derive(Clone, Copy, Debug)]
pub enum AnyVerdict {
    /// On one of pieces.
    OfPieces(Verdict),
    /// On one by covers.
    ByCovers(CoverVerdict),
}

/// The word for a reason.
fn why_word(why: &Why) -> &'static str
    ensures { result.now ≡ spec.why_word why.now }
{
    match why {
        Why::Cut => "cut",
        Why::BadSample => "bad-sample",
        Why::MixedServers => "mixed-servers",
        Why::RepeatedServer => "repeated-server",
        Why::Unbounded => "unbounded",
        Why::Contradiction => "contradiction",
        Why::Exceeds => "exceeds",
        Why::Uncovered => "uncovered",
    }
}

/// That of a case's piece.
fn piece_why_word(why: &PieceWhy) -> &'static str
    ensures { result.now ≡ spec.piece_why_word why.now }
{
    match why {
        PieceWhy::LeftOut => "left-out",
        PieceWhy::Of(why) => why_word(why),
    }
}

/// That of a case's groups.
fn case_why_word(why: &CaseWhy) -> &'static str
    ensures { result.now ≡ spec.case_why_word why.now }
{
    match why {
        CaseWhy::TooManyGroups => "too-many-groups",
        CaseWhy::NoGroup => "no-group",
        CaseWhy::RepeatedGroup => "repeated-group",
        CaseWhy::RepeatedCase => "repeated-case",
    }
}

/// Adds the line of the verdict on a certificate of pieces.
#[tactic(auto, unfolding(crate::specs::VerdictLine::pieces_line))]
fn add_of_pieces(text: &mut Vec<u8>, style: Style, verdict: &Verdict) -> Result<(), AllocError>
    ensures { IfOk result (λ _. text.new.items ≡
        text.old.items ++ pieces_line style verdict.now) }
{
    match verdict {
        Verdict::Yes => add_line(text, style, &[Field::Word("verdict yes")]),
        Verdict::No { piece, why } => {
            let piece = Field::Named("piece", u64::from(*piece));
            let why = Field::Word(why_word(why));
            add_line(text, style, &[Field::Word("verdict no"), piece, why])
        }
    }
}

/// Adds a line of no at a part of a certificate: what it is, its number, and the word for why.
fn add_no(
    text: &mut Vec<u8>,
    style: Style,
    part: &'static str,
    number: u32,
    word: &'static str,
) -> Result<(), AllocError>
    ensures { IfOk result (λ _. text.new.items ≡
        text.old.items ++ spec.no_line style part.now number word.now) }
{
    let part = Field::Named(part, u64::from(number));
    add_line(
        text,
        style,
        &[Field::Word("verdict no"), part, Field::Word(word)],
    )
}

/// Adds the line of no at a case's piece.
fn add_bad_piece(
    text: &mut Vec<u8>,
    style: Style,
    case: u32,
    piece: u32,
    why: &PieceWhy,
) -> Result<(), AllocError>
    ensures { IfOk result (λ _. text.new.items ≡
        text.old.items ++ spec.bad_piece_line style case piece why.now) }
{
    let case = Field::Named("case", u64::from(case));
    let piece = Field::Named("piece", u64::from(piece));
    let why = Field::Word(piece_why_word(why));
    add_line(text, style, &[Field::Word("verdict no"), case, piece, why])
}

/// Adds that of one by covers.
#[tactic(auto, unfolding(crate::specs::VerdictLine::covers_line))]
fn add_by_covers(text: &mut Vec<u8>, style: Style, verdict: &CoverVerdict) -> Result<(), AllocError>
    ensures { IfOk result (λ _. text.new.items ≡
        text.old.items ++ covers_line style verdict.now) }
{
    match verdict {
        CoverVerdict::Yes => add_line(text, style, &[Field::Word("verdict yes")]),
        CoverVerdict::NoConflict(k) => add_no(text, style, "conflict", *k, "no-conflict"),
        CoverVerdict::NoCase => add_line(text, style, &[Field::Word("verdict no no-case")]),
        CoverVerdict::BadCase(k, why) => add_no(text, style, "case", *k, case_why_word(why)),
        CoverVerdict::Unanswered => add_line(text, style, &[Field::Word("verdict no unanswered")]),
        CoverVerdict::BadPiece(k, piece, why) => add_bad_piece(text, style, *k, *piece, why),
    }
}

/// Adds the line of the verdict.
pub(crate) fn add_verdict(
    text: &mut Vec<u8>,
    style: Style,
    verdict: &AnyVerdict,
) -> Result<(), AllocError>
    ensures { IfOk result (λ _. text.new.items ≡
        text.old.items ++ verdict_line style verdict.now) }
{
    match verdict {
        AnyVerdict::OfPieces(verdict) => add_of_pieces(text, style, verdict),
        AnyVerdict::ByCovers(verdict) => add_by_covers(text, style, verdict),
    }
}
