//! What holds of the definitions that the contracts cite. A law is a function that does nothing:
//! its contract is the law.

ghost use Rattle.std.specs.Prelude.{◌≡◌, ℕ, true};
ghost use Rattle.audit_text.specs.Table.{IsUnder};
ghost use Rattle.envelope_text.specs.Common.{ClaimData, Part, PieceHullData};
ghost use Rattle.envelope_text.specs.Envelope.{piece_columns, piece_fields, server_columns};
ghost use Rattle.envelope_text.specs.declared.envelope.EnvelopeOptions.{EnvelopeOptions};

/// In each row every text ends where the heading of its column ends.
pub fn rows_stand_under_their_headings()
    ensures pieces { (asked : EnvelopeOptions) (number : ℕ) (piece : PieceHullData) →
        IsUnder (piece_columns asked) (piece_fields number piece) }
    ensures servers { (asked : EnvelopeOptions) → asked.servers ≡ true →
        (claim : ClaimData) (number : ℕ) (piece : PieceHullData) (part : Part) →
        IsUnder (piece_columns asked) (server_columns claim number piece part) }
{}
