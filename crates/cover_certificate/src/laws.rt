//! What holds of the definitions that the contracts cite. A law is a function that does nothing:
//! its contract is the law, for every text and every certificate.

ghost use Rattle.std.specs.Prelude.{◌≡◌, ℕ, List, Ok};
ghost use Rattle.cover_certificate.specs.CoverCertificate.{CoverCertificateData, IsFew};
ghost use Rattle.cover_certificate.specs.CoverReading.{IsHeldCovers, covers_of};
ghost use Rattle.cover_certificate.specs.CoverWriting.{covers_text, covers_value};
ghost use Rattle.serde_json.specs.Written.{compact_text};

/// What the bytes of a certificate by covers say has at most 528 conflicts and 64 cases, and these
/// have at most 100,000 pieces in all. Its text says it: each one within these limits is read. The
/// text is the compact text of a JSON value.
pub fn covers_are_written_as_they_are_read()
    ensures few { (bytes : List ℕ) (certificate : CoverCertificateData) →
        covers_of bytes ≡ Ok certificate → IsFew certificate }
    ensures read { (certificate : CoverCertificateData) → IsFew certificate →
        IsHeldCovers certificate → covers_of (covers_text certificate) ≡ Ok certificate }
    ensures text { (certificate : CoverCertificateData) →
        covers_text certificate ≡ compact_text (covers_value certificate) }
{}
