//! What holds of the definitions that the contracts cite. A law is a function that does nothing:
//! its contract is the law, for every text, every certificate and every refutation.

ghost use Rattle.std.specs.Prelude.{◌≡◌, ℕ, ◌≤◌, List, Ok, All, length};
ghost use Rattle.certificate.specs.Certificate.{CertificateData, IsHeld, IsReadable, max_pieces};
ghost use Rattle.certificate.specs.Refutation.{RefutationData, IsHeldRefutation};
ghost use Rattle.certificate.specs.RefutationReading.{refutation_of};
ghost use Rattle.certificate.specs.RefutationWriting.{refutation_text};
ghost use Rattle.certificate.specs.Reading.{certificate_of};
ghost use Rattle.certificate.specs.Writing.{certificate_text, certificate_value};
ghost use Rattle.serde_json.specs.Written.{compact_text};

/// What the bytes of a certificate say has at most 100,000 pieces, each with at most 32 entries,
/// and each entry names two samples by numbers below 2^32.
pub fn certificates_are_readable()
    ensures few { (bytes : List ℕ) (certificate : CertificateData) →
        certificate_of bytes ≡ Ok certificate → length certificate.pieces ≤ max_pieces }
    ensures readable { (bytes : List ℕ) (certificate : CertificateData) →
        certificate_of bytes ≡ Ok certificate → All IsReadable certificate.pieces }
{}

/// The text of a certificate says that certificate: each one within these limits whose pieces end
/// at numbers below 2^64 is read. The text is the compact text of a JSON value.
pub fn certificates_are_written_as_they_are_read()
    ensures read { (certificate : CertificateData) → length certificate.pieces ≤ max_pieces →
        All IsHeld certificate.pieces →
        certificate_of (certificate_text certificate) ≡ Ok certificate }
    ensures text { (certificate : CertificateData) →
        certificate_text certificate ≡ compact_text (certificate_value certificate) }
{}

/// The text of a refutation says that refutation, and it is no longer than a refutation that is
/// read may be.
pub fn refutations_are_written_as_they_are_read()
    ensures read { (refutation : RefutationData) → IsHeldRefutation refutation →
        refutation_of (refutation_text refutation) ≡ Ok refutation }
    ensures short { (refutation : RefutationData) → IsHeldRefutation refutation →
        length (refutation_text refutation) ≤ 65536 }
{}
