//! What was seen of a fault.

ghost use Rattle.std.specs.Prelude.{◌≡◌, [], IfOk, string_bytes};
ghost use Rattle.fault_words.specs.Explanation.{IsToldQuietly, seen_data, nothing_seen};

use crate::kind::FileKind;
use std::alloc::{AllocError, Global};

/// What was seen of a fault when its input was looked at again.
#[derive(Debug, Drop)]
pub struct Seen {
    /// The field of the claim, by its code, or 0 if it is of none.
    pub field: u8,
    /// Whether that field isn't there.
    pub is_missing: bool,
    /// What the file is instead.
    pub kind: FileKind,
    /// What is said behind the sentence.
    pub seen: String,
}

impl Seen {
    /// Nothing was seen.
    pub fn nothing(alloc: Global) -> Seen
        ensures nothing { seen_data result ≡ nothing_seen FileKind.Unknown [] }
        ensures quiet { IsToldQuietly result }
    {
        Seen::of_text(String::new(alloc))
    }

    /// This was seen.
    pub fn of_text(seen: String) -> Seen
        ensures { seen_data result ≡ nothing_seen FileKind.Unknown (string_bytes seen) }
    {
        Seen {
            field: 0,
            is_missing: false,
            kind: FileKind::Unknown,
            seen,
        }
    }

    /// The file is of this kind.
    pub fn of_kind(alloc: Global, kind: FileKind) -> Result<Seen, AllocError>
        ensures kind { IfOk result (λ found.
            seen_data found ≡ nothing_seen kind (string_bytes found.seen)) }
        ensures quiet { IfOk result IsToldQuietly }
    {
        let seen = String::from_str(alloc, kind.word())?;
        Ok(Seen {
            kind,
            ..Seen::of_text(seen)
        })
    }

    /// What is wrong is of this field of the claim.
    pub(crate) fn of_field(field: u8, is_missing: bool, seen: String) -> Seen
        ensures { string_bytes result.seen ≡ string_bytes seen }
    {
        Seen {
            field,
            is_missing,
            ..Seen::of_text(seen)
        }
    }
}
