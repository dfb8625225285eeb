//! The words of the command line before clap reads them, and what it says of them made better.

ghost use Rattle.std.specs.Prelude.{◌≡◌, slice_get};
ghost use Rattle.command_line.specs.Words as spec;

use fault_words::shown;
use std::alloc::{AllocError, Global};

/// Whether the word in this place is the one that is wanted.
fn is_word(words: &[String], place: usize, wanted: &str) -> bool
    ensures { result ≡ spec.is_word wanted.now (slice_get words.now place) }
{
    match words.get(place) {
        Some(word) => word.as_str() == wanted,
        None => false,
    }
}

/// The words that count: `help --help` is `help`.
pub(crate) fn counted(words: &[String]) -> &[String]
    ensures { result.now ≡ spec.counted words.now }
{
    if is_word(words, 1, "help") && (is_word(words, 2, "--help") || is_word(words, 2, "-h")) {
        &words[..2]
    } else {
        words
    }
}

/// Why a command line is refused, in clap's words, but for its tip to pass an option as a value,
/// which is of no use here. Control characters of the words that it names are escaped.
pub(crate) fn advised(alloc: Global, words: &[String], text: &str) -> Result<String, AllocError> {
    let mut said = String::new(alloc);
    let mut is_after_tip = false;
    for line in text.lines() {
        if line.starts_with("  tip: to pass '") {
            is_after_tip = true;
        } else if is_after_tip && line.is_empty() {
            is_after_tip = false;
        } else {
            said.push_str(shown(alloc, line)?.as_str())?;
            said.push_str("\n")?;
        }
    }
    if is_word(words, 1, "--human") || is_word(words, 1, "-H") {
        said.push_str(
            "\n  tip: '--human' comes behind the command: ntpaudit list --human f.pcap\n",
        )?;
    }
    Ok(said)
}
