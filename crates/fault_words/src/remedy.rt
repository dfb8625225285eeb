//! What to do about a fault: remedies that have a name, and what is filled into each.
//!
//! In a remedy `@` stands for the file that the fault is of, `#` for its place there, `~` for the
//! claim and the capture, `&` for these and the second input, and `%` for the file of sums.
//! new.pcap, new.json and new.sums are files to be made.

ghost use Rattle.std.specs.Prelude.{◌≡◌, ◌++◌, IfOk, OnOk, codes, false, string_bytes};
ghost use Rattle.std.specs.List.{list_all};
ghost use Rattle.fault_words.specs.Quote.{IsQuiet};
ghost use Rattle.fault_words.specs.Sentence as spec;
ghost use Rattle.fault_words.specs.Shell as shell;
ghost use Rattle.fault_words.specs.Sentence.{IsQuietKnown, known_data};

use crate::quote::{add_shown, shown};
use crate::subject::{Names, input_of};
use pcap_reader::CaptureFault;
use report::RunFault;
use std::alloc::{AllocError, Global};

pub(crate) const SEE_LIMITS: &str = "see what limits it: ulimit -v, or a container's limit";

pub(crate) const SEE_WHO_MAY_READ: &str = "see what it is and who may read it: ls -l @";

pub(crate) const CUT_BY_RECORDS: &str =
    "cut it: editcap -F pcap -c 4000000 @ new.pcap (-F nsecpcap for nanoseconds)";

pub(crate) const WRITE_AN_ADDRESS: &str =
    "write an address as \"192.0.2.1\": no host name, no IPv6, no leading zeros";

pub(crate) const WRITE_A_TIME: &str = "write a time as \"2026-11-22T06:46:09Z\", in UTC";

pub(crate) const WRITE_A_READING: &str =
    "write it as 2026-11-22T06:46:09.25Z or 1795329969.25, from 1970 to 2106";

pub(crate) const WRITE_NANOSECONDS: &str =
    "write nanoseconds as a bare whole number: 5 ms are 5000000";

pub(crate) const MAKE_ANEW: &str = "have it made anew: ntpaudit settle ~ > new.json";

pub(crate) const ORDER_OF_FILES: &str =
    "give the claim first, then the capture, then a certificate or refutation";

/// What standard input is called.
pub const STANDARD_INPUT: &str = "standard input";

/// What a file is called whose name isn't known, or doesn't lead to it again.
const UNNAMED: &str = "FILE";

/// What is put in place of a remedy's marks.
#[derive(Debug, Drop)]
pub(crate) struct Known {
    /// The file that the fault is of, as a word of a shell.
    pub(crate) file: String,
    /// The fault's place in it.
    pub(crate) place: String,
    /// The claim and the capture, as words of a shell.
    pub(crate) evidence: String,
    /// These and the second input, if there is one.
    pub(crate) inputs: String,
    /// The file of sums.
    pub(crate) sums: String,
}

/// Whether this byte stands for itself in a word of a shell.
fn is_plain(c: u8) -> bool
    ensures { result ≡ shell.is_plain c }
{
    // From + to : there are + , - . / the digits and :
    matches!(c, b'a'..=b'z' | b'A'..=b'Z' | b'+'..=b':' | b'_' | b'=')
}

/// Whether each of these bytes does.
fn are_plain(word: &[u8]) -> bool
    ensures { result ≡ list_all shell.is_plain word.now }
{
    word.iter().all(|c| is_plain(*c))
}

/// Whether quotes are no help: there is nothing to quote, or a single quote in it.
fn is_past_quoting(word: &[u8]) -> bool
    ensures { result ≡ shell.is_past_quoting word.now }
{
    word.is_empty() || word.contains(&b'\'')
}

/// Whether a name is none by which a command gets the file: that of a stream, or an option.
fn is_no_word(name: &str) -> bool
    ensures { result ≡ shell.is_no_word name.now }
{
    let bytes = name.as_bytes();
    name == STANDARD_INPUT || bytes.starts_with(b"/dev/") || bytes.starts_with(b"-")
}

/// A text as one word of a shell.
fn quoted_word(alloc: Global, word: String) -> Result<String, AllocError>
    requires { shell.is_past_quoting (string_bytes word) ≡ false }
    ensures quiet { IfOk result (λ text. IsQuiet (string_bytes word) →
        IsQuiet (string_bytes text)) }
    ensures reads { IfOk result (λ text.
        shell.ReadsAs (string_bytes text) (string_bytes word)) }
{
    if are_plain(word.as_bytes()) {
        return Ok(word);
    }
    Ok(format!(in alloc; "'{}'", word.as_str())?)
}

/// A file's name as one word of a shell.
fn shell_word(alloc: Global, name: &str) -> Result<String, AllocError>
    ensures quiet { IfOk result (λ text. IsQuiet (string_bytes text)) }
    ensures reads { IfOk result (λ text.
        shell.ReadsAs (string_bytes text) (shell.word_of name.now)) }
{
    if is_no_word(name) {
        return String::from_str(alloc, UNNAMED);
    }
    let word = shown(alloc, name)?;
    if is_past_quoting(word.as_bytes()) {
        return String::from_str(alloc, UNNAMED);
    }
    quoted_word(alloc, word)
}

/// The place of a fault in its file.
#[tactic(auto, using(crate::proofs::Quiet::visible_is_quiet))]
fn place_of(alloc: Global, fault: &RunFault) -> Result<String, AllocError>
    ensures { IfOk result (λ words. IsQuiet (string_bytes words)) }
{
    match fault {
        RunFault::Capture(
            CaptureFault::TornRecord(place)
            | CaptureFault::TooLong(place)
            | CaptureFault::BadFraction(place),
        ) => Ok(format!(in alloc; "{place}")?),
        _ => String::from_str(alloc, "PLACE"),
    }
}

/// Two words of a shell.
fn both(alloc: Global, first: &str, second: &str) -> Result<String, AllocError>
    ensures quiet { IfOk result (λ words. IsQuiet first.now → IsQuiet second.now →
        IsQuiet (string_bytes words)) }
    ensures words { IfOk result (λ words.
        string_bytes words ≡ first.now ++ codes " " ++ second.now) }
{
    Ok(format!(in alloc; "{first} {second}")?)
}

impl Known {
    /// What is known of a file of this name alone.
    pub(crate) fn of_file(alloc: Global, name: &str) -> Result<Known, AllocError>
        ensures { IfOk result (λ known. IsQuietKnown (known_data known)) }
    {
        Ok(Known {
            file: shell_word(alloc, name)?,
            place: String::new(alloc),
            evidence: String::new(alloc),
            inputs: String::new(alloc),
            sums: String::new(alloc),
        })
    }

    /// What is known of a fault of inputs with these names; the file that it is of
    /// is no more if it `is_pipe`.
    pub(crate) fn of_fault(
        alloc: Global,
        names: &Names<'_>,
        fault: &RunFault,
        is_pipe: bool,
    ) -> Result<Known, AllocError>
        ensures { IfOk result (λ known. IsQuietKnown (known_data known)) }
    {
        let name = match input_of(fault) {
            Some(input) if !is_pipe => names.of(input),
            _ => "",
        };
        let (claim, capture) = (
            shell_word(alloc, names.claim)?,
            shell_word(alloc, names.capture)?,
        );
        let evidence = both(alloc, claim.as_str(), capture.as_str())?;
        let second = shell_word(alloc, names.second)?;
        let inputs = if names.second.is_empty() {
            evidence.clone()?
        } else {
            both(alloc, evidence.as_str(), second.as_str())?
        };
        Ok(Known {
            file: shell_word(alloc, name)?,
            place: place_of(alloc, fault)?,
            evidence,
            inputs,
            sums: shell_word(alloc, names.sums)?,
        })
    }
}

/// Adds what is put in place of a character of a remedy.
fn add_filling(text: &mut String, alloc: Global, known: &Known, c: char) -> Result<(), AllocError>
    ensures { OnOk result (string_bytes text.new
        ≡ string_bytes text.old ++ spec.filling (known_data known.now) c) }
{
    match c {
        '@' => text.push_str(known.file.as_str()),
        '#' => text.push_str(known.place.as_str()),
        '~' => text.push_str(known.evidence.as_str()),
        '&' => text.push_str(known.inputs.as_str()),
        '%' => text.push_str(known.sums.as_str()),
        _ => add_shown(text, alloc, c),
    }
}

/// A remedy in which its marks are filled.
pub(crate) fn filled(alloc: Global, remedy: &str, known: &Known) -> Result<String, AllocError>
    ensures { IfOk result (λ out.
        string_bytes out ≡ spec.filled (known_data known.now) remedy.now) }
{
    let mut out = String::new(alloc);
    for c in remedy.chars() {
        add_filling(&mut out, alloc, known, c)?;
    }
    Ok(out)
}
