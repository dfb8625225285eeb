//! What the words of a command line call for.

ghost use Rattle.std.specs.Prelude.{◌≡◌, [], IfOk, option_map, string_bytes, unwrap_or};
ghost use Rattle.program.specs.Invocation.{IsRefusedBy, listed_name, second_of};

use audit::{AtReading, Request, Style};
use report::Input;
use std::alloc::{AllocError, Global};

/// The operand that is standard input.
pub const STDIN: &str = "-";

/// The path of an option, empty if it was left out.
pub fn path_or_none(path: &Option<String>) -> &str
    ensures { result.now ≡ unwrap_or (option_map string_bytes path.now) [] }
{
    match path {
        Some(path) => path.as_str(),
        None => "",
    }
}

/// The capture that is listed, and for whom its faults are told.
#[derive(Drop)]
pub struct Listed {
    /// The style of a fault.
    pub style: Style,
    /// The capture's path, and none for standard input.
    pub path: Option<String>,
}

impl Listed {
    /// The operand that names the capture.
    pub fn operand(&self) -> &str
        ensures { result.now ≡ listed_name self.now }
    {
        match &self.path {
            Some(path) => path.as_str(),
            None => STDIN,
        }
    }
}

/// The paths of the files that a question is asked of, and for whom the answer is written.
#[derive(Drop)]
pub struct Paths {
    /// The style of the answer.
    pub style: Style,
    /// The path of the claim.
    pub claim: String,
    /// The path of the capture.
    pub capture: String,
    /// The path of the file of sums, if the inputs are held to one.
    pub sums: Option<String>,
    /// The path of the file for a program, if the answer isn't for standard output alone.
    pub output: Option<String>,
}

/// A reading of a clock.
#[derive(Drop)]
pub struct Shown {
    /// The ticks for which the clock showed it.
    pub reading: AtReading,
    /// The paths of the clock's claim and capture, and those of the answer.
    pub paths: Paths,
}

/// The paths of a question with a second input.
#[derive(Drop)]
pub struct JudgedPaths {
    /// All but that of the second input.
    pub evidence: Paths,
    /// The path of the certificate, the refutation or the readings.
    pub second: String,
}

/// A question with a second input.
#[derive(Clone, Copy, Debug)]
pub enum Judgement {
    /// Check a certificate.
    Check,
    /// Check a refutation, whose error may drift or never changes.
    Refute {
        /// Whether it may drift.
        drift: bool,
    },
    /// Say when it was that the clock showed readings.
    Readings {
        /// Whether by covers.
        covers: bool,
    },
}

impl Judgement {
    /// The second input.
    pub fn second(self) -> Input
        ensures { result ≡ second_of self }
    {
        match self {
            Judgement::Check => Input::Certificate,
            Judgement::Refute { .. } => Input::Refutation,
            Judgement::Readings { .. } => Input::Times,
        }
    }
}

/// What the words of a command line call for.
#[derive(Drop)]
pub enum Invocation {
    /// List a capture.
    List(Listed),
    /// Answer a question.
    Ask(Request, Paths),
    /// Judge a certificate, a refutation or readings.
    Judge(Judgement, JudgedPaths),
    /// Say which was first, the reading of one clock or that of another. Of the first's paths only
    /// those of the claim and the capture count.
    Order(Shown, Shown),
    /// Show this text: help, or the version.
    Show(String),
    /// The command line is refused, for the reason in this text.
    Refuse(String),
    /// The command line is refused, since its TIME isn't written as a claim's times are. For a
    /// person TIME is kept here.
    RefuseTime(Option<String>),
}

impl Invocation {
    /// A command line that is refused with this text.
    pub fn refusal(alloc: Global, text: &str) -> Result<Invocation, AllocError>
        ensures { IfOk result (IsRefusedBy text.now) }
    {
        Ok(Invocation::Refuse(String::from_str(alloc, text)?))
    }
}
