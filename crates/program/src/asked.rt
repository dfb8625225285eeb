//! What may be said of a run behind its fault line.

ghost use Rattle.std.specs.Prelude.{◌≡◌};
ghost use Rattle.fault_words.specs.Subject.{names_data};
ghost use Rattle.program.specs.Asked as spec;
ghost use Rattle.program.specs.Invocation as words;

use crate::invocation::{JudgedPaths, Listed, Paths, path_or_none};
use audit::Style;
use fault_words::Names;

/// The run of which something may be said.
#[derive(Drop)]
pub enum Asked {
    /// A listing.
    Listing(Listed),
    /// A question without a second input.
    Question(Paths),
    /// A judgement.
    Judgement(JudgedPaths),
    /// A refusal of this TIME, which is here for a person.
    Time(Option<String>),
    /// A run whose words aren't fixed: help, or a refused command line.
    Nothing,
}

/// Whether a style is for a person.
pub(crate) fn is_human(style: Style) -> bool
    ensures { result ≡ words.is_human style }
{
    !matches!(style, Style::Plain)
}

impl Asked {
    /// What the inputs are called, empty for those that the run hasn't.
    pub fn names(&self) -> Names<'_>
        ensures { names_data result ≡ spec.names_of self.now }
    {
        let (claim, capture, second, sums) = match self {
            Asked::Listing(listed) => ("", listed.operand(), "", ""),
            Asked::Question(paths) => {
                let (claim, capture) = (paths.claim.as_str(), paths.capture.as_str());
                (claim, capture, "", path_or_none(&paths.sums))
            }
            Asked::Judgement(paths) => {
                let evidence = &paths.evidence;
                let (claim, capture) = (evidence.claim.as_str(), evidence.capture.as_str());
                let (second, sums) = (paths.second.as_str(), path_or_none(&evidence.sums));
                (claim, capture, second, sums)
            }
            Asked::Time(_) | Asked::Nothing => ("", "", "", ""),
        };
        Names {
            claim,
            capture,
            second,
            sums,
        }
    }

    /// What the output is called, empty if the run has none.
    pub fn output(&self) -> &str
        ensures { result.now ≡ spec.output_of self.now }
    {
        match self {
            Asked::Question(paths) => path_or_none(&paths.output),
            _ => "",
        }
    }

    /// Whether a fault of the run has a line whose words are fixed.
    pub fn has_a_fault_line(&self) -> bool
        ensures { result ≡ spec.has_a_fault_line self.now }
    {
        !matches!(self, Asked::Nothing)
    }

    /// Whether it was asked to say more.
    pub fn is_for_a_person(&self) -> bool
        ensures { result ≡ spec.is_for_a_person self.now }
    {
        match self {
            Asked::Listing(listed) => is_human(listed.style),
            Asked::Question(paths) => is_human(paths.style),
            Asked::Judgement(paths) => is_human(paths.evidence.style),
            Asked::Time(time) => time.is_some(),
            Asked::Nothing => false,
        }
    }
}
