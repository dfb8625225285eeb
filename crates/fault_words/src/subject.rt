//! Which file a fault is of, and what it is called.

ghost use Rattle.std.specs.Prelude.{◌≡◌};
ghost use Rattle.fault_words.specs.Subject as spec;
ghost use Rattle.fault_words.specs.Subject.{names_data};

use report::{Input, RunFault, SumsFault};

/// The names of the inputs, as the command line has them.
#[derive(Clone, Copy, Debug)]
pub struct Names<'a> {
    /// The claim's.
    pub claim: &'a str,
    /// The capture's.
    pub capture: &'a str,
    /// That of the certificate, refutation or readings, empty if there is none.
    pub second: &'a str,
    /// That of the file of sums, empty if there is none.
    pub sums: &'a str,
}

impl<'a> Names<'a> {
    /// The name of an input.
    pub fn of(&self, input: Input) -> &'a str
        ensures { result.now ≡ spec.name_of (names_data self.now) input }
    {
        match input {
            Input::Claim => self.claim,
            Input::Capture => self.capture,
            Input::Certificate | Input::Refutation | Input::Times => self.second,
            Input::Sums => self.sums,
        }
    }
}

/// The input whose sum has a fault.
fn sums_input(fault: &SumsFault) -> Input
    ensures { result ≡ spec.sums_input fault.now }
{
    match fault {
        SumsFault::Form(_) => Input::Sums,
        SumsFault::Missing(input) | SumsFault::Differ(input) => *input,
    }
}

/// The input that a fault is of, if it is of one.
pub fn input_of(fault: &RunFault) -> Option<Input>
    ensures { result ≡ spec.input_of fault.now }
{
    match fault {
        RunFault::Capture(_) | RunFault::Exchanges => Some(Input::Capture),
        RunFault::Claim(_) | RunFault::Pieces => Some(Input::Claim),
        RunFault::Certificate(_) => Some(Input::Certificate),
        RunFault::Refutation(_) => Some(Input::Refutation),
        RunFault::Times(_) => Some(Input::Times),
        RunFault::TooBig(input) | RunFault::Device(input) => Some(*input),
        RunFault::Sums(fault) => Some(sums_input(fault)),
        RunFault::Write(_) => None,
        RunFault::Memory => None,
    }
}
