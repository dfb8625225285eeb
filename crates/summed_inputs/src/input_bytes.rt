//! The bytes of a run's inputs, which it hands back.

ghost use Rattle.std.specs.Prelude.{◌≡◌, []};
ghost use Rattle.summed_inputs.specs.InputBytes.{data_of};

use std::alloc::Global;

/// What was read of the inputs of a run.
#[derive(Debug, Drop)]
pub struct InputBytes {
    /// The bytes of the claim.
    pub claim: Vec<u8>,
    /// Those of the second input, none if there is no such input.
    pub second: Vec<u8>,
    /// Those of the capture.
    pub capture: Vec<u8>,
}

impl InputBytes {
    /// Nothing is read yet.
    pub fn new(alloc: Global) -> InputBytes
        ensures { data_of result ≡ record { claim = []; second = []; capture = [] } }
    {
        InputBytes {
            claim: Vec::new(alloc),
            second: Vec::new(alloc),
            capture: Vec::new(alloc),
        }
    }
}
