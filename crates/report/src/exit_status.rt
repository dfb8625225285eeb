//! The program's exit status.

ghost use Rattle.std.specs.Prelude.{◌≡◌, ◌≤◌, IfErr};
ghost use Rattle.report.specs.ExitStatus.{status_of};

use crate::fault::{Outcome, RunFault};

/// The program's exit status for an answer: 0 yes, 1 no, 2 an input is refused, 3 out of memory, 4
/// a device failed.
pub fn status(answer: &Result<Outcome, RunFault>) -> u8
    ensures exact { result ≡ status_of answer.now }
    ensures fault { IfErr answer.now (λ fault. 2 ≤ result) }
{
    match answer {
        Ok(Outcome::Yes) => 0,
        Ok(Outcome::No) => 1,
        Err(RunFault::Memory) => 3,
        Err(RunFault::Device(_) | RunFault::Write(_)) => 4,
        Err(_) => 2,
    }
}
