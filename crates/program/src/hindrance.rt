//! Why the file that `-o` names can't be written.

ghost use Rattle.std.specs.Prelude.{◌≡◌, None};

use fault_words::Obstacle;
use std::io::Error;

/// Why a file can't be written, and what the system says of it.
#[derive(Drop)]
pub struct Hindrance {
    /// What hinders it.
    pub obstacle: Obstacle,
    /// The system's error, if there is one.
    pub error: Option<Error>,
}

impl Hindrance {
    /// What is seen without an error.
    pub fn of(obstacle: Obstacle) -> Hindrance
        ensures { result ≡ record { obstacle = obstacle; error = None } }
    {
        Hindrance {
            obstacle,
            error: None,
        }
    }
}
