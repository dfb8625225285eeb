//! ntpaudit: what a packet capture of NTP shows of a clock.
//!
//! It hands the words of the command line, the host's files and a random key to `run_process` of
//! command_line. The contract of `run_on` says what follows of them, to the exit status.

#![tactic(auto)]

mod draft;
mod files;

ghost use Rattle.std.specs.Prelude.{◌≡◌, List, Option, String};
ghost use Rattle.std.specs.Process.{exit_status};
ghost use Rattle.program.specs.Files.{MayOpen, unknown_files};
ghost use Rattle.command_line.specs.Common.{Global};
ghost use Rattle.command_line.specs.Run.{Ends, words_in};

use crate::files::Host;
use command_line::{run_process, words_of};
use program::Files;
use second_look::say;
use std::alloc::AllocError;
use std::env;
use std::hash::{BuildHasher, BuildHasherDefault, FoldHasher, RandomState};
use std::io::Eprint;
use std::process::{ExitCode, Termination};

/// Runs the program on these words, as `words_of` gives them, over these files, with this hasher.
fn run_on<Fs: Files, H: BuildHasher + Copy + Drop>(
    rt: &HostRuntime,
    words: &Result<Option<Vec<String>>, AllocError>,
    files: &mut Fs,
    hasher: H,
) -> ExitCode
    requires { MayOpen (Fs.state files.old) }
    ensures { Ends (words_in words.now) (Fs.state files.old) (exit_status result) }
{
    let response = run_process(rt, words, files, hasher);
    say(rt, &response);
    ExitCode::from(response.conclusion.code)
}

/// Runs the program on the words and the files of the host.
fn run_on_host(rt: &HostRuntime) -> ExitCode
    ensures { (words : Option (List (String Global))) ×
        Ends words unknown_files (exit_status result) }
{
    let words = words_of(rt.alloc(), env::args(rt));
    let mut files = Host::new(rt);
    // A random key, so that nobody can write a capture whose packets collide. If the system has no
    // random bytes a fixed key has to do: such a capture then takes longer, and that is all.
    match RandomState::new(rt) {
        Ok(hasher) => run_on(rt, &words, &mut files, hasher),
        Err(_) => run_on(
            rt,
            &words,
            &mut files,
            BuildHasherDefault::<FoldHasher>::new(),
        ),
    }
}

/// How this process ends: `main` may have no clause, but what it gives has to be so.
#[derive(Drop)]
struct Ended {
    status: ExitCode,
    ghost ends: { ∥ ((words : Option (List (String Global)))
        × Ends words unknown_files (exit_status status)) ∥₁ },
}

impl Termination for Ended {
    fn report<R: Eprint>(self, _rt: &R) -> ExitCode
        ensures { result ≡ self.status }
    {
        self.status
    }
}

fn main(rt: HostRuntime) -> Ended {
    Ended {
        status: run_on_host(&rt),
    }
}
