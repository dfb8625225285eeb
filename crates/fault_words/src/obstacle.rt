//! What hinders a file from being written.

ghost use Rattle.std.specs.Prelude.{◌++◌, IfOk, codes, string_bytes};
ghost use Rattle.fault_words.specs.Explanation as spec;
ghost use Rattle.fault_words.specs.Sentence.{IsSentence};

use crate::explanation::words_of;
use crate::remedy::Known;
use crate::sentence::{Sentence, says};
use std::alloc::{AllocError, Global};

/// What hinders the file from being written that `-o` names.
#[derive(Clone, Copy, Debug)]
pub enum Obstacle {
    /// It is a folder.
    Folder,
    /// It is a symbolic link.
    Link,
    /// It is there, and no regular file.
    Special,
    /// It is one of the run's inputs.
    Input,
    /// Its draft is there already.
    Draft,
    /// The draft can't be made, or put into its place.
    Refused,
    /// The draft can't be written whole.
    Full,
}

/// What is said of a file that can't be written.
pub fn obstacle_sentence(obstacle: Obstacle) -> Sentence
    ensures has_words { IsSentence result }
{
    match obstacle {
        Obstacle::Folder => says("is a folder", "name a file in it"),
        Obstacle::Link => says(
            "is a symbolic link",
            "name the file that it leads to: readlink -f @",
        ),
        Obstacle::Special => says(
            "is no regular file",
            "without -o the answer goes to standard output",
        ),
        Obstacle::Input => says("is read by this command too", "name another file"),
        Obstacle::Draft => says(
            "its draft stands beside it: another call writes it, or one was killed",
            "see that none runs, and remove the draft: rm @.part",
        ),
        Obstacle::Refused => says(
            "can't be written",
            "see who may write there: ls -ld \"$(dirname @)\"",
        ),
        Obstacle::Full => says(
            "can't be written: the disk is full, or a limit is reached",
            "make room, and call again",
        ),
    }
}

/// The words about a file of this name that can't be written: a line that says why, with what the
/// system says of it, and a line that says what to do. Each begins with two blanks. The only error
/// is that memory was refused.
pub fn explain_output(
    alloc: Global,
    name: &str,
    obstacle: Obstacle,
    seen: &str,
) -> Result<String, AllocError>
    ensures says { IfOk result (λ text.
        spec.IsOutputExplanation name.now seen.now (string_bytes text)) }
{
    let known = Known::of_file(alloc, name)?;
    let mut begin = String::from_str(alloc, name)?;
    begin.push_str(": ")?;
    let sentence = obstacle_sentence(obstacle);
    words_of(alloc, begin.as_str(), sentence, seen, &known)
}
