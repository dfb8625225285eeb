//! The words of a command line, read.

ghost use Rattle.std.specs.Prelude.{◌≡◌, ◌≢◌, IfOk, IsSomeAnd, MatchResult, None};
ghost use Rattle.std.specs.Vec.Iter.{into_iter_items};
ghost use Rattle.command_line.specs.Common.{kind_of, OutOfMemory};
ghost use Rattle.command_line.specs.Words.{IsTold, Means};

use crate::advice::{advised, counted};
use crate::command::invocation_of;
use crate::misuse::read_once;
use clap::{Error, error};
use command_table::ntpaudit;
use program::{Invocation, VERSION};
use std::alloc::{AllocError, Global};
use std::env::Args;
use std::io;
use std::io::ErrorKind;

/// What a refusal of the command line, or a call for help, asks for.
fn explained(alloc: Global, words: &[String], error: &Error) -> Result<Invocation, AllocError>
    ensures { IfOk result (λ told.
        (kind_of error.now ≢ OutOfMemory) × IsTold (kind_of error.now) told) }
{
    match error.kind() {
        error::ErrorKind::OutOfMemory => Err(AllocError),
        error::ErrorKind::DisplayHelp | error::ErrorKind::DisplayVersion => {
            Ok(Invocation::Show(error.to_string(alloc)?))
        }
        _ => {
            let text = error.to_string(alloc)?;
            Ok(Invocation::Refuse(advised(alloc, words, text.as_str())?))
        }
    }
}

/// Reads the words of a command line. The only error is that it is out of memory.
pub(crate) fn read_words(alloc: Global, words: &[String]) -> Result<Invocation, AllocError>
    ensures { IfOk result (Means words.now) }
{
    let words = counted(words);
    match ntpaudit(alloc, VERSION)?.try_get_matches_from(words) {
        Ok(matches) => read_once(alloc, invocation_of(alloc, &matches)?),
        Err(error) => explained(alloc, words, &error),
    }
}

/// All of these words. Each asks for memory as it comes: one that is refused is told.
fn all_of(alloc: Global, given: Args) -> Result<Vec<String>, AllocError>
    ensures { IfOk result (λ words. words.items ≡ into_iter_items given) }
{
    let mut words = Vec::new(alloc);
    for word in given {
        words.push(word)?;
    }
    Ok(words)
}

/// The words of a command line as the system gives them, and none if one isn't UTF-8. The only
/// error is that it is out of memory.
pub fn words_of(alloc: Global, given: io::Result<Args>) -> Result<Option<Vec<String>>, AllocError>
    ensures { MatchResult given
        (λ words. IfOk result (λ read. IsSomeAnd read (λ r. r.items ≡ into_iter_items words)))
        (λ error. IfOk result (λ read. read ≡ None)) }
{
    match given {
        Ok(words) => Ok(Some(all_of(alloc, words)?)),
        Err(error) if error.kind() == ErrorKind::InvalidData => Ok(None),
        Err(_) => Err(AllocError),
    }
}
