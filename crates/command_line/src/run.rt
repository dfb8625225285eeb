//! The program: from the words of a command line to its response, over any files and outputs.

ghost use Rattle.std.specs.Prelude.{◌≡◌, Err, option_map};
ghost use Rattle.command_line.specs.Common.{IsWritable, Concludes, conclusion_of, Memory, MayOpen, IsBare, world};
ghost use Rattle.command_line.specs.Run.{Runs, RunsOn, RunsOnOutputs, words_in};

use crate::words::read_words;
use audit::Outputs;
use byte_stream::{Sink, WriteSink};
use program::{Asked, Files, Invocation, Response, respond};
use report::{RunFault, conclude};
use std::alloc::{AllocError, Global};
use std::hash::BuildHasher;

/// The response to a command line for which memory is refused.
fn out_of_memory<E: Sink>(err: &mut E) -> Response
    requires { IsWritable (E.state err.old) }
    ensures concludes { Concludes (Err Memory) (E.state err.old) (E.state err.new) }
    ensures exact { result.conclusion ≡ conclusion_of (Err Memory) }
    ensures bare { IsBare result }
{
    Response {
        conclusion: conclude(&Err(RunFault::Memory), err),
        asked: Asked::Nothing,
        hindrance: None,
        summed: None,
    }
}

/// Does what the words of a command line call for. What is read of a capture is hashed by `hasher`,
/// on which no answer depends.
pub fn run<Fs: Files, S: Sink, E: Sink, H: BuildHasher + Copy + Drop>(
    alloc: Global,
    words: &[String],
    files: &mut Fs,
    to: &mut Outputs<S, E>,
    hasher: H,
) -> Response
    requires files { MayOpen (Fs.state files.old) }
    requires out { IsWritable (S.state to.old.out) }
    requires err { IsWritable (E.state to.old.err) }
    ensures runs { Runs words.now
        (world (Fs.state files.old) (S.state to.old.out) (E.state to.old.err))
        (world (Fs.state files.new) (S.state to.new.out) (E.state to.new.err)) result }
{
    match read_words(alloc, words) {
        Ok(invocation) => respond(alloc, files, invocation, to, hasher),
        Err(AllocError) => out_of_memory(&mut to.err),
    }
}

/// The same of the words of a process, which are none if one isn't UTF-8.
fn run_if_read<Fs: Files, S: Sink, E: Sink, H: BuildHasher + Copy + Drop>(
    alloc: Global,
    words: &Option<Vec<String>>,
    files: &mut Fs,
    to: &mut Outputs<S, E>,
    hasher: H,
) -> Response
    requires files { MayOpen (Fs.state files.old) }
    requires out { IsWritable (S.state to.old.out) }
    requires err { IsWritable (E.state to.old.err) }
    ensures runs { RunsOn (option_map (λ given. given.items) words.now)
        (world (Fs.state files.old) (S.state to.old.out) (E.state to.old.err))
        (world (Fs.state files.new) (S.state to.new.out) (E.state to.new.err)) result }
{
    match words {
        Some(words) => run(alloc, words.as_slice(), files, to, hasher),
        None => match Invocation::refusal(alloc, "error: an operand isn't UTF-8\n") {
            Ok(refusal) => respond(alloc, files, refusal, to, hasher),
            Err(AllocError) => out_of_memory(&mut to.err),
        },
    }
}

/// What comes of the words of this process, as `words_of` gives them, on its standard output and
/// standard error, over any files.
pub fn run_process<Fs: Files, H: BuildHasher + Copy + Drop>(
    rt: &HostRuntime,
    words: &Result<Option<Vec<String>>, AllocError>,
    files: &mut Fs,
    hasher: H,
) -> Response
    requires { MayOpen (Fs.state files.old) }
    ensures { RunsOnOutputs (words_in words.now) (Fs.state files.old) (Fs.state files.new) result }
{
    let mut to = Outputs {
        out: WriteSink::new(rt.stdout()),
        err: WriteSink::new(rt.stderr()),
    };
    match words {
        Ok(words) => run_if_read(rt.alloc(), words, files, &mut to, hasher),
        Err(AllocError) => out_of_memory(&mut to.err),
    }
}
