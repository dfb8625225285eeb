//! The answer to a question whose text for a program goes into a draft.

ghost use Rattle.std.specs.Prelude.{◌≡◌, [], Err, IfSome, None, option_map};
ghost use Rattle.program.specs.Common.{IsReadable, IsWritable, no_feed, asked_of, MayRun, no_second};
ghost use Rattle.program.specs.Drafted as spec;
ghost use Rattle.program.specs.Drafted.{Drafts, DraftsBy, DraftsOn, IsDrafted};
ghost use Rattle.program.specs.Files.{MayDraft};
ghost use Rattle.program.specs.Inputs.{feeds_of, names_in, run_over};
ghost use Rattle.program.specs.Invocation.{requested};

use crate::about::asked_inputs;
use crate::asked::is_human;
use crate::files::Files;
use crate::hindrance::Hindrance;
use crate::inputs::{Inputs, Opened};
use crate::invocation::Paths;
use crate::response::{Summed, prepare, read_sums};
use audit::{Question, Request, Settle, Style, run, run_twice};
use byte_stream::{Feed, Sink};
use fault_words::Obstacle;
use report::{Outcome, RunFault};
use std::alloc::{AllocError, Global};
use std::hash::BuildHasher;
use summed_inputs::{InputBytes, LentFeed, NamedFeed, hold_inputs};

/// Answers a question for a program in a draft, and for a person on `out` too, if the style is one
/// for a person.
fn draft<Q: Question<Second = ()>, N: Feed + Drop, D: Sink, S: Sink, H: BuildHasher + Copy + Drop>(
    alloc: Global,
    question: Q,
    style: Style,
    inputs: Inputs<N, ()>,
    draft: &mut D,
    out: &mut S,
    hasher: H,
) -> Result<Outcome, RunFault>
    requires run { MayRun (run_over (feeds_of N.state (λ none. no_feed) inputs)
        (D.state draft.old)) }
    requires out { IsWritable (S.state out.old) }
    ensures { IsDrafted (asked_of (Q.asks question) no_second style)
        (feeds_of N.state (λ none. no_feed) inputs) (D.state draft.old) (D.state draft.new)
        (S.state out.old) (S.state out.new) result }
{
    let Inputs {
        mut claim,
        mut second,
        capture,
    } = inputs;
    let (claim, second) = (&mut claim, &mut second);
    if is_human(style) {
        run_twice(
            alloc, question, style, claim, second, capture, draft, out, hasher,
        )
        .1
    } else {
        run(
            alloc, question, style, claim, second, capture, draft, hasher,
        )
        .1
    }
}

/// How an answer ends that goes into a file.
#[derive(Drop)]
pub(crate) struct Written {
    /// The answer.
    pub(crate) answer: Result<Outcome, RunFault>,
    /// What hinders the file from being written, if that's why the answer is a fault.
    pub(crate) hindrance: Option<Hindrance>,
}

/// An answer that something hinders from being written.
fn hindered(hindrance: Hindrance) -> Written
    ensures { spec.TellsHindrance result }
{
    Written {
        answer: Err(RunFault::Write(0)),
        hindrance: Some(hindrance),
    }
}

/// The answer if no draft is made, for this fault.
fn unmade(fault: RunFault) -> Written
    ensures { result ≡ record { answer = Err fault; hindrance = None } }
{
    Written {
        answer: Err(fault),
        hindrance: None,
    }
}

/// What hindered a draft from being written whose sink has failed so often, if that is the fault.
fn hindrance_of(fault: &RunFault, faults: u64) -> Option<Hindrance>
    ensures { result ≡ spec.hindrance_of fault.now faults }
{
    match fault {
        RunFault::Write(_) if 0 < faults => Some(Hindrance::of(Obstacle::Full)),
        _ => None,
    }
}

/// Answers a question in a file of this path, and on `out` too if it's a person who asks. Where the
/// answer is a fault the file is left as it was.
fn write_file<
    Fs: Files,
    Q: Question<Second = ()>,
    N: Feed + Drop,
    S: Sink,
    H: BuildHasher + Copy + Drop,
>(
    alloc: Global,
    files: &mut Fs,
    question: Q,
    paths: &Paths,
    path: &str,
    inputs: Inputs<N, ()>,
    out: &mut S,
    hasher: H,
) -> Written
    requires files { MayDraft (Fs.state files.old).drafts }
    requires claim { IsReadable (N.state inputs.claim) }
    requires capture { IsReadable (N.state inputs.capture) }
    requires out { IsWritable (S.state out.old) }
    ensures drafts { DraftsOn (asked_of (Q.asks question) no_second paths.now.style)
        (feeds_of N.state (λ none. no_feed) inputs) path.now (S.state out.old) (S.state out.new)
        (Fs.state files.old).drafts (Fs.state files.new).drafts result }
    ensures kept { (Fs.state files.new).opened ≡ (Fs.state files.old).opened }
{
    let part = match format!(in alloc; "{path}.part") {
        Ok(part) => part,
        Err(AllocError) => return unmade(RunFault::Memory),
    };
    let mut sink = match files.create(path, part, paths) {
        Ok(sink) => sink,
        Err(hindrance) => return hindered(hindrance),
    };
    let style = paths.style;
    let answer = draft(alloc, question, style, inputs, &mut sink, out, hasher);
    match answer {
        Ok(_) => match files.place(sink, path) {
            Ok(()) => Written {
                answer,
                hindrance: None,
            },
            Err(hindrance) => hindered(hindrance),
        },
        Err(fault) => {
            let hindrance = hindrance_of(&fault, sink.faults());
            files.remove(sink);
            Written { answer, hindrance }
        }
    }
}

/// Answers a question as `write_file` does. If there is the text of a file of sums, the inputs are
/// held to it first, and what was read is returned; no draft is made unless they have their sums.
fn write_by<
    Fs: Files,
    Q: Question<Second = ()>,
    N: NamedFeed + Drop,
    S: Sink,
    H: BuildHasher + Copy + Drop,
>(
    alloc: Global,
    files: &mut Fs,
    question: Q,
    paths: &Paths,
    path: &str,
    text: Option<Vec<u8>>,
    inputs: Inputs<N, ()>,
    out: &mut S,
    hasher: H,
) -> (Option<Summed>, Written)
    requires files { MayDraft (Fs.state files.old).drafts }
    requires claim { IsReadable (N.state inputs.claim) }
    requires capture { IsReadable (N.state inputs.capture) }
    requires out { IsWritable (S.state out.old) }
    ensures drafts { DraftsBy (asked_of (Q.asks question) no_second paths.now.style)
        (names_in N.named (λ none. []) inputs) (feeds_of N.state (λ none. no_feed) inputs)
        (option_map (λ t. t.items) text) path.now (S.state out.old) (S.state out.new)
        (Fs.state files.old).drafts (Fs.state files.new).drafts result.0 result.1 }
    ensures kept { (Fs.state files.new).opened ≡ (Fs.state files.old).opened }
{
    let Some(text) = text else {
        let written = write_file(alloc, files, question, paths, path, inputs, out, hasher);
        return (None, written);
    };
    let Inputs {
        mut claim,
        mut second,
        mut capture,
    } = inputs;
    let (claim, second, capture) = (&mut claim, &mut second, &mut capture);
    let mut read = InputBytes::new(alloc);
    let written = match hold_inputs(alloc, text.as_slice(), claim, second, capture, &mut read) {
        Ok(()) => {
            let inputs = Inputs {
                claim: LentFeed::new(read.claim.as_slice()),
                second: (),
                capture: LentFeed::new(read.capture.as_slice()),
            };
            write_file(alloc, files, question, paths, path, inputs, out, hasher)
        }
        Err(fault) => unmade(fault),
    };
    (Some(Summed { text, read }), written)
}

/// Answers a request in a file of this path, by a file of sums if there is one, as `write_by` does.
pub(crate) fn write_request<Fs: Files, N: NamedFeed + Drop, S: Sink, H: BuildHasher + Copy + Drop>(
    alloc: Global,
    files: &mut Fs,
    request: Request,
    paths: &Paths,
    path: &str,
    opened: Opened<N, ()>,
    out: &mut S,
    hasher: H,
) -> (Option<Summed>, Written)
    requires files { MayDraft (Fs.state files.old).drafts }
    requires claim { IsReadable (N.state opened.inputs.claim) }
    requires capture { IsReadable (N.state opened.inputs.capture) }
    requires sums { IfSome opened.sums (λ file. IsReadable (N.state file)) }
    requires out { IsWritable (S.state out.old) }
    ensures drafts { Drafts (requested request paths.now)
        (names_in N.named (λ none. []) opened.inputs)
        (feeds_of N.state (λ none. no_feed) opened.inputs) (option_map N.state opened.sums)
        path.now (S.state out.old) (S.state out.new)
        (Fs.state files.old).drafts (Fs.state files.new).drafts result.0 result.1 }
    ensures kept { (Fs.state files.new).opened ≡ (Fs.state files.old).opened }
{
    let Opened { inputs, sums } = opened;
    match request {
        Request::Settle => match prepare(alloc, paths.style, &asked_inputs(paths), sums) {
            Ok((text, about)) => {
                let question = Settle {
                    about: about.as_slice(),
                };
                write_by(
                    alloc, files, question, paths, path, text, inputs, out, hasher,
                )
            }
            Err(fault) => (None, unmade(fault)),
        },
        _ => match read_sums(alloc, sums) {
            Ok(text) => write_by(
                alloc, files, request, paths, path, text, inputs, out, hasher,
            ),
            Err(fault) => (None, unmade(fault)),
        },
    }
}
