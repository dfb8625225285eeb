//! The response to an invocation, over files that it opens.

ghost use Rattle.std.specs.Prelude.{◌≡◌, ◌+◌, ◌<◌, ◌^◌, None, IfOk};
ghost use Rattle.byte_stream.specs.State.{IsReadable, IsWritable};
ghost use Rattle.program.specs.Asked.{IsAskedBy};
ghost use Rattle.program.specs.Files.{MayDraft, MayOpen};
ghost use Rattle.program.specs.Invocation.{judged_of, judged_places, listed_name, places_of, requested, second_of};
ghost use Rattle.program.specs.Order.{IsReadBy, TellsWhen};
ghost use Rattle.program.specs.Run.{AnswersOver, AnswersTo, Lists};
ghost use Rattle.program.specs.Says.{Says};
ghost use Rattle.program.specs.World.{world};

use crate::asked::Asked;
use crate::drafted::write_request;
use crate::files::Files;
use crate::hindrance::Hindrance;
use crate::inputs::{open, open_evidence, open_judged};
use crate::invocation::{Invocation, JudgedPaths, Judgement, Listed, Paths, Shown};
use crate::response::{Summed, ask, judge};
use audit::{AtReading, OrderAfter, Outputs, Request, When, read_when};
use byte_stream::{Feed, Sink};
use listing::answer_list;
use report::{Conclusion, Input, RunFault, conclude, refuse, refuse_time, show};
use std::alloc::Global;
use std::hash::BuildHasher;

/// Lists a capture, and returns the conclusion.
fn list<Fs: Files, S: Sink, E: Sink>(
    alloc: Global,
    files: &mut Fs,
    listed: &Listed,
    to: &mut Outputs<S, E>,
) -> Conclusion
    requires files { MayOpen (Fs.state files.old) }
    requires out { IsWritable (S.state to.old.out) }
    requires err { IsWritable (E.state to.old.err) }
    ensures lists { Lists (listed_name listed.now)
        (world (Fs.state files.old) (S.state to.old.out) (E.state to.old.err))
        (world (Fs.state files.new) (S.state to.new.out) (E.state to.new.err)) result }
{
    match open(files, listed.operand(), Input::Capture) {
        Ok(capture) => answer_list(alloc, capture, &mut to.out, &mut to.err).1,
        Err(fault) => conclude(&Err(fault), &mut to.err),
    }
}

/// Judges a certificate or a refutation, once its files are opened. Returns what was read, if they
/// are held to sums, and the conclusion.
fn judge_files<Fs: Files, S: Sink, E: Sink, H: BuildHasher + Drop>(
    alloc: Global,
    files: &mut Fs,
    judgement: Judgement,
    paths: &JudgedPaths,
    to: &mut Outputs<S, E>,
    hasher: H,
) -> (Option<Summed>, Conclusion)
    requires files { MayOpen (Fs.state files.old) }
    requires out { IsWritable (S.state to.old.out) }
    requires err { IsWritable (E.state to.old.err) }
    ensures answers { AnswersOver (judged_of judgement paths.now)
        (judged_places (second_of judgement) paths.now)
        (world (Fs.state files.old) (S.state to.old.out) (E.state to.old.err))
        (world (Fs.state files.new) (S.state to.new.out) (E.state to.new.err))
        result.0 result.1 }
{
    match open_judged(files, judgement.second(), paths) {
        Ok(opened) => judge(alloc, judgement, paths, opened, to, hasher),
        Err(fault) => (None, conclude(&Err(fault), &mut to.err)),
    }
}

/// Answers a question, once its files are opened: on standard output, or in a file if one is named,
/// and on `out` too if it's a person who asks. Returns the conclusion, what hinders the file from
/// being written, if that's why, and what was read, if the inputs are held to sums.
fn ask_paths<Fs: Files, S: Sink, E: Sink, H: BuildHasher + Copy + Drop>(
    alloc: Global,
    files: &mut Fs,
    request: Request,
    paths: &Paths,
    to: &mut Outputs<S, E>,
    hasher: H,
) -> (Conclusion, Option<Hindrance>, Option<Summed>)
    requires room { (Fs.state files.old).opened + 4 < 2 ^ 64 }
    requires drafts { MayDraft (Fs.state files.old).drafts }
    requires out { IsWritable (S.state to.old.out) }
    requires err { IsWritable (E.state to.old.err) }
    ensures answers { AnswersTo paths.now.output (requested request paths.now)
        (places_of paths.now)
        (world (Fs.state files.old) (S.state to.old.out) (E.state to.old.err))
        (world (Fs.state files.new) (S.state to.new.out) (E.state to.new.err))
        result.1 result.2 result.0 }
{
    let opened = match open_evidence(files, paths) {
        Ok(opened) => opened,
        Err(fault) => return (conclude(&Err(fault), &mut to.err), None, None),
    };
    match &paths.output {
        Some(path) => {
            let (path, out) = (path.as_str(), &mut to.out);
            let (summed, written) = write_request(
                alloc, files, request, paths, path, opened, out, hasher,
            );
            let conclusion = conclude(&written.answer, &mut to.err);
            (conclusion, written.hindrance, summed)
        }
        None => {
            let (summed, conclusion) = ask(alloc, request, paths, opened, to, hasher);
            (conclusion, None, summed)
        }
    }
}

/// When a clock showed its reading, by its claim and its capture.
fn when_by<N: Feed + Drop, H: BuildHasher + Drop>(
    alloc: Global,
    reading: AtReading,
    claim: N,
    capture: N,
    hasher: H,
) -> Result<When, RunFault>
    requires claim { IsReadable (N.state claim) }
    requires capture { IsReadable (N.state capture) }
    ensures { IsReadBy reading (N.state claim) (N.state capture) result }
{
    let mut claim = claim;
    let (_, when) = read_when(alloc, reading, &mut claim, capture, hasher);
    when
}

/// When a clock showed its reading, once its claim and its capture are opened.
fn when_shown<Fs: Files, H: BuildHasher + Drop>(
    alloc: Global,
    files: &mut Fs,
    shown: &Shown,
    hasher: H,
) -> Result<When, RunFault>
    requires { (Fs.state files.old).opened + 2 < 2 ^ 64 }
    ensures tells { TellsWhen shown.now (Fs.state files.old) (Fs.state files.new) result }
    ensures opened { IfOk result (λ when.
        (Fs.state files.new).opened ≡ (Fs.state files.old).opened + 2) }
    ensures undrafted { (Fs.state files.new).drafts ≡ (Fs.state files.old).drafts }
{
    let claim = open(files, shown.paths.claim.as_str(), Input::Claim)?;
    let capture = open(files, shown.paths.capture.as_str(), Input::Capture)?;
    when_by(alloc, shown.reading, claim, capture, hasher)
}

/// How a command line ended, and what may be said of it behind its fault line.
#[derive(Drop)]
pub struct Response {
    /// The exit status, and the fault that is reported.
    pub conclusion: Conclusion,
    /// The run.
    pub asked: Asked,
    /// What hinders the file that `-o` names from being written, if that's the fault.
    pub hindrance: Option<Hindrance>,
    /// What was read of the files, if they are held to sums and that of the sums could be read.
    pub summed: Option<Summed>,
}

/// A response with nothing that was read by sums, and no file to be written.
fn bare(conclusion: Conclusion, asked: Asked) -> Response
    ensures { result ≡ record {
      conclusion = conclusion;
      asked = asked;
      hindrance = None;
      summed = None;
    } }
{
    Response {
        conclusion,
        asked,
        hindrance: None,
        summed: None,
    }
}

/// Says which was first, the reading of one clock or that of another.
fn order<Fs: Files, S: Sink, E: Sink, H: BuildHasher + Copy + Drop>(
    alloc: Global,
    files: &mut Fs,
    first: Shown,
    second: Shown,
    to: &mut Outputs<S, E>,
    hasher: H,
) -> Response
    requires files { MayOpen (Fs.state files.old) }
    requires out { IsWritable (S.state to.old.out) }
    requires err { IsWritable (E.state to.old.err) }
    ensures says { Says (Invocation.Order first second)
        (world (Fs.state files.old) (S.state to.old.out) (E.state to.old.err))
        (world (Fs.state files.new) (S.state to.new.out) (E.state to.new.err)) result }
    ensures asked { IsAskedBy (Invocation.Order first second) result.asked }
{
    match when_shown(alloc, files, &first, hasher) {
        Ok(when) => {
            let request = Request::OrderAfter(OrderAfter {
                first: when,
                second: second.reading,
            });
            let (conclusion, hindrance, summed) = ask_paths(
                alloc,
                files,
                request,
                &second.paths,
                to,
                hasher,
            );
            Response {
                conclusion,
                asked: Asked::Question(second.paths),
                hindrance,
                summed,
            }
        }
        Err(fault) => {
            let conclusion = conclude(&Err(fault), &mut to.err);
            bare(conclusion, Asked::Question(first.paths))
        }
    }
}

/// Does what a command line calls for: all files are opened before anything is read. If the run is
/// held to sums, what was read of its files is handed back, and that is what the clauses are about.
/// What is read of a capture is hashed by `hasher`, on which no answer depends.
pub fn respond<Fs: Files, S: Sink, E: Sink, H: BuildHasher + Copy + Drop>(
    alloc: Global,
    files: &mut Fs,
    invocation: Invocation,
    to: &mut Outputs<S, E>,
    hasher: H,
) -> Response
    requires files { MayOpen (Fs.state files.old) }
    requires out { IsWritable (S.state to.old.out) }
    requires err { IsWritable (E.state to.old.err) }
    ensures says { Says invocation
        (world (Fs.state files.old) (S.state to.old.out) (E.state to.old.err))
        (world (Fs.state files.new) (S.state to.new.out) (E.state to.new.err)) result }
    ensures asked { IsAskedBy invocation result.asked }
{
    match invocation {
        Invocation::List(listed) => {
            let conclusion = list(alloc, files, &listed, to);
            bare(conclusion, Asked::Listing(listed))
        }
        Invocation::Ask(request, paths) => {
            let (conclusion, hindrance, summed) = ask_paths(
                alloc, files, request, &paths, to, hasher,
            );
            Response {
                conclusion,
                asked: Asked::Question(paths),
                hindrance,
                summed,
            }
        }
        Invocation::Judge(judgement, paths) => {
            let (summed, conclusion) = judge_files(alloc, files, judgement, &paths, to, hasher);
            Response {
                conclusion,
                asked: Asked::Judgement(paths),
                hindrance: None,
                summed,
            }
        }
        Invocation::Order(first, second) => order(alloc, files, first, second, to, hasher),
        Invocation::Show(text) => bare(show(text, &mut to.out, &mut to.err), Asked::Nothing),
        Invocation::Refuse(text) => bare(refuse(text, &mut to.err), Asked::Nothing),
        Invocation::RefuseTime(time) => bare(refuse_time(&mut to.err), Asked::Time(time)),
    }
}
