//! The answer to a question over inputs that were opened.

ghost use Rattle.std.specs.Prelude.{◌≡◌, [], IfErr, IfOk, IfSome, map, option_map};
ghost use Rattle.program.specs.Common.{IsReadable, IsWritable, no_feed, MayRun, asked_of, data_of};
ghost use Rattle.program.specs.Inputs.{feeds_of, names_in, run_over};
ghost use Rattle.program.specs.About.{data_of as called_data};
ghost use Rattle.program.specs.Invocation as words;
ghost use Rattle.program.specs.Invocation.{judged_of, requested, told_of};
ghost use Rattle.program.specs.Response.{AnswersBy, AreRead, IsUnready, IsUnread, Responds};

use crate::about::{Called, about, asked_inputs, judged_inputs};
use crate::asked::is_human;
use crate::inputs::{Inputs, Opened};
use crate::invocation::{JudgedPaths, Judgement, Paths};
use audit::{
    Check, Outputs, Question, Readings, ReadingsByCovers, Refute, Request, Settle, Style, answer,
};
use byte_stream::Sink;
use report::{Conclusion, Input, RunFault, conclude, read_input};
use std::alloc::Global;
use std::hash::BuildHasher;
use summed_inputs::{InputBytes, MAX_SUMS, NamedFeed, SummedInput, SummedSource, answer_by_sums};

/// What was read of the files of a run that is held to sums.
#[derive(Drop)]
pub struct Summed {
    /// The text of the file of sums.
    pub text: Vec<u8>,
    /// The bytes of the inputs.
    pub read: InputBytes,
}

/// Answers a question. If there is the text of a file of sums, each input is held to its line
/// there, under its name, and what was read is returned. Beside it stands the conclusion.
fn answer_by<
    Q: Question,
    N: NamedFeed + Drop,
    T: SummedSource<Q::Second> + Drop,
    S: Sink,
    E: Sink,
    H: BuildHasher + Drop,
>(
    alloc: Global,
    question: Q,
    style: Style,
    text: Option<Vec<u8>>,
    inputs: Inputs<N, T>,
    to: &mut Outputs<S, E>,
    hasher: H,
) -> (Option<Summed>, Conclusion)
where
    Q::Second: SummedInput,
    requires run { MayRun (run_over (feeds_of N.state T.state inputs) (S.state to.old.out)) }
    requires err { IsWritable (E.state to.old.err) }
    ensures { AnswersBy (asked_of (Q.asks question) Q.Second.kind style)
        (names_in N.named T.named inputs) (feeds_of N.state T.state inputs)
        (option_map (λ t. t.items) text) (S.state to.old.out) (S.state to.new.out)
        (E.state to.old.err) (E.state to.new.err) result.0 result.1 }
{
    let Inputs {
        mut claim,
        mut second,
        mut capture,
    } = inputs;
    let (claim, second) = (&mut claim, &mut second);
    match text {
        Some(text) => {
            let (sums, capture) = (text.as_slice(), &mut capture);
            let (read, conclusion) = answer_by_sums(
                alloc, question, style, sums, claim, second, capture, to, hasher,
            );
            (Some(Summed { text, read }), conclusion)
        }
        None => {
            let (_, conclusion) = answer(
                alloc, question, style, claim, second, capture, to, hasher,
            );
            (None, conclusion)
        }
    }
}

/// Reads the text of a file of sums, if there is one.
pub(crate) fn read_sums<N: NamedFeed + Drop>(
    alloc: Global,
    sums: Option<N>,
) -> Result<Option<Vec<u8>>, RunFault>
    requires { IfSome sums (λ file. IsReadable (N.state file)) }
    ensures read { IfOk result (λ text. AreRead (option_map N.state sums)
        (option_map (λ t. t.items) text)) }
    ensures fault { IfErr result (IsUnread (option_map N.state sums)) }
{
    match sums {
        Some(mut file) => match read_input(alloc, &mut file, Input::Sums, MAX_SUMS) {
            Ok(text) => Ok(Some(text)),
            Err(fault) => Err(fault),
        },
        None => Ok(None),
    }
}

/// The text of a file of sums, if there is one, and what is told in this style about these inputs.
pub(crate) fn prepare<N: NamedFeed + Drop>(
    alloc: Global,
    style: Style,
    inputs: &[Called<'_>],
    sums: Option<N>,
) -> Result<(Option<Vec<u8>>, Vec<u8>), RunFault>
    requires { IfSome sums (λ file. IsReadable (N.state file)) }
    ensures read { IfOk result (λ made. AreRead (option_map N.state sums)
        (option_map (λ t. t.items) made.0)) }
    ensures about { IfOk result (λ made. made.1.items
        ≡ told_of style (map called_data inputs.now) (option_map (λ t. t.items) made.0)) }
    ensures fault { IfErr result (IsUnready (words.is_human style) (option_map N.state sums)) }
{
    let text = read_sums(alloc, sums)?;
    let about = if is_human(style) {
        about(alloc, inputs, &text)?
    } else {
        Vec::new(alloc)
    };
    Ok((text, about))
}

/// Answers a request, by a file of sums if there is one. Returns what was read then, and the
/// conclusion.
pub(crate) fn ask<N: NamedFeed + Drop, S: Sink, E: Sink, H: BuildHasher + Drop>(
    alloc: Global,
    request: Request,
    paths: &Paths,
    opened: Opened<N, ()>,
    to: &mut Outputs<S, E>,
    hasher: H,
) -> (Option<Summed>, Conclusion)
    requires run { MayRun (run_over (feeds_of N.state (λ none. no_feed) opened.inputs)
        (S.state to.old.out)) }
    requires err { IsWritable (E.state to.old.err) }
    requires sums { IfSome opened.sums (λ file. IsReadable (N.state file)) }
    ensures responds { Responds (requested request paths.now)
        (names_in N.named (λ none. []) opened.inputs)
        (feeds_of N.state (λ none. no_feed) opened.inputs)
        (option_map N.state opened.sums) (S.state to.old.out) (S.state to.new.out)
        (E.state to.old.err) (E.state to.new.err) result.0 result.1 }
{
    let Opened { inputs, sums } = opened;
    let style = paths.style;
    match request {
        Request::Settle => match prepare(alloc, style, &asked_inputs(paths), sums) {
            Ok((text, about)) => {
                let about = about.as_slice();
                answer_by(alloc, Settle { about }, style, text, inputs, to, hasher)
            }
            Err(fault) => (None, conclude(&Err(fault), &mut to.err)),
        },
        _ => match read_sums(alloc, sums) {
            Ok(text) => answer_by(alloc, request, style, text, inputs, to, hasher),
            Err(fault) => (None, conclude(&Err(fault), &mut to.err)),
        },
    }
}

/// Judges a certificate or a refutation, by a file of sums if there is one. Returns what was read
/// then, and the conclusion.
pub(crate) fn judge<N: NamedFeed + Drop, S: Sink, E: Sink, H: BuildHasher + Drop>(
    alloc: Global,
    judgement: Judgement,
    paths: &JudgedPaths,
    opened: Opened<N, N>,
    to: &mut Outputs<S, E>,
    hasher: H,
) -> (Option<Summed>, Conclusion)
    requires run { MayRun (run_over (feeds_of N.state N.state opened.inputs)
        (S.state to.old.out)) }
    requires err { IsWritable (E.state to.old.err) }
    requires sums { IfSome opened.sums (λ file. IsReadable (N.state file)) }
    ensures responds { Responds (judged_of judgement paths.now)
        (names_in N.named N.named opened.inputs) (feeds_of N.state N.state opened.inputs)
        (option_map N.state opened.sums) (S.state to.old.out) (S.state to.new.out)
        (E.state to.old.err) (E.state to.new.err) result.0 result.1 }
{
    let Opened { inputs, sums } = opened;
    let style = paths.evidence.style;
    match prepare(
        alloc,
        style,
        &judged_inputs(judgement.second(), paths),
        sums,
    ) {
        Ok((text, about)) => {
            let about = about.as_slice();
            match judgement {
                Judgement::Check => {
                    answer_by(alloc, Check { about }, style, text, inputs, to, hasher)
                }
                Judgement::Refute { drift } => {
                    let refute = Refute { drift, about };
                    answer_by(alloc, refute, style, text, inputs, to, hasher)
                }
                Judgement::Readings { covers: false } => {
                    answer_by(alloc, Readings, style, text, inputs, to, hasher)
                }
                Judgement::Readings { covers: true } => {
                    answer_by(alloc, ReadingsByCovers, style, text, inputs, to, hasher)
                }
            }
        }
        Err(fault) => (None, conclude(&Err(fault), &mut to.err)),
    }
}
