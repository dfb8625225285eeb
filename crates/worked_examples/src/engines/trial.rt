//! One run of an engine, with devices that go as a test says, and what it answers.

ghost use Rattle.byte_stream.specs.State.{IsWritable};

use crate::expectation::table;
use audit::{At, Check, EnvelopeOptions, Find, PLAIN_ENVELOPE, Refute, Request, Step, Style};
use byte_stream::{Cut, Feed, Sink, TestFeed, TestSink};
use listing::run_list;
use report::{Input, Outcome, RunFault};
use std::alloc::Global;
use std::hash::{BuildHasherDefault, FoldHasher};
use std::process::Abort;
use vectors::{K1, SECOND};

/// A command, with what it asks or with its second input.
#[derive(Clone, Copy, Debug)]
pub(crate) enum Command<'a> {
    List,
    Ask(Request),
    Check(&'a str),
    Refute(&'a str),
}

impl<'a> Command<'a> {
    /// Whether it has a second input.
    pub(crate) fn has_second(self) -> bool {
        matches!(self, Command::Check(_) | Command::Refute(_))
    }

    /// Which its second input is, and what that holds. One that a command hasn't stays unread.
    pub(crate) fn second(self) -> (Input, &'a [u8]) {
        match self {
            Command::Check(certificate) => (Input::Certificate, certificate.as_bytes()),
            Command::Refute(refutation) => (Input::Refutation, refutation.as_bytes()),
            _ => (Input::Certificate, K1.as_bytes()),
        }
    }
}

/// What is run: a command in a style, and what the claim and the capture hold.
#[derive(Clone, Copy, Debug)]
pub(crate) struct Asked<'a> {
    pub(crate) command: Command<'a>,
    pub(crate) style: Style,
    pub(crate) claim: &'a [u8],
    pub(crate) capture: &'a [u8],
}

pub(crate) type Answer = Result<Outcome, RunFault>;

pub(crate) const YES: Answer = Ok(Outcome::Yes);

const NO: Answer = Ok(Outcome::No);

/// The lines of a text, each with its line feed.
pub(crate) type Lines = &'static [&'static str];

/// A command, and its answer and its lines on the worked inputs.
pub(crate) type Worked = (Command<'static>, Answer, Lines);

/// The worked moment.
pub(crate) const AT: Command<'static> = Command::Ask(Request::At(At {
    unix_second: SECOND,
}));

/// A certificate in pieces of 64 seconds.
const FIND: Command<'static> = Command::Ask(Request::Find(Find {
    step: Step { seconds: 64 },
}));

/// Such pieces, with what each server says.
const SERVERS: Command<'static> = Command::Ask(Request::Envelope(EnvelopeOptions {
    servers: true,
    ..PLAIN_ENVELOPE
}));

/// A refutation of `C1` with a bound one tick smaller.
pub(crate) const REFUTATION: &str =
    "{\"error\":42953968,\"false\":[],\"reading\":4294967296000000000}";

const SAMPLE: &str = "0 192.0.2.1 0 1 offset -4295 1 delay 85895050 85903641 \
    low -42949674 high 42953969\n";

const COUNTS: &str = "records 2 requests 1 replies 1 samples 1 version 0 leap 0 stratum 0 \
    precision 0 zero 0 norequest 0 ambiguous 0 warnings 0\n";

const MOMENT: &str = "192.0.2.1 -42949674 42953969\nhull -42949674 42953969\n";

const CLAIM: &str = "client 192.0.2.10 servers 1 false_max 0\n\
    span 1000000000 1000000000 bound_ns 10001001 drift_ppb 0 reading_ns 0\n";

const PROVED: &str = "advice sources 1\nadvice reference 47505300\npieces 1\nverdict yes\n";

const PIECE: &str = "0 192.0.2.1 -42949674 42953969\n\
    0 1000000000 1000000000 -42949674 42953969\nbound_ns 10001001 piece 0\n";

/// Each command that has a claim.
pub(crate) const COMMANDS: [Worked; 7] = table! {
    Command::Ask(Request::Samples), YES, &[SAMPLE, COUNTS];
    AT, YES, &[MOMENT];
    Command::Check(K1), YES, &[CLAIM, COUNTS, PROVED];
    FIND, YES, &[K1, "\n"];
    Command::Refute(REFUTATION), NO, &["refuted no\n"];
    Command::Ask(Request::FindRefutation), NO, &["nothing refutation\n"];
    SERVERS, YES, &[PIECE];
};

/// The input of which a pull fails, and the number of that pull, the first being number 1.
pub(crate) type Failing = Option<(Input, u64)>;

fn pull_of(failing: Failing, input: Input) -> Option<u64> {
    match failing {
        Some((failing, number)) if failing == input => Some(number),
        _ => None,
    }
}

/// What a run has answered, and its feeds.
#[derive(Drop)]
pub(crate) struct Ran<'a> {
    pub(crate) answer: Answer,
    pub(crate) claim: TestFeed<'a>,
    pub(crate) second: TestFeed<'a>,
    pub(crate) capture: TestFeed<'a>,
}

impl Ran<'_> {
    /// How often its feeds have failed.
    pub(crate) fn faults(&self) -> u64 {
        let first = self.claim.faults().saturating_add(self.second.faults());
        first.saturating_add(self.capture.faults())
    }
}

/// Runs a command on feeds that cut and fail so.
pub(crate) fn run<'a>(
    alloc: Global,
    asked: Asked<'a>,
    cut: Cut,
    failing: Failing,
    out: &mut TestSink,
) -> Ran<'a>
    requires { IsWritable (⟦<TestSink as Sink>⟧.state out.old) }
{
    let style = asked.style;
    let (input, text) = asked.command.second();
    let mut claim = TestFeed::new(asked.claim, cut, pull_of(failing, Input::Claim));
    let mut second = TestFeed::new(text, cut, pull_of(failing, input));
    let capture = TestFeed::new(asked.capture, cut, pull_of(failing, Input::Capture));
    let hasher = BuildHasherDefault::<FoldHasher>::new();
    let first = &mut claim;
    let next = &mut second;
    let none = &mut ();
    let (capture, answer) = match asked.command {
        Command::List => run_list(alloc, capture, out),
        Command::Ask(request) => {
            audit::run(alloc, request, style, first, none, capture, out, hasher)
        }
        Command::Check(_) => {
            let check = Check { about: &[] };
            audit::run(alloc, check, style, first, next, capture, out, hasher)
        }
        Command::Refute(_) => {
            let refute = Refute {
                drift: false,
                about: &[],
            };
            audit::run(alloc, refute, style, first, next, capture, out, hasher)
        }
    };
    Ran {
        answer,
        claim,
        second,
        capture,
    }
}

/// How many of these lines the text begins with, one after another. Nothing stands after them.
pub(crate) fn lines_of(rt: &impl Abort, text: &[u8], lines: &[&str]) -> usize {
    let mut rest = text;
    let mut count: usize = 0;
    for line in lines {
        match rest.strip_prefix(line.as_bytes()) {
            Some(after) => rest = after,
            None => break,
        }
        count = count.saturating_add(1);
    }
    assert!(rt;
        rest.is_empty(),
        "after line {count} of {lines:?}: {rest:?}"
    );
    count
}
