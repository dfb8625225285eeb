//! Engines whose devices fail, at each of their calls in turn.

use crate::engines::trial::{AT, Answer, Asked, COMMANDS, Command, Worked, YES, lines_of, run};
use crate::expectation::{assert_equal, assert_equal_at, assert_ok, table};
use audit::Style;
use byte_stream::{Cut, Feed, Sink, TestFeed, TestSink};
use pcap_reader::CaptureFault;
use report::{Input, RunFault};
use std::alloc::Global;
use std::process::Abort;
use vectors::{C1, V1};

fn worked(command: Command<'static>) -> Asked<'static> {
    Asked {
        command,
        style: Style::Plain,
        claim: C1.as_bytes(),
        capture: &V1,
    }
}

/// Nothing was taken of these bytes: the next one is their first.
fn is_untouched(feed: &mut TestFeed<'_>, bytes: &[u8]) -> bool {
    let mut first = [0; 1];
    feed.faults() == 0 && feed.pull(&mut first) == Ok(1) && bytes.first() == Some(&first[0])
}

/// A run in which one pull fails: the answer names the input, nothing is written, and later inputs
/// are as they were. Whether it got to that pull: if not, it goes well.
fn fails(
    rt: &impl Abort,
    alloc: Global,
    (command, answer, _): Worked,
    cut: Cut,
    (input, number): (Input, u64),
) -> bool {
    let asked = worked(command);
    let mut out = assert_ok(rt, TestSink::new(alloc, 1000, 1000, None, false));
    let mut ran = run(alloc, asked, cut, Some((input, number)), &mut out);
    if ran.faults() == 0 {
        assert_equal_at(rt, ran.answer, answer, (command, input));
        return false;
    }
    let is_untaken = match input {
        Input::Claim => {
            is_untouched(&mut ran.second, command.second().1)
                && is_untouched(&mut ran.capture, asked.capture)
        }
        Input::Certificate | Input::Refutation | Input::Times => {
            is_untouched(&mut ran.capture, asked.capture)
        }
        Input::Capture | Input::Sums => true,
    };
    let counts = (ran.faults(), out.faults(), out.bytes().len());
    let seen = (ran.answer, counts, is_untaken);
    let wanted = (Err(RunFault::Device(input)), (1, 0, 0), true);
    assert_equal_at(rt, seen, wanted, (command, number));
    true
}

/// Each pull of an input fails in turn, until a run meets none that does: how many did.
fn each_pull_fails(rt: &impl Abort, alloc: Global, worked: Worked, cut: Cut, input: Input) -> u64 {
    let mut failed = 0;
    for number in 1..1000 {
        if !fails(rt, alloc, worked, cut, (input, number)) {
            break;
        }
        failed = number;
    }
    failed
}

/// How many calls it takes at least to move so many bytes, by at most so many with each.
fn least_calls(length: usize, most: usize) -> u64 {
    match length {
        0 => 0,
        _ => (length.saturating_sub(1) / most.max(1)).saturating_add(1) as u64,
    }
}

/// How a feed cuts its bytes, and how many it gives of the longest input with a pull at most.
const CUTS: [(Cut, usize); 3] = table! {
    Cut::Fixed(1), 1;
    Cut::Fixed(7), 7;
    Cut::Growing, 25;
};

#[test]
fn pulls(rt: HostRuntime) {
    for worked in COMMANDS {
        let (second, text) = worked.0.second();
        let read = if worked.0.has_second() { text.len() } else { 0 };
        for (cut, most) in CUTS {
            for (input, length) in [
                (Input::Claim, C1.len()),
                (second, read),
                (Input::Capture, V1.len()),
            ] {
                let failed = each_pull_fails(&rt, rt.alloc(), worked, cut, input);
                let least = least_calls(length, most);
                assert!(rt; failed >= least, "{input:?} {cut:?} {failed}");
            }
        }
    }
}

/// A run gives this answer and these lines, from feeds that give one byte with each pull, and one,
/// two and so on. Over a sink whose `finish` alone fails a refusal stays, and an outcome becomes
/// `Write`.
fn gives(rt: &impl Abort, alloc: Global, asked: Asked<'_>, wanted: Answer, lines: &[&str]) {
    for (cut, finish_fails) in table! {
        Cut::Fixed(1), false;
        Cut::Fixed(1), true;
        Cut::Growing, false;
        Cut::Growing, true;
    } {
        let mut out = assert_ok(rt, TestSink::new(alloc, 2000, 2000, None, finish_fails));
        let ran = run(alloc, asked, cut, None, &mut out);
        let answer = match wanted {
            Ok(_) if finish_fails => Err(RunFault::Write(out.bytes().len() as u64)),
            answer => answer,
        };
        let seen = (ran.answer, ran.faults(), out.faults());
        let wanted = (answer, 0, u64::from(finish_fails));
        assert_equal_at(rt, seen, wanted, (asked.command, lines, finish_fails));
        assert_equal(rt, lines_of(rt, out.bytes(), lines), lines.len());
    }
}

/// What a person is told of the worked moment.
const TOLD: &str = r"         server   low error ms  high error ms
      192.0.2.1     -10.000001      10.001001
           hull     -10.000001      10.001001
";

/// Of the worked capture, and of one that is torn.
#[test]
fn cuts(rt: HostRuntime) {
    for (command, answer, lines) in COMMANDS {
        let asked = worked(command);
        gives(&rt, rt.alloc(), asked, answer, lines);
        let torn = Asked {
            capture: &V1[..23],
            ..asked
        };
        let fault = Err(RunFault::Capture(CaptureFault::TornHeader));
        gives(&rt, rt.alloc(), torn, fault, &[]);
    }
    let told = Asked {
        style: Style::Human,
        ..worked(AT)
    };
    gives(&rt, rt.alloc(), told, YES, &[TOLD]);
}

const AT_ONCE: Cut = Cut::Fixed(usize::MAX);

/// A run in which one push fails: exactly the bytes that the answer counts have gone out of the
/// whole text. Whether it got to that push: if not, it goes well.
fn breaks_off(
    rt: &impl Abort,
    alloc: Global,
    (command, answer, _): Worked,
    (cut, whole): (Cut, &[u8]),
    (most, failing): (usize, u64),
) -> bool {
    let mut out = assert_ok(rt, TestSink::new(alloc, 1000, most, Some(failing), false));
    let ran = run(alloc, worked(command), cut, None, &mut out);
    let is_broken = out.faults() > 0;
    let held = out.bytes().len();
    let wanted = match is_broken {
        true => Err(RunFault::Write(held as u64)),
        false => answer,
    };
    let seen = (ran.answer, ran.faults(), out.faults(), Some(out.bytes()));
    let wanted = (wanted, 0, u64::from(is_broken), whole.get(..held));
    assert_equal_at(rt, seen, wanted, (command, most, failing));
    assert!(rt; is_broken || held == whole.len());
    is_broken
}

/// Each push fails in turn, until a run meets none that does, which isn't before all was taken.
fn each_push_fails(rt: &impl Abort, alloc: Global, row: Worked, cut: Cut, most: usize) {
    let mut whole = assert_ok(rt, TestSink::new(alloc, 1000, 1000, None, false));
    let _ = run(alloc, worked(row.0), cut, None, &mut whole);
    let mut failed = 0;
    for failing in 1..1000 {
        if !breaks_off(rt, alloc, row, (cut, whole.bytes()), (most, failing)) {
            break;
        }
        failed = failing;
    }
    let least = least_calls(whole.bytes().len(), most);
    assert!(rt; failed >= least, "{row:?} {most} {failed}");
}

#[test]
fn pushes(rt: HostRuntime) {
    for most in [1, 7, 1000] {
        for worked in COMMANDS {
            each_push_fails(&rt, rt.alloc(), worked, AT_ONCE, most);
        }
        let list: Worked = (Command::List, YES, &[]);
        each_push_fails(&rt, rt.alloc(), list, Cut::Growing, most);
    }
}
