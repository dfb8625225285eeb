//! Whole runs over a table of files.

ghost use Rattle.std.specs.Prelude.{◌≡◌, Ok};

use audit::{Outputs, Request, Style};
use byte_stream::{Cut, TestSink};
use program::{Invocation, JudgedPaths, Judgement, Paths, Place, Table, respond};
use std::alloc::Global;
use std::fmt::Debug;
use std::hash::{BuildHasherDefault, FoldHasher};
use std::process::Abort;
use std::str;
use vectors::{C1, K1, V1};

/// What sha256sum prints of them.
const SUMS: &str = "\
cc74a6c536b38e315159a9e3ff872f3d38bc292d19b8b7e66de5986e2a8450af  claim.json
c21997db04f56146ca9cc84475371e27d3699eff8e5d3b3d198a267e0c08aebb  -
9261c36c34318db779244d761d07ec1f5070284af2b92b66108148af46400035  certificate.json
";

const CHECKED: &str = "client 192.0.2.10 servers 1 false_max 0
span 1000000000 1000000000 bound_ns 10001001 drift_ppb 0 reading_ns 0
records 2 requests 1 replies 1 samples 1 version 0 leap 0 stratum 0 precision 0 zero 0 norequest 0 \
ambiguous 0 warnings 0
advice sources 1
advice reference 47505300
pieces 1
verdict yes
";

/// The same for a person, by the file of sums.
const TOLD: &str = "client 192.0.2.10 servers 1 false_max 0
span 2001-09-09T01:46:40Z 2001-09-09T01:46:40Z bound 10.001001 ms \
drift 0.000 ppm reading 0.000000 ms
records 2 requests 1 replies 1 samples 1 version 0 leap 0 stratum 0 precision 0 zero 0 norequest 0 \
ambiguous 0 warnings 0
advice sources 1
advice reference GPS
pieces 1
a course fits
claim claim.json: SHA-256 cc74a6c536b38e315159a9e3ff872f3d38bc292d19b8b7e66de5986e2a8450af
capture -: SHA-256 c21997db04f56146ca9cc84475371e27d3699eff8e5d3b3d198a267e0c08aebb
certificate certificate.json: \
SHA-256 9261c36c34318db779244d761d07ec1f5070284af2b92b66108148af46400035
ntpaudit 1.0.0 logic dac8208d650f15bf
verdict yes
";

/// What a person is told of the settled claim.
const SHOWN: &str = "shown
bound 10.001001 ms
pieces 1
least 10.001001 ms
claim claim.json: not held to a sum
capture -: not held to a sum
ntpaudit 1.0.0 logic dac8208d650f15bf
";

/// A value that has to be there.
fn assert_ok<T, E: Debug + Drop>(rt: &impl Abort, answer: Result<T, E>) -> T
    ensures { answer ≡ Ok result }
{
    match answer {
        Ok(value) => value,
        Err(fault) => panic!(rt; "{fault:?}"),
    }
}

/// The words of a command with a claim and a capture, and with a file of sums if it is named.
fn paths(rt: &impl Abort, alloc: Global, style: Style, [claim, capture, sums]: [&str; 3]) -> Paths {
    Paths {
        style,
        claim: assert_ok(rt, String::from_str(alloc, claim)),
        capture: assert_ok(rt, String::from_str(alloc, capture)),
        sums: match sums {
            "" => None,
            _ => Some(assert_ok(rt, String::from_str(alloc, sums))),
        },
        output: None,
    }
}

/// The question of the worked claim and capture.
fn ask(rt: &impl Abort, alloc: Global, request: Request, style: Style) -> Invocation {
    Invocation::Ask(request, paths(rt, alloc, style, ["claim.json", "-", ""]))
}

/// The judgement of these files.
fn judge(
    rt: &impl Abort,
    alloc: Global,
    judgement: Judgement,
    style: Style,
    [claim, capture, second, sums]: [&str; 4],
) -> Invocation {
    let evidence = paths(rt, alloc, style, [claim, capture, sums]);
    let second = assert_ok(rt, String::from_str(alloc, second));
    Invocation::Judge(judgement, JudgedPaths { evidence, second })
}

/// An invocation over the worked files ends with this status, with these texts on standard output
/// and standard error.
fn comes_to(rt: &impl Abort, alloc: Global, invocation: Invocation, wanted: (u8, &str, &str)) {
    let places = [
        place("claim.json", C1.as_bytes()),
        place("-", &V1),
        place("certificate.json", K1.as_bytes()),
        place("SUMS", SUMS.as_bytes()),
    ];
    let mut files = Table::new(alloc, &places, Cut::Growing);
    let mut to = Outputs {
        out: assert_ok(rt, TestSink::new(alloc, 2000, 2000, None, false)),
        err: assert_ok(rt, TestSink::new(alloc, 2000, 2000, None, false)),
    };
    let hasher = BuildHasherDefault::<FoldHasher>::new();
    let response = respond(alloc, &mut files, invocation, &mut to, hasher);
    let out = assert_ok(rt, str::from_utf8(to.out.bytes()));
    let err = assert_ok(rt, str::from_utf8(to.err.bytes()));
    assert_eq!(rt; (response.conclusion.code, out, err), wanted);
}

/// What stands at a path.
fn place<'a>(path: &'a str, bytes: &'a [u8]) -> Place<'a> {
    Place { path, bytes }
}

/// Each file is read for its own part, and a file that isn't there is told.
#[test]
fn judgements(rt: HostRuntime) {
    let alloc = rt.alloc();
    let refused = "ntpaudit: claim 2 field field 0\n";
    let missing = "ntpaudit: device certificate\n";
    let by_sums = ["claim.json", "-", "certificate.json", "SUMS"];
    for (style, files, wanted) in [
        (Style::Plain, by_sums, (0, CHECKED, "")),
        (Style::Human, by_sums, (0, TOLD, "")),
        (
            Style::Human,
            ["certificate.json", "-", "claim.json", ""],
            (2, "", refused),
        ),
        (
            Style::Plain,
            ["claim.json", "none", "none", "none"],
            (4, "", missing),
        ),
    ] {
        let judgement = judge(&rt, alloc, Judgement::Check, style, files);
        comes_to(&rt, alloc, judgement, wanted);
    }
}

/// A question, and a refused command line.
#[test]
fn others(rt: HostRuntime) {
    let alloc = rt.alloc();
    let settled = concat!(
        "{\"pieces\":[{\"entries\":[[0,0]],\"upto\":4294967296000000000}]}",
        "\n"
    );
    for (style, text) in [(Style::Plain, settled), (Style::Human, SHOWN)] {
        let asked = ask(&rt, alloc, Request::Settle, style);
        comes_to(&rt, alloc, asked, (0, text, ""));
    }
    let text = assert_ok(&rt, String::from_str(alloc, "a text\n"));
    comes_to(&rt, alloc, Invocation::Refuse(text), (5, "", "a text\n"));
}
