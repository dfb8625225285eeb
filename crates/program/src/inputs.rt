//! The inputs of a run, opened by their paths.

ghost use Rattle.std.specs.Prelude.{◌≡◌, ◌≤◌, ◌+◌, ◌<◌, ◌^◌, [], ◌∷◌, length, IfOk, IfErr, option_map, string_bytes};
ghost use Rattle.program.specs.Common.{option_to_list, no_feed, Sums, feeds};
ghost use Rattle.program.specs.Files.{IsFeedOf};
ghost use Rattle.program.specs.Invocation.{judged_places, places_of};
ghost use Rattle.program.specs.Opening.{AreOpened, IsFirstUnopened, IsSumsOf, order_of, place};

use crate::files::Files;
use crate::invocation::{JudgedPaths, Paths};
use crate::named::Named;
use report::{Input, RunFault};

/// The inputs of a question, opened.
#[derive(Drop)]
pub(crate) struct Inputs<N, T> {
    /// The claim.
    pub(crate) claim: N,
    /// The certificate or refutation, and `()` if the question has none.
    pub(crate) second: T,
    /// The capture.
    pub(crate) capture: N,
}

/// The same, with the file of sums, if there is one.
#[derive(Drop)]
pub(crate) struct Opened<N, T> {
    /// The inputs.
    pub(crate) inputs: Inputs<N, T>,
    /// The file of sums.
    pub(crate) sums: Option<N>,
}

/// Opens an input. If it can't be opened, and only then, that's the fault of its device.
pub(crate) fn open<'a, Fs: Files>(
    files: &mut Fs,
    path: &'a str,
    which: Input,
) -> Result<Named<'a, Fs::Opened>, RunFault>
    requires { (Fs.state files.old).opened + 1 < 2 ^ 64 }
    ensures named { IfOk result (λ input. input.name.now ≡ path.now) }
    ensures opened { IfOk result (λ input.
        IsFeedOf ((Fs.state files.old).standing path.now) (Fs.Opened.state input.feed)) }
    ensures fault { IfErr result (IsFirstUnopened (Fs.state files.old).standing
        (place which path.now ∷ []) (Fs.state files.old).opened (Fs.state files.new).opened) }
    ensures same { (Fs.state files.new).standing ≡ (Fs.state files.old).standing }
    ensures counted { (Fs.state files.new).opened ≡ (Fs.state files.old).opened + 1 }
    ensures kept { (Fs.state files.new).drafts ≡ (Fs.state files.old).drafts }
{
    match files.open(path) {
        Ok(feed) => Ok(Named { name: path, feed }),
        Err(_) => Err(RunFault::Device(which)),
    }
}

/// Opens a file of sums, if one is named.
fn open_sums<'a, Fs: Files>(
    files: &mut Fs,
    path: &'a Option<String>,
) -> Result<Option<Named<'a, Fs::Opened>>, RunFault>
    requires { (Fs.state files.old).opened + 1 < 2 ^ 64 }
    ensures opened { IfOk result (λ sums. IsSumsOf (Fs.state files.old).standing
        (option_map string_bytes path.now) (option_map (λ s. Fs.Opened.state s.feed) sums)) }
    ensures fault { IfErr result (IsFirstUnopened (Fs.state files.old).standing
        (option_to_list (option_map (place Sums) (option_map string_bytes path.now)))
        (Fs.state files.old).opened (Fs.state files.new).opened) }
    ensures counted { IfOk result (λ sums. (Fs.state files.new).opened
        ≡ (Fs.state files.old).opened + length
        (option_to_list (option_map (place Sums) (option_map string_bytes path.now)))) }
    ensures kept { (Fs.state files.new).drafts ≡ (Fs.state files.old).drafts }
{
    match path {
        Some(path) => Ok(Some(open(files, path.as_str(), Input::Sums)?)),
        None => Ok(None),
    }
}

/// Opens the inputs of a question without a second one, in the order claim, capture, file of sums.
pub(crate) fn open_evidence<'a, Fs: Files>(
    files: &mut Fs,
    paths: &'a Paths,
) -> Result<Opened<Named<'a, Fs::Opened>, ()>, RunFault>
    requires { (Fs.state files.old).opened + 3 < 2 ^ 64 }
    ensures named { IfOk result (λ opened.
        (opened.inputs.claim.name.now ≡ string_bytes paths.now.claim)
        × (opened.inputs.capture.name.now ≡ string_bytes paths.now.capture)) }
    ensures opened { IfOk result (λ opened. AreOpened (Fs.state files.old) (places_of paths.now)
        (Fs.state files.new).opened (feeds (Fs.Opened.state opened.inputs.claim.feed) no_feed
        (Fs.Opened.state opened.inputs.capture.feed))
        (option_map (λ s. Fs.Opened.state s.feed) opened.sums)) }
    ensures fault { IfErr result (IsFirstUnopened (Fs.state files.old).standing
        (order_of (places_of paths.now))
        (Fs.state files.old).opened (Fs.state files.new).opened) }
    ensures kept { (Fs.state files.new).drafts ≡ (Fs.state files.old).drafts }
{
    let claim = open(files, paths.claim.as_str(), Input::Claim)?;
    let capture = open(files, paths.capture.as_str(), Input::Capture)?;
    let sums = open_sums(files, &paths.sums)?;
    let inputs = Inputs {
        claim,
        second: (),
        capture,
    };
    Ok(Opened { inputs, sums })
}

/// Opens the inputs of a judgement, in the order claim, second input, capture, file of sums.
pub(crate) fn open_judged<'a, Fs: Files>(
    files: &mut Fs,
    which: Input,
    paths: &'a JudgedPaths,
) -> Result<Opened<Named<'a, Fs::Opened>, Named<'a, Fs::Opened>>, RunFault>
    requires { (Fs.state files.old).opened + 4 < 2 ^ 64 }
    ensures named { IfOk result (λ opened.
        (opened.inputs.claim.name.now ≡ string_bytes paths.now.evidence.claim)
        × (opened.inputs.second.name.now ≡ string_bytes paths.now.second)
        × (opened.inputs.capture.name.now ≡ string_bytes paths.now.evidence.capture)) }
    ensures opened { IfOk result (λ opened. AreOpened (Fs.state files.old)
        (judged_places which paths.now) (Fs.state files.new).opened
        (feeds (Fs.Opened.state opened.inputs.claim.feed)
        (Fs.Opened.state opened.inputs.second.feed) (Fs.Opened.state opened.inputs.capture.feed))
        (option_map (λ s. Fs.Opened.state s.feed) opened.sums)) }
    ensures fault { IfErr result (IsFirstUnopened (Fs.state files.old).standing
        (order_of (judged_places which paths.now))
        (Fs.state files.old).opened (Fs.state files.new).opened) }
    ensures kept { (Fs.state files.new).drafts ≡ (Fs.state files.old).drafts }
{
    let claim = open(files, paths.evidence.claim.as_str(), Input::Claim)?;
    let second = open(files, paths.second.as_str(), which)?;
    let capture = open(files, paths.evidence.capture.as_str(), Input::Capture)?;
    let sums = open_sums(files, &paths.evidence.sums)?;
    let inputs = Inputs {
        claim,
        second,
        capture,
    };
    Ok(Opened { inputs, sums })
}
