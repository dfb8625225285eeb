//! What is opened by a path, and what is put at one.

ghost use Rattle.std.specs.Prelude.{◌≡◌, ◌+◌, ◌-◌, ◌^◌, ◌<◌, IfOk, IfErr, IsTrue, string_bytes};
ghost use Rattle.program.specs.Files.{FilesState, IsEmpty, IsFeedOf, IsHindered, IsPlaced, MayBeMissing, MayDraft, with_draft, without_draft};

use crate::hindrance::Hindrance;
use crate::invocation::Paths;
use byte_stream::{Feed, Sink};
use thiserror::Error;

/// It can't be opened.
#[derive(Clone, Copy, Debug, PartialEq, Eq, Error)]
#[error("it can't be opened")]
pub struct OpenFault;

/// Files, by their paths. Standard input is one as any other. A file is written as a draft, beside
/// its place, which it takes once it's whole.
///
/// A call needs the count that it changes below `u64::MAX`.
pub trait Files {
    /// What is opened.
    type Opened: Feed + Drop;

    /// A draft's sink.
    type Draft: Sink + Drop;

    /// What stands at each path, if it is known, how often it was tried to open one, and what has
    /// become of drafts.
    ghost state: { Self → FilesState };

    /// Opens what stands at a path: no byte was pulled of it, and no pull has failed.
    fn open(&mut self, path: &str) -> Result<Self::Opened, OpenFault>
        requires { (state self.old).opened < 2 ^ 64 - 1 }
        ensures opened { IfOk result (λ feed.
            IsFeedOf ((state self.old).standing path.now) (Self.Opened.state feed)) }
        ensures fault { IfErr result (λ fault.
            MayBeMissing ((state self.old).standing path.now)) }
        ensures same { (state self.new).standing ≡ (state self.old).standing }
        ensures counted { (state self.new).opened ≡ (state self.old).opened + 1 }
        ensures kept { (state self.new).drafts ≡ (state self.old).drafts };

    /// Makes the draft `part` of a file, if this may take the place of `path` in a run with these
    /// inputs. There is at most one draft.
    fn create(&mut self, path: &str, part: String, paths: &Paths) -> Result<Self::Draft, Hindrance>
        requires { MayDraft (state self.old).drafts }
        ensures empty { IfOk result (λ draft. IsEmpty (Self.Draft.state draft)) }
        ensures made { IfOk result (λ draft. (state self.new).drafts
            ≡ with_draft (string_bytes part) (state self.old).drafts) }
        ensures hindered { IfErr result (λ hindrance.
            IsHindered (state self.old).drafts (state self.new).drafts) }
        ensures same { (state self.new).standing ≡ (state self.old).standing }
        ensures kept { (state self.new).opened ≡ (state self.old).opened };

    /// Puts the draft into its place, or removes it if that can't be done.
    fn place(&mut self, draft: Self::Draft, path: &str) -> Result<(), Hindrance>
        requires there { IsTrue (state self.old).drafts.is_there }
        requires placed { (state self.old).drafts.placed + 1 < 2 ^ 64 }
        requires hindered { (state self.old).drafts.hindered + 1 < 2 ^ 64 }
        ensures placed { IfOk result (λ done. IsPlaced path.now (Self.Draft.state draft)
            (state self.old).drafts (state self.new).drafts) }
        ensures hindered { IfErr result (λ hindrance.
            IsHindered (state self.old).drafts (state self.new).drafts) }
        ensures same { (state self.new).standing ≡ (state self.old).standing }
        ensures kept { (state self.new).opened ≡ (state self.old).opened };

    /// Removes the draft.
    fn remove(&mut self, draft: Self::Draft)
        requires { IsTrue (state self.old).drafts.is_there }
        ensures { state self.new ≡ record (state self.old) {
          drafts = without_draft (state self.old).drafts;
        } };
}
