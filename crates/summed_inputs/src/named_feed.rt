//! A feed under the name that a file of sums has for it.

ghost use Rattle.std.specs.Prelude.{◌≡◌, ℕ, List};

use byte_stream::Feed;

/// A feed with a name.
pub trait NamedFeed: Feed {
    /// The name, by which a file of sums gives its sum.
    ghost named: { Self → List ℕ };

    /// The name.
    fn name(&self) -> &str
        ensures { result.now ≡ named self.now };
}
