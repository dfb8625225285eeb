//! What the definitions say about every frame: what a frame gives is what it holds.

ghost use Rattle.std.specs.Prelude.{◌≡◌, ◌↔◌, ℕ, ◌+◌, ◌<◌, List, ◌++◌, length, take, Ok, Err, Some, IsSome};
ghost use Rattle.frame_reader.specs.declared.skip.Skip.{Skip};
ghost use Rattle.frame_reader.specs.declared.skip.Skip.TheVariants.{Short};
ghost use Rattle.byte_stream.specs.Bytes.{IsBytes};
ghost use Rattle.frame_reader.specs.Frame.{Fields, HoldsDatagram, skip_of, datagram_of};

/// A frame gives a datagram exactly if it is the joined list of that datagram's parts: Ethernet
/// addresses, at most one tag, IPv4 header, UDP header, payload and padding.
pub fn given_where_held()
    ensures { (frame : List ℕ) (d : Fields) → IsBytes frame →
        (datagram_of frame ≡ Ok d) ↔ HoldsDatagram frame d }
{}

/// A frame gives no datagram exactly if it has a reason to be skipped, and then gives that reason.
pub fn refused_where_skipped()
    ensures { (frame : List ℕ) (s : Skip) → (datagram_of frame ≡ Err s) ↔ (skip_of frame ≡ Some s) }
{}

/// A frame holds one datagram at most.
pub fn holds_one_at_most()
    ensures { (frame : List ℕ) (d e : Fields) → HoldsDatagram frame d → HoldsDatagram frame e
        → d ≡ e }
{}

/// A frame has a reason to be skipped exactly if it holds no datagram.
pub fn skipped_where_none_is_held()
    ensures { (frame : List ℕ) → IsBytes frame →
        IsSome (skip_of frame) ↔ ((d : Fields) → ¬ HoldsDatagram frame d) }
{}

/// Bytes after what a frame holds are padding, and change nothing.
#[tactic(auto, using(crate::proofs::Truncation::more_padding))]
pub fn padding_is_ignored()
    ensures { (frame more : List ℕ) (d : Fields) → HoldsDatagram frame d
        → HoldsDatagram (frame ++ more) d }
{}

/// A frame with a datagram that is cut anywhere before its padding is short.
pub fn cut_is_short()
    ensures { (frame : List ℕ) (d : Fields) (n : ℕ) → (held : HoldsDatagram frame d) →
        n + length held.parts.padding < length frame → skip_of (take n frame) ≡ Some Short }
{}
