//! What an exit status shows of the files that the words of a command line name. A law is a
//! function that does nothing: its contract is the law, for all words and files.

ghost use Rattle.std.specs.Prelude.{◌≡◌, ℕ, List, Some, String};
ghost use Rattle.byte_stream.specs.Bytes.{IsBytes};
ghost use Rattle.command_line.specs.Common.{FilesState, Global, IsProven, Places};
ghost use Rattle.command_line.specs.Proven.{AreKnown, CallForCheck, IsProvenBySums};
ghost use Rattle.command_line.specs.Run.{Ends};

use summed_inputs::laws::check_is_the_theorem;

/// If a process ends with status 0 whose words call for `check`, the theorem holds: with a file of
/// sums of bytes that have its sums, and without one of the bytes that are known to stand there.
pub fn status_of_check_is_the_theorem()
    ensures summed { (words : List (String Global)) (places : Places) (path : List ℕ)
        (files : FilesState) → CallForCheck places words → places.sums ≡ Some path
        → Ends (Some words) files 0 → IsProvenBySums places files }
    ensures known { (words : List (String Global)) (places : Places)
        (claim certificate capture : List ℕ) (files : FilesState) → CallForCheck places words
        → AreKnown places files claim certificate capture → IsBytes capture
        → Ends (Some words) files 0 → IsProven claim certificate capture }
{
    check_is_the_theorem();
}
