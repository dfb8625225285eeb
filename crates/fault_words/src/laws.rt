//! What holds of all words. A law is a function that does nothing: its contract is the law.

ghost use Rattle.std.specs.Prelude.{◌<◌, ◌≤◌, ℕ, List, length};
ghost use Rattle.report.specs.declared.fault.RunFault.{RunFault};
ghost use Rattle.fault_words.specs.ClaimField.{field_name};
ghost use Rattle.fault_words.specs.Explanation.{AreQuiet, AreTwoLines, SeenData, IsExplanation, IsOutputExplanation, IsTimeExplanation};
ghost use Rattle.fault_words.specs.Quote.{IsQuiet};
ghost use Rattle.fault_words.specs.Subject.{NamesData};

/// Each field of a claim has a name.
pub fn no_field_is_without_a_name()
    ensures { (code : ℕ) → 0 < code → code ≤ 9 → 0 < length (field_name code) }
{}

/// Words are two lines, of which a terminal obeys nothing but their line feeds, if it obeys nothing
/// of the files' names and of what was seen. Those about a TIME always are.
pub fn words_are_two_lines()
    ensures input { (names : NamesData) (fault : RunFault) (found : SeenData) (text : List ℕ) →
        AreQuiet names → IsQuiet found.seen → IsExplanation names fault found text →
        AreTwoLines text }
    ensures output { (name seen text : List ℕ) → IsQuiet name → IsQuiet seen →
        IsOutputExplanation name seen text → AreTwoLines text }
    ensures time { (time text : List ℕ) → IsTimeExplanation time text → AreTwoLines text }
{}
