//! What holds of the definitions that the contracts cite. A law is a function that does nothing:
//! its contract is the law, for every text, every line and every sum.

ghost use Rattle.std.specs.Prelude.{◌≡◌, ◌≢◌, ℕ, ◌<◌, ◌↔◌, List, [], ◌∷◌, ◌++◌, Some, Ok, Err, All, AllPairs, length, map};
ghost use Rattle.sum_file.specs.declared.fault.SumFault.TheVariants.{Form, Memory};
ghost use Rattle.sum_file.specs.Line.{IsMark, Says, line_of, written};
ghost use Rattle.sum_file.specs.Name.{carriage_return};
ghost use Rattle.sum_file.specs.Reading.{HasNoFeed, IsFirstBad, IsGiven, ended, lines_of, sum_given, sums_of, text_of, without_last};
ghost use Rattle.sum_file.specs.Sum.{Agree, IsWritable, SumData};

/// The lines of a text are those that it is made of, each ended by a line feed, but perhaps the
/// last. A carriage return at a line's end isn't the line's.
#[tactic(auto, using(crate::proofs::Cuts::lines_of_ended, crate::proofs::Cuts::lines_of_unended))]
pub fn texts_are_made_of_lines()
    ensures ended { (lines : List (List ℕ)) → All HasNoFeed lines →
        lines_of (ended lines) ≡ map (without_last carriage_return) lines }
    ensures unended { (lines : List (List ℕ)) (last : List ℕ) → All HasNoFeed lines →
        HasNoFeed last → 0 < length last →
        lines_of (ended lines ++ last) ≡ map (without_last carriage_return) (lines ++ last ∷ []) }
{}

/// A line says a sum exactly if it is spelled so.
pub fn lines_are_spelled()
    ensures spelled { (line : List ℕ) (sum : SumData) →
        (line_of line ≡ Some sum) ↔ Says line sum }
{}

/// The line that `sha256sum` writes for a sum says that sum.
pub fn written_lines_are_read()
    ensures read { (mark : ℕ) (sum : SumData) → IsMark mark → IsWritable sum →
        line_of (written mark sum) ≡ Some sum }
{}

/// The text that `sha256sum` writes for sums of which no two disagree says those sums.
#[tactic(auto, using(crate::proofs::Texts::sums_of_text_of))]
pub fn written_texts_are_read()
    ensures read { (mark : ℕ) (sums : List SumData) → IsMark mark → All IsWritable sums →
        AllPairs Agree sums → sums_of (text_of mark sums) ≡ Ok sums }
{}

/// A text says sums exactly if each of its lines says one, in this order, and no two disagree. It
/// is refused exactly for its first bad line.
pub fn first_bad_lines_are_reported()
    ensures good { (text : List ℕ) (sums : List SumData) → (sums_of text ≡ Ok sums) ↔
        ((map line_of (lines_of text) ≡ map Some sums) × AllPairs Agree sums) }
    ensures bad { (text : List ℕ) (number : ℕ) →
        (sums_of text ≡ Err (Form number)) ↔ IsFirstBad (lines_of text) number }
    ensures nothing_else { (text : List ℕ) → sums_of text ≢ Err Memory }
{}

/// A text gives a digest to a name exactly if it is read and one of its sums says so: whichever of
/// its lines has the name, the digest is this one.
pub fn given_sums_are_listed()
    ensures listed { (text name digest : List ℕ) →
        (sum_given text name ≡ Some digest) ↔ IsGiven text name digest }
{}
