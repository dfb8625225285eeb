//! What holds of the definitions that the contracts cite. A law is a function that does nothing:
//! its contract is the law.

ghost use Rattle.std.specs.Prelude.{◌↔◌, ℕ, ◌<◌, ℤ, unsigned_abs, IsTrue};
ghost use Rattle.audit_text.specs.Common.{ticks_down, ClaimData, Hull, Exchange, Part};
ghost use Rattle.audit_text.specs.Excess.{is_beyond};
ghost use Rattle.audit_text.specs.Parts.{hull_fields, part_columns, part_fields};
ghost use Rattle.audit_text.specs.SampleLine.{sample_columns, sample_fields};
ghost use Rattle.audit_text.specs.Table.{IsUnder};

/// An error is shown as beyond a bound in nanoseconds just if it is beyond the bound in ticks.
pub fn errors_are_shown_beyond_just_if_they_are()
    ensures { (bound_ns : ℕ) (error : ℤ) →
        ticks_down bound_ns < unsigned_abs error ↔ IsTrue (is_beyond bound_ns error) }
{}

/// In each row of a table every text ends where the heading of its column ends.
pub fn rows_stand_under_their_headings()
    ensures samples { (claim : ClaimData) (number : ℕ) (x : Exchange) →
        IsUnder sample_columns (sample_fields claim number x) }
    ensures moments { (claim : ClaimData) (part : Part) →
        IsUnder part_columns (part_fields claim part) }
    ensures hulls { (hull : Hull) → IsUnder part_columns (hull_fields hull) }
{}
