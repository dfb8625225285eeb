//! Tables, and words that a person sees in the place of others.

ghost use Rattle.std.specs.Prelude.{◌≡◌, ◌++◌, IfOk, map, reverse};
ghost use Rattle.line_writer.specs.Field.{field_data};
ghost use Rattle.audit_text.specs.Table as spec;
ghost use Rattle.audit_text.specs.Table.{from_field, heading, row_of};

use intersection::kinds::Hull;
use line_writer::{Field, Style, add_line};
use std::alloc::AllocError;

/// Whether it is for programs.
pub fn is_plain(style: Style) -> bool
    ensures { result ≡ spec.is_plain style }
{
    matches!(style, Style::Plain)
}

/// A word for programs, or another for a person.
pub fn word_for(style: Style, program: &'static str, person: &'static str) -> Field<'static>
    ensures { field_data result ≡ spec.word_for style program.now person.now }
{
    Field::Word(if is_plain(style) { program } else { person })
}

/// A field for a person alone.
pub(crate) fn for_person(style: Style, field: Field<'static>) -> Field<'static>
    ensures { field_data result ≡ spec.for_person style (field_data field.entry) }
{
    if is_plain(style) {
        Field::Nothing
    } else {
        field
    }
}

/// Adds the headings of these columns, for a person.
#[tactic(auto, unfolding(crate::specs::Table::heading))]
pub fn add_heading(
    text: &mut Vec<u8>,
    style: Style,
    columns: &[Field<'_>],
) -> Result<(), AllocError>
    ensures { IfOk result (λ _. text.new.items ≡
        text.old.items ++ heading style (map field_data columns.now)) }
{
    if is_plain(style) {
        return Ok(());
    }
    add_line(text, Style::Columns, columns)
}

/// The fields up to the last that isn't blank.
fn without_blanks<'a, 'b>(mut fields: &'a [Field<'b>]) -> &'a [Field<'b>]
    ensures { map field_data result.now
        ≡ reverse (from_field (reverse (map field_data fields.entry.now))) }
{
    while let [rest @ .., Field::Blank] = fields {
        fields = rest;
    }
    fields
}

/// Adds a row of a table.
#[tactic(auto, unfolding(crate::specs::Table::row_of))]
pub fn add_row(text: &mut Vec<u8>, style: Style, fields: &[Field<'_>]) -> Result<(), AllocError>
    ensures { IfOk result (λ _. text.new.items ≡
        text.old.items ++ row_of style (map field_data fields.now)) }
{
    let style = if is_plain(style) {
        Style::Plain
    } else {
        Style::Columns
    };
    add_line(text, style, without_blanks(fields))
}

/// The low end of what is known of the error, or a word.
pub fn hull_low(hull: Hull) -> Field<'static>
    ensures { field_data result ≡ spec.hull_low hull }
{
    match hull {
        Hull::Unbounded => Field::Instead("unbounded"),
        Hull::Empty => Field::Instead("empty"),
        Hull::Bounded { lo, .. } => Field::Low(lo),
    }
}

/// The high end of what is known of the error, or a blank column.
pub fn hull_high(hull: Hull) -> Field<'static>
    ensures { field_data result ≡ spec.hull_high hull }
{
    match hull {
        Hull::Bounded { hi, .. } => Field::High(hi),
        _ => Field::Blank,
    }
}
