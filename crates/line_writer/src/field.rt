//! A line as a list of fields, in the order in which they are read.

ghost use Rattle.std.specs.Prelude.{◌≡◌, ◌+◌, ◌-◌, ◌≤◌, ◌++◌, IfOk, length, map, replicate};
ghost use Rattle.std.specs.List.{list_all, prefix_len};
ghost use Rattle.line_writer.specs.Text.{are_zero, is_named, is_printable, millionths};
ghost use Rattle.line_writer.specs.Field.{field_data, fields_text, human_text, in_column, is_absent, is_short, line_of, most_of, next_text, plain_text, reference_text, rest_text, room_of, text_of, width, width_of};

use crate::date::put_time;
use crate::line::{CAPACITY, Line};
use crate::millisecond::{put_high, put_low, put_milliseconds};
use crate::moment::{put_moment_above, put_moment_below};
use crate::number::put_wide;
use std::alloc::AllocError;

/// What may stand in a line.
#[derive(Clone, Copy, Debug)]
pub enum Field<'a> {
    /// A word, or several.
    Word(&'a str),
    /// A word that says what the next fields are.
    Label(&'a str),
    /// A number that counts or names.
    Number(u64),
    /// What a number counts or names, and the number.
    Named(&'a str, u64),
    /// A time in whole Unix seconds.
    Second(u32),
    /// A tick of 2^-32 s of the Unix epoch: for a person the time at the nanosecond at or below it.
    /// A tick before 1970, or of a second that has more than 32 bits, is shown as its number.
    TimeBelow(i128),
    /// The same at the nanosecond at or above it.
    TimeAbove(i128),
    /// A length of time in nanoseconds.
    Nanoseconds(u128),
    /// Parts of 10^9.
    Billionths(u32),
    /// The low end of a range of ticks of 2^-32 s.
    Low(i128),
    /// The high end of a range of ticks of 2^-32 s.
    High(i128),
    /// A word in the place of the low end of a range.
    Instead(&'a str),
    /// The end of a range that isn't there: its column is left blank.
    Blank,
    /// An IPv4 address.
    Address([u8; 4]),
    /// A reference identifier.
    Reference([u8; 4]),
    /// The heading of a column, and what stands in the column.
    Heading(&'a str, ColumnKind),
    /// No field: not even a space stands for it.
    Nothing,
}

/// What stands in a column, which says how wide that is.
#[derive(Clone, Copy, Debug)]
pub enum ColumnKind {
    /// A number that counts or names.
    Number,
    /// A time in whole Unix seconds.
    Second,
    /// An end of a range.
    End,
    /// An address, or a word in its place.
    Name,
}

/// How fields are written.
#[derive(Clone, Copy, Debug)]
pub enum Style {
    /// For programs: whole numbers alone.
    Plain,
    /// For a person, in milliseconds.
    Human,
    /// The same, each field in a column of its own, whose heading stands for its label.
    Columns,
}

/// Writes the text of a field for a program.
fn put_plain(line: &mut Line, field: &Field<'_>)
    requires { length line.old + most_of (field_data field.now) ≤ CAPACITY + 1 }
    ensures text { line.new ≡ plain_text (field_data field.now) ++ line.old }
    ensures at_most { length line.new + 1 ≤ length line.old + most_of (field_data field.now) }
{
    match field {
        Field::Word(word) | Field::Label(word) | Field::Instead(word) | Field::Heading(word, _) =>
            line.put_text(word),
        Field::Number(n) => line.put_number(*n),
        Field::Named(name, n) => {
            line.put_number(*n);
            line.put_byte(b' ');
            line.put_text(name);
        }
        Field::Second(n) | Field::Billionths(n) => line.put_number(*n),
        Field::Nanoseconds(n) => put_wide(line, *n),
        Field::TimeBelow(tick) | Field::TimeAbove(tick) | Field::Low(tick) | Field::High(tick) => {
            line.put_number(*tick);
        }
        Field::Address(bytes) => line.put_address(bytes),
        Field::Reference(bytes) => line.put_hexadecimal(bytes),
        Field::Blank | Field::Nothing => {}
    }
}

/// Whether a byte is a letter, a digit or a sign.
fn is_printable(byte: u8) -> bool
    ensures { result ≡ is_printable byte }
{
    32 < byte && byte < 127
}

/// How many letters, digits and signs a reference identifier begins with.
fn letters_of(bytes: &[u8; 4]) -> usize
    ensures exact { result ≡ prefix_len is_printable bytes.now }
    ensures at_most { result ≤ 4 }
{
    bytes.iter().take_while(|byte| is_printable(**byte)).count()
}

/// Whether zero bytes alone stand here.
fn are_zero(bytes: &[u8]) -> bool
    ensures { result ≡ are_zero bytes.now }
{
    bytes.iter().all(|byte| *byte == 0)
}

/// Whether they are its name: zero bytes alone stand behind them.
fn is_named(bytes: &[u8; 4]) -> bool
    ensures { result ≡ is_named bytes.now }
{
    let letters = letters_of(bytes);
    letters > 0 && are_zero(&bytes[letters..])
}

/// Writes a reference identifier by its name, or as an address.
fn put_reference(line: &mut Line, bytes: &[u8; 4])
    requires { length line.old + 15 ≤ CAPACITY }
    ensures text { line.new ≡ reference_text bytes.now ++ line.old }
    ensures at_most { length line.new ≤ length line.old + 15 }
{
    if is_named(bytes) {
        line.put_bytes(&bytes[..letters_of(bytes)]);
    } else {
        line.put_address(bytes);
    }
}

/// Writes parts of 10^9 as parts of 10^6.
fn put_millionths(line: &mut Line, n: u32)
    requires { length line.old + 14 ≤ CAPACITY }
    ensures text { line.new ≡ millionths n ++ line.old }
    ensures at_most { length line.new ≤ length line.old + 14 }
{
    line.put_three_digits(n % 1_000);
    line.put_byte(b'.');
    line.put_number(n / 1_000);
}

/// Writes the text of a field for a person.
fn put_human(line: &mut Line, field: &Field<'_>)
    requires { length line.old + most_of (field_data field.now) ≤ CAPACITY + 1 }
    ensures text { line.new ≡ human_text (field_data field.now) ++ line.old }
    ensures at_most { length line.new + 1 ≤ length line.old + most_of (field_data field.now) }
{
    match field {
        Field::Second(n) => put_time(line, *n),
        Field::TimeBelow(tick) => put_moment_below(line, *tick),
        Field::TimeAbove(tick) => put_moment_above(line, *tick),
        Field::Nanoseconds(n) => {
            line.put_text(" ms");
            put_milliseconds(line, *n);
        }
        Field::Billionths(n) => {
            line.put_text(" ppm");
            put_millionths(line, *n);
        }
        Field::Low(tick) => put_low(line, *tick),
        Field::High(tick) => put_high(line, *tick),
        Field::Reference(bytes) => put_reference(line, bytes),
        _ => put_plain(line, field),
    }
}

/// How wide a column is.
fn width(kind: ColumnKind) -> usize
    ensures width { result ≡ width kind }
    ensures narrow { result ≤ 20 }
{
    match kind {
        ColumnKind::Number => 8,
        ColumnKind::Second => 20,
        ColumnKind::End => 14,
        ColumnKind::Name => 15,
    }
}

/// How wide the column of a field is.
fn width_of(field: &Field<'_>) -> usize
    ensures width { result ≡ width_of (field_data field.now) }
    ensures narrow { result ≤ 20 }
{
    match field {
        Field::Heading(_, kind) => width(*kind),
        Field::Number(_) => width(ColumnKind::Number),
        Field::Second(_) => width(ColumnKind::Second),
        Field::Low(_) | Field::High(_) | Field::Instead(_) | Field::Blank => width(ColumnKind::End),
        Field::Address(_) | Field::Word(_) => width(ColumnKind::Name),
        _ => 0,
    }
}

/// Writes spaces before what stands in `line`.
#[tactic(auto, using(crate::proofs::Columns::one_more))]
fn put_blanks(line: &mut Line, count: usize)
    requires { length line.old + count ≤ CAPACITY }
    ensures { line.new ≡ replicate count 32 ++ line.old }
{
    for _done in 0..count {
        line.put_byte(b' ');
    }
}

/// Writes the text of a field, in a column of its own, before what stands in `line`.
#[tactic(auto, using(crate::proofs::Columns::in_room, crate::proofs::Columns::is_in_column))]
fn put_column(line: &mut Line, field: &Field<'_>)
    requires { length line.old + most_of (field_data field.now) ≤ CAPACITY + 1 }
    ensures text { line.new ≡ text_of Style.Columns (field_data field.now) ++ line.old }
    ensures at_most { length line.new + 1 ≤ length line.old + most_of (field_data field.now) }
{
    let end = line.as_bytes().len() + width_of(field);
    put_human(line, field);
    put_blanks(line, end.saturating_sub(line.as_bytes().len()));
}

/// Writes the text of a field before what stands in `line`.
#[tactic(auto)]
fn put_field(line: &mut Line, style: Style, field: &Field<'_>)
    requires { length line.old + most_of (field_data field.now) ≤ CAPACITY + 1 }
    ensures text { line.new ≡ text_of style (field_data field.now) ++ line.old }
    ensures at_most { length line.new + 1 ≤ length line.old + most_of (field_data field.now) }
{
    match style {
        Style::Plain => put_plain(line, field),
        Style::Human => put_human(line, field),
        Style::Columns => put_column(line, field),
    }
}

/// Whether a field that follows another leaves no trace.
fn is_absent(style: Style, field: &Field<'_>) -> bool
    ensures { result ≡ is_absent style (field_data field.now) }
{
    match field {
        Field::Nothing => true,
        Field::Label(_) => matches!(style, Style::Columns),
        Field::Blank => !matches!(style, Style::Columns),
        _ => false,
    }
}

/// Writes the text of a field and a space before it, if it stands there.
fn put_next(line: &mut Line, style: Style, field: &Field<'_>)
    requires { length line.old + most_of (field_data field.now) ≤ CAPACITY }
    ensures text { line.new ≡ next_text style (field_data field.now) ++ line.old }
    ensures at_most { length line.new ≤ length line.old + most_of (field_data field.now) }
{
    if !is_absent(style, field) {
        put_field(line, style, field);
        line.put_byte(b' ');
    }
}

/// Writes fields that follow another before what stands in `line`.
fn put_rest(line: &mut Line, style: Style, fields: &[Field<'_>])
    requires { length line.old + room_of (map field_data fields.now) ≤ CAPACITY }
    ensures text { line.new ≡ rest_text style (map field_data fields.now) ++ line.old }
    ensures at_most { length line.new ≤ length line.old + room_of (map field_data fields.now) }
{
    if let [field, rest @ ..] = fields {
        put_rest(line, style, rest);
        put_next(line, style, field);
    }
}

/// Writes fields, joined by spaces, before what stands in `line`. It takes no memory.
pub fn put_fields(line: &mut Line, style: Style, fields: &[Field<'_>])
    requires { length line.old + room_of (map field_data fields.now) ≤ CAPACITY }
    ensures text { line.new ≡ fields_text style (map field_data fields.now) ++ line.old }
    ensures at_most { length line.new ≤ length line.old + room_of (map field_data fields.now) }
{
    if let [first, rest @ ..] = fields {
        put_rest(line, style, rest);
        put_field(line, style, first);
    }
}

/// Whether the longest text of a field has at most 100 bytes.
fn is_short(field: &Field<'_>) -> bool
    ensures { result ≡ is_short (field_data field.now) }
{
    match field {
        Field::Word(word) | Field::Label(word) | Field::Instead(word) | Field::Heading(word, _) =>
            word.len() <= 100,
        Field::Named(name, _) => name.len() <= 79,
        _ => true,
    }
}

/// Adds the text of a field. `line` is what it is written in, unless it is a long word.
fn add_field(
    text: &mut Vec<u8>,
    line: &mut Line,
    style: Style,
    field: &Field<'_>,
) -> Result<(), AllocError>
    ensures { IfOk result (λ _. text.new.items ≡
        text.old.items ++ text_of style (field_data field.now)) }
{
    line.clear();
    if is_short(field) {
        put_field(line, style, field);
        return text.extend_from_slice(line.as_bytes());
    }
    match field {
        Field::Word(word) | Field::Label(word) | Field::Instead(word) | Field::Heading(word, _) =>
            text.extend_from_slice(word.as_bytes()),
        Field::Named(name, n) => {
            text.extend_from_slice(name.as_bytes())?;
            line.put_number(*n);
            line.put_byte(b' ');
            text.extend_from_slice(line.as_bytes())
        }
        _ => Ok(()),
    }
}

/// Adds a space and the text of a field, if it stands there.
fn add_next(
    text: &mut Vec<u8>,
    line: &mut Line,
    style: Style,
    field: &Field<'_>,
) -> Result<(), AllocError>
    ensures { IfOk result (λ _. text.new.items ≡
        text.old.items ++ next_text style (field_data field.now)) }
{
    if is_absent(style, field) {
        return Ok(());
    }
    text.push(b' ')?;
    add_field(text, line, style, field)
}

/// How many short fields have room in a line together, with its line feed.
const TOGETHER: usize = 5;

/// Whether the longest text of each field has at most 100 bytes.
fn are_short(fields: &[Field<'_>]) -> bool
    ensures { result ≡ list_all (λ field. is_short (field_data field)) fields.now }
{
    fields.iter().all(|field| is_short(field))
}

/// Adds a line: fields, joined by spaces, and a line feed. A few short ones are copied together.
pub fn add_line(text: &mut Vec<u8>, style: Style, fields: &[Field<'_>]) -> Result<(), AllocError>
    ensures { IfOk result (λ _. text.new.items ≡
        text.old.items ++ line_of style (map field_data fields.now)) }
{
    let mut line = Line::new();
    if fields.len() <= TOGETHER && are_short(fields) {
        line.put_byte(b'\n');
        put_fields(&mut line, style, fields);
        return text.extend_from_slice(line.as_bytes());
    }
    if let [first, rest @ ..] = fields {
        add_field(text, &mut line, style, first)?;
        for field in rest {
            add_next(text, &mut line, style, field)?;
        }
    }
    Ok(text.push(b'\n')?)
}
