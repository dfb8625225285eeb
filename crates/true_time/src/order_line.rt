//! The text of an order.

ghost use Rattle.std.specs.Prelude.{◌≡◌, ◌≤◌, ◌++◌, ◌^◌, length, IfOk};
ghost use Rattle.line_writer.specs.Field.{field_data};
ghost use Rattle.true_time.specs.Order.{IsShort};
ghost use Rattle.true_time.specs.OrderLine as spec;
ghost use Rattle.true_time.specs.OrderLine.{both_lines, order_text};

use crate::order::Order;
use crate::reading_line::add_fields;
use crate::when::When;
use audit_text::is_plain;
use line_writer::{Field, Style, longer, shorter};
use std::alloc::{AllocError, Global};

const HEADING: &str = "                   earliest true time               latest true time\n";

/// The style of the last line.
fn line_style(style: Style) -> Style
    ensures { result ≡ spec.line_style style }
{
    if is_plain(style) {
        Style::Plain
    } else {
        Style::Human
    }
}

/// The unit of a length, for a program.
fn unit(style: Style) -> Field<'static>
    ensures { field_data result ≡ spec.unit style }
{
    if is_plain(style) {
        Field::Word("ns")
    } else {
        Field::Nothing
    }
}

/// Adds that one was before the other, by at least so many ticks.
fn add_before(text: &mut Vec<u8>, style: Style, words: &str, ticks: u128) -> Result<(), AllocError>
    requires words { length words.now ≤ 40 }
    requires ticks { ticks ≤ 2 ^ 127 }
    ensures { IfOk result (λ _. text.new.items ≡
        text.old.items ++ spec.before_line style words.now ticks) }
{
    let fields = [
        Field::Word(words),
        Field::Nanoseconds(shorter(ticks)),
        unit(style),
    ];
    add_fields(text, line_style(style), &fields)
}

/// Adds that either may have been first, by so many ticks at most.
fn add_open(text: &mut Vec<u8>, style: Style, earlier: u128, later: u128) -> Result<(), AllocError>
    requires earlier { earlier ≤ 2 ^ 127 }
    requires later { later ≤ 2 ^ 127 }
    ensures { IfOk result (λ _. text.new.items ≡ text.old.items
        ++ spec.order_line style (Order.Open earlier later)) }
{
    let fields = [
        Field::Word("open: first may be"),
        Field::Nanoseconds(longer(earlier)),
        unit(style),
        Field::Word("earlier or"),
        Field::Nanoseconds(longer(later)),
        unit(style),
        Field::Word("later"),
    ];
    add_fields(text, line_style(style), &fields)
}

/// Adds the line that says which was first.
fn add_order(text: &mut Vec<u8>, style: Style, order: Order) -> Result<(), AllocError>
    requires { IsShort order }
    ensures { IfOk result (λ _. text.new.items ≡ text.old.items ++ spec.order_line style order) }
{
    match order {
        Order::FirstBefore(ticks) => add_before(
            text,
            style,
            "first before second by at least",
            ticks,
        ),
        Order::SecondBefore(ticks) => add_before(
            text,
            style,
            "second before first by at least",
            ticks,
        ),
        Order::Open { earlier, later } => add_open(text, style, earlier, later),
        Order::Unknown => add_fields(text, line_style(style), &[Field::Word("open")]),
        Order::Never => add_fields(text, line_style(style), &[Field::Word("nothing fits")]),
    }
}

/// Adds when a reading was, behind its name.
fn add_when(text: &mut Vec<u8>, name: &str, when: When) -> Result<(), AllocError>
    requires { length name.now ≤ 6 }
    ensures { IfOk result (λ _. text.new.items ≡ text.old.items ++ spec.when_line name.now when) }
{
    match when {
        When::Between { earliest, latest } => {
            let fields = [
                Field::Word(name),
                Field::TimeBelow(earliest),
                Field::TimeAbove(latest),
            ];
            add_fields(text, Style::Human, &fields)
        }
        When::Whenever => {
            let fields = [Field::Word(name), Field::Word("unbounded")];
            add_fields(text, Style::Human, &fields)
        }
        When::Never => {
            let fields = [Field::Word(name), Field::Word("empty")];
            add_fields(text, Style::Human, &fields)
        }
    }
}

/// Adds when each was.
fn add_each(text: &mut Vec<u8>, first: When, second: When) -> Result<(), AllocError>
    ensures { IfOk result (λ _. text.new.items ≡ text.old.items ++ spec.each_line first second) }
{
    add_when(text, "first ", first)?;
    add_when(text, "second", second)
}

/// What stands above.
fn heading() -> &'static [u8]
    ensures { result.now ≡ spec.times_heading }
{
    HEADING.as_bytes()
}

/// Adds the headings of the two columns.
fn add_heading(text: &mut Vec<u8>) -> Result<(), AllocError>
    ensures { IfOk result (λ _. text.new.items ≡ text.old.items ++ spec.times_heading) }
{
    text.extend_from_slice(heading())
}

/// Adds when both were.
#[tactic(auto, unfolding(crate::specs::OrderLine::both_lines))]
fn add_both(text: &mut Vec<u8>, first: When, second: When) -> Result<(), AllocError>
    ensures { IfOk result (λ _. text.new.items ≡ text.old.items ++ both_lines first second) }
{
    add_heading(text)?;
    add_each(text, first, second)
}

/// Adds the lines for a person alone.
fn add_times(text: &mut Vec<u8>, style: Style, first: When, second: When) -> Result<(), AllocError>
    ensures { IfOk result (λ _. text.new.items ≡
        text.old.items ++ spec.times_text style first second) }
{
    if is_plain(style) {
        return Ok(());
    }
    add_both(text, first, second)
}

/// The text of `order`: which of two readings was first, in nanoseconds. A person sees
/// milliseconds, behind the earliest and the latest true time of each reading.
#[tactic(auto, unfolding(crate::specs::OrderLine::order_text))]
pub fn order_text(
    alloc: Global,
    style: Style,
    first: When,
    second: When,
    order: Order,
) -> Result<Vec<u8>, AllocError>
    requires { IsShort order }
    ensures { IfOk result (λ text. text.items ≡ order_text style first second order) }
{
    let mut text = Vec::new(alloc);
    add_times(&mut text, style, first, second)?;
    add_order(&mut text, style, order)?;
    Ok(text)
}
