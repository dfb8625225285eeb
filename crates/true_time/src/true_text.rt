//! The text of true time, behind what the servers say of one reading.

ghost use Rattle.std.specs.Prelude.{◌≡◌, ◌≤◌, ◌++◌, ◌^◌, unsigned_abs, IfOk};
ghost use Rattle.true_time.specs.TrueText as spec;
ghost use Rattle.true_time.specs.TrueText.{times_line, true_line, true_text};
ghost use Rattle.true_time.specs.TrueTime.{reading_over};

use crate::reading_line::{add_fields, are_near, less, row_style};
use audit_text::is_plain;
use intersection::kinds::Hull;
use line_writer::{Field, Style};
use std::alloc::AllocError;

const HEADING: &str = "            earliest true time               latest true time\n";

/// What stands before the two times: a word, or for a person their headings.
fn true_front(style: Style) -> &'static [u8]
    ensures { result.now ≡ spec.true_front style }
{
    if is_plain(style) {
        b"true "
    } else {
        HEADING.as_bytes()
    }
}

/// Adds what stands before the two times.
fn add_front(text: &mut Vec<u8>, style: Style) -> Result<(), AllocError>
    ensures { IfOk result (λ _. text.new.items ≡ text.old.items ++ spec.true_front style) }
{
    text.extend_from_slice(true_front(style))
}

/// Adds the line of the two times of a reading of these ticks, whose hull has these ends.
#[tactic(auto, unfolding(crate::specs::TrueText::times_line))]
fn add_both(
    text: &mut Vec<u8>,
    style: Style,
    begin: u64,
    end: u64,
    low: i128,
    high: i128,
) -> Result<(), AllocError>
    requires low { unsigned_abs low ≤ 2 ^ 100 }
    requires high { unsigned_abs high ≤ 2 ^ 100 }
    ensures { IfOk result (λ _. text.new.items ≡
        text.old.items ++ times_line style (reading_over begin end) low high) }
{
    let fields = [
        Field::TimeBelow(less(begin, high)),
        Field::TimeAbove(less(end, low)),
    ];
    add_fields(text, style, &fields)
}

/// Adds the same behind what stands before them.
#[tactic(auto, unfolding(crate::specs::TrueText::true_line))]
fn add_true_line(
    text: &mut Vec<u8>,
    style: Style,
    begin: u64,
    end: u64,
    low: i128,
    high: i128,
) -> Result<(), AllocError>
    requires low { unsigned_abs low ≤ 2 ^ 100 }
    requires high { unsigned_abs high ≤ 2 ^ 100 }
    ensures { IfOk result (λ _. text.new.items ≡
        text.old.items ++ true_line style (reading_over begin end) low high) }
{
    add_front(text, style)?;
    add_both(text, row_style(style), begin, end, low, high)
}

/// Adds the earliest and the latest true time of a reading that stands for these ticks of 2^-32 s
/// of the Unix epoch, by the hull of the clock's error over them: for a program a line
/// `true EARLIEST LATEST`, in Unix ticks. It adds nothing if the hull has no ends, or one that is
/// over 2^100 ticks from zero.
pub fn add_true_time(
    text: &mut Vec<u8>,
    style: Style,
    begin: u64,
    end: u64,
    hull: Hull,
) -> Result<(), AllocError>
    ensures { IfOk result (λ _. text.new.items ≡
        text.old.items ++ true_text style (reading_over begin end) hull) }
{
    if let Hull::Bounded { lo, hi } = hull {
        if are_near(lo, hi) {
            return add_true_line(text, style, begin, end, lo, hi);
        }
    }
    Ok(())
}
