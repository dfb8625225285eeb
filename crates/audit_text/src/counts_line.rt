//! The line of counts.

ghost use Rattle.std.specs.Prelude.{◌≡◌, ◌≤◌, ◌++◌, IfOk, length};
ghost use Rattle.pairing.specs.Compact.{compact_data};
ghost use Rattle.audit_text.specs.CountsLine.{counts_line};
ghost use Rattle.audit_text.specs.Line.{most_line};

use line_writer::{Field, Line, Style, put_fields};
use pairing::CompactCollection;
use std::alloc::AllocError;

/// Writes the line of counts, for a program, in place of what `line` held: at most 400 bytes.
#[tactic(auto, unfolding(crate::specs::CountsLine::counts_line))]
pub fn write_counts_line(line: &mut Line, held: &CompactCollection)
    ensures text { line.new ≡
        counts_line (compact_data held.now).counts (length (compact_data held.now).exchanges) }
    ensures at_most { length line.new ≤ most_line }
{
    let counts = &held.counts;
    let fields = [
        Field::Named("records", u64::from(counts.records)),
        Field::Named("requests", u64::from(counts.requests)),
        Field::Named("replies", u64::from(counts.replies)),
        Field::Named("samples", held.exchanges.len() as u64),
        Field::Named("version", u64::from(counts.version)),
        Field::Named("leap", u64::from(counts.leap)),
        Field::Named("stratum", u64::from(counts.stratum)),
        Field::Named("precision", u64::from(counts.precision)),
        Field::Named("zero", u64::from(counts.zero_stamp)),
        Field::Named("norequest", u64::from(counts.no_request)),
        Field::Named("ambiguous", u64::from(counts.ambiguous)),
        Field::Named("warnings", u64::from(counts.warnings)),
    ];
    line.clear();
    line.put_byte(b'\n');
    put_fields(line, Style::Plain, &fields);
}

/// Adds the line of counts.
pub(crate) fn add_counts(text: &mut Vec<u8>, held: &CompactCollection) -> Result<(), AllocError>
    ensures { IfOk result (λ _. text.new.items ≡ text.old.items
        ++ counts_line (compact_data held.now).counts (length (compact_data held.now).exchanges)) }
{
    let mut line = Line::new();
    write_counts_line(&mut line, held);
    text.extend_from_slice(line.as_bytes())
}
