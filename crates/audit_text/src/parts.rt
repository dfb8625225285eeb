//! The text of `at`.

ghost use Rattle.std.specs.Prelude.{◌≡◌, ◌<◌, ◌++◌, IfOk, length, flat_map, All};
ghost use Rattle.claim_file.specs.Claim.{data_of};
ghost use Rattle.audit_text.specs.Parts as spec;
ghost use Rattle.audit_text.specs.Parts.{part_row};

use crate::sample_line::server_of;
use crate::table::{add_heading, add_row, hull_high, hull_low};
use claim_file::Claim;
use intersection::kinds::Hull;
use line_writer::{ColumnKind, Field, Style};
use span_cover::Part;
use std::alloc::{AllocError, Global};

/// The columns.
const COLUMNS: [Field<'static>; 3] = [
    Field::Heading("server", ColumnKind::Name),
    Field::Heading("low error ms", ColumnKind::End),
    Field::Heading("high error ms", ColumnKind::End),
];

/// Adds the row of a server's interval.
#[tactic(auto, unfolding(crate::specs::Parts::part_row))]
fn add_part(text: &mut Vec<u8>, style: Style, claim: &Claim, part: &Part) -> Result<(), AllocError>
    requires { part.now.server < length claim.now.servers.items }
    ensures { IfOk result (λ _. text.new.items ≡
        text.old.items ++ part_row style (data_of claim.now) part.now) }
{
    let fields = [
        Field::Address(server_of(claim, part.server)),
        Field::Low(part.interval.lo),
        Field::High(part.interval.hi),
    ];
    add_row(text, style, &fields)
}

/// Adds the row of each of these servers.
fn add_parts(
    text: &mut Vec<u8>,
    style: Style,
    claim: &Claim,
    parts: &[Part],
) -> Result<(), AllocError>
    requires { All (λ part. part.server < length claim.now.servers.items) parts.now }
    ensures { IfOk result (λ _. text.new.items ≡
        text.old.items ++ flat_map (part_row style (data_of claim.now)) parts.now) }
{
    for part in parts {
        add_part(text, style, claim, part)?;
    }
    Ok(())
}

/// The text of `at`: a line for what each of these servers says about the clock's error at a
/// moment, in ticks of 2^-32 s, and the line of the hull.
#[tactic(auto, unfolding(crate::specs::Parts::parts_text))]
pub fn parts_text(
    alloc: Global,
    style: Style,
    claim: &Claim,
    parts: &[Part],
    hull: Hull,
) -> Result<Vec<u8>, AllocError>
    requires { All (λ part. part.server < length claim.now.servers.items) parts.now }
    ensures { IfOk result (λ text.
        text.items ≡ spec.parts_text style (data_of claim.now) parts.now hull) }
{
    let mut text = Vec::new(alloc);
    add_heading(&mut text, style, &COLUMNS)?;
    add_parts(&mut text, style, claim, parts)?;
    let fields = [Field::Word("hull"), hull_low(hull), hull_high(hull)];
    add_row(&mut text, style, &fields)?;
    Ok(text)
}
