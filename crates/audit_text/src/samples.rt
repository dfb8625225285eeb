//! The text of `samples`.

ghost use Rattle.std.specs.Prelude.{◌≡◌, ◌++◌, IfOk, length, map};
ghost use Rattle.audit_text.specs.Common.{data_of, AreLawful, exchange_shown, compact_data};
ghost use Rattle.audit_text.specs.Samples as spec;
ghost use Rattle.audit_text.specs.SampleLine.{sample_line};
ghost use Rattle.audit_text.specs.Table.{rows_from};

use crate::counts_line::add_counts;
use crate::sample_line::{COLUMNS, add_sample};
use crate::table::add_heading;
use claim_file::Claim;
use line_writer::Style;
use pairing::{CompactCollection, CompactExchange, ToExchange};
use std::alloc::{AllocError, Global};

/// The line of each sample, in the order of the exchanges.
fn add_samples(
    text: &mut Vec<u8>,
    style: Style,
    claim: &Claim,
    exchanges: &[CompactExchange],
) -> Result<(), AllocError>
    requires exchanges { AreLawful (length claim.now.servers.items)
        (map exchange_shown exchanges.now) }
    ensures { IfOk result (λ _. text.new.items ≡ text.old.items ++ rows_from
        (sample_line style (data_of claim.now)) 0 (map exchange_shown exchanges.now)) }
{
    for (number, held) in exchanges.iter().enumerate() {
        add_sample(text, style, claim, number as u32, &held.to_exchange())?;
    }
    Ok(())
}

/// The text of `samples`: a line for each exchange, numbered from 0 in their order, with what it
/// says about the clock, and the counts.
#[tactic(auto, unfolding(crate::specs::Samples::samples_text))]
pub fn samples_text(
    alloc: Global,
    style: Style,
    claim: &Claim,
    held: &CompactCollection,
) -> Result<Vec<u8>, AllocError>
    requires exchanges { AreLawful (length claim.now.servers.items) (compact_data held.now).exchanges }
    ensures { IfOk result (λ text.
        text.items ≡ spec.samples_text style (data_of claim.now) (compact_data held.now)) }
{
    let mut text = Vec::new(alloc);
    add_heading(&mut text, style, &COLUMNS)?;
    add_samples(&mut text, style, claim, &held.exchanges)?;
    add_counts(&mut text, held)?;
    Ok(text)
}
