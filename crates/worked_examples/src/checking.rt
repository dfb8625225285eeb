//! From samples and certificates to verdicts.

mod certificates;
mod finds;
mod hulls;
mod pieces;
mod refutation_texts;
pub(crate) mod samples;
mod verdicts;
