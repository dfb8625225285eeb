//! The worked examples as tables over public calls, as tests: of the readers, of checking, and of
//! the engines. In `uses` stand small proved callers, as programs of one's own would have them.

#![tactic(auto)]

#[cfg(test)]
mod checking;
#[cfg(test)]
mod engines;
#[cfg(test)]
mod expectation;
#[cfg(test)]
mod readers;
pub mod uses;
