//! Tests: what invocations come to over files in memory, with each text and status that the program
//! prints of the same files.

#![tactic(auto)]

#[cfg(test)]
mod runs;
