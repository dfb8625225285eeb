//! The engines, with devices that fail.

mod endless;
mod failures;
mod fault_lines;
mod listings;
mod reports;
mod streams;
mod trial;
