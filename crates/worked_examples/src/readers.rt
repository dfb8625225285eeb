//! From frames and claims to exchanges.

mod claims;
mod exchanges;
mod frames;
mod headers;
mod ticks;
