//! Pieces, as numbers that aren't below zero.

ghost use Rattle.std.specs.Prelude.{◌≡◌, IfOk, map, reverse, All};
ghost use Rattle.sweep.specs.Pieces.{ArePieces};
ghost use Rattle.sweep.specs.UnsignedStretch.{AreStretchesOf, IsLawfulStretch, mirrored_stretch};

use crate::tick::{from_origin, mirrored_tick};
use std::alloc::{AllocError, Global};

/// A piece, its ticks counted from the origin.
#[derive(Clone, Copy)]
pub struct UnsignedStretch {
    /// The first reading.
    pub begin: u128,
    /// The last reading.
    pub end: u128,
}

/// The pieces that end at `ends`, the first of which begins at `first`.
pub fn stretches_of(
    alloc: Global,
    first: i128,
    ends: &[i128],
) -> Result<Vec<UnsignedStretch>, AllocError>
    requires { ArePieces first ends.now }
    ensures { IfOk result (λ stretches. AreStretchesOf first ends.now stretches.items) }
{
    let mut stretches = Vec::with_capacity(alloc, ends.len())?;
    let mut begin = first;
    for reading in ends {
        let end = from_origin(*reading);
        stretches.push(UnsignedStretch {
            begin: from_origin(begin),
            end,
        })?;
        begin = *reading;
    }
    Ok(stretches)
}

/// The same pieces with time running backwards: the last comes first.
pub fn mirrored_stretches(
    alloc: Global,
    stretches: &[UnsignedStretch],
) -> Result<Vec<UnsignedStretch>, AllocError>
    requires { All IsLawfulStretch stretches.now }
    ensures { IfOk result (λ mirrored.
        mirrored.items ≡ reverse (map mirrored_stretch stretches.now)) }
{
    let mut mirrored = Vec::with_capacity(alloc, stretches.len())?;
    for stretch in stretches {
        mirrored.push(UnsignedStretch {
            begin: mirrored_tick(stretch.end),
            end: mirrored_tick(stretch.begin),
        })?;
    }
    mirrored.as_mut_slice().reverse();
    Ok(mirrored)
}
