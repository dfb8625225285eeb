//! The ends of a server's samples, as numbers that aren't below zero.

ghost use Rattle.std.specs.Prelude.{◌≡◌, ◌≤◌, length, All, IfOk, map};
ghost use Rattle.sample_interval.specs.Sample.{IsLawfulSample};
ghost use Rattle.sweep.specs.Extreme.{AreExtremesOf, IsExtremeOf, IsLawfulExtreme, seen_one};

use crate::tick::{from_origin, mirrored_tick};
use intersection::Side;
use sample_interval::SampleSource;
use sample_interval::kinds::Sample;
use std::alloc::{AllocError, Global};

/// An end of a sample. Time and error are counted from the origin. A high end has its sign turned,
/// so that the greatest is the best of either kind.
#[derive(Clone, Copy)]
pub struct Extreme {
    /// The number of the sample.
    pub number: u32,
    /// The end.
    pub end: u128,
    /// The least reading at which it holds.
    pub from: u128,
    /// The greatest reading at which it holds.
    pub to: u128,
}

/// The server of each sample, in their order. Each server's samples are looked for in this list,
/// which takes a hundredth of the memory of theirs.
pub fn servers_of<S: SampleSource>(alloc: Global, samples: S) -> Result<Vec<u8>, AllocError>
    ensures { IfOk result (λ servers.
        servers.items ≡ map (λ sample. sample.server) (S.samples samples)) }
{
    let mut servers = Vec::with_capacity(alloc, samples.count())?;
    for number in 0..samples.count() {
        servers.push(samples.sample_at(number).server)?;
    }
    Ok(servers)
}

/// How many samples are of the server.
fn count_of(servers: &[u8], server: u8) -> usize
    ensures { result ≤ length servers.now }
{
    let mut count = 0;
    for of in servers {
        count += usize::from(*of == server);
    }
    count
}

/// The low ends of the server's samples, and the high ends, in the order of their numbers.
pub fn extremes_of<S: SampleSource>(
    alloc: Global,
    samples: S,
    servers: &[u8],
    server: u8,
) -> Result<(Vec<Extreme>, Vec<Extreme>), AllocError>
    requires samples { All IsLawfulSample (S.samples samples) }
    requires few { length (S.samples samples) ≤ 1_000_000 }
    requires servers { servers.now ≡ map (λ sample. sample.server) (S.samples samples) }
    ensures lows { IfOk result (λ extremes.
        AreExtremesOf Side.Low (S.samples samples) server extremes.0.items) }
    ensures highs { IfOk result (λ extremes.
        AreExtremesOf Side.High (S.samples samples) server extremes.1.items) }
    ensures lawful { IfOk result (λ extremes.
        All IsLawfulExtreme extremes.0.items × All IsLawfulExtreme extremes.1.items) }
    ensures as_many { IfOk result (λ extremes.
        length extremes.0.items ≡ length extremes.1.items) }
{
    let count = count_of(servers, server);
    let mut lows = Vec::with_capacity(alloc, count)?;
    let mut highs = Vec::with_capacity(alloc, count)?;
    for (number, of) in servers.iter().enumerate() {
        if *of == server {
            let sample = samples.sample_at(number);
            lows.push(extreme_of(number as u32, &sample, Side::Low))?;
            highs.push(extreme_of(number as u32, &sample, Side::High))?;
        }
    }
    Ok((lows, highs))
}

/// The end of one sample.
fn extreme_of(number: u32, sample: &Sample, side: Side) -> Extreme
    requires { IsLawfulSample sample.now }
    ensures number { result.number ≡ number }
    ensures is { IsExtremeOf side sample.now result }
{
    match side {
        Side::Low => Extreme {
            number,
            end: from_origin(sample.low),
            from: from_origin(sample.low_from),
            to: from_origin(sample.low_to),
        },
        Side::High => Extreme {
            number,
            end: from_origin(-sample.high),
            from: from_origin(sample.high_from),
            to: from_origin(sample.high_to),
        },
    }
}

/// The same end as time runs forwards, or as it runs backwards.
pub fn seen(extreme: &Extreme, backwards: bool) -> Extreme
    requires { IsLawfulExtreme extreme.now }
    ensures is { result ≡ seen_one backwards extreme.now }
    ensures lawful { IsLawfulExtreme result }
{
    if backwards {
        Extreme {
            number: extreme.number,
            end: extreme.end,
            from: mirrored_tick(extreme.to),
            to: mirrored_tick(extreme.from),
        }
    } else {
        *extreme
    }
}
