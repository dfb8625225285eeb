//! Works out many hulls, so that their time can be measured from outside: `hull_bench WAY LENGTH
//! ROUNDS`.
//!
//! WAY is `walk`, the crate's own, `plain`, which counts for each end the intervals that leave it
//! out, or `none`, which makes the lists alone. It prints a sum over the answers, so that no work
//! can be left out. With other arguments it does nothing.

#![tactic(auto)]

use arrayvec::ArrayVec;
use intersection::hull;
use intersection::kinds::{Hull, Interval};
use std::{env, io};

/// How the hulls are worked out.
#[derive(Clone, Copy)]
enum Way {
    Walk,
    Plain,
    None,
}

/// The next of a sequence of pseudo-random numbers.
fn next_random(state: u64) -> u64 {
    state
        .wrapping_mul(6364136223846793005)
        .wrapping_add(1442695040888963407)
}

/// A list of `length` intervals that mostly share points, and the last of the numbers that made it.
fn list_of(seed: u64, length: u64) -> (ArrayVec<Interval, 32>, u64) {
    let mut state = seed;
    let mut list = ArrayVec::new();
    for _ in 0..length {
        state = next_random(state);
        let lo = i128::from(state >> 44);
        state = next_random(state);
        let hi = lo + i128::from(state >> 43);
        let _ = list.try_push(Interval { lo, hi });
    }
    (list, state)
}

/// How many intervals leave the point out.
fn count_leaving_out(list: &ArrayVec<Interval, 32>, point: i128) -> usize {
    list.as_slice()
        .iter()
        .filter(|interval| point < interval.lo || interval.hi < point)
        .count()
}

/// The hull by the plain way: of all ends those that at most `f` intervals leave out, the least and
/// the greatest.
fn plain_hull(list: &ArrayVec<Interval, 32>, f: u8) -> Hull {
    if list.len() <= usize::from(f) {
        return Hull::Unbounded;
    }
    let mut hull = Hull::Empty;
    for interval in list.as_slice() {
        for point in [interval.lo, interval.hi] {
            if count_leaving_out(list, point) <= usize::from(f) {
                hull = match hull {
                    Hull::Bounded { lo, hi } => Hull::Bounded {
                        lo: lo.min(point),
                        hi: hi.max(point),
                    },
                    _ => Hull::Bounded {
                        lo: point,
                        hi: point,
                    },
                };
            }
        }
    }
    hull
}

/// The hull of a list, if a quarter of it may be wrong.
fn hull_by(way: Way, list: &ArrayVec<Interval, 32>) -> Hull {
    let f = (list.len() / 4).min(255) as u8;
    match way {
        Way::Walk => hull(list, f),
        Way::Plain => plain_hull(list, f),
        Way::None => Hull::Empty,
    }
}

/// A sum over the hulls of `rounds` lists.
fn work(way: Way, length: u64, rounds: u64) -> u64 {
    let mut state = 1;
    let mut sum = 0u64;
    for _ in 0..rounds {
        let (list, last) = list_of(state, length);
        state = last;
        let part = match hull_by(way, &list) {
            Hull::Bounded { lo, hi } => ((hi & 0xffff) + (lo & 0xffff)) as u64,
            _ => 1,
        };
        sum = sum.wrapping_add(part);
    }
    sum
}

fn way_of(word: &str) -> Option<Way> {
    match word {
        "walk" => Some(Way::Walk),
        "plain" => Some(Way::Plain),
        "none" => Some(Way::None),
        _ => None,
    }
}

fn main(rt: HostRuntime) -> io::Result<()> {
    let words: Vec<String> = env::args(&rt)?.collect(rt.alloc())?;
    let [_, way, length, rounds] = words.as_slice() else {
        return Ok(());
    };
    let (Some(way), Ok(length), Ok(rounds)) = (
        way_of(way.as_str()),
        length.parse::<u64>(),
        rounds.parse::<u64>(),
    ) else {
        return Ok(());
    };
    let sum = work(way, length, rounds);
    println!(rt; "{sum}")
}
