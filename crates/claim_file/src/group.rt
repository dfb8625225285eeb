//! Groups of servers.

ghost use Rattle.std.specs.Prelude.{◌≡◌, ◌≤◌, ◌==◌, not, IsTrue, IfOk, Ok, length, map, option_map, nat_lt};
ghost use Rattle.std.specs.List.{concat, list_all};
ghost use Rattle.claim_file.specs.declared.fault.ClaimFault.TheVariants.{Groups};
ghost use Rattle.json_text.specs.Step.{given};
ghost use Rattle.claim_file.specs.Claim.{group_count};
ghost use Rattle.claim_file.specs.Fault.{Answers};
ghost use Rattle.claim_file.specs.Group as spec;

use crate::fault::ClaimFault;
use std::alloc::{AllocError, Global};

/// For each of `count` servers the number of its group: its own if none are listed.
pub(crate) fn read_groups(
    alloc: Global,
    count: usize,
    listed: &Option<Vec<Vec<u64>>>,
) -> Result<Vec<u8>, ClaimFault>
    requires { count ≤ 32 }
    ensures exact { Answers result (λ v. v.items)
        (given Groups (spec.groups_of count
        (option_map (λ lists. map (λ list. list.items) lists.items) listed.now)) Ok) }
{
    match listed {
        None => Ok(own_groups(alloc, count)?),
        Some(groups) => {
            let numbers = numbers_listed(alloc, groups)?;
            if is_grouping(groups, &numbers, count) {
                Ok(group_numbers(alloc, groups, count)?)
            } else {
                Err(ClaimFault::Groups)
            }
        }
    }
}

/// A group for each server.
fn own_groups(alloc: Global, count: usize) -> Result<Vec<u8>, AllocError>
    requires { count ≤ 32 }
    ensures { IfOk result (λ numbers. numbers.items ≡ spec.servers_of count) }
{
    let mut numbers = Vec::new(alloc);
    for server in 0..count {
        numbers.push(server as u8)?;
    }
    Ok(numbers)
}

/// Every number that stands in a group, in order.
fn numbers_listed(alloc: Global, groups: &[Vec<u64>]) -> Result<Vec<u64>, AllocError>
    ensures { IfOk result (λ numbers. numbers.items
        ≡ concat (map (λ list. list.items) groups.now)) }
{
    let mut numbers = Vec::new(alloc);
    for group in groups {
        numbers.extend_from_slice(group)?;
    }
    Ok(numbers)
}

/// Whether the groups, whose numbers are these, hold each server exactly once and nothing else, and
/// none is empty.
fn is_grouping(groups: &[Vec<u64>], numbers: &[u64], count: usize) -> bool
    requires { numbers.now ≡ concat (map (λ list. list.items) groups.now) }
    ensures exact { result ≡ spec.is_grouping count (map (λ list. list.items) groups.now) }
    ensures few { IsTrue result → length groups.now ≤ count }
{
    let filled = none_is_empty(groups);
    let known = all_are_servers(numbers, count);
    let once = each_stands_once(numbers, count);
    filled && known && once
}

/// Whether each number is a server's.
fn all_are_servers(numbers: &[u64], count: usize) -> bool
    ensures { result ≡ list_all (λ s. nat_lt s count) numbers.now }
{
    numbers.iter().all(|server| *server < count as u64)
}

/// Whether no group is empty.
fn none_is_empty(groups: &[Vec<u64>]) -> bool
    ensures { result ≡ list_all (λ group. not (length group == 0))
        (map (λ list. list.items) groups.now) }
{
    for group in groups {
        if group.is_empty() {
            return false;
        }
    }
    true
}

/// Whether each server stands exactly once in a list.
#[tactic(auto, using(crate::proofs::Groups::range_front))]
fn each_stands_once(numbers: &[u64], count: usize) -> bool
    ensures { result
        ≡ list_all (λ s. spec.times_listed s numbers.now == 1) (spec.servers_of count) }
{
    for server in 0..count {
        if times_listed(numbers, server as u64) != 1 {
            return false;
        }
    }
    true
}

/// How often a server stands in a list.
fn times_listed(numbers: &[u64], server: u64) -> usize
    ensures { result ≡ spec.times_listed server numbers.now }
{
    numbers.iter().filter(|s| **s == server).count()
}

/// For each server the number of the group that holds it.
fn group_numbers(alloc: Global, groups: &[Vec<u64>], count: usize) -> Result<Vec<u8>, AllocError>
    requires { length groups.now ≤ 32 }
    ensures { IfOk result (λ numbers. numbers.items
        ≡ map (spec.group_of (map (λ list. list.items) groups.now)) (spec.servers_of count)) }
{
    let mut numbers = Vec::new(alloc);
    for server in 0..count {
        numbers.push(group_of(groups, server as u64) as u8)?;
    }
    Ok(numbers)
}

/// The number of the first group that holds a server, 0 if none does.
fn group_of(groups: &[Vec<u64>], server: u64) -> usize
    ensures exact { result ≡ spec.group_of (map (λ list. list.items) groups.now) server }
    ensures small { result ≤ length groups.now }
{
    for (number, group) in groups.iter().enumerate() {
        if group.contains(&server) {
            return number;
        }
    }
    0
}

/// How many groups there are: one more than the greatest number of a group.
///
/// `groups` has the number of each server's group, as a claim holds them.
pub fn group_count(groups: &[u8]) -> u32
    ensures exact { result ≡ group_count groups.now }
    ensures at_most { result ≤ 256 }
{
    match groups {
        [] => 0,
        [group, rest @ ..] => group_count(rest).max(u32::from(*group) + 1),
    }
}
