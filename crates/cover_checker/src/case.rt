//! The groups that cases name.

ghost use Rattle.std.specs.Prelude.{◌≡◌, ◌==◌, ◌<◌, ◌≤◌, ◌↔◌, ℕ, Bool, Some, MatchOption, [], length, map, All};
ghost use Rattle.std.specs.List.{list_all, list_any};
ghost use Rattle.cover_checker.specs.Common.{case_data, claim_data, has, max_cases};
ghost use Rattle.cover_checker.specs.Case as spec;
ghost use Rattle.cover_checker.specs.Conflict.{HoldsCase};
ghost use Rattle.cover_checker.specs.Conflict as conflict;
ghost use Rattle.cover_checker.specs.CoverSearch.{HoldsOne};

use crate::members::with;
use crate::verdict::CaseWhy;
use arrayvec::ArrayVec;
use claim_file::Claim;
use cover_certificate::Case;

/// Whether a group is among these.
fn is_among(groups: &[u8], group: u8) -> bool
    ensures { result ≡ list_any (λ g. g == group) groups.now }
{
    groups.iter().any(|g| *g == group)
}

/// The first group that there isn't, or that stands among the earlier ones.
fn groups_why(claim: &Claim, groups: &[u8]) -> Option<CaseWhy>
    ensures { result ≡ spec.groups_why (length claim.now.servers.items) [] groups.now }
{
    for (k, group) in groups.iter().enumerate() {
        if usize::from(*group) >= claim.servers.len() {
            return Some(CaseWhy::NoGroup);
        }
        if is_among(&groups[..k], *group) {
            return Some(CaseWhy::RepeatedGroup);
        }
    }
    None
}

/// Whether each of these groups is among others.
fn are_among(groups: &[u8], others: &[u8]) -> bool
    ensures { result ≡ list_all (λ g. list_any (λ h. h == g) others.now) groups.now }
{
    groups.iter().all(|group| is_among(others, *group))
}

/// Whether both cases name the same groups.
fn are_alike(a: &Case, b: &Case) -> bool
    ensures { result ≡ spec.are_alike (case_data a.now) (case_data b.now) }
{
    are_among(a.groups.as_slice(), b.groups.as_slice())
        && are_among(b.groups.as_slice(), a.groups.as_slice())
}

/// Whether one of the cases before names the same groups.
fn is_repeated(before: &[Case], case: &Case) -> bool
    ensures { result ≡ list_any (spec.are_alike (case_data case.now)) (map case_data before.now) }
{
    for other in before {
        if are_alike(case, other) {
            return true;
        }
    }
    false
}

/// What is wrong with a case, after others.
fn case_why(claim: &Claim, before: &[Case], case: &Case) -> Option<CaseWhy>
    ensures { result ≡
        spec.case_why (claim_data claim.now) (map case_data before.now) (case_data case.now) }
{
    if usize::from(claim.false_max) < case.groups.len() {
        return Some(CaseWhy::TooManyGroups);
    }
    if let Some(why) = groups_why(claim, case.groups.as_slice()) {
        return Some(why);
    }
    if is_repeated(before, case) {
        Some(CaseWhy::RepeatedCase)
    } else {
        None
    }
}

/// The first case that something is wrong with, by its number.
pub(crate) fn first_bad_case(claim: &Claim, cases: &[Case]) -> Option<(u32, CaseWhy)>
    requires few { length cases.now ≤ max_cases }
    ensures { result ≡ spec.cases_why (claim_data claim.now) [] (map case_data cases.now) }
{
    for number in 0..cases.len() {
        if let Some(why) = case_why(claim, &cases[..number], &cases[number]) {
            return Some((number as u32, why));
        }
    }
    None
}

/// The set of the groups that a case names.
pub(crate) fn set_of(case: &Case) -> u32
    requires { All (λ group. group < 32) case.now.groups.items }
    ensures { (k : ℕ) → has result k ≡ conflict.names (case_data case.now) k }
{
    let mut set = 0;
    for group in case.groups.as_slice() {
        set = with(set, *group);
    }
    set
}

/// The sets of the groups that the cases name.
pub(crate) fn sets_of(cases: &[Case]) -> ArrayVec<u32, 64>
    requires few { length cases.now ≤ max_cases }
    requires listed { All (λ case. All (λ group. group < 32) case.groups.items) cases.now }
    ensures { (is_in : ℕ → Bool) → HoldsOne result.items is_in
        ↔ HoldsCase (map case_data cases.now) is_in }
{
    let mut sets = ArrayVec::new();
    for case in cases {
        sets.push(set_of(case));
    }
    sets
}
