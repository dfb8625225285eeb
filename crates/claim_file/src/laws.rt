//! What holds of the definitions that the contracts cite. A law is a function that does nothing:
//! its contract is the law, for every text and every number.

ghost use Rattle.std.specs.Prelude.{◌≡◌, ℕ, pos, ◌<◌, ◌≤◌, ◌==◌, ◌↔◌, List, [], length, All, Option, slice_get, true, IsTrue, codes, Ok, Some, slice_index};
ghost use Rattle.std.specs.List.{concat, list_any, slice_index_or};
ghost use Rattle.std.specs.Net.Grammar.{IsDotted};
ghost use Rattle.claim_file.specs.declared.time.DateTime.{DateTime};
ghost use Rattle.claim_file.specs.Address.{address_of};
ghost use Rattle.claim_file.specs.Claim.{ClaimData, IsLawful, IsWithoutGap, group_count};
ghost use Rattle.era_unfold.specs.Nanoseconds.{ticks_down, ticks_up};
ghost use Rattle.claim_file.specs.Worked.{worked_text, worked_claim};
ghost use Rattle.claim_file.specs.Group.{groups_of, times_listed, IsInGroup};
ghost use Rattle.claim_file.specs.Fields.{FieldsData};
ghost use Rattle.claim_file.specs.Reading.{NamedData, claim_of, claim_with};
ghost use Rattle.claim_file.specs.Spelling.{IsWithinLimits, Names, claim_text};
ghost use Rattle.claim_file.specs.Time.{IsTime, exists, spelling, time_of};

/// What the bytes of a claim say keeps every limit that a calculation asks for, and none of its
/// groups is empty.
pub fn claims_are_lawful()
    ensures lawful { (bytes : List ℕ) (claim : ClaimData) → claim_of bytes ≡ Ok claim →
        IsLawful claim }
    ensures numbered { (bytes : List ℕ) (claim : ClaimData) → claim_of bytes ≡ Ok claim →
        IsWithoutGap claim.groups }
{}

/// Of a claim that was read, the bound in ticks is its nanoseconds rounded down, and the allowance
/// its nanoseconds rounded up.
#[tactic(auto, using(crate::proofs::Made::bound_made, crate::proofs::Made::reading_made))]
pub fn nanoseconds_become_ticks()
    ensures bound { (bytes : List ℕ) (claim : ClaimData) → claim_of bytes ≡ Ok claim →
        claim.bound ≡ pos (ticks_down claim.bound_ns) }
    ensures reading { (bytes : List ℕ) (claim : ClaimData) → claim_of bytes ≡ Ok claim →
        claim.reading ≡ pos (ticks_up claim.reading_ns) }
{}

/// The worked claim is what its text says.
#[tactic(auto, using(crate::proofs::WorkedClaim::is_claim))]
pub fn worked_claim_is_read()
    ensures { claim_of worked_text ≡ Ok worked_claim }
{}

/// A text says a time exactly if it is the text that writes a date and time that exist.
pub fn times_are_spelled()
    ensures { (text : List ℕ) (second : ℕ) → (time_of text ≡ Some second) ↔ IsTime text second }
{}

/// No two dates and times are written by one text.
pub fn date_times_have_one_spelling()
    ensures { (m n : DateTime) → exists m ≡ true → exists n ≡ true →
        spelling m ≡ spelling n → m ≡ n }
{}

/// The first time is second 0 and the last second 2^32 - 1.
pub fn first_and_last_time()
    ensures first { time_of (codes "1970-01-01T00:00:00Z") ≡ Some 0 }
    ensures last { time_of (codes "2106-02-07T06:28:15Z") ≡ Some 4294967295 }
{}

/// A text says an address exactly if it is four decimal numbers below 256 without leading zeros,
/// with dots between them.
pub fn addresses_are_dotted()
    ensures { (text address : List ℕ) → (address_of text ≡ Some address) ↔ IsDotted text address }
{}

/// Each of n servers is in one group, and its number is that group's.
pub fn servers_are_in_their_groups()
    ensures count { (n : ℕ) (listed : Option (List (List ℕ))) (groups : List ℕ) → 1 ≤ n →
        groups_of n listed ≡ Some groups → length groups ≡ n }
    ensures number { (n : ℕ) (listed : Option (List (List ℕ))) (groups : List ℕ) →
        groups_of n listed ≡ Some groups → (server group : ℕ) →
        (slice_get groups server ≡ Some group) ↔ IsInGroup n listed server group }
{}

/// If groups are listed, each server stands in them once and nothing else does, the number of a
/// server is that of the group which holds it, and there are as many groups as are listed.
pub fn groups_hold_each_server_once()
    ensures once { (n : ℕ) (listed : List (List ℕ)) (groups : List ℕ) →
        groups_of n (Some listed) ≡ Some groups →
        (server : ℕ) → server < n → times_listed server (concat listed) ≡ 1 }
    ensures no_other { (n : ℕ) (listed : List (List ℕ)) (groups : List ℕ) →
        groups_of n (Some listed) ≡ Some groups → All (λ server. server < n) (concat listed) }
    ensures number { (n : ℕ) (listed : List (List ℕ)) (groups : List ℕ) →
        groups_of n (Some listed) ≡ Some groups →
        (server group : ℕ) → server < n → group < length listed →
        IsTrue (list_any (λ s. s == server) (slice_index_or listed group [])) →
        slice_index groups server ≡ group }
    ensures count { (n : ℕ) (listed : List (List ℕ)) (groups : List ℕ) →
        groups_of n (Some listed) ≡ Some groups → group_count groups ≡ length listed }
{}

/// Each claim within its limits is read, with groups and without: its plain spelling, in which
/// texts write its addresses and times, says the claim.
pub fn claims_within_limits_are_read()
    ensures { (f : FieldsData) (named : NamedData) → Names f named → IsWithinLimits f named →
        (groups : List ℕ) × (groups_of (length named.servers) f.groups ≡ Some groups)
        × (claim_of (claim_text f) ≡ Ok (claim_with f named groups)) }
{}
