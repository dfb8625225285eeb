//! What holds where no more groups have an exchange than may be false.

ghost use Rattle.std.specs.Prelude.{◌≡◌, ℕ, ◌≤◌, List, length, All};
ghost use Rattle.feasibility.specs.Common.{CertificateData, samples_of, verdict_of, Yes, ClaimData, IsLawful as IsLawfulExchange, Exchange};
ghost use Rattle.claim_file.specs.Claim.{IsLawful};
ghost use Rattle.feasibility.specs.ServedGroups.{IsNoEvidence, count_with_exchange};

use checker::laws::verdicts_are_traceable;

/// If no more groups have an exchange than may be false, the exchanges are no evidence: for every
/// error and every reading of the clock a course fits.
pub fn few_groups_are_no_evidence()
    ensures { (claim : ClaimData) (xs : List Exchange) → IsLawful claim →
        All (IsLawfulExchange (length claim.servers)) xs →
        count_with_exchange claim xs ≤ claim.false_max →
        IsNoEvidence claim xs (count_with_exchange claim xs) }
{}

/// Where exchanges are no evidence, no certificate gets a yes, whatever the claim's bound.
pub fn no_evidence_gives_no_yes()
    ensures { (claim : ClaimData) (xs : List Exchange) (groups : ℕ)
        (certificate : CertificateData) → IsLawful claim →
        All (IsLawfulExchange (length claim.servers)) xs → IsNoEvidence claim xs groups →
        ¬ (verdict_of (samples_of xs claim) claim certificate ≡ Yes) }
{
    verdicts_are_traceable();
}
