//! Small callers of the crates below, as programs of one's own would have them, each proved.

ghost use Rattle.std.specs.Prelude.{ℤ, [], ◌∷◌, ◌≡◌, ◌≤◌, ◌<◌, ◌^◌, ◌-◌, IsTrue, IfSome, All, length, vec_len};
ghost use Rattle.certificate.specs.Certificate.{max_pieces};
ghost use Rattle.checker.specs.Traceability.{IsTraceable};
ghost use Rattle.claim_file.specs.Claim.{data_of};
ghost use Rattle.intersection.specs.Hull.{IsAdmissible, HullHolds};
ghost use Rattle.pcap_reader.specs.Source.{IsFresh};
ghost use Rattle.sample_interval.specs.Sample.{IsLawfulSample};
ghost use Rattle.worked_examples.specs.Count.{IsCountOf};

use arrayvec::ArrayVec;
use certificate::Certificate;
use checker::{Verdict, check};
use claim_file::Claim;
use intersection::hull;
use intersection::kinds::{Hull, Interval};
use pcap_reader::{CaptureFault, RecordSource};
use sample_interval::kinds::Sample;

/// How many records a source gives up to its whole end, or its fault.
pub fn count_records<S: RecordSource>(source: &mut S) -> Result<u32, CaptureFault>
    requires fresh { IsFresh (S.state source.old) }
    requires room { (S.state source.old).fault_count < 2 ^ 64 - 1 }
    ensures { IfSome (S.state source.old).remaining (λ coming. IsCountOf coming result) }
{
    let mut count = 0;
    'records: loop {
        match source.next_record() {
            Ok(Some(_head)) => count += 1,
            Ok(None) => return Ok(count),
            Err(fault) => return Err(fault),
        }
    }
}

/// What three sources agree on if one of them may be wrong: every point that two of them hold.
pub fn agreed_by_two(a: Interval, b: Interval, c: Interval) -> Hull
    ensures { (point : ℤ) → IsAdmissible (a ∷ b ∷ c ∷ []) 1 point → HullHolds result point }
{
    let mut intervals = ArrayVec::new();
    intervals.push(a);
    intervals.push(b);
    intervals.push(c);
    hull(&intervals, 1)
}

/// Whether a certificate shows its claim: then the clock's error is within the claimed bound over
/// the claimed span, in every course of events that fits exchanges with these samples.
pub fn is_shown(samples: &[Sample], claim: &Claim, certificate: &Certificate) -> bool
    requires samples { All IsLawfulSample samples.now }
    requires listed { All (λ sample. sample.server < length claim.now.servers.items) samples.now }
    requires pieces { vec_len certificate.now.pieces ≤ max_pieces }
    ensures { IsTrue result → IsTraceable (data_of claim.now) samples.now }
{
    match check(samples, claim, certificate) {
        Verdict::Yes => true,
        Verdict::No { .. } => false,
    }
}
