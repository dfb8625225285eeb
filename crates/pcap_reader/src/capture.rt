//! A capture that is read from a feed.

ghost use Rattle.std.specs.Prelude.{◌≡◌, ◌≢◌, ◌+◌, ◌-◌, ◌*◌, ◌^◌, ◌<◌, ◌≤◌, drop, Some, Ok, Err, IfOk, IfErr, IfSome, OnOk, false, is_err};
ghost use Rattle.std.specs.Option.{option_map};
ghost use Rattle.byte_stream.specs.Fault.{CountsFault};
ghost use Rattle.byte_stream.specs.Intake.{TakesAtMost};
ghost use Rattle.byte_stream.specs.State.{IsReadable};
ghost use Rattle.pcap_reader.specs.Beginning.{BeginsOver, Refuses};
ghost use Rattle.pcap_reader.specs.Buffered.{still_has, last_bytes, supply_of};
ghost use Rattle.pcap_reader.specs.Capture.{most_captured, most_records};
ghost use Rattle.pcap_reader.specs.Header.{header_of};
ghost use Rattle.pcap_reader.specs.Refusal.{IsRefusal, most_refused};
ghost use Rattle.pcap_reader.specs.Remaining.{coming_from};
ghost use Rattle.pcap_reader.specs.Source.{TakesFrom, IsStep, read_failed};

use crate::buffered::Buffered;
use crate::fault::CaptureFault;
use crate::format::{Format, RecordHead};
use crate::header::{FILE_HEADER, header};
use crate::record::{check_whole, first_head, head_size, record_size};
use crate::source::RecordSource;
use byte_stream::Feed;
use std::alloc::Global;

/// The records of a capture, read from a feed through one buffer.
///
/// The buffer is made by `begin`; no later call takes memory, and `bytes` lends a part of it,
/// with no copy. Of a feed that never ends 1,048,640,000,025 bytes are taken at most: a header,
/// 4,000,000 of the longest records, and one more.
#[derive(Drop)]
pub struct Capture<F> {
    input: Buffered<F>,
    format: Format,
    given: u32,
    failed: bool,
    /// How many bytes are lent. They are those consumed last.
    lent: usize,
    ghost few: { given ≤ most_records },
    ghost placed: { input.place ≤ 24 + (16 + most_captured) * given },
    ghost lent_before: { lent ≤ input.start },
}

impl<F: Feed> Capture<F> {
    /// The source of the records that the feed's bytes spell.
    ///
    /// Its one buffer is made before the first byte is taken: `Memory` comes if there is no memory
    /// for it, and then the feed is as it was. `Read` comes exactly if the feed failed.
    /// Otherwise, if the bytes begin with no lawful header, the first that applies of `TornHeader`,
    /// `Magic`, `Version` and `Link` comes. Nothing is taken after a complete header. A refusal
    /// hands the feed back.
    pub fn begin(alloc: Global, feed: F) -> Result<Capture<F>, (F, CaptureFault)>
        requires { IsReadable (F.state feed) }
        ensures begins { IfOk result (λ source. BeginsOver (F.state feed)
            (⟦<Capture<F> as RecordSource>⟧.state source)) }
        ensures refuses { IfErr result (λ refused. Refuses F.state feed refused.0 refused.1) }
    {
        let mut input = match Buffered::new(alloc, feed) {
            Ok(input) => input,
            Err(refused) => return Err(refused),
        };
        match read_header(&mut input) {
            Ok(format) => Ok(Capture {
                input,
                format,
                given: 0,
                failed: false,
                lent: 0,
            }),
            Err(fault) => Err((input.into_feed(), fault)),
        }
    }

    /// The feed, at the byte after those that were taken.
    pub fn into_feed(self) -> F
        ensures known { (F.state result).remaining
            ≡ (⟦<Capture<F> as RecordSource>⟧.state self).supply.unread }
        ensures counted { (F.state result).taken
            ≡ (⟦<Capture<F> as RecordSource>⟧.state self).supply.count }
        ensures unfailed { (F.state result).faults
            ≡ (⟦<Capture<F> as RecordSource>⟧.state self).fault_count }
    {
        self.input.into_feed()
    }

    /// The next record, of a source that hasn't failed.
    #[inline(always)]
    fn read_record(&mut self) -> Result<Option<RecordHead>, CaptureFault>
        requires unfailed { self.old.failed ≡ false }
        requires faults { IsReadable (F.state self.old.input.feed) }
        ensures { let after = ⟦<Capture<F> as RecordSource>⟧.state self.new in
            IsStep (⟦<Capture<F> as RecordSource>⟧.state self.old) result
            (record after { has_failed = is_err result }) }
    {
        self.lent = 0;
        let (format, given, place) = (self.format, self.given, self.input.place);
        let Ok(()) = self.input.hold(head_size(given)) else {
            return Err(CaptureFault::Read);
        };
        let held = self.input.held();
        if held.is_empty() {
            return Ok(None);
        }
        let head = first_head(format, given, place, held)?;
        let size = record_size(&head);
        let Ok(()) = self.input.hold(size) else {
            return Err(CaptureFault::Read);
        };
        check_whole(&head, self.input.held().len())?;
        self.input.consume(size);
        self.given += 1;
        self.lent = head.captured as usize;
        Ok(Some(head))
    }
}

impl<F: Feed> RecordSource for Capture<F> {
    ghost state = { λ s.
        record {
          remaining = option_map (coming_from s.format s.given s.input.place)
              (still_has F.state s.input);
          given = s.given;
          has_failed = s.failed;
          lent = last_bytes s.input s.lent;
          fault_count = (F.state s.input.feed).faults;
          supply = supply_of F.state s.input;
          held = s.input.end - s.input.start;
        } };

    #[inline(always)]
    fn next_record(&mut self) -> Result<Option<RecordHead>, CaptureFault> {
        if self.failed {
            self.lent = 0;
            return Err(CaptureFault::Failed);
        }
        let next = self.read_record();
        self.failed = next.is_err();
        next
    }

    fn bytes(&self) -> &[u8] {
        self.input.consumed(self.lent)
    }

    fn is_ready(&self) -> bool {
        let held = self.input.held();
        self.failed
            || first_head(self.format, self.given, self.input.place, held).is_ok_and(
                |head| record_size(&head) <= held.len(),
            )
    }

    fn faults(&self) -> u64 {
        self.input.feed.faults()
    }
}

/// Reads the header of a file.
fn read_header<F: Feed>(input: &mut Buffered<F>) -> Result<Format, CaptureFault>
    requires none_held { input.old.end ≡ 0 }
    requires none_consumed { input.old.place ≡ 0 }
    requires faults { IsReadable (F.state input.old.feed) }
    ensures known { IfOk result (λ format. IfSome (F.state input.old.feed).remaining (λ bytes.
        (header_of bytes ≡ Ok format) × (still_has F.state input.new ≡ Some (drop 24 bytes)))) }
    ensures place { OnOk result (input.new.place ≡ 24) }
    ensures takes { TakesFrom (supply_of F.state input.old) (supply_of F.state input.new) }
    ensures counts_fault { CountsFault (read_failed result) (F.state input.old.feed).faults
        (F.state input.new.feed).faults }
    ensures refusal { IfErr result (IsRefusal (F.state input.old.feed).remaining) }
    ensures not_memory { IfErr result (λ fault. fault ≢ CaptureFault.Memory) }
    ensures at_most { IfErr result (λ fault. TakesAtMost (most_refused fault)
        (F.state input.old.feed) (F.state input.new.feed)) }
{
    let Ok(()) = input.hold(FILE_HEADER) else {
        return Err(CaptureFault::Read);
    };
    let format = header(input.held())?;
    input.consume(FILE_HEADER);
    Ok(format)
}
