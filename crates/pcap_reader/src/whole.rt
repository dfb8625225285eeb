//! A capture whose bytes lie in memory.

ghost use Rattle.std.specs.Prelude.{◌≡◌, ◌+◌, ◌^◌, ◌<◌, [], length, Some, IfOk, IfErr, Err};
ghost use Rattle.pcap_reader.specs.Remaining.{coming_from, capture_of};
ghost use Rattle.pcap_reader.specs.Source.{IsFresh, AllRemains};

use crate::fault::CaptureFault;
use crate::format::{Format, RecordHead};
use crate::header::{FILE_HEADER, header};
use crate::record::{RECORD_HEADER, first_record};
use crate::source::RecordSource;

/// The records of a capture that lies whole in memory. It takes no memory of its own.
#[derive(Debug, Drop)]
pub struct Whole<'a> {
    format: Format,
    place: u64,
    given: u32,
    failed: bool,
    rest: &'a [u8],
    lent: &'a [u8],
    ghost in_file: { place + length rest.now < 2 ^ 64 },
}

impl<'a> Whole<'a> {
    /// The source of the records of these bytes, the whole of a file.
    ///
    /// It answers `TornHeader`, `Magic`, `Version` or `Link`, the first that applies, if the bytes
    /// begin with no lawful header, and nothing else.
    pub fn begin(bytes: &'a [u8]) -> Result<Whole<'a>, CaptureFault>
        ensures fresh { IfOk result (λ source.
            IsFresh (⟦<Whole<'a> as RecordSource>⟧.state source)) }
        ensures known { IfOk result (λ source.
            AllRemains bytes.now (⟦<Whole<'a> as RecordSource>⟧.state source).remaining) }
        ensures no_device { IfOk result (λ source.
            (⟦<Whole<'a> as RecordSource>⟧.state source).fault_count ≡ 0) }
        ensures refusal { IfErr result (λ fault. capture_of bytes.now ≡ Err fault) }
    {
        let format = header(bytes)?;
        let (_, rest) = bytes.split_at(FILE_HEADER);
        Ok(Whole {
            format,
            place: FILE_HEADER as u64,
            given: 0,
            failed: false,
            rest,
            lent: &[],
        })
    }
}

impl RecordSource for Whole<'_> {
    ghost state = { λ s.
        record {
          remaining = Some (coming_from s.format s.given s.place s.rest.now);
          given = s.given;
          has_failed = s.failed;
          lent = s.lent.now;
          fault_count = 0;
          supply = record { unread = Some []; count = 0; most = 0 };
          held = 0;
        } };

    fn next_record(&mut self) -> Result<Option<RecordHead>, CaptureFault> {
        self.lent = &[];
        if self.failed {
            return Err(CaptureFault::Failed);
        }
        if self.rest.is_empty() {
            return Ok(None);
        }
        match first_record(self.format, self.given, self.place, self.rest) {
            Ok((head, lent, rest)) => {
                self.place += RECORD_HEADER as u64 + u64::from(head.captured);
                self.given += 1;
                self.lent = lent;
                self.rest = rest;
                Ok(Some(head))
            }
            Err(fault) => {
                self.failed = true;
                Err(fault)
            }
        }
    }

    fn bytes(&self) -> &[u8] {
        self.lent
    }

    fn is_ready(&self) -> bool {
        true
    }

    fn faults(&self) -> u64 {
        0
    }
}
