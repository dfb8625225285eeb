//! The engine of `list` over any source of records.

ghost use Rattle.std.specs.Prelude.{◌≡◌, ◌-◌, ◌^◌, ◌+◌, ◌<◌, ◌≤◌, ◌⊎◌, [], ◌∷◌, IsTrue, OnOk, vec_capacity};
ghost use Rattle.listing.specs.Common.{IsFresh, IsNextShown, IsReady, Puts, put_count, fresh_output, output_state, sink_name};
ghost use Rattle.report.specs.declared.output.TheConstants.{OUTPUT_CAPACITY};
ghost use Rattle.listing.specs.Listing.{closing_line};
ghost use Rattle.listing.specs.Progress.{CanList, HasListed, Lists, progress, most_line};

use crate::record::list_record;
use byte_stream::Sink;
use line_writer::Line;
use pcap_reader::RecordSource;
use report::{Outcome, Output, RunFault};

/// Writes the closing line in place of what `line` held.
#[tactic(auto, unfolding(crate::specs::Listing::closing_line))]
fn write_closing_line(line: &mut Line, records: u32, packets: u32)
    ensures { line.new ≡ closing_line records packets }
{
    line.clear();
    line.put_byte(b'\n');
    line.put_number(packets);
    line.put_text(" packets ");
    line.put_number(records);
    line.put_text("records ");
}

/// Puts the closing line.
fn close_list<S: Sink>(
    line: &mut Line,
    out: &mut Output<'_, S>,
    records: u32,
    packets: u32,
) -> Result<(), RunFault>
    requires { IsReady (output_state S.state out.old) }
    ensures same_sink { sink_name out.new ≡ sink_name out.old }
    ensures puts { Puts (output_state S.state out.old)
        (output_state S.state out.new)
        (closing_line records packets ∷ []) result }
    ensures at_most { OnOk result
        (put_count (output_state S.state out.new)
        ≤ put_count (output_state S.state out.old) + most_line) }
{
    write_closing_line(line, records, packets);
    out.put(line.as_bytes())
}

/// Pushes what is gathered, unless the next answer needs no waiting.
fn push_before_waiting<S: Sink>(is_ready: bool, out: &mut Output<'_, S>) -> Result<(), RunFault>
    requires { IsReady (output_state S.state out.old) }
    ensures same_sink { sink_name out.new ≡ sink_name out.old }
    ensures puts_nothing { Puts (output_state S.state out.old)
        (output_state S.state out.new) [] result }
    ensures keeps { IsTrue is_ready →
        output_state S.state out.new ≡ output_state S.state out.old }
    ensures pushes { OnOk result
        (IsTrue is_ready ⊎ ((output_state S.state out.new).gathered ≡ [])) }
{
    if is_ready {
        return Ok(());
    }
    out.flush()
}

/// Pushes what is gathered if the source would wait for its device, so that a capture that is still
/// being made is listed as far as it has come.
fn catch_up<R: RecordSource, S: Sink>(source: &R, out: &mut Output<'_, S>) -> Result<(), RunFault>
    requires { IsReady (output_state S.state out.old) }
    ensures same_sink { sink_name out.new ≡ sink_name out.old }
    ensures puts_nothing { Puts (output_state S.state out.old)
        (output_state S.state out.new) [] result }
    ensures caught_up { OnOk result (IsNextShown (R.state source.now)
        ⊎ ((output_state S.state out.new).gathered ≡ [])) }
{
    push_before_waiting(source.is_ready(), out)
}

/// Puts the lines of all records and the closing line.
fn list_records<R: RecordSource, S: Sink>(
    source: &mut R,
    out: &mut Output<'_, S>,
) -> Result<Outcome, RunFault>
    requires fresh { IsFresh (R.state source.old) }
    requires source_room { (R.state source.old).fault_count < 2 ^ 64 - 1 }
    requires ready { IsReady (output_state S.state out.old) }
    requires nothing_put { output_state S.state out.old
        ≡ fresh_output (output_state S.state out.old).sink }
    ensures same_sink { sink_name out.new ≡ sink_name out.old }
    ensures listed { HasListed (R.state source.old)
        (output_state S.state out.old).sink
        (progress (R.state source.new)
        (output_state S.state out.new)) result }
{
    let mut line = Line::new();
    let mut records = 0;
    let mut packets = 0;
    'records: loop {
        if let Err(fault) = catch_up(source, out) {
            return Err(fault);
        }
        match source.next_record() {
            Ok(Some(head)) => match list_record(&mut line, out, &head, source.bytes()) {
                Ok(count) => {
                    packets += count;
                    records += 1;
                }
                Err(fault) => return Err(fault),
            },
            Ok(None) => {
                return match close_list(&mut line, out, records, packets) {
                    Ok(()) => Ok(Outcome::Yes),
                    Err(fault) => Err(fault),
                };
            }
            Err(fault) => return Err(RunFault::from(fault)),
        }
    }
}

/// Lists what is to come of a source that has given nothing, gathering in this buffer. It takes no
/// memory.
///
/// `Device` comes if the source's device failed, with some first lines gone out, whole; a fault of
/// the capture's bytes with the lines of the records before it, and no closing line; `Write(n)` if
/// the sink failed, and exactly the first n bytes of the text have gone out then. The sink is
/// closed with each answer.
pub fn list_from<R: RecordSource, S: Sink>(
    source: &mut R,
    buffer: &mut Vec<u8>,
    out: &mut S,
) -> Result<Outcome, RunFault>
    requires can_list { CanList (R.state source.old) (S.state out.old) }
    requires capacity { OUTPUT_CAPACITY ≤ vec_capacity buffer.old }
    ensures { Lists (R.state source.old) (R.state source.new)
        (S.state out.old) (S.state out.new) result }
{
    let mut output = Output::new(out, buffer);
    let ran = list_records(source, &mut output);
    output.close(ran)
}
