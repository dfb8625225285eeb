//! The line of `samples` for one sample.

ghost use Rattle.std.specs.Prelude.{◌≡◌, ◌+◌, ◌<◌, ◌≤◌, [], ◌∷◌, ◌++◌, IfOk, codes, length};
ghost use Rattle.audit_text.specs.Common.{data_of, Address, High, Label, Low, Number, Plain, IsOfSomeClaim};
ghost use Rattle.line_writer.specs.declared.line.TheConstants.{CAPACITY};
ghost use Rattle.audit_text.specs.Line.{most_line, written};
ghost use Rattle.audit_text.specs.SampleLine.{sample_line, server_of};

use crate::table::add_row;
use claim_file::Claim;
use line_writer::{ColumnKind, Field, Line, Style};
use pairing::Exchange;
use sample_interval::{delay, offset, sample};
use std::alloc::AllocError;

/// The columns of samples.
pub(crate) const COLUMNS: [Field<'static>; 10] = [
    Field::Heading("sample", ColumnKind::Number),
    Field::Heading("server", ColumnKind::Name),
    Field::Heading("request", ColumnKind::Number),
    Field::Heading("reply", ColumnKind::Number),
    Field::Heading("low offset ms", ColumnKind::End),
    Field::Heading("high offset ms", ColumnKind::End),
    Field::Heading("low delay ms", ColumnKind::End),
    Field::Heading("high delay ms", ColumnKind::End),
    Field::Heading("low error ms", ColumnKind::End),
    Field::Heading("high error ms", ColumnKind::End),
];

/// The address of a server, by its number.
pub fn server_of(claim: &Claim, number: u8) -> [u8; 4]
    requires { number < length claim.now.servers.items }
    ensures { result ≡ server_of (data_of claim.now) number }
{
    claim.servers[usize::from(number)]
}

/// Writes which sample it is but for its number: its server, and its request and its reply.
#[inline]
fn put_records(line: &mut Line, server: [u8; 4], request: u32, reply: u32)
    requires { length line.old + 38 ≤ CAPACITY }
    ensures text { line.new ≡
        written (Address server ∷ Number request ∷ Number reply ∷ []) line.old }
    ensures at_most { length line.new ≤ length line.old + 38 }
{
    line.put_number(reply);
    line.put_byte(b' ');
    line.put_number(request);
    line.put_byte(b' ');
    line.put_address(&server);
    line.put_byte(b' ');
}

/// Writes a word and the ends of an interval of ticks.
#[inline]
fn put_interval(line: &mut Line, word: &str, ends: (i128, i128))
    requires { length line.old + length word.now + 83 ≤ CAPACITY }
    ensures text { line.new ≡
        written (Label word.now ∷ Low ends.0 ∷ High ends.1 ∷ []) line.old }
    ensures at_most { length line.new ≤ length line.old + length word.now + 83 }
{
    line.put_number(ends.1);
    line.put_byte(b' ');
    line.put_number(ends.0);
    line.put_byte(b' ');
    line.put_text(word);
    line.put_byte(b' ');
}

/// Writes the least and the greatest error, in ticks.
#[inline]
fn put_errors(line: &mut Line, least: i128, greatest: i128)
    requires { length line.old + 91 ≤ CAPACITY }
    ensures text { line.new ≡ written (Label (codes "low") ∷ Low least ∷
        Label (codes "high") ∷ High greatest ∷ []) line.old }
    ensures at_most { length line.new ≤ length line.old + 91 }
{
    line.put_number(greatest);
    line.put_text(" high ");
    line.put_number(least);
    line.put_text(" low ");
}

/// Writes the line of a sample, for a program, in place of what `line` held: at most 400 bytes.
#[tactic(auto, unfolding(crate::specs::SampleLine::sample_line))]
pub fn write_sample_line(line: &mut Line, claim: &Claim, number: u32, x: &Exchange)
    requires exchange { IsOfSomeClaim x.now }
    requires listed { x.now.server < length claim.now.servers.items }
    ensures text { line.new ≡ sample_line Plain (data_of claim.now) number x.now }
    ensures at_most { length line.new ≤ most_line }
{
    let error = sample(x, claim.reading);
    line.clear();
    line.put_byte(b'\n');
    put_errors(line, error.low, error.high);
    put_interval(line, "delay", delay(x, claim.reading));
    put_interval(line, "offset", offset(x, claim.reading));
    put_records(line, server_of(claim, x.server), x.request, x.reply);
    line.put_number(number);
}

/// Adds the line of a sample.
#[tactic(auto, unfolding(crate::specs::SampleLine::sample_line))]
pub(crate) fn add_sample(
    text: &mut Vec<u8>,
    style: Style,
    claim: &Claim,
    number: u32,
    x: &Exchange,
) -> Result<(), AllocError>
    requires exchange { IsOfSomeClaim x.now }
    requires listed { x.now.server < length claim.now.servers.items }
    ensures { IfOk result (λ _. text.new.items ≡
        text.old.items ++ sample_line style (data_of claim.now) number x.now) }
{
    let (offset_from, offset_to) = offset(x, claim.reading);
    let (delay_from, delay_to) = delay(x, claim.reading);
    let error = sample(x, claim.reading);
    let fields = [
        Field::Number(u64::from(number)),
        Field::Address(server_of(claim, x.server)),
        Field::Number(u64::from(x.request)),
        Field::Number(u64::from(x.reply)),
        Field::Label("offset"),
        Field::Low(offset_from),
        Field::High(offset_to),
        Field::Label("delay"),
        Field::Low(delay_from),
        Field::High(delay_to),
        Field::Label("low"),
        Field::Low(error.low),
        Field::Label("high"),
        Field::High(error.high),
    ];
    add_row(text, style, &fields)
}
