//! The reading of a certificate of either form.

ghost use Rattle.std.specs.Prelude.{IfOk, IfErr, IfSome};
ghost use Rattle.report.specs.Common.{CountsFault, TakesAtMost, IsReadable, Answers, IsFewOfAny, any_data, any_of};
ghost use Rattle.report.specs.CertificateInput.{IsOfCertificate, certificate_read, max_certificate};
ghost use Rattle.report.specs.Input.{most_read};
ghost use Rattle.report.specs.Reading.{Reads};
ghost use Rattle.report.specs.Reports.{is_second, is_device};

use crate::fault::{Input, RunFault};
use crate::input::read_input;
use byte_stream::Feed;
use cover_certificate::{AnyCertificate, AnyFault, read_any};
use std::alloc::Global;

/// The greatest length of a certificate, in bytes.
pub const MAX_CERTIFICATE: u64 = 134_217_728;

/// Reads a certificate whole: at most 134,217,728 bytes, and one more if there are more.
///
/// `TooBig` comes if there are more, `Certificate` if they aren't a certificate, `Device` if the
/// feed failed.
pub fn read_certificate_from<T: Feed>(
    alloc: Global,
    feed: &mut T,
) -> Result<AnyCertificate, RunFault>
    requires { IsReadable (T.state feed.old) }
    ensures known { IfSome (T.state feed.old).remaining (λ bytes.
        Reads any_data (certificate_read bytes) result) }
    ensures few { IfOk result (λ certificate. IsFewOfAny (any_data certificate)) }
    ensures fault { IfErr result IsOfCertificate }
    ensures counts_fault { CountsFault (is_device is_second result)
        (T.state feed.old).faults (T.state feed.new).faults }
    ensures at_most { TakesAtMost (most_read Input.Certificate max_certificate result)
        (T.state feed.old) (T.state feed.new) }
{
    match read_input(alloc, feed, Input::Certificate, MAX_CERTIFICATE) {
        Ok(bytes) => match read_certificate_in(alloc, bytes) {
            Ok(certificate) => Ok(certificate),
            Err(fault) => Err(RunFault::from(fault)),
        },
        Err(fault) => Err(fault),
    }
}

/// The certificate that a text says.
///
/// The text is cut to a byte before it goes. If a large block is freed as it is, the C library puts
/// every later block up to that size on its heap, and there the lists that grow side by side while
/// a capture is read leave their earlier room behind.
fn read_certificate_in(alloc: Global, mut text: Vec<u8>) -> Result<AnyCertificate, AnyFault>
    ensures exact { Answers result (any_of text.items) }
    ensures few { IfOk result (λ certificate. IsFewOfAny (any_data certificate)) }
{
    let read = read_any(alloc, text.as_slice());
    text.truncate(1);
    text.shrink_to_fit();
    read
}
