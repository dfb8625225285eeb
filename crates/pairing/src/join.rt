//! The joining of replies with their requests.

ghost use Rattle.std.specs.Prelude.{◌≡◌, ◌<◌, ◌≤◌, length, map, take, IfErr, IfOk};
ghost use Rattle.pairing.specs.Common.{filter_map, result_ok, get};
ghost use Rattle.pairing.specs.Counts.{HasRoom, IsJoined};
ghost use Rattle.pairing.specs.Exchange.{most_exchanges};
ghost use Rattle.pairing.specs.Compact.{exchange_shown};
ghost use Rattle.pairing.specs.Index.{same_key};
ghost use Rattle.pairing.specs.Join.{outcomes_by, request_by};

use crate::compact::{CompactExchange, CompactRequest};
use crate::counts::Counts;
use crate::fault::PairFault;
use crate::index::{Index, Key, Place};
use crate::refusal::Refusal;

/// The greatest number of exchanges of a capture.
const MAX_EXCHANGES: usize = 1_000_000;

/// The one and only request of a reply to this server, or why there is none. `guess` is where it is
/// looked for first, as in `Index::find_near`.
#[inline(always)]
fn find_request(
    index: &Index,
    server: u8,
    request: CompactRequest,
    guess: &mut usize,
) -> Result<CompactRequest, Refusal>
    ensures { result ≡ request_by (get same_key index.now.places) server request }
{
    let CompactRequest::Named { port, stamp } = request else {
        return Ok(request);
    };
    match index.find_near(
        Key {
            server,
            port,
            stamp,
        },
        guess,
    ) {
        None => Err(Refusal::NoRequest),
        Some(Place::One { width, number, low }) => Ok(CompactRequest::Found { width, number, low }),
        Some(Place::Several) => Err(Refusal::Ambiguous),
    }
}

/// Joins each reply with its request, in place: those with a request come first, in their order,
/// and the answer is how many they are. The counts grow by what becomes of the replies.
///
/// `TooManyExchanges` comes if over 1,000,000 have a request.
pub(crate) fn join(
    index: &Index,
    exchanges: &mut [CompactExchange],
    counts: &mut Counts,
) -> Result<usize, PairFault>
    requires { HasRoom counts.old (length exchanges.old) }
    ensures joined { IfOk result (λ kept. IsJoined counts.old
        (outcomes_by (get same_key index.now.places) exchanges.old)
        (map exchange_shown (take kept exchanges.new)) counts.new) }
    ensures within { IfOk result (λ kept. kept ≤ length exchanges.new) }
    ensures few { IfOk result (λ kept. kept ≤ most_exchanges) }
    ensures fault { IfErr result (λ fault. (fault ≡ PairFault.TooManyExchanges)
        × (most_exchanges < length (filter_map result_ok
        (outcomes_by (get same_key index.now.places) exchanges.old)))) }
{
    let mut guess = 0;
    let mut kept = 0;
    for number in 0..exchanges.len() {
        let reply = exchanges[number];
        match find_request(index, reply.server, reply.request, &mut guess) {
            Ok(request) => {
                if kept == MAX_EXCHANGES {
                    return Err(PairFault::TooManyExchanges);
                }
                exchanges[kept] = CompactExchange { request, ..reply };
                kept += 1;
                counts.accept(reply.leap);
            }
            Err(refusal) => counts.refuse(refusal),
        }
    }
    Ok(kept)
}
