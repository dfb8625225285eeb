//! What the text of a refutation says.

ghost use Rattle.std.specs.Prelude.{◌≡◌, ◌≤◌, Ok, length, option_map};
ghost use Rattle.certificate.specs.Common.{view, items_view, given};
ghost use Rattle.certificate.specs.Refutation.{data_of};
ghost use Rattle.certificate.specs.declared.refutation_fault.RefutationFault.TheVariants.{Shape};
ghost use Rattle.certificate.specs.RefutationFault.{Answers};
ghost use Rattle.certificate.specs.RefutationReading as spec;

use crate::items::is_at_most;
use crate::refutation::{MAX_LIARS, Refutation};
use crate::refutation_fault::RefutationFault;
use arrayvec::ArrayVec;
use json_text::{items_at, members_among, parse, signed_at, unsigned_at, unsigned_of};
use serde_json::Value;
use std::alloc::Global;

/// The refutation that the bytes of a JSON text say, or the first fault that it has.
pub fn read_refutation(alloc: Global, bytes: &[u8]) -> Result<Refutation, RefutationFault>
    ensures exact { Answers result data_of (spec.refutation_of bytes.now) }
{
    let value = parse(alloc, bytes)?.ok_or(RefutationFault::Json)?;
    read_value(&value).ok_or(RefutationFault::Shape)
}

/// The refutation that a JSON value says, None if it says none.
fn read_value(value: &Value) -> Option<Refutation>
    ensures { given Shape (option_map data_of result) Ok ≡ spec.refutation_from (view value.now) }
{
    members_among(value, &["error", "false", "reading"])?;
    let error = signed_at(value, "error")?;
    let reading = unsigned_at(value, "reading")?;
    let items = items_at(value, "false")?;
    if !is_at_most(items, MAX_LIARS) {
        return None;
    }
    let liars = read_servers(items)?;
    Some(Refutation {
        error,
        liars,
        reading,
    })
}

/// The numbers of servers, None if one isn't the number of a server.
fn read_servers(items: &[Value]) -> Option<ArrayVec<u8, 32>>
    requires { length items.now ≤ 32 }
    ensures { option_map (λ v. v.items) result ≡ spec.servers_of (items_view items.now) }
{
    let mut servers = ArrayVec::new();
    for item in items {
        let server = read_server(item)?;
        servers.push(server);
    }
    Some(servers)
}

/// The number of a server.
fn read_server(value: &Value) -> Option<u8>
    ensures { result ≡ spec.server_of (view value.now) }
{
    let number = unsigned_of(value)?;
    if number <= u8::MAX as u64 {
        Some(number as u8)
    } else {
        None
    }
}
