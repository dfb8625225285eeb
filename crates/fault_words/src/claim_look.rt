//! What stands in a claim that is refused.

ghost use Rattle.std.specs.Prelude.{IfOk};
ghost use Rattle.fault_words.specs.Explanation.{IsToldQuietly};

use crate::claim_field::{field_name, is_field, most_in};
use crate::quote::quoted;
use crate::seen::Seen;
use claim_file::{ClaimFault, MAX_SERVERS, read_claim, read_time};
use json_text::parse;
use serde_json::Value;
use std::alloc::{AllocError, Global};
use std::net::Ipv4Addr;

/// What is seen of a claim's fault in its bytes: nothing if they haven't this very fault.
pub(crate) fn look_at_claim(
    alloc: Global,
    fault: &ClaimFault,
    bytes: &[u8],
) -> Result<Seen, AllocError>
    ensures { IfOk result IsToldQuietly }
{
    if !has_fault(alloc, fault, bytes) {
        return Ok(Seen::nothing(alloc));
    }
    match parse(alloc, bytes)? {
        Some(value) => look_at_members(alloc, fault, &value),
        None => Ok(Seen::nothing(alloc)),
    }
}

/// Whether this is the fault of the bytes of a claim.
fn has_fault(alloc: Global, fault: &ClaimFault, bytes: &[u8]) -> bool {
    read_claim(alloc, bytes).is_err_and(|seen| seen == *fault)
}

/// The same of what its JSON text says.
fn look_at_members(alloc: Global, fault: &ClaimFault, value: &Value) -> Result<Seen, AllocError>
    ensures { IfOk result IsToldQuietly }
{
    match fault {
        ClaimFault::Field(0) => unknown_name(alloc, value),
        ClaimFault::Field(code) => at_field(alloc, value, *code),
        ClaimFault::Address => at_address(alloc, value),
        ClaimFault::Time => at_time(alloc, value),
        ClaimFault::Range => at_range(alloc, value),
        ClaimFault::RepeatedServer => repeated(alloc, value),
        ClaimFault::Json | ClaimFault::Groups => Ok(Seen::nothing(alloc)),
        ClaimFault::Memory => Ok(Seen::nothing(alloc)),
    }
}

/// That it is this text.
fn this_text(alloc: Global, text: &str) -> Result<Seen, AllocError>
    ensures { IfOk result IsToldQuietly }
{
    let text = quoted(alloc, text)?;
    Ok(Seen::of_text(format!(in alloc; ": \"{}\"", text.as_str())?))
}

/// The first name that no claim has.
fn unknown_name(alloc: Global, value: &Value) -> Result<Seen, AllocError>
    ensures { IfOk result IsToldQuietly }
{
    let Some(members) = value.as_object() else {
        return Ok(Seen::nothing(alloc));
    };
    match members.keys().find(|name| !is_field(name.as_str())) {
        Some(name) => this_text(alloc, name.as_str()),
        None => Ok(Seen::nothing(alloc)),
    }
}

/// What stands in the field of this code.
fn at_field(alloc: Global, value: &Value, field: u8) -> Result<Seen, AllocError>
    ensures { IfOk result IsToldQuietly }
{
    let Some(member) = value.get(field_name(field)) else {
        return Ok(Seen::of_field(field, true, String::new(alloc)));
    };
    let text = member.to_string(alloc)?;
    let text = quoted(alloc, text.as_str())?;
    let seen = format!(in alloc; "; it is {}", text.as_str())?;
    Ok(Seen::of_field(field, false, seen))
}

/// Whether a text is an IPv4 address.
fn is_address(text: &str) -> bool {
    text.parse::<Ipv4Addr>().is_ok()
}

/// The first address that is none: the client's, or one of a server.
fn at_address(alloc: Global, value: &Value) -> Result<Seen, AllocError>
    ensures { IfOk result IsToldQuietly }
{
    let client = value.get("client").and_then(Value::as_str).unwrap_or("");
    if !is_address(client) {
        return at_field(alloc, value, 1);
    }
    let Some(servers) = value.get("servers").and_then(Value::as_array) else {
        return Ok(Seen::nothing(alloc));
    };
    for server in servers.iter() {
        let text = server.as_str().unwrap_or("");
        if !is_address(text) {
            let text = quoted(alloc, text)?;
            let seen = format!(in alloc; "; \"{}\" is none", text.as_str())?;
            return Ok(Seen::of_field(2, false, seen));
        }
    }
    Ok(Seen::nothing(alloc))
}

/// The first time that is none.
fn at_time(alloc: Global, value: &Value) -> Result<Seen, AllocError>
    ensures { IfOk result IsToldQuietly }
{
    let field = if time_at(value, 4).is_none() { 4 } else { 5 };
    at_field(alloc, value, field)
}

/// The number in the field of this code.
fn number_at(value: &Value, field: u8) -> u64 {
    value
        .get(field_name(field))
        .and_then(Value::as_u64)
        .unwrap_or(0)
}

/// The time in the field of this code.
fn time_at(value: &Value, field: u8) -> Option<u32> {
    read_time(value.get(field_name(field))?.as_str()?)
}

/// How many servers there are.
fn server_count(value: &Value) -> usize {
    let servers = value.get("servers").and_then(Value::as_array);
    servers.map_or(0, |servers| servers.len())
}

/// The first field that is out of its range.
fn at_range(alloc: Global, value: &Value) -> Result<Seen, AllocError>
    ensures { IfOk result IsToldQuietly }
{
    let count = server_count(value);
    if count == 0 || MAX_SERVERS < count {
        let seen = format!(in alloc; "; it has {count}")?;
        return Ok(Seen::of_field(2, false, seen));
    }
    for code in 1..10u8 {
        let is_backward = code == 4 && time_at(value, 5) < time_at(value, 4);
        if is_backward || most_in(code) < number_at(value, code) {
            return at_field(alloc, value, code);
        }
    }
    Ok(Seen::nothing(alloc))
}

/// The first address that stands twice.
fn repeated(alloc: Global, value: &Value) -> Result<Seen, AllocError>
    ensures { IfOk result IsToldQuietly }
{
    let client = value.get("client").and_then(Value::as_str).unwrap_or("");
    let Some(servers) = value.get("servers").and_then(Value::as_array) else {
        return Ok(Seen::nothing(alloc));
    };
    for (count, server) in servers.iter().enumerate() {
        let text = server.as_str().unwrap_or("");
        let stands_before = servers
            .iter()
            .take(count)
            .any(|other| other.as_str().unwrap_or("") == text);
        if text == client || stands_before {
            return this_text(alloc, text);
        }
    }
    Ok(Seen::nothing(alloc))
}
