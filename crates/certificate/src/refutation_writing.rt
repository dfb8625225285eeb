//! The text that writes a refutation.

ghost use Rattle.std.specs.Prelude.{◌≡◌, ◌<◌, ◌^◌, All, IfOk, Ok, OnOk, false, map, string_bytes};
ghost use Rattle.certificate.specs.Common.{array, items_of, view};
ghost use Rattle.certificate.specs.Refutation.{IsHeldRefutation, data_of};
ghost use Rattle.certificate.specs.RefutationReading.{refutation_of};
ghost use Rattle.certificate.specs.RefutationWriting.{refutation_text, refutation_value};
ghost use Rattle.certificate.specs.Writing.{number_value};

use crate::refutation::Refutation;
use serde_json::{Value, json};
use std::alloc::{AllocError, Global};

/// The text of a refutation: compact, with the names in the order `error`, `false`, `reading` and
/// numbers in decimal. It reads again as the same refutation.
pub fn write_refutation(alloc: Global, refutation: &Refutation) -> Result<String, AllocError>
    ensures text { IfOk result (λ text. string_bytes text
        ≡ refutation_text (data_of refutation.now)) }
    ensures reads_back { IfOk result (λ text.
        refutation_of (string_bytes text) ≡ Ok (data_of refutation.now)) }
{
    value_of(alloc, refutation)?.to_string(alloc)
}

/// A refutation as a JSON value.
fn value_of(alloc: Global, refutation: &Refutation) -> Result<Value, AllocError>
    ensures value { IfOk result (λ value.
        view value ≡ refutation_value (data_of refutation.now)) }
    ensures held { OnOk result (IsHeldRefutation (data_of refutation.now)) }
{
    let servers = servers_of(alloc, &refutation.liars)?;
    json!(in alloc; {
        "error": refutation.error,
        "false": servers,
        "reading": refutation.reading
    })
}

/// The numbers of servers as a JSON array.
fn servers_of(alloc: Global, servers: &[u8]) -> Result<Value, AllocError>
    ensures value { IfOk result (λ value.
        view value ≡ array (items_of (map number_value servers.now))) }
    ensures named { OnOk result (All (λ server. server < 2 ^ 8) servers.now) }
{
    let mut values = Vec::with_capacity(alloc, servers.len())?;
    for server in servers {
        values.push(Value::from(*server))?;
    }
    Ok(Value::Array(values))
}
