//! A JSON text and its value.

ghost use Rattle.std.specs.Prelude.{◌≡◌, IfOk, option_map};
ghost use Rattle.serde_json.specs.View.{view};
ghost use Rattle.json_text.specs.Text.{parsed};

use serde_json::Value;
use std::alloc::{AllocError, Global};

/// The value of a JSON text, and None exactly if the bytes are none: not UTF-8, against the
/// grammar, a number too large for a float, or nested deeper than 127.
pub fn parse(alloc: Global, bytes: &[u8]) -> Result<Option<Value>, AllocError>
    ensures exact { IfOk result (λ value. option_map view value ≡ parsed bytes.now) }
{
    match Value::from_slice(alloc, bytes) {
        Ok(value) => Ok(Some(value)),
        Err(fault) => {
            if fault.is_memory() {
                Err(AllocError)
            } else {
                Ok(None)
            }
        }
    }
}
