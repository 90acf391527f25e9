//! Bytes as the JSON value that they are.

ghost use Rattle.std.specs.Prelude.{◌≡◌, ◌<◌, length, option_map, IfOk, OnErr};
ghost use Rattle.serde_json.specs.View.{view};
ghost use Rattle.client_lines.specs.Json.{json_of};

use serde_json::Value;
use std::alloc::{AllocError, Global};

/// The value that the bytes are as JSON text, or `None` where they are none.
///
/// Of two members with one name the last counts. Text nests at most 127 deep.
///
/// # Errors
///
/// Only for want of memory, and not where there are no bytes.
#[tactic(auto, unfolding(crate::specs::Json::json_of))]
pub fn read_json(alloc: Global, bytes: &[u8]) -> Result<Option<Value>, AllocError>
    ensures value { IfOk result (λ value. option_map view value ≡ json_of bytes.now) }
    ensures memory { OnErr result (0 < length bytes.now) }
{
    match Value::from_slice(alloc, bytes) {
        Ok(value) => Ok(Some(value)),
        Err(fault) => {
            if fault.is_memory() {
                Err(AllocError)
            } else {
                Ok(None)
            }
        }
    }
}
