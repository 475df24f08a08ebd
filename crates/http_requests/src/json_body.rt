//! The value that a body is as JSON.
ghost use Rattle.std.specs.Prelude.{◌≡◌, option_map, IfOk};
ghost use Rattle.serde_json.specs.View.{view};
ghost use Rattle.http_requests.specs.JsonBodies.{json_of};

use serde_json::Value;
use std::alloc::{AllocError, Global};

/// The value that these bytes are as JSON, or `None` where they are no JSON. It fails only for want of memory.
///
/// No JSON are bytes that are no UTF-8, a nesting above 127, half a surrogate pair, and a number past the range of `f64`.
/// Of a member that comes twice the last counts.
pub fn read_json(alloc: Global, bytes: &[u8]) -> Result<Option<Value>, AllocError>
    ensures { IfOk result (λ found. option_map view found ≡ json_of bytes.now) }
{
    match Value::from_slice(alloc, bytes) {
        Ok(value) => Ok(Some(value)),
        Err(error) => {
            if error.is_memory() {
                return Err(AllocError);
            }
            Ok(None)
        }
    }
}
