//! Strings in JSON.

ghost use Rattle.std.specs.Prelude.{◌≡◌, IfOk, option_map};
ghost use Rattle.nj_tools.specs.Cited.{json_string, held_string};

use serde_json::Value;
use std::alloc::{AllocError, Global};

/// The text as a string in JSON.
pub(crate) fn json_string(alloc: Global, text: &str) -> Result<Vec<u8>, AllocError>
    ensures { IfOk result (λ json. json.items ≡ json_string text.now) }
{
    Value::try_from_str(alloc, text)?.to_vec(alloc)
}

/// The text as a string in JSON; `None` if the text is not UTF-8.
pub(crate) fn held_string(alloc: Global, text: &[u8]) -> Result<Option<Vec<u8>>, AllocError>
    ensures { IfOk result (λ json. option_map (λ json. json.items) json ≡ held_string text.now) }
{
    match str::from_utf8(text) {
        Ok(text) => Ok(Some(json_string(alloc, text)?)),
        Err(_not_utf8) => Ok(None),
    }
}
