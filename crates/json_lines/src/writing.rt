//! Writing a line.

ghost use Rattle.std.specs.Prelude.{◌≡◌, ◌≤◌, ◌++◌, ◌∷◌, [], ℕ, IfOk, List, OnOk, string_bytes};
ghost use Rattle.serde_json.specs.Data.{depth};
ghost use Rattle.serde_json.specs.Read.{max_depth};
ghost use Rattle.serde_json.specs.View.{view};
ghost use Rattle.json_lines.specs.Written.{IsTextOf, base64url, number_or_null as number_or_null_of};

use base64::engine::general_purpose::URL_SAFE_NO_PAD;
use serde_json::Value;
use std::alloc::{AllocError, Global};

/// Bytes as a text, in base64url without padding.
pub fn base64_text(alloc: Global, bytes: &[u8]) -> Result<Value, AllocError>
    ensures { IfOk result (λ v. view v ≡ base64url bytes.now) }
{
    Ok(Value::String(URL_SAFE_NO_PAD.encode(alloc, bytes)?))
}

/// A number; null where there is none.
pub fn number_or_null(number: Option<u64>) -> Value
    ensures { view result ≡ number_or_null_of number }
{
    match number {
        Some(number) => Value::from(number),
        None => Value::Null,
    }
}

/// Appends a value as one line, with its end.
pub fn write_line(alloc: Global, value: &Value, out: &mut String) -> Result<(), AllocError>
    requires { depth (view value.now) ≤ max_depth }
    // The text is the value's and nothing else, and it ends in a line feed.
    ensures { OnOk result ((text : List ℕ) × IsTextOf (view value.now) text × (string_bytes out.new ≡ string_bytes out.old ++ text ++ 10 ∷ [])) }
{
    let text = value.to_string(alloc)?;
    out.push_str(text.as_str())?;
    out.push('\n')
}
