//! Client data written, and checked against a record.

ghost use Rattle.std.specs.Prelude.{◌≡◌, ◌↔◌, IfOk, IsTrue, string_bytes};
ghost use Rattle.clientdata.specs.Serialised.{front_of, text_of, truth_of};
ghost use Rattle.clientdata.specs.Verified.{IsVerified};

use crate::challenge::challenge_text;
use crate::expected::after;
use crate::quoting::push_quoted;
use crate::record::ClientData;
use std::alloc::{AllocError, Global};

/// The text of client data (WebAuthn Level 2, section 5.8.1.1): the members `type`, `challenge`,
/// `origin` and `crossOrigin` in this order, without white space. It fails only if memory runs out.
pub fn serialise(alloc: Global, client_data: &ClientData) -> Result<String, AllocError>
    ensures { IfOk result (λ text. string_bytes text ≡ text_of client_data.now) }
{
    let mut text = front(alloc, client_data)?;
    text.push('}')?;
    Ok(text)
}

/// Limited verification (WebAuthn Level 2, section 5.8.1.2): true exactly if the bytes begin with
/// the text of the record without its last `}`, and the next byte is `}` or `,`. What follows isn't
/// looked at. It fails only if memory runs out.
pub fn limited_verify(
    alloc: Global,
    bytes: &[u8],
    client_data: &ClientData,
) -> Result<bool, AllocError>
    ensures { IfOk result (λ verified. IsTrue verified
        ↔ IsVerified bytes.now (front_of client_data.now)) }
{
    let expected = front(alloc, client_data)?;
    Ok(goes_on(bytes, expected.as_bytes()))
}

/// Whether the bytes begin with the expected ones, and `}` or `,` comes next.
fn goes_on(bytes: &[u8], expected: &[u8]) -> bool
    ensures { IsTrue result ↔ IsVerified bytes.now expected.now }
{
    match after(bytes, expected) {
        Some([next, ..]) => *next == b'}' || *next == b',',
        Some([]) => false,
        None => false,
    }
}

/// The text without its last `}`.
fn front(alloc: Global, client_data: &ClientData) -> Result<String, AllocError>
    ensures { IfOk result (λ text. string_bytes text ≡ front_of client_data.now) }
{
    let challenge = challenge_text(alloc, client_data.challenge.as_slice())?;
    let mut text = String::from_str(alloc, "{\"type\":")?;
    push_quoted(&mut text, client_data.kind.text())?;
    text.push_str(",\"challenge\":")?;
    push_quoted(&mut text, challenge.as_str())?;
    text.push_str(",\"origin\":")?;
    push_quoted(&mut text, client_data.origin.as_str())?;
    text.push_str(",\"crossOrigin\":")?;
    text.push_str(truth(client_data.cross_origin))?;
    Ok(text)
}

/// A truth value as JSON writes it.
fn truth(value: bool) -> &'static str
    ensures { result.now ≡ truth_of value }
{
    if value { "true" } else { "false" }
}
