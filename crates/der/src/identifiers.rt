//! Object identifiers.

ghost use Rattle.std.specs.Prelude.{◌≡◌, ◌==◌, ◌&&◌, true, IfOk, IsErr};
ghost use Rattle.der.specs.Encoding.{IsObjectIdentifier};
ghost use Rattle.der.specs.Reading.{Gives, object_identifier_in, subidentifiers_in};

use crate::error::Error;

/// Whether a subidentifier begins with an octet that it does not need.
fn is_padding(begins: bool, octet: u8) -> bool
    ensures { result ≡ (begins && octet == 0x80) }
{
    begins && octet == 0x80
}

/// Whether one subidentifier or more end here.
fn subidentifiers(content: &[u8]) -> Result<bool, Error>
    ensures { Gives (λ b. b) result (subidentifiers_in true content.now) }
{
    let mut begins = true;
    for octet in content {
        let padding = is_padding(begins, *octet);
        if padding {
            return Err(Error::NotShortest);
        }
        begins = *octet < 0x80;
    }
    if begins { Ok(true) } else { Err(Error::Cut) }
}

/// The octets of the object identifier of this content.
#[tactic(auto, unfolding(crate::specs::Reading::object_identifier_in))]
fn object_identifier_in(content: &[u8]) -> Result<&[u8], Error>
    ensures { Gives (λ octets. octets.now) result (object_identifier_in content.now) }
{
    if content.is_empty() {
        return Err(Error::Empty);
    }
    subidentifiers(content)?;
    Ok(content)
}

/// The octets of the object identifier of this content, which are the content: two object identifiers are the same
/// where their octets are (X.690, 8.19).
///
/// Refused as `Empty`, `NotShortest` or `Cut`.
pub fn read_object_identifier(content: &[u8]) -> Result<&[u8], Error>
    ensures found { IfOk result (λ octets. (octets.now ≡ content.now) × IsObjectIdentifier content.now) }
    ensures none { IsErr result → IsObjectIdentifier content.now → ⊥ }
    ensures exact { Gives (λ octets. octets.now) result (object_identifier_in content.now) }
{
    object_identifier_in(content)
}
