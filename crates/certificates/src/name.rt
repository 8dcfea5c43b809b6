//! Names (RFC 5280, 4.1.2.4).

ghost use Rattle.std.specs.Prelude.{◌≡◌, List, option_map, IfOk, IsErr};
ghost use Rattle.certificates.specs.Names.{attribute_in, attribute_of, attribute_view, first_of, AreAttributes, AttributeForm, IsName};
ghost use Rattle.certificates.specs.NameReading.{any_at, attribute_at, attribute_from, kept_attribute};
ghost use Rattle.certificates.specs.Steps.{Gives};

use crate::error::Error;
use crate::extension::identifier_field;
use crate::field::field;
use crate::tags::{SEQUENCE, SET};
use der::{Element, Tag, read_element};

/// The types of the attributes that attestation certificates name: C, O, OU and CN (RFC 5280, appendix A).
pub const COUNTRY: [u8; 3] = [0x55, 0x04, 0x06];

pub const ORGANIZATION: [u8; 3] = [0x55, 0x04, 0x0a];

pub const ORGANIZATIONAL_UNIT: [u8; 3] = [0x55, 0x04, 0x0b];

pub const COMMON_NAME: [u8; 3] = [0x55, 0x04, 0x03];

/// An attribute of a name, where it lies.
#[derive(Clone, Copy, Debug, Drop)]
pub struct Attribute<'a> {
    /// The octets of the object identifier that is its type.
    pub identifier: &'a [u8],
    /// The tag of its value, as that of a UTF8String or a PrintableString.
    pub tag: Tag,
    /// The content of its value, as it is.
    pub value: &'a [u8],
}

/// The element of whatever tag that the input is.
#[tactic(auto, unfolding(crate::specs::NameReading::any_at))]
fn any_at(bytes: &[u8]) -> Result<Element<'_>, Error>
    ensures { Gives (λ x. (x.tag, x.content.now)) result (any_at bytes.now) }
{
    match read_element(bytes) {
        Ok((element, rest)) => {
            if !rest.is_empty() {
                return Err(Error::Encoding(der::Error::Trailing));
            }
            Ok(element)
        }
        Err(error) => Err(Error::Encoding(error)),
    }
}

/// The attribute of this content.
#[tactic(auto, unfolding(crate::specs::NameReading::attribute_from))]
fn attribute_from(content: &[u8]) -> Result<Attribute<'_>, Error>
    ensures { Gives attribute_view result (attribute_from content.now) }
{
    let (identifier, rest) = identifier_field(content)?;
    let value = any_at(rest)?;
    Ok(Attribute {
        identifier,
        tag: value.tag,
        value: value.content,
    })
}

/// The attribute at the front, and what follows it.
#[tactic(auto, unfolding(crate::specs::NameReading::attribute_at))]
fn attribute_at(bytes: &[u8]) -> Result<(Attribute<'_>, &[u8]), Error>
    ensures { Gives (λ x. (attribute_view x.0, x.1.now)) result (attribute_at bytes.now) }
{
    let (content, rest) = field(SEQUENCE, bytes)?;
    let attribute = attribute_from(content)?;
    Ok((attribute, rest))
}

/// What was found, or the attribute if it is of this type.
fn kept_attribute<'a>(
    found: Option<Attribute<'a>>,
    attribute: Attribute<'a>,
    identifier: &[u8],
) -> Option<Attribute<'a>>
    ensures { option_map attribute_view result
        ≡ kept_attribute identifier.now (option_map attribute_view found.entry) (attribute_view attribute.entry) }
{
    match found {
        Some(found) => Some(found),
        None if attribute.identifier == identifier => Some(attribute),
        None => None,
    }
}

/// The first attribute of this type, of those of a part of a name.
fn attribute_in<'a>(content: &'a [u8], identifier: &[u8]) -> Result<Option<Attribute<'a>>, Error>
    ensures found { IfOk result (λ o. (xs : List AttributeForm) × AreAttributes xs content.now
        × (option_map attribute_view o ≡ attribute_in identifier.now xs)) }
    ensures none { IsErr result → (xs : List AttributeForm) → AreAttributes xs content.now → ⊥ }
{
    let mut found = None;
    let mut rest = content;
    while 0 < rest.len() {
        let (attribute, after) = attribute_at(rest)?;
        found = kept_attribute(found, attribute, identifier);
        rest = after;
    }
    Ok(found)
}

/// What was found, or else the other.
fn first_of<'a>(found: Option<Attribute<'a>>, other: Option<Attribute<'a>>) -> Option<Attribute<'a>>
    ensures { option_map attribute_view result
        ≡ first_of (option_map attribute_view found.entry) (option_map attribute_view other.entry) }
{
    match found {
        Some(found) => Some(found),
        None => other,
    }
}

/// The first attribute of this type, by the octets of its object identifier, of a name (`TbsCertificate::issuer` or
/// `TbsCertificate::subject`); none where it has none. All attributes are read.
///
/// Refused as `Encoding`.
pub fn find_attribute<'a>(name: &'a [u8], identifier: &[u8]) -> Result<Option<Attribute<'a>>, Error>
    ensures found { IfOk result (λ o. (parts : List (List AttributeForm)) × IsName parts name.now
        × (option_map attribute_view o ≡ attribute_of identifier.now parts)) }
    ensures none { IsErr result → (parts : List (List AttributeForm)) → IsName parts name.now → ⊥ }
{
    let mut found = None;
    let mut rest = name;
    while 0 < rest.len() {
        let (part, after) = field(SET, rest)?;
        let here = attribute_in(part, identifier)?;
        found = first_of(found, here);
        rest = after;
    }
    Ok(found)
}
