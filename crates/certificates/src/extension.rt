//! Extensions (RFC 5280, 4.1 and 4.2).

ghost use Rattle.std.specs.Prelude.{◌≡◌, List, None, option_map, IfOk, IsErr, IsOk};
ghost use Rattle.certificates.specs.Extensions.{extension_view, found_in, AreExtensions, AreListed, ExtensionForm};
ghost use Rattle.certificates.specs.ExtensionReading.{critical_at, extension_at, extension_in, identifier_field_at};
ghost use Rattle.certificates.specs.Steps.{Gives};
ghost use Rattle.certificates.specs.Walks.{kept};

use crate::error::Error;
use crate::field::{field, optional_field, whole_field};
use crate::tags::{BOOLEAN, OBJECT_IDENTIFIER, OCTET_STRING, SEQUENCE};
use der::{read_boolean, read_object_identifier};

/// An extension, where it lies.
#[derive(Clone, Copy, Debug, Drop)]
pub struct Extension<'a> {
    /// The octets of its object identifier.
    pub identifier: &'a [u8],
    pub critical: bool,
    /// What it says, which is the content of its octet string.
    pub value: &'a [u8],
}

/// The content of the object identifier at the front, and what follows it.
#[tactic(auto, unfolding(crate::specs::ExtensionReading::identifier_field_at))]
pub fn identifier_field(bytes: &[u8]) -> Result<(&[u8], &[u8]), Error>
    ensures { Gives (λ x. (x.0.now, x.1.now)) result (identifier_field_at bytes.now) }
{
    let (content, rest) = field(OBJECT_IDENTIFIER, bytes)?;
    match read_object_identifier(content) {
        Ok(_) => Ok((content, rest)),
        Err(error) => Err(Error::Encoding(error)),
    }
}

/// Whether an extension is critical, and what follows that.
#[tactic(auto, unfolding(crate::specs::ExtensionReading::critical_at))]
pub fn critical_at(bytes: &[u8]) -> Result<(bool, &[u8]), Error>
    ensures { Gives (λ x. (x.0, x.1.now)) result (critical_at bytes.now) }
{
    let (flag, rest) = optional_field(BOOLEAN, bytes)?;
    let Some(flag) = flag else {
        return Ok((false, rest));
    };
    match read_boolean(flag) {
        Ok(true) => Ok((true, rest)),
        Ok(false) => Err(Error::Default),
        Err(error) => Err(Error::Encoding(error)),
    }
}

/// The extension of this content.
#[tactic(auto, unfolding(crate::specs::ExtensionReading::extension_in))]
fn extension_in(content: &[u8]) -> Result<Extension<'_>, Error>
    ensures { Gives extension_view result (extension_in content.now) }
{
    let (identifier, rest) = identifier_field(content)?;
    let (critical, rest) = critical_at(rest)?;
    let value = whole_field(OCTET_STRING, rest)?;
    Ok(Extension {
        identifier,
        critical,
        value,
    })
}

/// The extension at the front, and what follows it.
#[tactic(auto, unfolding(crate::specs::ExtensionReading::extension_at))]
fn extension_at(bytes: &[u8]) -> Result<(Extension<'_>, &[u8]), Error>
    ensures { Gives (λ x. (extension_view x.0, x.1.now)) result (extension_at bytes.now) }
{
    let (content, rest) = field(SEQUENCE, bytes)?;
    let extension = extension_in(content)?;
    Ok((extension, rest))
}

/// What was found, or the extension if it has this identifier.
fn kept<'a>(
    found: Option<Extension<'a>>,
    extension: Extension<'a>,
    identifier: &[u8],
) -> Option<Extension<'a>>
    ensures { option_map extension_view result
        ≡ kept identifier.now (option_map extension_view found.entry) (extension_view extension.entry) }
{
    match found {
        Some(found) => Some(found),
        None if extension.identifier == identifier => Some(extension),
        None => None,
    }
}

/// The first extension with this identifier, of extensions that may stand there twice.
fn first<'a>(content: &'a [u8], identifier: &[u8]) -> Result<Option<Extension<'a>>, Error>
    ensures found { IfOk result (λ o. (es : List ExtensionForm) × AreListed es content.now
        × (option_map extension_view o ≡ found_in identifier.now es)) }
    ensures none { IsErr result → (es : List ExtensionForm) → AreListed es content.now → ⊥ }
{
    let mut found = None;
    let mut rest = content;
    while 0 < rest.len() {
        let (extension, after) = extension_at(rest)?;
        found = kept(found, extension, identifier);
        rest = after;
    }
    Ok(found)
}

/// Refused as `Repeated` where an extension stands there twice, and otherwise if it is not an extension.
fn check_distinct(content: &[u8]) -> Result<(), Error>
    ensures found { IsOk result → (es : List ExtensionForm) × AreExtensions es content.now }
    ensures none { IsErr result → (es : List ExtensionForm) → AreExtensions es content.now → ⊥ }
{
    let mut rest = content;
    while 0 < rest.len() {
        let (extension, after) = extension_at(rest)?;
        let again = first(after, extension.identifier)?;
        if again.is_some() {
            return Err(Error::Repeated);
        }
        rest = after;
    }
    Ok(())
}

/// The extension with this identifier, by its octets, of the extensions of a certificate (`TbsCertificate::extensions`);
/// none where none has it. All of them are read, and no two may have one identifier.
///
/// Refused as `Repeated`, `Default` or `Encoding`.
pub fn find_extension<'a>(
    content: &'a [u8],
    identifier: &[u8],
) -> Result<Option<Extension<'a>>, Error>
    ensures found { IfOk result (λ o. (es : List ExtensionForm) × AreExtensions es content.now
        × (option_map extension_view o ≡ found_in identifier.now es)) }
    ensures none { IsErr result → (es : List ExtensionForm) → AreExtensions es content.now → ⊥ }
{
    check_distinct(content)?;
    first(content, identifier)
}
