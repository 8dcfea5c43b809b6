//! What is required of attestation certificates (WebAuthn Level 2, section 8.2.1).

ghost use Rattle.std.specs.Prelude.{◌↔◌, false, List, ℕ, Option, option_map, IsSomeAnd, IsTrue, MatchOption};
ghost use Rattle.certificates.specs.Extensions.{extension_view, ExtensionForm};
ghost use Rattle.certificates.specs.Meanings.{IsAaguid, IsConstraints};
ghost use Rattle.certificates.specs.Names.{attribute_view};
ghost use Rattle.attestation.specs.Certified.{HasExtension};
ghost use Rattle.attestation.specs.Rules.{HasAaguid, HasAttribute, HasEndEntity, HasUncriticalAaguid, HasUnit, IsAaguidOf, IsAttestationSubject, IsEndEntity, IsTextTag, IsUncritical, IsUnit};

use certificates::{
    AAGUID, Attribute, BASIC_CONSTRAINTS, COMMON_NAME, COUNTRY, Extension, ORGANIZATION,
    ORGANIZATIONAL_UNIT, find_attribute, find_extension, read_aaguid, read_basic_constraints,
};
use der::{Class, Tag};

/// The tags of a UTF8String and of a PrintableString (X.680, 8.6).
const UTF8_STRING: Tag = Tag {
    class: Class::Universal,
    constructed: false,
    number: 12,
};

const PRINTABLE_STRING: Tag = Tag {
    class: Class::Universal,
    constructed: false,
    number: 19,
};

/// What the organizational unit of an attestation certificate is.
const UNIT: &str = "Authenticator Attestation";

/// What a certificate has at an extension's identifier, where its extensions can be read.
pub fn extension_at<'a>(
    extensions: Option<&'a [u8]>,
    identifier: &[u8],
) -> Option<Option<Extension<'a>>>
    ensures { MatchOption result
        ((o : Option ExtensionForm) → HasExtension (option_map (λ b. b.now) extensions.entry) identifier.now o → ⊥)
        (λ found. HasExtension (option_map (λ b. b.now) extensions.entry) identifier.now (option_map extension_view found)) }
{
    let Some(content) = extensions else {
        return Some(None);
    };
    match find_extension(content, identifier) {
        Ok(found) => Some(found),
        Err(_) => None,
    }
}

/// Whether a name has an attribute of this type.
fn has_attribute(name: &[u8], identifier: &[u8]) -> bool
    ensures { IsTrue result ↔ HasAttribute name.now identifier.now }
{
    match find_attribute(name, identifier) {
        Ok(found) => found.is_some(),
        Err(_) => false,
    }
}

/// Whether the tag is one of text.
fn is_text_tag(tag: Tag) -> bool
    ensures { IsTrue result ↔ IsTextTag tag }
{
    tag == UTF8_STRING || tag == PRINTABLE_STRING
}

/// Whether the attribute is the unit of attestation certificates.
fn is_unit(found: Option<Attribute<'_>>) -> bool
    ensures { IsTrue result ↔ IsSomeAnd (option_map attribute_view found.entry) IsUnit }
{
    match found {
        Some(found) => is_text_tag(found.tag) && found.value == UNIT.as_bytes(),
        None => false,
    }
}

/// Whether a name has that unit.
fn has_unit(name: &[u8]) -> bool
    ensures { IsTrue result ↔ HasUnit name.now }
{
    match find_attribute(name, &ORGANIZATIONAL_UNIT) {
        Ok(found) => is_unit(found),
        Err(_) => false,
    }
}

/// Whether the subject is that of an attestation certificate.
pub fn is_attestation_subject(name: &[u8]) -> bool
    ensures { IsTrue result ↔ IsAttestationSubject name.now }
{
    has_attribute(name, &COUNTRY)
        && has_attribute(name, &ORGANIZATION)
        && has_unit(name)
        && has_attribute(name, &COMMON_NAME)
}

/// Whether basic constraints say that the subject is no certificate authority.
fn is_no_authority(value: &[u8]) -> bool
    ensures { IsTrue result ↔ ((path : Option (List ℕ)) × IsConstraints false path value.now) }
{
    match read_basic_constraints(value) {
        Ok(constraints) => !constraints.authority,
        Err(_) => false,
    }
}

/// Whether an extension is there and says so.
fn is_end_entity(found: Option<Extension<'_>>) -> bool
    ensures { IsTrue result ↔ IsEndEntity (option_map extension_view found.entry) }
{
    match found {
        Some(found) => is_no_authority(found.value),
        None => false,
    }
}

/// Whether a certificate has such basic constraints.
pub fn has_end_entity(extensions: Option<&[u8]>) -> bool
    ensures { IsTrue result ↔ HasEndEntity (option_map (λ b. b.now) extensions.entry) }
{
    match extension_at(extensions, &BASIC_CONSTRAINTS) {
        Some(found) => is_end_entity(found),
        None => false,
    }
}

/// Whether an extension that is there is not critical.
fn is_uncritical(found: Option<Extension<'_>>) -> bool
    ensures { IsTrue result ↔ IsUncritical (option_map extension_view found.entry) }
{
    match found {
        Some(found) => !found.critical,
        None => true,
    }
}

/// Whether a certificate's AAGUID, where it has one, is not critical.
pub fn has_uncritical_aaguid(extensions: Option<&[u8]>) -> bool
    ensures { IsTrue result ↔ HasUncriticalAaguid (option_map (λ b. b.now) extensions.entry) }
{
    match extension_at(extensions, &AAGUID) {
        Some(found) => is_uncritical(found),
        None => false,
    }
}

/// Whether an extension says this AAGUID.
fn says_aaguid(value: &[u8], aaguid: &[u8]) -> bool
    ensures { IsTrue result ↔ IsAaguid aaguid.now value.now }
{
    match read_aaguid(value) {
        Ok(own) => own == aaguid,
        Err(_) => false,
    }
}

/// Whether an extension that is there says this AAGUID.
fn is_aaguid(found: Option<Extension<'_>>, aaguid: &[u8; 16]) -> bool
    ensures { IsTrue result ↔ IsAaguidOf aaguid.now (option_map extension_view found.entry) }
{
    match found {
        Some(found) => says_aaguid(found.value, aaguid),
        None => true,
    }
}

/// Whether a certificate's AAGUID, where it has one, is this.
pub fn has_aaguid(extensions: Option<&[u8]>, aaguid: &[u8; 16]) -> bool
    ensures { IsTrue result ↔ HasAaguid (option_map (λ b. b.now) extensions.entry) aaguid.now }
{
    match extension_at(extensions, &AAGUID) {
        Some(found) => is_aaguid(found, aaguid),
        None => false,
    }
}
