//! Certificates (RFC 5280, 4.1).

ghost use Rattle.std.specs.Prelude.{◌≡◌, IfOk, IsErr, option_map};
ghost use Rattle.der.specs.Encoding.{element};
ghost use Rattle.certificates.specs.Tags.{SEQUENCE};
ghost use Rattle.certificates.specs.Form.{certificate_octets, certificate_view, tbs_octets, tbs_view, validity_view, Form, IsCertificate};
ghost use Rattle.certificates.specs.Steps.{Gives};
ghost use Rattle.certificates.specs.Reading.{allows, certificate_at, extensions_at, head_at, last_at, middle_at, signature_in, tbs_at, version_at, version_in};

use crate::error::Error;
use crate::field::{field, integer_field, optional_field, whole_field};
use crate::tags::{BIT_STRING, EXPLICIT_0, EXPLICIT_3, IMPLICIT_1, IMPLICIT_2, INTEGER, SEQUENCE};
use crate::validity::{Validity, validity_at};
use der::read_bit_string;

/// The version of a certificate (RFC 5280, 4.1.2.1).
#[derive(Clone, Copy, Debug, PartialEq, Eq, Drop)]
pub enum Version {
    V1,
    V2,
    V3,
}

/// What a certificate's signature is over (TBSCertificate, RFC 5280, 4.1.2), each field as it lies: the content of its
/// element.
#[derive(Clone, Copy, Debug, Drop)]
pub struct TbsCertificate<'a> {
    pub version: Version,
    /// The serial number: an integer in two's complement, in the fewest octets.
    pub serial: &'a [u8],
    /// The identifier of the signature algorithm, which stands before the signature too.
    pub algorithm: &'a [u8],
    pub issuer: &'a [u8],
    pub validity: Validity<'a>,
    pub subject: &'a [u8],
    /// The subject's public key, with the identifier of its algorithm.
    pub key: &'a [u8],
    /// In versions 2 and 3 alone, as `subject_id`.
    pub issuer_id: Option<&'a [u8]>,
    pub subject_id: Option<&'a [u8]>,
    /// The extensions, one after the other; in version 3 alone.
    pub extensions: Option<&'a [u8]>,
}

/// A certificate, where it lies.
#[derive(Clone, Copy, Debug, Drop)]
pub struct Certificate<'a> {
    /// The bytes that the signature is over: the element of `tbs`, whole.
    pub signed: &'a [u8],
    pub tbs: TbsCertificate<'a>,
    /// The octets of the signature.
    pub signature: &'a [u8],
}

/// The version of this integer.
#[tactic(auto, unfolding(crate::specs::Reading::version_in))]
fn version_in(content: &[u8]) -> Result<Version, Error>
    ensures { Gives (λ v. v) result (version_in content.now) }
{
    match content {
        [1] => Ok(Version::V2),
        [2] => Ok(Version::V3),
        _ => Err(Error::Version),
    }
}

/// The version at the front, and what follows it.
#[tactic(auto, unfolding(crate::specs::Reading::version_at))]
fn version_at(bytes: &[u8]) -> Result<(Version, &[u8]), Error>
    ensures { Gives (λ x. (x.0, x.1.now)) result (version_at bytes.now) }
{
    let (explicit, rest) = optional_field(EXPLICIT_0, bytes)?;
    let Some(explicit) = explicit else {
        return Ok((Version::V1, rest));
    };
    let number = whole_field(INTEGER, explicit)?;
    Ok((version_in(number)?, rest))
}

/// The version, the serial number and the algorithm at the front, and what follows them.
#[tactic(auto, unfolding(crate::specs::Reading::head_at))]
fn head_at(bytes: &[u8]) -> Result<(Version, &[u8], &[u8], &[u8]), Error>
    ensures { Gives (λ x. (x.0, x.1.now, x.2.now, x.3.now)) result (head_at bytes.now) }
{
    let (version, rest) = version_at(bytes)?;
    let (serial, rest) = integer_field(rest)?;
    let (algorithm, rest) = field(SEQUENCE, rest)?;
    Ok((version, serial, algorithm, rest))
}

/// The issuer, the validity, the subject and the key at the front, and what follows them.
#[tactic(auto, unfolding(crate::specs::Reading::middle_at))]
fn middle_at(bytes: &[u8]) -> Result<(&[u8], Validity<'_>, &[u8], &[u8], &[u8]), Error>
    ensures { Gives (λ x. (x.0.now, validity_view x.1, x.2.now, x.3.now, x.4.now)) result (middle_at bytes.now) }
{
    let (issuer, rest) = field(SEQUENCE, bytes)?;
    let (times, rest) = field(SEQUENCE, rest)?;
    let validity = validity_at(times)?;
    let (subject, rest) = field(SEQUENCE, rest)?;
    let (key, rest) = field(SEQUENCE, rest)?;
    Ok((issuer, validity, subject, key, rest))
}

/// The extensions that the input is, if there are any.
#[tactic(auto, unfolding(crate::specs::Reading::extensions_at))]
fn extensions_at(bytes: &[u8]) -> Result<Option<&[u8]>, Error>
    ensures { Gives (λ x. option_map (λ c. c.now) x) result (extensions_at bytes.now) }
{
    let (explicit, rest) = optional_field(EXPLICIT_3, bytes)?;
    if !rest.is_empty() {
        return Err(Error::Encoding(der::Error::Trailing));
    }
    let Some(explicit) = explicit else {
        return Ok(None);
    };
    let extensions = whole_field(SEQUENCE, explicit)?;
    Ok(Some(extensions))
}

/// Whether the version has these fields.
fn allows(version: Version, has_id: bool, has_extensions: bool) -> bool
    ensures { result ≡ allows version has_id has_extensions }
{
    match version {
        Version::V1 => !has_id && !has_extensions,
        Version::V2 => !has_extensions,
        Version::V3 => true,
    }
}

/// The unique identifiers and the extensions that the input is, of those that the version has.
#[tactic(auto, unfolding(crate::specs::Reading::last_at))]
fn last_at(
    version: Version,
    bytes: &[u8],
) -> Result<(Option<&[u8]>, Option<&[u8]>, Option<&[u8]>), Error>
    ensures { Gives (λ x. (option_map (λ c. c.now) x.0, option_map (λ c. c.now) x.1, option_map (λ c. c.now) x.2)) result
        (last_at version bytes.now) }
{
    let (issuer_id, rest) = optional_field(IMPLICIT_1, bytes)?;
    let (subject_id, rest) = optional_field(IMPLICIT_2, rest)?;
    let extensions = extensions_at(rest)?;
    let has_id = issuer_id.is_some() || subject_id.is_some();
    if !allows(version, has_id, extensions.is_some()) {
        return Err(Error::Field);
    }
    Ok((issuer_id, subject_id, extensions))
}

/// What is signed, of this content.
#[tactic(auto, unfolding(crate::specs::Reading::tbs_at))]
fn tbs_at(content: &[u8]) -> Result<TbsCertificate<'_>, Error>
    ensures { Gives tbs_view result (tbs_at content.now) }
{
    let (version, serial, algorithm, rest) = head_at(content)?;
    let (issuer, validity, subject, key, rest) = middle_at(rest)?;
    let (issuer_id, subject_id, extensions) = last_at(version, rest)?;
    Ok(TbsCertificate {
        version,
        serial,
        algorithm,
        issuer,
        validity,
        subject,
        key,
        issuer_id,
        subject_id,
        extensions,
    })
}

/// The octets of a signature, of the content of its bit string.
#[tactic(auto, unfolding(crate::specs::Reading::signature_in))]
fn signature_in(content: &[u8]) -> Result<&[u8], Error>
    ensures { Gives (λ c. c.now) result (signature_in content.now) }
{
    match read_bit_string(content) {
        Ok(bits) if bits.unused == 0 => Ok(bits.octets),
        Ok(_) => Err(Error::Signature),
        Err(error) => Err(Error::Encoding(error)),
    }
}

/// The certificate that the input is.
#[tactic(auto, unfolding(crate::specs::Reading::certificate_at))]
fn certificate_at(bytes: &[u8]) -> Result<Certificate<'_>, Error>
    ensures { Gives (λ c. (c.signed.now, certificate_view c)) result (certificate_at bytes.now) }
{
    let body = whole_field(SEQUENCE, bytes)?;
    let (content, rest) = field(SEQUENCE, body)?;
    let signed = &body[..body.len().saturating_sub(rest.len())];
    let (algorithm, rest) = field(SEQUENCE, rest)?;
    let signature = whole_field(BIT_STRING, rest)?;
    let signature = signature_in(signature)?;
    let tbs = tbs_at(content)?;
    if tbs.algorithm != algorithm {
        return Err(Error::Algorithms);
    }
    Ok(Certificate {
        signed,
        tbs,
        signature,
    })
}

/// The certificate that the whole input is (RFC 5280, 4.1).
///
/// Refused as `Encoding`, `Version`, `Field`, `Signature` or `Algorithms`.
pub fn read_certificate(bytes: &[u8]) -> Result<Certificate<'_>, Error>
    // The input is the certificate's encoding,
    ensures found { IfOk result (λ c. IsCertificate (certificate_view c)
        × (bytes.now ≡ certificate_octets (certificate_view c))) }
    // and these bytes of it are signed.
    ensures signed { IfOk result (λ c. c.signed.now ≡ element SEQUENCE (tbs_octets (tbs_view c.tbs))) }
    // Where it is refused, it is no certificate's encoding.
    ensures none { IsErr result → (c : Form) → IsCertificate c → bytes.now ≡ certificate_octets c → ⊥ }
    ensures exact { Gives (λ c. (c.signed.now, certificate_view c)) result (certificate_at bytes.now) }
{
    certificate_at(bytes)
}
