//! Attestation statements, read where they lie.

ghost use Rattle.std.specs.Prelude.{◌≡◌, IfErr, IfOk, MatchOption};
ghost use Rattle.ccbor.specs.Viewing.{shown_pairs};
ghost use Rattle.attestation.specs.declared.statement.Format.{Format};
ghost use Rattle.attestation.specs.declared.statement.Format.TheVariants as formats;
ghost use Rattle.attestation.specs.Statements.{format_name, format_of, members_of, statement_view, HasCertificates, StatementForm, StatementOf};
ghost use Rattle.attestation.specs.Unread.{IsUnread};

use crate::algorithm::Algorithm;
use crate::certificate_list::Certificates;
use crate::members::{alg_member, bytes_member, only_x5c};
use crate::refusal::AttestationRefusal;
use ccbor::{MapView, View};

/// How many bytes a statement may have: 65,536.
pub const MAX_STATEMENT: usize = 65_536;

/// An attestation statement format (WebAuthn Level 2, section 8.1).
#[derive(Clone, Copy, Debug, PartialEq, Eq, Drop)]
pub enum Format {
    /// `none` (section 8.7).
    None,
    /// `packed` (section 8.2).
    Packed,
    /// `fido-u2f` (section 8.6).
    FidoU2f,
    /// `apple` (section 8.8).
    Apple,
}

/// What a statement says beside its certificates, where it lies.
#[derive(Clone, Copy, Debug, Drop)]
pub enum Content<'a> {
    /// Nothing.
    None,
    /// `packed` without certificates: the signature is by the credential's own key.
    SelfSigned {
        algorithm: Algorithm,
        signature: &'a [u8],
    },
    /// `packed` with certificates.
    Packed {
        algorithm: Algorithm,
        signature: &'a [u8],
    },
    /// `fido-u2f`: the signature is of ES256.
    FidoU2f {
        signature: &'a [u8],
    },
    /// `apple`: what Apple's devices send has an algorithm too, which is not looked at.
    Apple {
        algorithm: Option<Algorithm>,
    },
}

/// An attestation statement, where it lies.
#[derive(Clone, Copy, Debug, Drop)]
pub struct Statement<'a> {
    /// What it says.
    pub content: Content<'a>,
    /// Its certificates.
    pub certificates: Certificates<'a>,
}

impl Format {
    /// The format of this identifier, if it is one of these.
    pub fn of_name(name: &str) -> Option<Format>
        ensures { MatchOption result ((f : Format) → name.now ≡ format_name f → ⊥) (λ f. name.now ≡ format_name f) }
    {
        match name {
            "none" => Some(Format::None),
            "packed" => Some(Format::Packed),
            "fido-u2f" => Some(Format::FidoU2f),
            "apple" => Some(Format::Apple),
            _ => None,
        }
    }

    /// The format's identifier.
    pub fn name(self) -> &'static str
        ensures { result.now ≡ format_name self }
    {
        match self {
            Format::None => "none",
            Format::Packed => "packed",
            Format::FidoU2f => "fido-u2f",
            Format::Apple => "apple",
        }
    }
}

/// The empty statement of these members.
fn none_in<'a>(members: &MapView<'_>) -> Option<Statement<'a>>
    ensures { MatchOption result ((f : StatementForm) → format_of f ≡ formats.None → HasCertificates f → shown_pairs members.now ≡ members_of f → ⊥)
        (λ s. (format_of (statement_view s) ≡ formats.None) × HasCertificates (statement_view s) × (shown_pairs members.now ≡ members_of (statement_view s))) }
{
    if members.is_end() {
        Some(Statement {
            content: Content::None,
            certificates: Certificates::none(),
        })
    } else {
        None
    }
}

/// The packed statement of these members.
fn packed_in<'a>(members: &MapView<'a>) -> Option<Statement<'a>>
    ensures { MatchOption result ((f : StatementForm) → format_of f ≡ formats.Packed → HasCertificates f → shown_pairs members.now ≡ members_of f → ⊥)
        (λ s. (format_of (statement_view s) ≡ formats.Packed) × HasCertificates (statement_view s) × (shown_pairs members.now ≡ members_of (statement_view s))) }
{
    let (algorithm, rest) = alg_member(members)?;
    let (signature, rest) = bytes_member(&rest, "sig")?;
    if rest.is_end() {
        return Some(Statement {
            content: Content::SelfSigned {
                algorithm,
                signature,
            },
            certificates: Certificates::none(),
        });
    }
    let certificates = only_x5c(&rest)?;
    Some(Statement {
        content: Content::Packed {
            algorithm,
            signature,
        },
        certificates,
    })
}

/// The U2F statement of these members.
fn fido_u2f_in<'a>(members: &MapView<'a>) -> Option<Statement<'a>>
    ensures { MatchOption result ((f : StatementForm) → format_of f ≡ formats.FidoU2f → HasCertificates f → shown_pairs members.now ≡ members_of f → ⊥)
        (λ s. (format_of (statement_view s) ≡ formats.FidoU2f) × HasCertificates (statement_view s) × (shown_pairs members.now ≡ members_of (statement_view s))) }
{
    let (signature, rest) = bytes_member(members, "sig")?;
    let certificates = only_x5c(&rest)?;
    Some(Statement {
        content: Content::FidoU2f { signature },
        certificates,
    })
}

/// The statement of Apple of these members.
fn apple_in<'a>(members: &MapView<'a>) -> Option<Statement<'a>>
    ensures { MatchOption result ((f : StatementForm) → format_of f ≡ formats.Apple → HasCertificates f → shown_pairs members.now ≡ members_of f → ⊥)
        (λ s. (format_of (statement_view s) ≡ formats.Apple) × HasCertificates (statement_view s) × (shown_pairs members.now ≡ members_of (statement_view s))) }
{
    if let Some((algorithm, rest)) = alg_member(members) {
        let certificates = only_x5c(&rest)?;
        return Some(Statement {
            content: Content::Apple {
                algorithm: Some(algorithm),
            },
            certificates,
        });
    }
    let certificates = only_x5c(members)?;
    Some(Statement {
        content: Content::Apple { algorithm: None },
        certificates,
    })
}

/// The statement of this format and these members.
fn statement_in<'a>(format: Format, members: &MapView<'a>) -> Option<Statement<'a>>
    ensures { MatchOption result ((f : StatementForm) → format_of f ≡ format → HasCertificates f → shown_pairs members.now ≡ members_of f → ⊥)
        (λ s. (format_of (statement_view s) ≡ format) × HasCertificates (statement_view s) × (shown_pairs members.now ≡ members_of (statement_view s))) }
{
    match format {
        Format::None => none_in(members),
        Format::Packed => packed_in(members),
        Format::FidoU2f => fido_u2f_in(members),
        Format::Apple => apple_in(members),
    }
}

/// The statement of this format that the bytes are.
fn statement_of<'a>(format: Format, bytes: &'a [u8]) -> Option<Statement<'a>>
    ensures { MatchOption result ((f : StatementForm) → format_of f ≡ format → StatementOf f bytes.now → ⊥)
        (λ s. (format_of (statement_view s) ≡ format) × StatementOf (statement_view s) bytes.now) }
{
    if MAX_STATEMENT < bytes.len() {
        return None;
    }
    let Ok(value) = View::check_all(bytes) else {
        return None;
    };
    let Some(members) = value.as_map() else {
        return None;
    };
    statement_in(format, &members)
}

/// The statement of this format identifier that the bytes are, which are canonical CBOR (WebAuthn Level 2, section 8). It takes no
/// memory.
///
/// Refused as `EndedFormat`, `UnknownFormat` or `BadStatement`.
pub fn read_statement<'a>(
    format: &str,
    statement: &'a [u8],
) -> Result<Statement<'a>, AttestationRefusal>
    // The bytes are the statement's, which is of the format,
    ensures found { IfOk result (λ s. (format.now ≡ format_name (format_of (statement_view s))) × StatementOf (statement_view s) statement.now) }
    // and otherwise they are none's, for this reason.
    ensures unread { IfErr result (IsUnread format.now statement.now) }
{
    if format == "android-safetynet" {
        return Err(AttestationRefusal::EndedFormat);
    }
    let Some(format) = Format::of_name(format) else {
        return Err(AttestationRefusal::UnknownFormat);
    };
    match statement_of(format, statement) {
        Some(statement) => Ok(statement),
        None => Err(AttestationRefusal::BadStatement),
    }
}
