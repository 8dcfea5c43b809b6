//! What a statement asks for, and the verdict.

ghost use Rattle.std.specs.Prelude.{◌≡◌, List, ℕ, IfErr, IfOk, MatchOption, OnOk};
ghost use Rattle.refusal_order.specs.Lines.{Each, FirstFailing};
ghost use Rattle.attestation.specs.Asked.{asked_view};
ghost use Rattle.attestation.specs.Inputs.{inputs_view};
ghost use Rattle.attestation.specs.Signed.{Signed};
ghost use Rattle.attestation.specs.Statements.{certificates_view, content_view, format_of, statement_view};
ghost use Rattle.attestation.specs.Steps.{path_of, steps_of, type_of, Asks, Passes, Tells};

use crate::apple::check_apple;
use crate::certificate_list::Certificates;
use crate::fido_u2f::{check_fido_u2f, fido_u2f_signature};
use crate::inputs::Inputs;
use crate::packed::{check_packed, check_self, packed_signature, self_signature};
use crate::refusal::AttestationRefusal;
use crate::signature::{AskedSignature, SignatureVerifier};
use crate::statement::{Content, Format, Statement};

/// How a credential is attested (WebAuthn Level 2, section 6.5.3).
#[derive(Clone, Copy, Debug, PartialEq, Eq, Drop)]
pub enum AttestationType {
    /// Not at all.
    None,
    /// By a signature of its own key.
    SelfSigned,
    /// By a certificate of the authenticator's model, or by one that an attestation CA gave it: which of both is not said.
    BasicOrAttCa,
    /// By a certificate of this credential alone, from an anonymization CA.
    AnonCa,
}

/// What a statement that passes each step attests.
#[derive(Clone, Copy, Debug, Drop)]
pub struct Attestation<'a> {
    /// The statement's format.
    pub format: Format,
    /// The attestation type.
    pub attestation_type: AttestationType,
    /// The certificates, from which the host looks for a path to a root that the site trusts.
    pub certificates: Certificates<'a>,
}

impl<'a> Content<'a> {
    /// The format.
    fn format(&self) -> Format
        ensures { (cs : List (List ℕ)) → result ≡ format_of (content_view self.now cs) }
    {
        match self {
            Content::None => Format::None,
            Content::SelfSigned { .. } => Format::Packed,
            Content::Packed { .. } => Format::Packed,
            Content::FidoU2f { .. } => Format::FidoU2f,
            Content::Apple { .. } => Format::Apple,
        }
    }

    /// The attestation type.
    fn attestation_type(&self) -> AttestationType
        ensures { (cs : List (List ℕ)) → result ≡ type_of (content_view self.now cs) }
    {
        match self {
            Content::None => AttestationType::None,
            Content::SelfSigned { .. } => AttestationType::SelfSigned,
            Content::Packed { .. } => AttestationType::BasicOrAttCa,
            Content::FidoU2f { .. } => AttestationType::BasicOrAttCa,
            Content::Apple { .. } => AttestationType::AnonCa,
        }
    }
}

impl<'a> Statement<'a> {
    /// The certificates that are handed out.
    fn path(&self) -> Certificates<'a>
        ensures { certificates_view result ≡ path_of (statement_view self.now) }
    {
        match self.content {
            Content::None => Certificates::none(),
            Content::SelfSigned { .. } => Certificates::none(),
            Content::Packed { .. } => self.certificates,
            Content::FidoU2f { .. } => self.certificates,
            Content::Apple { .. } => self.certificates,
        }
    }
}

/// The signature that the host is to verify, with its key, its algorithm and its message. None where the statement has none, or
/// is refused before its signature is looked at. It takes no memory.
pub fn signature_asked<'a>(
    statement: &Statement<'a>,
    inputs: &'a Inputs<'a>,
) -> Option<AskedSignature<'a>>
    ensures { MatchOption result ((s : Signed) → Asks (statement_view statement.now) (inputs_view inputs.now) s → ⊥)
        (λ s. Asks (statement_view statement.now) (inputs_view inputs.now) (asked_view s)) }
{
    let leaf = statement.certificates.leaf();
    match &statement.content {
        Content::None => None,
        Content::SelfSigned {
            algorithm,
            signature,
        } => Some(self_signature(inputs, *algorithm, signature)),
        Content::Packed {
            algorithm,
            signature,
        } => packed_signature(inputs, *algorithm, signature, leaf),
        Content::FidoU2f { signature } => fido_u2f_signature(inputs, signature, leaf),
        Content::Apple { .. } => None,
    }
}

/// Whether a statement passes the steps after its syntax.
fn check<V: SignatureVerifier>(
    verifier: &V,
    statement: &Statement<'_>,
    inputs: &Inputs<'_>,
) -> Result<(), AttestationRefusal>
    ensures passes { OnOk result (Each (Passes (V.valid verifier.now) (statement_view statement.now) (inputs_view inputs.now)) (steps_of (statement_view statement.now))) }
    ensures refused { IfErr result (FirstFailing (Passes (V.valid verifier.now) (statement_view statement.now) (inputs_view inputs.now)) (steps_of (statement_view statement.now))) }
{
    let leaf = statement.certificates.leaf();
    match &statement.content {
        Content::None => Ok(()),
        Content::SelfSigned {
            algorithm,
            signature,
        } => check_self(verifier, inputs, *algorithm, signature),
        Content::Packed {
            algorithm,
            signature,
        } => check_packed(verifier, inputs, *algorithm, signature, leaf),
        Content::FidoU2f { signature } => {
            check_fido_u2f(verifier, inputs, signature, &statement.certificates)
        }
        Content::Apple { .. } => check_apple(inputs, leaf),
    }
}

/// What a statement attests, with the signatures that are valid: by its format's verification procedure (WebAuthn Level 2,
/// section 8). It takes no memory.
///
/// Refused as the first step that fails, in the order of `steps_of`. That the certificates lead to a root that the site trusts is
/// not looked at.
pub fn judge<'a, V: SignatureVerifier>(
    verifier: &V,
    statement: &Statement<'a>,
    inputs: &Inputs<'_>,
) -> Result<Attestation<'a>, AttestationRefusal>
    // Each step is passed,
    ensures accepted { OnOk result (Each (Passes (V.valid verifier.now) (statement_view statement.now) (inputs_view inputs.now)) (steps_of (statement_view statement.now))) }
    // and this is attested;
    ensures attested { IfOk result (Tells (statement_view statement.now)) }
    // or this is the first that is not.
    ensures refused { IfErr result (FirstFailing (Passes (V.valid verifier.now) (statement_view statement.now) (inputs_view inputs.now)) (steps_of (statement_view statement.now))) }
{
    match check(verifier, statement, inputs) {
        Ok(()) => Ok(Attestation {
            format: statement.content.format(),
            attestation_type: statement.content.attestation_type(),
            certificates: statement.path(),
        }),
        Err(refusal) => Err(refusal),
    }
}
