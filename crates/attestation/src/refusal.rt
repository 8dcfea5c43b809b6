//! Why a statement is refused.

ghost use Rattle.std.specs.Prelude.{◌≡◌, ◌≢◌, MatchOption};
ghost use Rattle.attestation.specs.Numbers.{attestation_number};
ghost use Rattle.attestation.specs.declared.refusal.AttestationRefusal.{AttestationRefusal};

use thiserror::Error;

/// The step at which an attestation statement is refused, the first that fails. Sections are of WebAuthn Level 2.
#[derive(Clone, Copy, Debug, PartialEq, Eq, Drop, Error)]
pub enum AttestationRefusal {
    /// 1: the format is none that is judged here (8.1).
    #[error("the format is none that is judged")]
    UnknownFormat,
    /// 2: the format is `android-safetynet` (8.5), whose service has ended. It is not judged.
    #[error("a statement of SafetyNet, which has ended")]
    EndedFormat,
    /// 3: the statement does not have the syntax of its format, has an algorithm that is none of `Algorithm`, no certificate or more than
    /// `MAX_CERTIFICATES`, or more than `MAX_STATEMENT` bytes.
    #[error("the statement does not have the syntax of its format")]
    BadStatement,
    /// 4: a U2F statement has more than one certificate (8.6).
    #[error("more than one certificate")]
    NotOneCertificate,
    /// 5: the first certificate cannot be read.
    #[error("the first certificate cannot be read")]
    BadCertificate,
    /// 6: the key that signs does not work with the algorithm.
    #[error("the key does not work with the algorithm")]
    OtherAlgorithm,
    /// 7: the credential's key is no point of P-256, as U2F has them (8.6).
    #[error("the credential's key is no point of P-256")]
    OtherCredentialKey,
    /// 8: the signature is not valid.
    #[error("the signature is not valid")]
    BadSignature,
    /// 9: the certificate is not of version 3 (8.2.1).
    #[error("the certificate is not of version 3")]
    WrongVersion,
    /// 10: the certificate's subject has no C, O or CN, or no OU `Authenticator Attestation` (8.2.1).
    #[error("the certificate's subject is not that of an authenticator")]
    WrongSubject,
    /// 11: the certificate has no basic constraints by which it is no certificate authority's (8.2.1).
    #[error("the certificate may be a certificate authority's")]
    CertificateAuthority,
    /// 12: the certificate's AAGUID is marked critical (8.2.1).
    #[error("the certificate's AAGUID is marked critical")]
    CriticalAaguid,
    /// 13: the certificate's AAGUID is not that of the authenticator data (8.2).
    #[error("the certificate is of another model of authenticator")]
    WrongAaguid,
    /// 14: the certificate has no nonce, or another than the hash of the authenticator data and the client data's hash (8.8).
    #[error("the certificate's nonce is another")]
    WrongNonce,
    /// 15: the certificate's key is not the credential's (8.8).
    #[error("the certificate's key is not the credential's")]
    OtherKey,
}

impl AttestationRefusal {
    /// The number of the step.
    pub fn number(&self) -> u8
        ensures { result ≡ attestation_number self.now }
    {
        match self {
            AttestationRefusal::UnknownFormat => 1,
            AttestationRefusal::EndedFormat => 2,
            AttestationRefusal::BadStatement => 3,
            AttestationRefusal::NotOneCertificate => 4,
            AttestationRefusal::BadCertificate => 5,
            AttestationRefusal::OtherAlgorithm => 6,
            AttestationRefusal::OtherCredentialKey => 7,
            AttestationRefusal::BadSignature => 8,
            AttestationRefusal::WrongVersion => 9,
            AttestationRefusal::WrongSubject => 10,
            AttestationRefusal::CertificateAuthority => 11,
            AttestationRefusal::CriticalAaguid => 12,
            AttestationRefusal::WrongAaguid => 13,
            AttestationRefusal::WrongNonce => 14,
            AttestationRefusal::OtherKey => 15,
        }
    }

    /// The step of this number: 1 to 15.
    pub fn from_number(number: u8) -> Option<AttestationRefusal>
        ensures { MatchOption result ((step : AttestationRefusal) → attestation_number step ≢ number) (λ step. attestation_number step ≡ number) }
    {
        match number {
            1 => Some(AttestationRefusal::UnknownFormat),
            2 => Some(AttestationRefusal::EndedFormat),
            3 => Some(AttestationRefusal::BadStatement),
            4 => Some(AttestationRefusal::NotOneCertificate),
            5 => Some(AttestationRefusal::BadCertificate),
            6 => Some(AttestationRefusal::OtherAlgorithm),
            7 => Some(AttestationRefusal::OtherCredentialKey),
            8 => Some(AttestationRefusal::BadSignature),
            9 => Some(AttestationRefusal::WrongVersion),
            10 => Some(AttestationRefusal::WrongSubject),
            11 => Some(AttestationRefusal::CertificateAuthority),
            12 => Some(AttestationRefusal::CriticalAaguid),
            13 => Some(AttestationRefusal::WrongAaguid),
            14 => Some(AttestationRefusal::WrongNonce),
            15 => Some(AttestationRefusal::OtherKey),
            _ => None,
        }
    }
}
