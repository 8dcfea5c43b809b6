//! Why a call is refused.

ghost use Rattle.std.specs.Prelude.{◌≡◌};
ghost use Rattle.authdata.specs.Numbers.{refusal_number};
ghost use Rattle.authdata.specs.declared.error.Error.TheVariants as errors;

use std::alloc::AllocError;

/// Why bytes are not read, a value is not written or a statement does not hold.
#[derive(Clone, Copy, Debug, PartialEq, Eq, Drop, thiserror::Error)]
pub enum Error {
    /// Memory was wanting.
    #[error("out of memory")]
    Memory,
    /// The attestation object has no canonical encoding, or its statement is no map.
    #[error("the attestation object has no canonical encoding")]
    Unfit,
    /// The bytes are not one whole canonical CBOR value.
    #[error("not one canonical CBOR value")]
    NotCanonical,
    /// Bytes are missing.
    #[error("the authenticator data is too short")]
    Short,
    /// Extension data is included, which the strict profile doesn't take.
    #[error("the authenticator data has extensions")]
    Extensions,
    /// The credential is backed up and may not be (BS without BE).
    #[error("the credential is marked as backed up and not as eligible for it")]
    BadBackup,
    /// The credential id has no byte, or more than the profile has.
    #[error("the credential id has no byte or too many")]
    BadId,
    /// No encoding of a key follows the credential id.
    #[error("no COSE key follows the credential id")]
    BadKey,
    /// No map of extensions follows, and the flags say that there is one.
    #[error("no map of extensions follows the credential")]
    BadExtensions,
    /// Bytes are left.
    #[error("bytes follow the authenticator data")]
    ExtraBytes,
    /// The value is no attestation object.
    #[error("not an attestation object")]
    Shape,
    /// The attestation statement's format is neither `none` nor `packed`.
    #[error("the attestation statement's format is unknown")]
    UnknownFormat,
    /// The attestation statement is not valid.
    #[error("the attestation statement is not valid")]
    BadStatement,
}

impl Error {
    /// The refusal's number; running out of memory has none.
    pub fn number(&self) -> Option<u8>
        ensures { result ≡ refusal_number self.now }
    {
        match self {
            Error::Memory => None,
            Error::Unfit => Some(1),
            Error::NotCanonical => Some(2),
            Error::Short => Some(8),
            Error::Extensions => Some(9),
            Error::BadId => Some(10),
            Error::BadKey => Some(11),
            Error::ExtraBytes => Some(12),
            Error::Shape => Some(13),
            Error::UnknownFormat => Some(14),
            Error::BadStatement => Some(15),
            Error::BadBackup => Some(28),
            Error::BadExtensions => Some(29),
        }
    }
}

impl From<AllocError> for Error {
    ghost from_gives = { λ _ e. e ≡ errors.Memory };

    fn from(_e: AllocError) -> Error {
        Error::Memory
    }
}
