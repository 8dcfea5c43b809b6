//! Why bytes are no certificate.

use thiserror::Error;

/// Why bytes are not what was to be read: the first fault from the left.
#[derive(Clone, Copy, Debug, PartialEq, Eq, Drop, Error)]
pub enum Error {
    /// No element that has to be there is, or its content is not of its kind.
    #[error("not the element that has to be here")]
    Encoding(der::Error),
    /// A version other than 1, 2 and 3, or version 1 where it is left out (RFC 5280, 4.1.2.1).
    #[error("another version")]
    Version,
    /// The signed algorithm identifier is not the one that stands before the signature (RFC 5280, 4.1.1.2).
    #[error("two signature algorithms")]
    Algorithms,
    /// Unique identifiers or extensions in a version that has none (RFC 5280, 4.1.2.8 and 4.1.2.9).
    #[error("a field that the version does not have")]
    Field,
    /// The signature is not of whole octets.
    #[error("a signature with unused bits")]
    Signature,
    /// An AAGUID or a nonce of another size.
    #[error("another size")]
    Size,
    /// A default is written out, which is left out (X.690, 11.5).
    #[error("a default that is written out")]
    Default,
    /// An extension stands there twice (RFC 5280, 4.2).
    #[error("an extension twice")]
    Repeated,
}
