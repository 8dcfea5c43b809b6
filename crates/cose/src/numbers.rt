//! The numbers of COSE keys. A negative number -1 - n stands as n, which is how CBOR has it.

/// Labels of a key's members (RFC 9052, section 7.1; RFC 9053, section 7; RFC 8230, section 4).
pub mod label {
    /// `kty`.
    pub const KTY: u64 = 1;

    /// `alg`.
    pub const ALG: u64 = 3;

    /// `crv` of an elliptic curve's key: -1.
    pub const CRV: u64 = 0;

    /// `x` of an elliptic curve's key: -2.
    pub const X: u64 = 1;

    /// `y` of an elliptic curve's key: -3.
    pub const Y: u64 = 2;

    /// `n` of an RSA key: -1.
    pub const N: u64 = 0;

    /// `e` of an RSA key: -2.
    pub const E: u64 = 1;
}

/// Types of keys (RFC 9053, section 7; RFC 8230, section 4).
pub mod key_type {
    /// A point of an Edwards curve.
    pub const OKP: u64 = 1;

    /// A point of a curve by two coordinates.
    pub const EC2: u64 = 2;

    /// An RSA key.
    pub const RSA: u64 = 3;
}

/// Algorithms (RFC 9053, sections 2 and 6.3; RFC 8812, section 2).
pub mod algorithm {
    /// -7.
    pub const ES256: u64 = 6;

    /// -8.
    pub const EDDSA: u64 = 7;

    /// -25, which CTAP has for key agreement (CTAP 2.1, section 6.5.6).
    pub const ECDH_ES_HKDF_256: u64 = 24;

    /// -257.
    pub const RS256: u64 = 256;
}

/// Curves (RFC 9053, section 7.1).
pub mod curve {
    /// NIST's P-256.
    pub const P256: u64 = 1;

    /// Ed25519.
    pub const ED25519: u64 = 6;
}
