//! What a host passes, lent, and what it gets. Presence is answered by flags, never by emptiness: where a flag is
//! clear, the members that go with it are not looked at. A flag that is passed is a byte, set unless it is 0.

/// Bytes: where they begin, and how many they are.
#[repr(C)]
#[derive(Clone, Copy, Drop)]
pub struct Bytes<'a> {
    /// The bytes.
    pub bytes: &'a [u8],
}

/// A public key by its coordinates (RFC 9053, section 7), or an RSA key by its numbers (RFC 8230, section 4).
#[repr(C)]
#[derive(Clone, Copy, Drop)]
pub struct KeyParts<'a> {
    /// The algorithm's COSE number: -7, ES256 over P-256, -8, EdDSA over Ed25519, or -257, RS256.
    pub algorithm: i32,
    /// Of P-256 the coordinate x, big-endian; of Ed25519 the public key: 32 bytes. Of RSA the modulus, big-endian:
    /// 256, 384 or 512 bytes, the first not zero, the last odd.
    pub x: &'a [u8],
    /// Of P-256 the coordinate y, big-endian: 32 bytes. Of Ed25519 it is not looked at. Of RSA the public exponent,
    /// big-endian: 1 to 4 bytes, the first not zero, the last odd, at least 3.
    pub y: &'a [u8],
}

/// A relying party.
#[repr(C)]
#[derive(Clone, Copy, Drop)]
pub struct PartyParts<'a> {
    /// The rp id: UTF-8.
    pub rp_id: &'a [u8],
    /// The origins of its pages, each in UTF-8.
    pub origins: &'a [Bytes<'a>],
    /// Which responses are taken: 0 the strict profile, 1 the open one, 2 that of Level 3.
    pub profile: u8,
    /// The origins of other sites' pages that may frame its own, each in UTF-8. Level 3 alone looks at them.
    pub top_origins: &'a [Bytes<'a>],
}

/// A public key, a message and a signature, of which the host found that the signature is valid.
#[repr(C)]
#[derive(Clone, Copy, Drop)]
pub struct VerifiedParts<'a> {
    /// The public key.
    pub key: KeyParts<'a>,
    /// The message.
    pub message: &'a [u8],
    /// The signature.
    pub signature: &'a [u8],
}

/// What a sign-in that has begun expects.
#[repr(C)]
#[derive(Clone, Copy, Drop)]
pub struct SignInParts<'a> {
    /// The challenge: 32 bytes.
    pub challenge: &'a [u8],
    /// Whether user verification (UV) is required.
    pub user_verification: u8,
    /// Whether the account that signs in is known beforehand.
    pub has_user: u8,
    /// Its user handle.
    pub user: &'a [u8],
    /// The ids of the credentials that may answer; none for any.
    pub allow: &'a [Bytes<'a>],
}

/// A registered credential.
#[repr(C)]
#[derive(Clone, Copy, Drop)]
pub struct CredentialParts<'a> {
    /// The credential id.
    pub id: &'a [u8],
    /// The user handle.
    pub user: &'a [u8],
    /// The public key.
    pub key: KeyParts<'a>,
    /// The signature counter last received.
    pub sign_count: u32,
    /// Whether it is known if the credential is eligible for backup.
    pub is_eligibility_known: u8,
    /// Whether the credential is eligible for backup (BE).
    pub eligible: u8,
    /// Whether the credential is retired: it signs in no more.
    pub retired: u8,
}

/// A client's answer to a sign-in.
#[repr(C)]
#[derive(Clone, Copy, Drop)]
pub struct AnswerParts<'a> {
    /// The credential id.
    pub credential: &'a [u8],
    /// Whether the authenticator sent a user handle.
    pub has_user: u8,
    /// The user handle.
    pub user: &'a [u8],
    /// The authenticator data as they came.
    pub auth_data: &'a [u8],
    /// The signature.
    pub signature: &'a [u8],
    /// The client data as they came.
    pub client_data: &'a [u8],
}

/// A sign-in to be judged.
#[repr(C)]
#[derive(Clone, Copy, Drop)]
pub struct AssertionCall<'a> {
    /// The relying party.
    pub party: PartyParts<'a>,
    /// Whether a session is open for sign-in.
    pub has_session: u8,
    /// What it expects.
    pub session: SignInParts<'a>,
    /// Whether a credential was found for the response.
    pub has_credential: u8,
    /// The credential.
    pub credential: CredentialParts<'a>,
    /// The client's answer.
    pub response: AnswerParts<'a>,
    /// Whether the host verified a signature.
    pub has_verified: u8,
    /// The signature that it verified, with key and message.
    pub verified: VerifiedParts<'a>,
}

/// What a sign-in that is accepted says.
#[repr(C)]
#[derive(Clone, Copy, Debug, PartialEq, Eq, Drop)]
pub struct AssertionOut {
    /// The signature counter that was received: the credential's from now on.
    pub sign_count: u32,
    /// Whether the credential is eligible for backup (BE), to be stored where it was unknown.
    pub eligible: bool,
    /// Whether the credential is backed up now (BS).
    pub backed_up: bool,
    /// Whether the user was verified (UV).
    pub user_verified: bool,
    /// The flags of the authenticator data, by their bits (WebAuthn Level 2, section 6.1).
    pub flags: u8,
    /// How many bytes the map of extensions has, the last ones of the authenticator data: 0 where there is none.
    pub extensions_size: usize,
}

/// What a registration that has begun expects.
#[repr(C)]
#[derive(Clone, Copy, Drop)]
pub struct RegisterParts<'a> {
    /// The challenge: 32 bytes.
    pub challenge: &'a [u8],
    /// The user handle of the account.
    pub user: &'a [u8],
    /// Whether user verification (UV) is required.
    pub user_verification: u8,
    /// Whether ES256 was offered (-7).
    pub offers_es256: u8,
    /// Whether EdDSA was offered (-8).
    pub offers_eddsa: u8,
    /// Whether RS256 was offered (-257).
    pub offers_rs256: u8,
    /// Whether it was begun as a conditional create. Level 3 alone looks at it.
    pub conditional: u8,
    /// Whether an attestation was asked for. Level 3 alone looks at it.
    pub attestation: u8,
}

/// A client's answer to a registration.
#[repr(C)]
#[derive(Clone, Copy, Drop)]
pub struct AttestationParts<'a> {
    /// The attestation object as it came.
    pub object: &'a [u8],
    /// The client data as they came.
    pub client_data: &'a [u8],
}

/// A registration to be judged.
#[repr(C)]
#[derive(Clone, Copy, Drop)]
pub struct RegistrationCall<'a> {
    /// The relying party.
    pub party: PartyParts<'a>,
    /// Whether no attestation is accepted.
    pub accept_none: u8,
    /// Whether self attestation is accepted.
    pub accept_self: u8,
    /// Whether a session is open for registration.
    pub has_session: u8,
    /// What it expects.
    pub session: RegisterParts<'a>,
    /// The client's answer.
    pub response: AttestationParts<'a>,
    /// Whether the host found that no credential has the id that follows, retired or not.
    pub is_free: u8,
    /// The credential id as the client names it (`rawId`).
    pub raw_id: &'a [u8],
    /// Whether there is no room for another credential.
    pub is_full: u8,
    /// Whether the host verified a signature.
    pub has_verified: u8,
    /// The signature that it verified, with key and message.
    pub verified: VerifiedParts<'a>,
}

/// A public key that is answered.
#[repr(C)]
#[derive(Drop)]
pub struct KeyOut {
    /// The key's algorithm: -7, ES256, -8, EdDSA, or -257, RS256.
    pub algorithm: i32,
    /// How many bytes the key's x has.
    pub x_size: usize,
    /// The key's x, of RSA the modulus, and after it what was there.
    pub x: [u8; 512],
    /// How many bytes the key's y has: none of EdDSA.
    pub y_size: usize,
    /// The key's y, of RSA the public exponent, and after it what was there.
    pub y: [u8; 32],
}

/// The credential of a registration that is accepted.
#[repr(C)]
#[derive(Drop)]
pub struct RegistrationOut {
    /// How many bytes the credential id has.
    pub id_size: usize,
    /// The credential id, and after it what was there.
    pub id: [u8; 1023],
    /// The public key.
    pub key: KeyOut,
    /// The signature counter that was received.
    pub sign_count: u32,
    /// Whether the credential is eligible for backup (BE).
    pub eligible: bool,
    /// Whether the credential is backed up now (BS).
    pub backed_up: bool,
    /// Whether the user was verified (UV).
    pub user_verified: bool,
    /// The flags of the authenticator data, by their bits (WebAuthn Level 2, section 6.1).
    pub flags: u8,
    /// The kind of the authenticator, by its own word.
    pub aaguid: [u8; 16],
    /// How the credential is attested: 0, not at all, or 1, by a packed statement with a signature of its own key.
    pub format: u32,
    /// How many bytes the map of extensions has, the last ones of the attestation object: 0 where there is none.
    pub extensions_size: usize,
}

/// A response whose signature is to be verified.
#[repr(C)]
#[derive(Clone, Copy, Drop)]
pub struct SignatureCall<'a> {
    /// Whether it answers a registration; else a sign-in.
    pub is_registration: u8,
    /// Of a registration: which responses are taken, as `PartyParts` has it.
    pub profile: u8,
    /// Of a registration: the client's answer.
    pub registration: AttestationParts<'a>,
    /// Of a sign-in: the client's answer.
    pub assertion: AnswerParts<'a>,
    /// Of a sign-in: the public key of the credential.
    pub key: KeyParts<'a>,
    /// Of a registration: whether an attestation was asked for. Level 3 alone looks at it.
    pub attestation: u8,
}

/// Which signature the host is to verify.
#[repr(C)]
#[derive(Drop)]
pub struct SignatureOut {
    /// Whether there is one; else the other members say nothing.
    pub is_asked: bool,
    /// The public key.
    pub key: KeyOut,
    /// How many bytes of the room are the message.
    pub message_size: usize,
    /// How many bytes of the room are the signature.
    pub signature_size: usize,
}
