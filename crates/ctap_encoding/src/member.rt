//! The members of requests' and replies' maps by their numbers (CTAP 2.1, sections 6.1 to 6.5), under the standard's names.

/// A request of authenticatorMakeCredential (section 6.1).
pub mod make_credential {
    use ccbor::MapKey;

    /// `clientDataHash`.
    pub const CLIENT_DATA_HASH: MapKey<'static> = MapKey::Uint(0x01);

    /// `rp`.
    pub const RP: MapKey<'static> = MapKey::Uint(0x02);

    /// `user`.
    pub const USER: MapKey<'static> = MapKey::Uint(0x03);

    /// `pubKeyCredParams`.
    pub const PUB_KEY_CRED_PARAMS: MapKey<'static> = MapKey::Uint(0x04);

    /// `excludeList`.
    pub const EXCLUDE_LIST: MapKey<'static> = MapKey::Uint(0x05);

    /// `extensions`.
    pub const EXTENSIONS: MapKey<'static> = MapKey::Uint(0x06);

    /// `options`, as a number.
    pub const OPTIONS_NUMBER: u64 = 0x07;

    /// `options`.
    pub const OPTIONS: MapKey<'static> = MapKey::Uint(OPTIONS_NUMBER);

    /// `pinUvAuthParam`, as a number.
    pub const PIN_UV_AUTH_PARAM_NUMBER: u64 = 0x08;

    /// `pinUvAuthParam`.
    pub const PIN_UV_AUTH_PARAM: MapKey<'static> = MapKey::Uint(PIN_UV_AUTH_PARAM_NUMBER);

    /// `pinUvAuthProtocol`, as a number.
    pub const PIN_UV_AUTH_PROTOCOL_NUMBER: u64 = 0x09;

    /// `pinUvAuthProtocol`.
    pub const PIN_UV_AUTH_PROTOCOL: MapKey<'static> = MapKey::Uint(PIN_UV_AUTH_PROTOCOL_NUMBER);
}

/// A reply to authenticatorMakeCredential (section 6.1).
pub mod make_credential_reply {
    use ccbor::MapKey;

    /// `fmt`.
    pub const FMT: MapKey<'static> = MapKey::Uint(0x01);

    /// `authData`.
    pub const AUTH_DATA: MapKey<'static> = MapKey::Uint(0x02);

    /// `attStmt`.
    pub const ATT_STMT: MapKey<'static> = MapKey::Uint(0x03);

    /// `epAtt`.
    pub const EP_ATT: MapKey<'static> = MapKey::Uint(0x04);

    /// `largeBlobKey`.
    pub const LARGE_BLOB_KEY: MapKey<'static> = MapKey::Uint(0x05);
}

/// A request of authenticatorGetAssertion (section 6.2).
pub mod get_assertion {
    use ccbor::MapKey;

    /// `rpId`.
    pub const RP_ID: MapKey<'static> = MapKey::Uint(0x01);

    /// `clientDataHash`.
    pub const CLIENT_DATA_HASH: MapKey<'static> = MapKey::Uint(0x02);

    /// `allowList`.
    pub const ALLOW_LIST: MapKey<'static> = MapKey::Uint(0x03);

    /// `extensions`.
    pub const EXTENSIONS: MapKey<'static> = MapKey::Uint(0x04);

    /// `options`, as a number.
    pub const OPTIONS_NUMBER: u64 = 0x05;

    /// `options`.
    pub const OPTIONS: MapKey<'static> = MapKey::Uint(OPTIONS_NUMBER);

    /// `pinUvAuthParam`, as a number.
    pub const PIN_UV_AUTH_PARAM_NUMBER: u64 = 0x06;

    /// `pinUvAuthParam`.
    pub const PIN_UV_AUTH_PARAM: MapKey<'static> = MapKey::Uint(PIN_UV_AUTH_PARAM_NUMBER);

    /// `pinUvAuthProtocol`, as a number.
    pub const PIN_UV_AUTH_PROTOCOL_NUMBER: u64 = 0x07;

    /// `pinUvAuthProtocol`.
    pub const PIN_UV_AUTH_PROTOCOL: MapKey<'static> = MapKey::Uint(PIN_UV_AUTH_PROTOCOL_NUMBER);
}

/// A reply to authenticatorGetAssertion or authenticatorGetNextAssertion (sections 6.2 and 6.3).
pub mod get_assertion_reply {
    use ccbor::MapKey;

    /// `credential`, as a number.
    pub const CREDENTIAL_NUMBER: u64 = 0x01;

    /// `credential`.
    pub const CREDENTIAL: MapKey<'static> = MapKey::Uint(CREDENTIAL_NUMBER);

    /// `authData`, as a number.
    pub const AUTH_DATA_NUMBER: u64 = 0x02;

    /// `authData`.
    pub const AUTH_DATA: MapKey<'static> = MapKey::Uint(AUTH_DATA_NUMBER);

    /// `signature`, as a number.
    pub const SIGNATURE_NUMBER: u64 = 0x03;

    /// `signature`.
    pub const SIGNATURE: MapKey<'static> = MapKey::Uint(SIGNATURE_NUMBER);

    /// `user`, as a number.
    pub const USER_NUMBER: u64 = 0x04;

    /// `user`.
    pub const USER: MapKey<'static> = MapKey::Uint(USER_NUMBER);

    /// `numberOfCredentials`, as a number.
    pub const NUMBER_OF_CREDENTIALS_NUMBER: u64 = 0x05;

    /// `numberOfCredentials`.
    pub const NUMBER_OF_CREDENTIALS: MapKey<'static> = MapKey::Uint(NUMBER_OF_CREDENTIALS_NUMBER);

    /// `userSelected`.
    pub const USER_SELECTED: MapKey<'static> = MapKey::Uint(0x06);

    /// `largeBlobKey`.
    pub const LARGE_BLOB_KEY: MapKey<'static> = MapKey::Uint(0x07);
}

/// A reply to authenticatorGetInfo (section 6.4).
pub mod get_info_reply {
    use ccbor::MapKey;

    /// `versions`.
    pub const VERSIONS: MapKey<'static> = MapKey::Uint(0x01);

    /// `extensions`.
    pub const EXTENSIONS: MapKey<'static> = MapKey::Uint(0x02);

    /// `aaguid`.
    pub const AAGUID: MapKey<'static> = MapKey::Uint(0x03);

    /// `options`.
    pub const OPTIONS: MapKey<'static> = MapKey::Uint(0x04);

    /// `maxMsgSize`.
    pub const MAX_MSG_SIZE: MapKey<'static> = MapKey::Uint(0x05);

    /// `pinUvAuthProtocols`.
    pub const PIN_UV_AUTH_PROTOCOLS: MapKey<'static> = MapKey::Uint(0x06);

    /// `maxCredentialCountInList`.
    pub const MAX_CREDENTIAL_COUNT_IN_LIST: MapKey<'static> = MapKey::Uint(0x07);

    /// `maxCredentialIdLength`.
    pub const MAX_CREDENTIAL_ID_LENGTH: MapKey<'static> = MapKey::Uint(0x08);

    /// `transports`.
    pub const TRANSPORTS: MapKey<'static> = MapKey::Uint(0x09);

    /// `algorithms`.
    pub const ALGORITHMS: MapKey<'static> = MapKey::Uint(0x0a);

    /// `minPINLength`.
    pub const MIN_PIN_LENGTH: MapKey<'static> = MapKey::Uint(0x0d);

    /// `firmwareVersion`.
    pub const FIRMWARE_VERSION: MapKey<'static> = MapKey::Uint(0x0e);

    /// `remainingDiscoverableCredentials`.
    pub const REMAINING_DISCOVERABLE_CREDENTIALS: MapKey<'static> = MapKey::Uint(0x14);
}

/// A request of authenticatorClientPIN (section 6.5.5).
pub mod client_pin {
    use ccbor::MapKey;

    /// `pinUvAuthProtocol`.
    pub const PIN_UV_AUTH_PROTOCOL: MapKey<'static> = MapKey::Uint(0x01);

    /// `subCommand`.
    pub const SUB_COMMAND: MapKey<'static> = MapKey::Uint(0x02);

    /// `keyAgreement`.
    pub const KEY_AGREEMENT: MapKey<'static> = MapKey::Uint(0x03);

    /// `pinUvAuthParam`.
    pub const PIN_UV_AUTH_PARAM: MapKey<'static> = MapKey::Uint(0x04);

    /// `newPinEnc`.
    pub const NEW_PIN_ENC: MapKey<'static> = MapKey::Uint(0x05);

    /// `pinHashEnc`.
    pub const PIN_HASH_ENC: MapKey<'static> = MapKey::Uint(0x06);

    /// `permissions`.
    pub const PERMISSIONS: MapKey<'static> = MapKey::Uint(0x09);

    /// `rpId`.
    pub const RP_ID: MapKey<'static> = MapKey::Uint(0x0a);
}

/// A reply to authenticatorClientPIN (section 6.5.5).
pub mod client_pin_reply {
    use ccbor::MapKey;

    /// `keyAgreement`.
    pub const KEY_AGREEMENT: MapKey<'static> = MapKey::Uint(0x01);

    /// `pinUvAuthToken`.
    pub const PIN_UV_AUTH_TOKEN: MapKey<'static> = MapKey::Uint(0x02);

    /// `pinRetries`.
    pub const PIN_RETRIES: MapKey<'static> = MapKey::Uint(0x03);

    /// `powerCycleState`.
    pub const POWER_CYCLE_STATE: MapKey<'static> = MapKey::Uint(0x04);

    /// `uvRetries`.
    pub const UV_RETRIES: MapKey<'static> = MapKey::Uint(0x05);
}

/// The input of the extension `hmac-secret` to authenticatorGetAssertion (section 12.5).
pub mod hmac_secret {
    use ccbor::MapKey;

    /// `keyAgreement`.
    pub const KEY_AGREEMENT: MapKey<'static> = MapKey::Uint(0x01);

    /// `saltEnc`.
    pub const SALT_ENC: MapKey<'static> = MapKey::Uint(0x02);

    /// `saltAuth`.
    pub const SALT_AUTH: MapKey<'static> = MapKey::Uint(0x03);

    /// `pinUvAuthProtocol`.
    pub const PIN_UV_AUTH_PROTOCOL: MapKey<'static> = MapKey::Uint(0x04);
}
