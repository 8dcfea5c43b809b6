//! The law of a key's runs.

ghost use Rattle.key_runs.specs.Signed.{SignedRuns};
ghost use Rattle.key_runs.specs.Vouched.{KeyRuns, LoadedRuns};

/// Whatever is done to a security key that takes PINs, and that begins without a token: what is done to its PIN is calls of clientPIN, of
/// grants and of their ends. A request is granted only by a token that one of these calls gave for the right PIN, with no change of the
/// PIN, power cycle, reset or end of the token since; for its rp id, and over its hash. And the authenticator is handed a verified user only with
/// such a request. Each entry that it signs with UV is of such a request, by a getNextAssertion too. It is so from each load of
/// a PIN on, by the PIN that was loaded.
pub fn key_runs()
    ensures runs { KeyRuns }
    ensures loaded { LoadedRuns }
    ensures signed { SignedRuns }
{
    key_pin::pin_laws();
    authdata::one_reading();
}
