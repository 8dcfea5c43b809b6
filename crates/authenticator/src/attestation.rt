//! Attestations of new credentials (WebAuthn Level 2, section 6.5).

ghost use Rattle.std.specs.Prelude.{◌≡◌, ◌+◌, ◌++◌, ◌≤◌, IfOk, false, length, true};
ghost use Rattle.ccbor.specs.View.{view};
ghost use Rattle.cose.specs.Keys.{encoded_length, signed_alg};
ghost use Rattle.authdata.specs.Flags as bits;
ghost use Rattle.authdata.specs.declared.profile.Profile.TheVariants.{Strict};
ghost use Rattle.authdata.specs.Layout.{AuthOf};
ghost use Rattle.authdata.specs.Statements.{none_statement, packed_statement};
ghost use Rattle.ctap_requests.specs.RequestView.{creation_view};
ghost use Rattle.authenticator.specs.Private.{asks_verified};
ghost use Rattle.authenticator.specs.Steps.{creation_data, uv_bit};

use crate::authenticator::Authenticator;
use authdata::flags::{AT, UP, UV};
use authdata::{Attested, AuthData};
use ccbor::Value;
use cose::{CoseKey, SigningAlg};
use ctap_requests::MakeCredential;
use sha2::{Digest, Sha256};
use std::alloc::{AllocError, Global};

/// The flags of a new credential's authenticator data.
fn flags(uv: bool) -> u8
    ensures value { result ≡ 0x41 + uv_bit uv }
    ensures attested { bits.is_set result bits.AT ≡ true }
    ensures no_extensions { bits.is_set result bits.ED ≡ false }
{
    if uv { UP | UV | AT } else { UP | AT }
}

/// The statement of no attestation (WebAuthn Level 2, section 8.7).
pub(crate) fn no_statement(alloc: Global) -> Value
    ensures { view result ≡ none_statement }
{
    Value::Map(Vec::new(alloc))
}

/// The statement of packed self attestation (WebAuthn Level 2, section 8.2).
pub(crate) fn packed(
    alloc: Global,
    alg: SigningAlg,
    signature: Vec<u8>,
) -> Result<Value, AllocError>
    ensures { IfOk result (λ v. view v ≡ packed_statement (signed_alg alg) signature.items) }
{
    let mut members = Vec::with_capacity(alloc, 2)?;
    members.push((
        Value::Text(String::from_str(alloc, "alg")?),
        Value::Nint(alg.alg().argument()),
    ))?;
    members.push((
        Value::Text(String::from_str(alloc, "sig")?),
        Value::Bytes(signature),
    ))?;
    Ok(Value::Map(members))
}

impl Authenticator {
    /// The bytes of a new credential's authenticator data.
    pub(crate) fn creation_data(
        &self,
        alloc: Global,
        request: &MakeCredential,
        id: &[u8; 32],
        key: CoseKey,
        uv: bool,
    ) -> Result<Vec<u8>, AllocError>
        requires key { encoded_length key ≤ 77 }
        requires uv { uv ≡ asks_verified (creation_view request.now) }
        ensures spelled { IfOk result (λ bytes. AuthOf Strict (creation_data self.now (creation_view request.now) id.now key) bytes.items) }
        ensures size { IfOk result (λ bytes. length bytes.items ≤ 164) }
    {
        let attested = Attested {
            aaguid: self.aaguid,
            id: Vec::from_slice(alloc, id)?,
            key,
        };
        let data = AuthData {
            rp_id_hash: Sha256::digest(request.rp.id.as_bytes()),
            flags: flags(uv),
            sign_count: 0,
            attested: Some(attested),
        };
        authdata::write(alloc, &data)
    }
}
