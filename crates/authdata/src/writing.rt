//! Writing authenticator data.

ghost use Rattle.std.specs.Prelude.{◌≡◌, ◌≤◌, ◌+◌, ◌++◌, IfOk, OnOk, length};
ghost use Rattle.std.specs.Int.{w32, to_be_bytes};
ghost use Rattle.cose.specs.Keys.{IsKey, encoded_length, lent_key_view};
ghost use Rattle.authdata.specs.declared.profile.Profile.TheVariants.{Strict};
ghost use Rattle.authdata.specs.Layout.{AuthOf, IsAttestedCredential, auth_view, credential_bytes, attested_view, key_bytes};

use crate::auth::{Attested, AuthData};
use byteorder::{BigEndian, ByteOrder};
use ccbor::encode;
use cose::KeyView;
use std::alloc::{AllocError, Global};

/// Appends the key's encoding.
fn put_key(alloc: Global, key: &KeyView<'_>, out: &mut Vec<u8>) -> Result<(), AllocError>
    ensures appended { OnOk result (out.new.items ≡ out.old.items ++ key_bytes (lent_key_view key.now)) }
    ensures is { OnOk result (IsKey (lent_key_view key.now)) }
{
    let value = key.to_value(alloc)?;
    match encode(&value, out) {
        Ok(()) => Ok(()),
        Err(ccbor::Error::Unfit) => unreachable!("a key has an encoding"),
        Err(_) => Err(AllocError),
    }
}

/// Appends attested credential data.
fn put_credential(alloc: Global, credential: &Attested, out: &mut Vec<u8>) -> Result<(), AllocError>
    ensures appended { OnOk result (out.new.items
        ≡ out.old.items ++ credential_bytes (attested_view credential.now)) }
    ensures is { OnOk result (IsAttestedCredential Strict (attested_view credential.now)) }
{
    let mut id_length = [0; 2];
    BigEndian::write_u16(&mut id_length, credential.id.len() as u16);
    out.extend_from_slice(&credential.aaguid)?;
    out.extend_from_slice(&id_length)?;
    out.extend_from_slice(credential.id.as_slice())?;
    put_key(alloc, &credential.key.view(), out)
}

/// How many bytes the key's encoding has.
fn key_length(key: &KeyView<'_>) -> usize
    ensures exact { result ≡ encoded_length (lent_key_view key.now) }
    ensures most { result ≤ 529 }
{
    match key {
        KeyView::Es256 { .. } => 77,
        KeyView::EdDsa { .. } => 42,
        KeyView::Rs256(key) => 13 + key.n.len() + key.e.len(),
    }
}

/// How many bytes attested credential data have.
fn credential_length(credential: &Attested) -> usize
    ensures exact { result ≡ 18 + length credential.now.id.items + encoded_length credential.now.key }
    ensures most { result ≤ 611 }
{
    18 + credential.id.len() + key_length(&credential.key.view())
}

/// A signature counter in 4 big-endian bytes.
fn count_bytes(sign_count: u32) -> [u8; 4]
    ensures { result ≡ to_be_bytes w32 sign_count }
{
    let mut bytes = [0; 4];
    BigEndian::write_u32(&mut bytes, sign_count);
    bytes
}

/// The bytes of authenticator data (WebAuthn section 6.1), which have no extensions: 37, and with a credential those of its
/// id, its key (77 for ES256, 42 for EdDSA, for RS256 13 more than its modulus and its exponent) and 18 more.
pub fn write(alloc: Global, auth: &AuthData) -> Result<Vec<u8>, AllocError>
    ensures { IfOk result (λ bytes. AuthOf Strict (auth_view auth.now) bytes.items) }
{
    let credential_length = match &auth.attested {
        Some(credential) => credential_length(credential),
        None => 0,
    };
    let mut out = Vec::with_capacity(alloc, 37 + credential_length)?;
    out.extend_from_slice(&auth.rp_id_hash)?;
    out.push(auth.flags)?;
    out.extend_from_slice(&count_bytes(auth.sign_count))?;
    match &auth.attested {
        Some(credential) => put_credential(alloc, credential, &mut out)?,
        None => {}
    }
    Ok(out)
}
