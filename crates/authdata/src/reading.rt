//! Reading authenticator data.

ghost use Rattle.std.specs.Prelude.{◌≡◌, ◌≢◌, ◌≤◌, ◌<◌, ◌+◌, ◌++◌, ◌∷◌, drop, length, is_some, option_map, None, true, IfOk, IfSome, IfErr, IsErrOf, MatchOption};
ghost use Rattle.std.specs.Int.{w32, to_be_bytes};
ghost use Rattle.authdata.specs.Flags.{is_set, AT, ED};
ghost use Rattle.authdata.specs.declared.profile.Profile.TheVariants.{Strict};
ghost use Rattle.refusal_order.specs.Lines.{First};
ghost use Rattle.authdata.specs.Layout.{AuthenticatorData, AuthOf, IsAttestedCredential, attested_bytes, lent_auth_view, auth_view, credential_bytes};
ghost use Rattle.authdata.specs.Layout.{lent_attested_view, attested_view};
ghost use Rattle.authdata.specs.Refusals.{Applies, Refused, BeginsWithKey, IsIdLength, TakesMemory, flags_in, id_len_in, later_order, order};
ghost use Rattle.authdata.specs.Layout.{IsExtensionMap, extension_bytes};
ghost use Rattle.authdata.specs.Private.{BeginsWithExtensions, WrongCredential};
ghost use Rattle.authdata.specs.declared.error.Error.TheVariants as errors;

use crate::auth::{Attested, AttestedView, AuthData, AuthView};
use crate::error::Error;
use crate::flags;
use crate::parts::{extensions_front, id_len, is_short, key_front};
use crate::profile::Profile;
use std::alloc::{AllocError, Global};

/// The rp id's hash, the flags, the counter and the bytes after them.
fn fixed(bytes: &[u8]) -> Option<(&[u8; 32], u8, u32, &[u8])>
    ensures rest { MatchOption result (length bytes.now < 37) (λ x. x.3.now ≡ drop 37 bytes.now) }
    ensures parts { MatchOption result (length bytes.now < 37)
        (λ x. bytes.now ≡ x.0.now ++ (x.1 ∷ (to_be_bytes w32 x.2 ++ x.3.now))) }
    ensures flags { MatchOption result (length bytes.now < 37) (λ x. x.1 ≡ flags_in bytes.now) }
    ensures hash { MatchOption result (length bytes.now < 37) (λ x. length x.0.now ≡ 32) }
{
    let (hash, rest) = bytes.split_first_chunk::<32>()?;
    let (flags, rest) = rest.split_first()?;
    let (count, rest) = rest.split_first_chunk::<4>()?;
    Some((hash, *flags, u32::from_be_bytes(*count), rest))
}

/// The attested credential data that begin at byte 37, and the bytes after them.
fn credential_at(profile: Profile, bytes: &[u8]) -> Result<(AttestedView<'_>, &[u8]), Error>
    requires { 55 + id_len_in bytes.now ≤ length bytes.now }
    ensures found { IfOk result (λ x. drop 37 bytes.now
        ≡ credential_bytes (lent_attested_view x.0) ++ x.1.now) }
    ensures is { IfOk result (λ x. IsAttestedCredential profile (lent_attested_view x.0)) }
    ensures id { IfOk result (λ x. IsIdLength profile (id_len_in bytes.now)) }
    ensures key { IfOk result (λ x. BeginsWithKey (drop (55 + id_len_in bytes.now) bytes.now)) }
    ensures refused { IfErr result (WrongCredential profile bytes.now) }
{
    let len = id_len(bytes) as usize;
    if len == 0 || profile.max_id() < len {
        return Err(Error::BadId);
    }
    let mut aaguid = [0; 16];
    aaguid.copy_from_slice(&bytes[37..53]);
    let id = &bytes[55..55 + len];
    match key_front(&bytes[55 + len..]) {
        Ok((key, rest)) => Ok((AttestedView { aaguid, id, key }, rest)),
        Err(e) => Err(e),
    }
}

/// The attested credential data, if the flags say that there are any, and the bytes after them.
fn attested_at(profile: Profile, bytes: &[u8]) -> Result<(Option<AttestedView<'_>>, &[u8]), Error>
    requires { Applies profile bytes.now errors.Short → ⊥ }
    ensures found { IfOk result (λ x. drop 37 bytes.now
        ≡ attested_bytes (option_map lent_attested_view x.0) ++ x.1.now) }
    ensures is { IfOk result (λ x. IfSome (option_map lent_attested_view x.0) (IsAttestedCredential profile)) }
    ensures flag { IfOk result (λ x. is_set (flags_in bytes.now) AT ≡ is_some x.0) }
    ensures good_id { IfOk result (λ x. Applies profile bytes.now errors.BadId → ⊥) }
    ensures good_key { IfOk result (λ x. Applies profile bytes.now errors.BadKey → ⊥) }
    ensures refused { IfErr result (First (Applies profile bytes.now) later_order) }
{
    if flags::is_set(bytes[32], flags::AT) {
        match credential_at(profile, bytes) {
            Ok((credential, rest)) => Ok((Some(credential), rest)),
            Err(e) => Err(e),
        }
    } else {
        Ok((None, &bytes[37..]))
    }
}

/// The extensions, if the flags say that there are any, and the bytes after them.
fn extensions_at(flags: u8, bytes: &[u8]) -> Option<(Option<&[u8]>, &[u8])>
    ensures found { IfSome result (λ x. bytes.now ≡ extension_bytes (option_map (λ b. b.now) x.0) ++ x.1.now) }
    ensures is { IfSome result (λ x. IfSome (option_map (λ b. b.now) x.0) IsExtensionMap) }
    ensures flag { IfSome result (λ x. is_set flags ED ≡ is_some x.0) }
    ensures none { result ≡ None → (is_set flags ED ≡ true) × (BeginsWithExtensions bytes.now → ⊥) }
{
    if !flags::is_set(flags, flags::ED) {
        return Some((None, bytes));
    }
    let (extensions, rest) = extensions_front(bytes)?;
    Some((Some(extensions), rest))
}

/// The authenticator data of this profile that the bytes are, with the reserved flags as they came, read where they
/// lie: no memory is taken.
///
/// Refused with the first of these that applies: `Short` for fewer than 37 bytes, or where `AT`
/// is set for fewer than 55 and the credential id's length; `Extensions` where `ED` is set, in the strict profile;
/// `BadBackup` where `BS` is set and `BE` is clear; `BadId` for a credential id of no byte or of more than 64, in the
/// open profile 1,023; `BadKey` where no canonical encoding of a key follows the id; `BadExtensions` where `ED` is set
/// and no map of canonical CBOR with text keys follows; `ExtraBytes` where bytes are left.
pub fn read_view(profile: Profile, bytes: &[u8]) -> Result<AuthView<'_>, Error>
    ensures found { IfOk result (λ a. AuthOf profile (lent_auth_view a) bytes.now) }
    // It is refused by the first refusal that applies,
    ensures refused { IfErr result (First (Applies profile bytes.now) order) }
    // and only where the bytes are no authenticator data.
    ensures none { IfErr result (λ _. (a : AuthenticatorData) → AuthOf profile a bytes.now → ⊥) }
{
    if is_short(bytes) {
        return Err(Error::Short);
    }
    let Some((hash, flags, sign_count, _)) = fixed(bytes) else {
        return Err(Error::Short);
    };
    if profile.bars_extensions(flags) {
        return Err(Error::Extensions);
    }
    if !flags::has_backup(flags) {
        return Err(Error::BadBackup);
    }
    // A match, since `?` would hide that the refusal is the callee's.
    let (attested, rest) = match attested_at(profile, bytes) {
        Ok((attested, rest)) => (attested, rest),
        Err(e) => return Err(e),
    };
    let Some((extensions, rest)) = extensions_at(flags, rest) else {
        return Err(Error::BadExtensions);
    };
    if 0 < rest.len() {
        return Err(Error::ExtraBytes);
    }
    let rp_id_hash = *hash;
    Ok(AuthView {
        rp_id_hash,
        flags,
        sign_count,
        attested,
        extensions,
    })
}

/// The credential, copied out.
fn owned(alloc: Global, credential: &AttestedView<'_>) -> Result<Attested, AllocError>
    requires { IsAttestedCredential Strict (lent_attested_view credential.now) }
    ensures { IfOk result (λ c. attested_view c ≡ lent_attested_view credential.now) }
{
    Ok(Attested {
        aaguid: credential.aaguid,
        id: Vec::from_slice(alloc, credential.id)?,
        key: credential.key.to_key(alloc)?,
    })
}

/// The authenticator data of the strict profile that the bytes are, as `read_view`, with the credential id and the key copied.
///
/// Refused as there. `Memory` is answered only where the bytes are authenticator data that attest a credential.
pub fn read(alloc: Global, bytes: &[u8]) -> Result<AuthData, Error>
    ensures found { IfOk result (λ a. AuthOf Strict (auth_view a) bytes.now) }
    // It is refused by the first refusal that applies,
    ensures refused { IfErr result (λ e. Refused Strict bytes.now e) }
    // and only where the bytes are no authenticator data.
    ensures none { IfErr result (λ e. e ≢ errors.Memory
        → (a : AuthenticatorData) → AuthOf Strict a bytes.now → ⊥) }
    // Memory is wanting only where there is a credential to copy.
    ensures memory { IsErrOf result Error.Memory → TakesMemory bytes.now }
{
    let view = read_view(Profile::Strict, bytes)?;
    let attested = match &view.attested {
        Some(credential) => Some(owned(alloc, credential)?),
        None => None,
    };
    Ok(AuthData {
        rp_id_hash: view.rp_id_hash,
        flags: view.flags,
        sign_count: view.sign_count,
        attested,
    })
}
