//! Loading an authenticator.

ghost use Rattle.std.specs.Prelude.{◌≡◌, ◌<◌, ◌↔◌, ◌++◌, ◌∷◌, [], IfOk, IsErrOf, OnOk, IsTrue, List, None, length, map};
ghost use Rattle.refusal_order.specs.Lines.{Each};
ghost use Rattle.ccbor.specs.View.{items_of};
ghost use Rattle.ccbor.specs.Viewing.{shown_items};
ghost use Rattle.authenticator.specs.Credentials.{credential_of};
ghost use Rattle.authenticator.specs.Laws.{SoundState};
ghost use Rattle.authenticator.specs.Private.{IsStore, source_shown};
ghost use Rattle.authenticator.specs.Saved.{IsSource, SavedOf, is_self_signed, source_item};
ghost use Rattle.authenticator.specs.State.{AuthenticatorState, CredentialSource};
ghost use Rattle.authenticator.specs.Views.{credential_source_view, credential_sources_view};
ghost use Rattle.authenticator.specs.declared.error.LoadError.TheVariants as errors;

use crate::authenticator::Authenticator;
use crate::credential::StoredCredential;
use crate::credentials::find;
use crate::error::LoadError;
use crate::make_credential::MAX_CREDENTIALS;
use crate::members::SourceView;
use crate::reading::{members, source};
use authdata::AttestationType;
use ccbor::{ArrayView, View};
use sha2::{Digest, Sha256};
use std::alloc::{AllocError, Global};

/// How new credentials are attested.
fn attestation(self_signed: bool) -> AttestationType
    ensures { is_self_signed result ≡ self_signed }
{
    if self_signed {
        AttestationType::SelfSigned
    } else {
        AttestationType::None
    }
}

/// Appends the credential, copied out.
fn push_copy(
    alloc: Global,
    credentials: &mut Vec<StoredCredential>,
    source: &SourceView<'_>,
) -> Result<(), AllocError>
    ensures { OnOk result (credential_sources_view credentials.new.items
        ≡ credential_sources_view credentials.old.items ++ source_shown source.now ∷ []) }
{
    credentials.push(StoredCredential {
        id: source.id,
        rp_id: String::from_str(alloc, source.rp_id)?,
        rp_id_hash: Sha256::digest(source.rp_id.as_bytes()),
        user: Vec::from_slice(alloc, source.user)?,
        secret: source.secret,
        alg: source.alg,
        resident: source.resident,
        sign_count: source.sign_count,
    })?;
    Ok(())
}

/// Whether one more credential, of this id, may stand after these.
fn admits(credentials: &[StoredCredential], id: &[u8; 32]) -> bool
    ensures { IsTrue result ↔ ((length (credential_sources_view credentials.now) < 256)
        × (credential_of id.now (credential_sources_view credentials.now) ≡ None)) }
{
    credentials.len() < MAX_CREDENTIALS && find(credentials, id).is_none()
}

/// The credentials that have these maps.
fn credentials_in(alloc: Global, items: ArrayView<'_>) -> Result<Vec<StoredCredential>, LoadError>
    ensures limits { IfOk result (λ v. IsStore (credential_sources_view v.items)) }
    ensures read { IfOk result (λ v. Each IsSource (credential_sources_view v.items)
        × (shown_items items.entry ≡ items_of (map source_item (credential_sources_view v.items)))) }
    // It is refused only if there are none.
    ensures none { IsErrOf result errors.BadAuthenticator → (cs : List CredentialSource) → IsStore cs → Each IsSource cs
        → shown_items items.entry ≡ items_of (map source_item cs) → ⊥ }
{
    let mut rest = items;
    let mut credentials = Vec::new(alloc);
    while let Some((item, after)) = rest.split_first() {
        let Some(found) = source(&item) else {
            return Err(LoadError::BadAuthenticator);
        };
        if !admits(&credentials, &found.id) {
            return Err(LoadError::BadAuthenticator);
        }
        push_copy(alloc, &mut credentials, &found)?;
        rest = after;
    }
    Ok(credentials)
}

impl Authenticator {
    /// The authenticator that [`save`](Authenticator::save) was called on, without what it remembered of a getAssertion.
    ///
    /// Refused as `BadAuthenticator` (30) where the bytes are not of version 1, not the whole of one canonical map, or where
    /// what they hold is nothing that an authenticator keeps: an aaguid that is not of 16 bytes, an id or a secret that is not of
    /// 32, a user handle that is not of 1 to 64, another algorithm than ES256 and EdDSA, a counter above 2^32 - 1, an id twice,
    /// more than 256 credentials, another member. Otherwise only `Memory` is answered.
    pub fn load(alloc: Global, bytes: &[u8]) -> Result<Authenticator, LoadError>
        ensures loaded { IfOk result (λ a. SavedOf a bytes.now) }
        ensures sound { IfOk result SoundState }
        // It is refused only where the bytes are no such authenticator's.
        ensures bad { IsErrOf result errors.BadAuthenticator → (a : AuthenticatorState) → SoundState a → SavedOf a bytes.now → ⊥ }
    {
        let Ok(value) = View::check_all(bytes) else {
            return Err(LoadError::BadAuthenticator);
        };
        let Some(found) = members(&value) else {
            return Err(LoadError::BadAuthenticator);
        };
        let credentials = credentials_in(alloc, found.credentials)?;
        Ok(Authenticator {
            aaguid: found.aaguid,
            uv: found.uv,
            attest: attestation(found.self_signed),
            credentials,
            remembered: None,
        })
    }
}
