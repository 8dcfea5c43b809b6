//! What a sealed text holds of a ceremony that has begun.

ghost use Rattle.std.specs.Prelude.{◌≡◌, ◌<◌, ◌≤◌, ◌-◌, ◌↔◌, IfOk, IsTrue, map, option_map};
ghost use Rattle.verification.specs.Views.{sign_in_view};
ghost use Rattle.site_seal.specs.Seal.{Allows, AreExpectedIds, IsExpectedOf, IsExpectedUser, NamesUser, id_hash, user_hash};
ghost use Rattle.site_seal.specs.Views.{sealed_view};

use crate::hmac::{are_equal, hmac_sha256};
use std::alloc::{AllocError, Global};
use verification::{RegistrationSession, SignInSession};

/// A sign-in that has begun, as its text holds it.
#[derive(Debug, Drop)]
pub struct OpenedSignIn {
    /// The hash of the user's handle under the site's key, where a user is named.
    pub user: Option<[u8; 32]>,
    /// The hashes of the ids of the credentials that may answer; none for any.
    pub allow: Vec<[u8; 32]>,
    /// Whether user verification (UV) is required.
    pub uv: bool,
    /// The challenge.
    pub challenge: [u8; 32],
}

/// A ceremony that has begun, as its text holds it.
#[derive(Debug, Drop)]
pub enum OpenedCeremony {
    /// A registration.
    Registration(RegistrationSession),
    /// A sign-in.
    SignIn(OpenedSignIn),
}

/// What an opened text says.
#[derive(Debug, Drop)]
pub struct Opened {
    /// The second at which the ceremony ends.
    pub ends: u64,
    /// The ceremony.
    pub ceremony: OpenedCeremony,
}

/// The hash of a user handle in the sign-in of this challenge.
pub(crate) fn user_hash(key: &[u8; 32], challenge: &[u8; 32], handle: &[u8]) -> [u8; 32]
    ensures { result ≡ user_hash key.now challenge.now handle.now }
{
    hmac_sha256(key, &[&[2], challenge, handle])
}

/// The hash of a credential id in the sign-in of this challenge.
pub(crate) fn id_hash(key: &[u8; 32], challenge: &[u8; 32], id: &[u8]) -> [u8; 32]
    ensures { result ≡ id_hash key.now challenge.now id.now }
{
    hmac_sha256(key, &[&[3], challenge, id])
}

impl OpenedSignIn {
    /// Whether no user is named, or the user of this handle. The key is the one that opened the text.
    pub fn names_user(&self, key: &[u8; 32], handle: &[u8]) -> bool
        ensures { IsTrue result ↔ NamesUser key.now (sealed_view self.now) handle.now }
    {
        match &self.user {
            None => true,
            Some(user) => are_equal(user, &user_hash(key, &self.challenge, handle)),
        }
    }

    /// Whether no credential is listed, or the one of this id. The key is the one that opened the text.
    pub fn allows(&self, key: &[u8; 32], id: &[u8]) -> bool
        ensures { IsTrue result ↔ Allows key.now (sealed_view self.now) id.now }
    {
        if self.allow.is_empty() {
            return true;
        }
        let wanted = id_hash(key, &self.challenge, id);
        for allowed in &self.allow {
            if are_equal(allowed, &wanted) {
                return true;
            }
        }
        false
    }

    /// The user that is expected of a credential of this user.
    fn expected_user(
        &self,
        alloc: Global,
        key: &[u8; 32],
        handle: &[u8],
    ) -> Result<Option<Vec<u8>>, AllocError>
        ensures { IfOk result (λ user. IsExpectedUser key.now (sealed_view self.now) handle.now (option_map (λ u. u.items) user)) }
    {
        if self.user.is_none() {
            return Ok(None);
        }
        if self.names_user(key, handle) {
            Ok(Some(Vec::from_slice(alloc, handle)?))
        } else {
            Ok(Some(Vec::new(alloc)))
        }
    }

    /// The ids that are expected of a credential of this id.
    fn expected_ids(
        &self,
        alloc: Global,
        key: &[u8; 32],
        id: &[u8],
    ) -> Result<Vec<Vec<u8>>, AllocError>
        ensures { IfOk result (λ ids. AreExpectedIds key.now (sealed_view self.now) id.now (map (λ id. id.items) ids.items)) }
    {
        let mut ids = Vec::new(alloc);
        if self.allow.is_empty() {
            return Ok(ids);
        }
        if self.allows(key, id) {
            ids.push(Vec::from_slice(alloc, id)?)?;
        } else {
            ids.push(Vec::new(alloc))?;
        }
        Ok(ids)
    }

    /// What the sign-in expects, as [`verify_assertion`](verification::verify_assertion) asks it of a response with this
    /// credential id, where `user` is the user of the credential that is registered under it: that user, where it is named,
    /// and that id, where it is listed. Where another is, a handle or an id of no bytes stands there, which no credential has,
    /// so the response is refused by the step that it fails.
    pub fn expected(
        &self,
        alloc: Global,
        key: &[u8; 32],
        user: &[u8],
        id: &[u8],
    ) -> Result<SignInSession, AllocError>
        ensures { IfOk result (λ e. IsExpectedOf key.now (sealed_view self.now) user.now id.now (sign_in_view e)) }
    {
        Ok(SignInSession {
            user: self.expected_user(alloc, key, user)?,
            allow: self.expected_ids(alloc, key, id)?,
            uv: self.uv,
            challenge: self.challenge,
        })
    }
}
