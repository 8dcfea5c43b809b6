//! What an attestation statement shows.

ghost use Rattle.std.specs.Prelude.{◌≡◌, ◌↔◌, ℕ, List, MatchOption, IsTrue};
ghost use Rattle.ccbor.specs.View.{view};
ghost use Rattle.ccbor.specs.Viewing.{shown};
ghost use Rattle.cose.specs.declared.key.Alg.{Alg};
ghost use Rattle.cose.specs.Keys.{lent_key_view};
ghost use Rattle.authdata.specs.Objects.{lent_object_view, object_view};
ghost use Rattle.authdata.specs.Statements.{IsSelfSignedBy, Statement, none_statement, packed_statement};

use crate::error::Error;
use crate::object::{AttestationObject, AttestationView};
use ccbor::{MapKey, Value, View, is_end, split_key};
use cose::{Alg, KeyView, Verifier};

/// How a credential is attested (WebAuthn section 6.5.3).
#[derive(Clone, Copy, Debug, PartialEq, Eq, Drop)]
pub enum AttestationType {
    /// Not at all.
    None,
    /// By a signature of its own key.
    SelfSigned,
}

/// Whether the statement is an empty map.
fn is_empty(statement: &Value) -> bool
    ensures { IsTrue result ↔ (view statement.now ≡ none_statement) }
{
    match statement.as_map() {
        Some(members) => is_end(members),
        None => false,
    }
}

/// The signature of a packed statement of this algorithm.
fn packed_signature(statement: &Value, alg: Alg) -> Option<&[u8]>
    ensures { MatchOption result
        ((sig : List ℕ) → view statement.now ≡ packed_statement alg sig → ⊥)
        (λ sig. view statement.now ≡ packed_statement alg sig.now) }
{
    let members = statement.as_map()?;
    let (number, members) = split_key(members, MapKey::Text("alg"))?;
    let (sig, members) = split_key(members, MapKey::Text("sig"))?;
    if number.is_key(MapKey::Nint(alg.argument())) && is_end(members) {
        sig.as_bytes()
    } else {
        None
    }
}

/// How the object attests a credential of this key, given SHA-256 of the client data. It takes no
/// memory.
///
/// Refused as `UnknownFormat` where the format is neither `none` nor `packed`. For `none` the
/// statement is empty (WebAuthn section 8.7). For `packed` it is exactly `alg`, the key's
/// algorithm number, and `sig`, bytes that are valid under the key for the authenticator data as
/// they came and then the hash (section 8.2, self attestation). Otherwise it is refused as
/// `BadStatement`; no other error is answered.
pub fn check_statement<V: Verifier>(
    scheme: &V,
    object: &AttestationObject,
    key: &KeyView<'_>,
    hash: &[u8; 32],
) -> Result<AttestationType, Error>
    ensures { Statement (V.valid scheme.now) (object_view object.now) (lent_key_view key.now) hash.now result }
{
    if object.fmt.as_str() == "none" {
        if is_empty(&object.statement) {
            return Ok(AttestationType::None);
        }
        return Err(Error::BadStatement);
    }
    if object.fmt.as_str() != "packed" {
        return Err(Error::UnknownFormat);
    }
    match packed_signature(&object.statement, key.alg()) {
        Some(sig) if scheme.verify(key, [object.auth_data.as_slice(), hash], sig) => {
            Ok(AttestationType::SelfSigned)
        }
        _ => Err(Error::BadStatement),
    }
}

/// Whether a statement that lies in bytes is an empty map.
fn is_empty_view(statement: &View<'_>) -> bool
    ensures { IsTrue result ↔ (shown statement.now ≡ none_statement) }
{
    match statement.as_map() {
        Some(members) => members.is_end(),
        None => false,
    }
}

/// The signature of a packed statement of this algorithm that lies in bytes.
fn packed_signature_view<'a>(statement: &View<'a>, alg: Alg) -> Option<&'a [u8]>
    ensures { MatchOption result
        ((sig : List ℕ) → shown statement.now ≡ packed_statement alg sig → ⊥)
        (λ sig. shown statement.now ≡ packed_statement alg sig.now) }
{
    let members = statement.as_map()?;
    let (number, members) = members.split_key(MapKey::Text("alg"))?;
    let (sig, members) = members.split_key(MapKey::Text("sig"))?;
    if number.is_key(MapKey::Nint(alg.argument())) && members.is_end() {
        sig.as_bytes()
    } else {
        None
    }
}

impl<'a> AttestationView<'a> {
    /// The signature by which the object attests this key itself: that of a `packed` statement of exactly `alg`, the key's
    /// algorithm number, and `sig` (WebAuthn section 8.2); none of any other statement. Whether it is valid is not looked at.
    pub fn self_signature(&self, key: &KeyView<'_>) -> Option<&'a [u8]>
        ensures { MatchOption result
            ((sig : List ℕ) → IsSelfSignedBy (lent_object_view self.now) (lent_key_view key.now) sig → ⊥)
            (λ sig. IsSelfSignedBy (lent_object_view self.now) (lent_key_view key.now) sig.now) }
    {
        if self.fmt != "packed" {
            return None;
        }
        packed_signature_view(&self.statement, key.alg())
    }

    /// How the object attests a credential of this key, as `check_statement` tells it.
    pub fn check_statement<V: Verifier>(
        &self,
        scheme: &V,
        key: &KeyView<'_>,
        hash: &[u8; 32],
    ) -> Result<AttestationType, Error>
        ensures { Statement (V.valid scheme.now) (lent_object_view self.now) (lent_key_view key.now) hash.now result }
    {
        if self.fmt == "none" {
            if is_empty_view(&self.statement) {
                return Ok(AttestationType::None);
            }
            return Err(Error::BadStatement);
        }
        if self.fmt != "packed" {
            return Err(Error::UnknownFormat);
        }
        match packed_signature_view(&self.statement, key.alg()) {
            Some(sig) if scheme.verify(key, [self.auth_data, hash], sig) => {
                Ok(AttestationType::SelfSigned)
            }
            _ => Err(Error::BadStatement),
        }
    }
}
