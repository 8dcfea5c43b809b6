//! Attestation objects.

ghost use Rattle.std.specs.Prelude.{◌≡◌, ◌≢◌, ℕ, List, IfOk, IfErr, IfSome, IsErrOf, MatchOption, None, ◌⊎◌};
ghost use Rattle.ccbor.specs.Viewing.{shown};
ghost use Rattle.authdata.specs.Private.{ObjectItem, PartsOf};
ghost use Rattle.authdata.specs.Objects.{Attestation, IsMap, ObjectOf, ObjectRefused, lent_object_view, object_view};
ghost use Rattle.authdata.specs.declared.error.Error.TheVariants as errors;

use crate::error::Error;
use crate::members::{object_of, value_of};
use ccbor::{MapKey, Value, View, decode_all, encode};
use std::alloc::Global;

/// An attestation object (WebAuthn section 6.5.4).
#[derive(Debug, Drop)]
pub struct AttestationObject {
    /// The statement's format: `none` and `packed` are known here.
    pub fmt: String,
    /// The authenticator data, whose bytes are signed as they came.
    pub auth_data: Vec<u8>,
    /// The statement, a map.
    pub statement: Value,
}

impl AttestationObject {
    /// The object's bytes, canonical CBOR. The object is given by value, since its parts become
    /// those of the map that is encoded; it is dropped.
    ///
    /// Refused as `Unfit` where the statement is no map, or has no canonical encoding with three
    /// levels of nesting. Otherwise only `Memory` is answered.
    pub fn write(self, alloc: Global) -> Result<Vec<u8>, Error>
        ensures written { IfOk result (λ bytes. ObjectOf (object_view self) bytes.items) }
        // It is called unfit only if it has no bytes.
        ensures unfit { IsErrOf result errors.Unfit
            → (bytes : List ℕ) → ObjectOf (object_view self) bytes → ⊥ }
        // Of a statement that is no map it is answered without taking memory.
        ensures no_map { (IsMap (object_view self).statement → ⊥) → IsErrOf result errors.Unfit }
        ensures errors { IfErr result (λ e. (e ≡ errors.Unfit) ⊎ (e ≡ errors.Memory)) }
    {
        if self.statement.as_map().is_none() {
            return Err(Error::Unfit);
        }
        let value = value_of(alloc, self)?;
        let mut out = Vec::new(alloc);
        match encode(&value, &mut out) {
            Ok(()) => Ok(out),
            Err(ccbor::Error::Unfit) => Err(Error::Unfit),
            Err(_) => Err(Error::Memory),
        }
    }

    /// The object whose bytes these are.
    ///
    /// Refused with the first of these that applies: `NotCanonical` where the bytes are not one
    /// whole canonical CBOR value; `Shape` where it is not a map of exactly `fmt` (a text),
    /// `attStmt` (a map) and `authData` (bytes). Otherwise only `Memory` is answered.
    pub fn read(alloc: Global, bytes: &[u8]) -> Result<AttestationObject, Error>
        ensures found { IfOk result (λ o. ObjectOf (object_view o) bytes.now) }
        // It is refused by the first refusal that applies,
        ensures refused { IfErr result (λ e. ObjectRefused bytes.now e) }
        // and only where the bytes are no attestation object's.
        ensures none { IfErr result (λ e. e ≢ errors.Memory
            → (o : Attestation) → ObjectOf o bytes.now → ⊥) }
    {
        match decode_all(alloc, bytes) {
            Ok(value) => match object_of(value) {
                Some(object) => Ok(object),
                None => Err(Error::Shape),
            },
            Err(ccbor::Error::NotCanonical) => Err(Error::NotCanonical),
            Err(ccbor::Error::Trailing) => Err(Error::NotCanonical),
            Err(_) => Err(Error::Memory),
        }
    }
}

/// An attestation object, read where it lies: the members of `AttestationObject`.
#[derive(Drop)]
pub struct AttestationView<'a> {
    /// The statement's format.
    pub fmt: &'a str,
    /// The authenticator data, whose bytes are signed as they came.
    pub auth_data: &'a [u8],
    /// The statement, a map.
    pub statement: View<'a>,
}

/// The object of these parts.
fn view_of<'a>(
    fmt: View<'a>,
    statement: View<'a>,
    auth_data: View<'a>,
) -> Option<AttestationView<'a>>
    ensures { MatchOption result
        ((o : Attestation) → PartsOf o (shown fmt.entry) (shown statement.entry) (shown auth_data.entry) → ⊥)
        (λ o. PartsOf (lent_object_view o) (shown fmt.entry) (shown statement.entry) (shown auth_data.entry)) }
{
    if statement.as_map().is_none() {
        return None;
    }
    match (fmt.as_text(), auth_data.as_bytes()) {
        (Some(fmt), Some(auth_data)) => Some(AttestationView {
            fmt,
            auth_data,
            statement,
        }),
        _ => None,
    }
}

/// The object that has this value.
fn object_in<'a>(value: &View<'a>) -> Option<AttestationView<'a>>
    ensures { MatchOption result ((o : Attestation) → ObjectItem o (shown value.now) → ⊥)
        (λ o. ObjectItem (lent_object_view o) (shown value.now)) }
{
    let members = value.as_map()?;
    let (fmt, members) = members.split_key(MapKey::Text("fmt"))?;
    let (statement, members) = members.split_key(MapKey::Text("attStmt"))?;
    let (auth_data, members) = members.split_key(MapKey::Text("authData"))?;
    if !members.is_end() {
        return None;
    }
    view_of(fmt, statement, auth_data)
}

impl<'a> AttestationView<'a> {
    /// The object whose bytes these are; none where they are no object's. No memory is taken.
    pub fn read(bytes: &'a [u8]) -> Option<AttestationView<'a>>
        ensures found { IfSome result (λ o. ObjectOf (lent_object_view o) bytes.now) }
        ensures none { result ≡ None → (o : Attestation) → ObjectOf o bytes.now → ⊥ }
    {
        let Ok(value) = View::check_all(bytes) else {
            return None;
        };
        object_in(&value)
    }
}
