//! Laws of authenticator data, attestation objects and statements.

ghost use Rattle.std.specs.Prelude.{◌≡◌, ◌↔◌, ◌≤◌, ◌+◌, ◌++◌, ℕ, List, IfSome, Result, Some, None, drop, length};
ghost use Rattle.refusal_order.specs.Lines.{First};
ghost use Rattle.ccbor.specs.Canon.{Canon};
ghost use Rattle.cose.specs.Keys.{IsKey, encoded_length, item_of};
ghost use Rattle.cose.specs.declared.key.CoseKey.{CoseKey};
ghost use Rattle.authdata.specs.Layout.{AttestedCredential, AuthenticatorData, AuthOf};
ghost use Rattle.authdata.specs.Flags as bits;
ghost use Rattle.authdata.specs.Objects.{Attestation, ObjectOf};
ghost use Rattle.authdata.specs.Refusals.{Applies, order};
ghost use Rattle.authdata.specs.Statements.{Statement};
ghost use Rattle.authdata.specs.declared.error.Error.{Error};
ghost use Rattle.authdata.specs.declared.profile.Profile.{Profile};
ghost use Rattle.authdata.specs.declared.profile.Profile.TheVariants.{Level3, Open, Strict};
ghost use Rattle.authdata.specs.Profiles.{max_id};
ghost use Rattle.authdata.specs.declared.statement.AttestationType.{AttestationType};

use crate::flags::{AT, BE, BS, ED, UP, UV};
use cose::Verifier;

/// Bytes are those of one authenticator data at most, and none of these byte lists begins
/// another: so where two of them stand before other bytes and the whole is equal, each part is
/// equal.
pub fn one_reading()
    ensures one_value { (profile other : Profile) (a b : AuthenticatorData) (bs : List ℕ)
        → AuthOf profile a bs → AuthOf other b bs → a ≡ b }
    ensures one_front { (profile other : Profile) (a b : AuthenticatorData) (x y u v : List ℕ) → AuthOf profile a x → AuthOf other b y
        → x ++ u ≡ y ++ v → (a ≡ b) × (x ≡ y) × (u ≡ v) }
{}

/// Authenticator data of the strict profile have 37 bytes without a credential, and at least 55 + 1 + 42 with one.
pub fn sizes()
    ensures bare { (a : AuthenticatorData) (bs : List ℕ)
        → AuthOf Strict a bs → a.attested ≡ None → length bs ≡ 37 }
    ensures attested { (a : AuthenticatorData) (c : AttestedCredential) (bs : List ℕ) → AuthOf Strict a bs
        → a.attested ≡ Some c → 55 + length c.id + 42 ≤ length bs }
    ensures least { (a : AuthenticatorData) (c : AttestedCredential) (bs : List ℕ) → AuthOf Strict a bs
        → a.attested ≡ Some c → 55 + 1 + 42 ≤ length bs }
    ensures exact { (a : AuthenticatorData) (c : AttestedCredential) (bs : List ℕ) → AuthOf Strict a bs
        → a.attested ≡ Some c → length bs ≡ 55 + length c.id + encoded_length c.key }
{}

/// Each profile takes all that the strict one takes. What the open one takes besides has extensions, or an id of more
/// than 64 bytes. That of Level 3 takes just what the open one takes.
pub fn profiles()
    ensures taken { (profile : Profile) (a : AuthenticatorData) (bs : List ℕ) → AuthOf Strict a bs → AuthOf profile a bs }
    ensures strict { (a : AuthenticatorData) (bs : List ℕ) → AuthOf Open a bs → a.extensions ≡ None
        → IfSome a.attested (λ c. length c.id ≤ 64) → AuthOf Strict a bs }
    ensures level3 { (a : AuthenticatorData) (bs : List ℕ) → AuthOf Level3 a bs ↔ AuthOf Open a bs }
    ensures limits { (max_id Strict ≡ 64) × (max_id Open ≡ 1023) × (max_id Level3 ≡ 1023) }
{}

/// Behind the credential id stands the key's canonical encoding, and where there are no extensions nothing more.
pub fn key_inside()
    ensures { (a : AuthenticatorData) (c : AttestedCredential) (bs : List ℕ) → AuthOf Strict a bs
        → a.attested ≡ Some c → IsKey c.key × Canon (item_of c.key) (drop (55 + length c.id) bs) }
{}

/// No refusal applies to the bytes of authenticator data, and of those that apply to other bytes
/// one is the first.
pub fn one_refusal()
    ensures none { (profile : Profile) (a : AuthenticatorData) (bs : List ℕ) (e : Error)
        → AuthOf profile a bs → Applies profile bs e → ⊥ }
    ensures one { (profile : Profile) (bs : List ℕ) (e f : Error)
        → First (Applies profile bs) order e → First (Applies profile bs) order f → e ≡ f }
{}

/// Bytes are those of one attestation object at most.
pub fn one_object()
    ensures { (o p : Attestation) (bs : List ℕ) → ObjectOf o bs → ObjectOf p bs → o ≡ p }
{}

/// What is answered of a statement is determined.
pub fn one_statement<V: Verifier>()
    ensures { (scheme : V) (o : Attestation) (key : CoseKey) (hash : List ℕ)
        (r s : Result AttestationType Error) → Statement (V.valid scheme) o key hash r
        → Statement (V.valid scheme) o key hash s → r ≡ s }
{}

/// The flags are the bits 0, 2, 6 and 7 of their byte (WebAuthn section 6.1); the marks of profile 2 are the
/// bits 3 and 4.
pub fn flag_bits()
    ensures code { (UP ≡ 0x01) × (UV ≡ 0x04) × (BE ≡ 0x08) × (BS ≡ 0x10) × (AT ≡ 0x40) × (ED ≡ 0x80) }
    ensures definitions { (bits.UP ≡ 0x01) × (bits.UV ≡ 0x04) × (bits.BE ≡ 0x08) × (bits.BS ≡ 0x10) × (bits.AT ≡ 0x40) × (bits.ED ≡ 0x80) }
{}
