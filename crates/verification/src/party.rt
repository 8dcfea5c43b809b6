//! The relying party.

ghost use Rattle.std.specs.Prelude.{◌≡◌, ◌↔◌, [], Contains, IfOk, IsTrue, string_bytes};
ghost use Rattle.sha2.specs.Sha256.{sha256};
ghost use Rattle.authdata.specs.declared.profile.Profile.TheVariants.{Level3, Open, Strict};
ghost use Rattle.verification.specs.ClientData.{IsSerialised};
ghost use Rattle.verification.specs.Shared.{HasNoBinding, HasTopOrigin, IsUnframed, MayBeFramed};
ghost use Rattle.verification.specs.Views.{texts_of};

use authdata::Profile;
use clientdata::{
    Binding, CeremonyType, CrossOrigin, ExpectedOrigin, Seen, Text, TopOrigin,
    is_serialised_for_any,
};
use sha2::{Digest, Sha256};
use std::alloc::{AllocError, Global};
use std::marker::Model;

/// Which attestations a relying party accepts at registration (WebAuthn Level 2, section 7.1).
#[derive(Clone, Copy, Debug, PartialEq, Eq, Drop)]
pub struct Policy {
    /// No attestation.
    pub accept_none: bool,
    /// Self attestation: a signature of the credential's own key.
    pub accept_self: bool,
}

/// A relying party: its rp id with the hash of it, which is made once, its origins, those of other sites' pages that may frame
/// its own, and which responses it takes.
#[derive(Drop)]
pub struct RelyingParty {
    profile: Profile,
    rp_id: String,
    rp_id_hash: [u8; 32],
    origins: Vec<ExpectedOrigin>,
    top_origins: Vec<Text>,
    ghost hashed: { rp_id_hash ≡ sha256 (string_bytes rp_id) },
}

impl Model for RelyingParty {
    ghost use Rattle.std.specs.Prelude.{string_bytes};
    ghost use Rattle.verification.specs.Records.{RelyingParty as Party};

    ghost Value = { Party };

    ghost view = { λ p. record { rp_id = string_bytes p.rp_id; origins = p.origins.items; top_origins = p.top_origins.items; profile = p.profile } };
}

/// The origins that client data are compared with.
fn expected_origins(alloc: Global, origins: &[&str]) -> Result<Vec<ExpectedOrigin>, AllocError>
    ensures { IfOk result (λ v. v.items ≡ texts_of origins.now) }
{
    let mut expected = Vec::with_capacity(alloc, origins.len())?;
    for origin in origins {
        expected.push(ExpectedOrigin::new(alloc, origin)?)?;
    }
    Ok(expected)
}

/// The texts, in memory of their own.
fn texts(alloc: Global, lent: &[&str]) -> Result<Vec<Text>, AllocError>
    ensures { IfOk result (λ v. v.items ≡ texts_of lent.now) }
{
    let mut owned = Vec::with_capacity(alloc, lent.len())?;
    for text in lent {
        owned.push(Text::from(String::from_str(alloc, text)?))?;
    }
    Ok(owned)
}

/// Whether a text is one of these.
fn is_listed(texts: &[Text], wanted: &str) -> bool
    ensures { IsTrue result ↔ Contains texts.now wanted.now }
{
    for text in texts {
        if text.as_str() == wanted {
            return true;
        }
    }
    false
}

/// Whether client data name no page above the one that asked.
fn is_unframed(seen: &Seen) -> bool
    ensures { IsTrue result ↔ IsUnframed seen.now }
{
    match (seen.cross_origin, &seen.top_origin) {
        (CrossOrigin::Absent | CrossOrigin::False, TopOrigin::Absent) => true,
        _ => false,
    }
}

impl RelyingParty {
    /// A relying party of the strict profile, of this rp id and these origins, each compared as a text.
    /// Nothing is asked of their lengths.
    pub fn new(alloc: Global, rp_id: &str, origins: &[&str]) -> Result<RelyingParty, AllocError>
        ensures { IfOk result (λ p. p ≡ record { rp_id = rp_id.now; origins = texts_of origins.now; top_origins = []; profile = Strict }) }
    {
        RelyingParty::with_profile(alloc, Profile::Strict, rp_id, origins)
    }

    /// A relying party of the open profile, which takes what real keys and browsers send; else as `new`.
    pub fn open(alloc: Global, rp_id: &str, origins: &[&str]) -> Result<RelyingParty, AllocError>
        ensures { IfOk result (λ p. p ≡ record { rp_id = rp_id.now; origins = texts_of origins.now; top_origins = []; profile = Open }) }
    {
        RelyingParty::with_profile(alloc, Profile::Open, rp_id, origins)
    }

    /// A relying party of this profile, as `new` and `open` make one: no page of another site may frame its own.
    pub fn with_profile(
        alloc: Global,
        profile: Profile,
        rp_id: &str,
        origins: &[&str],
    ) -> Result<RelyingParty, AllocError>
        ensures { IfOk result (λ p. p ≡ record { rp_id = rp_id.now; origins = texts_of origins.now; top_origins = []; profile = profile }) }
    {
        RelyingParty::framed_by(alloc, profile, rp_id, origins, &[])
    }

    /// The same where other sites' pages of these origins may frame its own (WebAuthn Level 3, sections 7.1 and 7.2,
    /// `topOrigin`), each compared as a text. Level 3 alone looks at them.
    pub fn framed_by(
        alloc: Global,
        profile: Profile,
        rp_id: &str,
        origins: &[&str],
        top_origins: &[&str],
    ) -> Result<RelyingParty, AllocError>
        ensures { IfOk result (λ p. p ≡ record {
          rp_id = rp_id.now;
          origins = texts_of origins.now;
          top_origins = texts_of top_origins.now;
          profile = profile;
        }) }
    {
        let expected = expected_origins(alloc, origins)?;
        Ok(RelyingParty {
            profile,
            rp_id: String::from_str(alloc, rp_id)?,
            rp_id_hash: Sha256::digest(rp_id),
            origins: expected,
            top_origins: texts(alloc, top_origins)?,
        })
    }

    /// Which responses it takes.
    pub fn profile(&self) -> Profile
        ensures { result ≡ self.now.profile }
    {
        self.profile
    }

    /// The rp id.
    pub fn rp_id(&self) -> &str
        ensures { result.now ≡ self.now.rp_id }
    {
        self.rp_id.as_str()
    }

    /// Whether a hash is that of the rp id.
    pub(crate) fn is_hash(&self, hash: &[u8; 32]) -> bool
        ensures { IsTrue result ↔ (hash.now ≡ sha256 self.now.rp_id) }
    {
        self.rp_id_hash == *hash
    }

    /// Whether a text is one of the origins.
    pub(crate) fn has_origin(&self, text: &str) -> bool
        ensures { IsTrue result ↔ Contains self.now.origins text.now }
    {
        for origin in &self.origins {
            if origin.as_str() == text {
                return true;
            }
        }
        false
    }

    /// Whether token binding is absent or not used, as the profile has it.
    pub(crate) fn has_no_binding(&self, seen: &Seen) -> bool
        ensures { IsTrue result ↔ HasNoBinding self.now.profile seen.now }
    {
        match seen.binding {
            Binding::Absent | Binding::Supported => true,
            Binding::NotSupported => self.profile != Profile::Strict,
            Binding::Other => self.profile == Profile::Level3,
        }
    }

    /// Whether it looks at what the client data say of frames.
    fn looks_at_frames(&self) -> bool
        ensures { IsTrue result ↔ (self.now.profile ≡ Level3) }
    {
        match self.profile {
            Profile::Strict | Profile::Open => false,
            Profile::Level3 => true,
        }
    }

    /// Whether the page may be in a frame of another site, where the client data say that it is.
    pub(crate) fn may_be_framed(&self, seen: &Seen) -> bool
        ensures { IsTrue result ↔ MayBeFramed self.now seen.now }
    {
        if !self.looks_at_frames() || is_unframed(seen) {
            return true;
        }
        !self.top_origins.is_empty() && seen.cross_origin != CrossOrigin::Other
    }

    /// Whether the page at the top is one that is named, where the client data say that another site's frames it.
    pub(crate) fn has_top_origin(&self, seen: &Seen) -> bool
        ensures { IsTrue result ↔ HasTopOrigin self.now seen.now }
    {
        if !self.looks_at_frames() || is_unframed(seen) {
            return true;
        }
        match &seen.top_origin {
            TopOrigin::Named(page) => is_listed(&self.top_origins, page.as_str()),
            TopOrigin::Absent | TopOrigin::Other => false,
        }
    }

    /// Whether the bytes are the serialised client data of this ceremony and challenge for one of the origins, which
    /// then need not be read; in Level 3, those that are not cross-origin. It takes no memory.
    pub(crate) fn expects(&self, bytes: &[u8], kind: CeremonyType, challenge: &[u8; 32]) -> bool
        ensures { IsTrue result ↔ IsSerialised kind challenge.now self.now bytes.now }
    {
        let takes_cross = !self.looks_at_frames();
        is_serialised_for_any(bytes, kind, challenge, &self.origins, takes_cross)
    }
}
