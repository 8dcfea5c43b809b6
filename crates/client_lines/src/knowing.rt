//! What an act knows, and what it wishes for.

ghost use Rattle.std.specs.Prelude.{◌≡◌, [], IfOk, None, map, option_map, string_bytes};
ghost use Rattle.client_ceremony.specs.Facts.{facts};
ghost use Rattle.client_lines.specs.Knowing.{Forgets, IsWishOf, knowledge_facts};
ghost use Rattle.client_lines.specs.declared.purpose.Purpose.TheVariants as purposes;

use crate::purpose::{Purpose, Registration, SignIn};
use client_acts::Extensions;
use client_ceremony::{Asserting, Creating, Known, Wish};
use ctap_open_requests::{CreationExtensions, RelyingParty, User};
use pin_protocols::Answers;
use std::alloc::{AllocError, Global};

/// What an act knows so far.
#[derive(Drop)]
pub(crate) struct Knowledge {
    /// What it is for.
    pub purpose: Purpose,
    /// Whether the key may verify its user by itself.
    pub built_in: bool,
    /// The key's replies, getInfo's first.
    pub replies: Vec<Vec<u8>>,
    /// The user's PIN.
    pub pin: Option<String>,
    /// Whether the key has refused a PIN, and none was given since.
    pub is_wrong: bool,
    /// What the host computed.
    pub answers: Answers,
    /// Which of the credentials the user chose.
    pub chosen: Option<usize>,
}

/// Lists of bytes, lent.
pub(crate) fn lent<'a>(alloc: Global, list: &'a [Vec<u8>]) -> Result<Vec<&'a [u8]>, AllocError>
    ensures { IfOk result (λ lent. map (λ b. b.now) lent.items ≡ map (λ v. v.items) list.entry.now) }
{
    let mut lent = Vec::with_capacity(alloc, list.len())?;
    for bytes in list {
        lent.push(bytes.as_slice())?;
    }
    Ok(lent)
}

/// A text, lent where it is there.
fn lent_text(text: &Option<String>) -> Option<&str>
    ensures { option_map (λ t. t.now) result ≡ option_map string_bytes text.now }
{
    match text {
        Some(text) => Some(text.as_str()),
        None => None,
    }
}

/// The extensions' inputs, where there are any.
fn inputs(extensions: &Extensions) -> Option<CreationExtensions<'static>> {
    let wants = extensions.hmac_secret || extensions.min_pin_length;
    if !wants && extensions.cred_protect.is_none() {
        return None;
    }
    Some(CreationExtensions {
        cred_blob: None,
        cred_protect: extensions.cred_protect,
        hmac_secret: extensions.hmac_secret,
        large_blob_key: false,
        min_pin_length: extensions.min_pin_length,
    })
}

/// What a registration wishes for, with its list lent.
pub(crate) fn creating<'a>(registration: &'a Registration, exclude: &'a [&'a [u8]]) -> Wish<'a>
    requires { map (λ b. b.now) exclude.now ≡ map (λ v. v.items) registration.now.exclude.items }
    ensures { IsWishOf (purposes.Registers registration.entry.now) result }
{
    Wish::Creates(Creating {
        client_data_hash: &registration.hash,
        rp: RelyingParty {
            id: registration.rp_id.as_str(),
            name: lent_text(&registration.rp_name),
        },
        user: User {
            id: registration.user.id.as_slice(),
            name: lent_text(&registration.user.name),
            display_name: lent_text(&registration.user.display_name),
        },
        algorithms: registration.algorithms.as_slice(),
        exclude,
        extensions: inputs(&registration.extensions),
        resident: registration.resident,
        verification: registration.verification,
    })
}

/// What a sign-in wishes for, with its list lent.
pub(crate) fn asserting<'a>(sign_in: &'a SignIn, allow: &'a [&'a [u8]]) -> Wish<'a>
    requires { map (λ b. b.now) allow.now ≡ map (λ v. v.items) sign_in.now.allow.items }
    ensures { IsWishOf (purposes.SignsIn sign_in.entry.now) result }
{
    Wish::Asserts(Asserting {
        rp_id: sign_in.rp_id.as_str(),
        client_data_hash: &sign_in.hash,
        allow,
        extensions: None,
        verification: sign_in.verification,
    })
}

impl Knowledge {
    /// Nothing yet.
    pub(crate) fn new(alloc: Global, purpose: Purpose, built_in: bool) -> Knowledge
        ensures purpose { result.purpose ≡ purpose }
        ensures facts { knowledge_facts result
            ≡ record { replies = []; pin = None; answers = []; built_in = built_in; chosen = None } }
    {
        Knowledge {
            purpose,
            built_in,
            replies: Vec::new(alloc),
            pin: None,
            is_wrong: false,
            answers: Answers::new(alloc),
            chosen: None,
        }
    }

    /// After a PIN that the key refused: all but getInfo's reply is forgotten.
    pub(crate) fn forget(&mut self, alloc: Global)
        ensures { Forgets self.old self.new }
    {
        self.replies.truncate(1);
        self.pin = None;
        self.is_wrong = true;
        self.answers = Answers::new(alloc);
    }

    /// What is known, lent.
    pub(crate) fn known(&self) -> Known<'_>
        ensures { facts result ≡ knowledge_facts self.now }
    {
        Known {
            replies: self.replies.as_slice(),
            pin: lent_text(&self.pin),
            answers: &self.answers,
            built_in: self.built_in,
            chosen: self.chosen,
        }
    }
}
