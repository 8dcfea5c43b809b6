//! The account's visit.

use ccbor::encode;
use cose::{Alg, KeyView};
use site::{AssertionParts, RegistrationParts, Site};
use std::alloc::{AllocError, Global};
use std::io;
use uses_lines::{tell, tell_bytes, told, unexpected};
use verification::{HostVerifier, SignatureView, VerifiedSignature};

/// The account's user handle.
const USER: &[u8] = b"account 7";

/// A key that signs nothing.
const NO_KEY: KeyView<'static> = KeyView::EdDsa { x: [0; 32] };

/// The parts of a registration's response.
fn parts<'a>(object: &'a [u8], client_data: &'a [u8]) -> RegistrationParts<'a> {
    RegistrationParts {
        object,
        client_data,
        raw_id: None,
    }
}

/// Registers a key of the account.
pub(crate) fn register(rt: &HostRuntime, site: &mut Site, words: [u8; 24]) -> io::Result<()> {
    let Ok(started) = site.begin_registration(USER, &[Alg::EdDsa, Alg::Es256], true, words) else {
        return Err(unexpected());
    };
    tell_bytes(rt, "challenge", &started.challenge)?;
    let object = told(rt, "object")?;
    let client_data = told(rt, "client-data")?;
    let response = parts(object.as_slice(), client_data.as_slice());
    let verifier = HostVerifier { verified: None };
    match site.finish_registration_parts(&verifier, started.session, &response) {
        Ok(registered) => tell_bytes(rt, "registered", registered.credential.as_slice()),
        Err(refusal) => tell(rt, format!(in rt.alloc(); "refused: {refusal}")?.as_str()),
    }
}

/// Tells the host which signature it is to verify. The verifier is of that one, where the host found it valid.
fn verified<'a>(rt: &HostRuntime, asked: SignatureView<'a>) -> io::Result<HostVerifier<'a>> {
    let mut encoded = Vec::new(rt.alloc());
    if encode(&asked.key.to_value(rt.alloc())?, &mut encoded).is_err() {
        return Err(unexpected());
    }
    tell_bytes(rt, "key", encoded.as_slice())?;
    tell_bytes(rt, "message", asked.message)?;
    tell_bytes(rt, "signature", asked.signature)?;
    let is_valid = told(rt, "valid")?.first() == Some(&1);
    Ok(HostVerifier {
        verified: if is_valid { Some(asked) } else { None },
    })
}

/// The parts of a sign-in's response, as the page tells them.
#[derive(Drop)]
struct Told {
    credential: Vec<u8>,
    auth_data: Vec<u8>,
    signature: Vec<u8>,
    client_data: Vec<u8>,
}

/// Reads the parts of a response.
fn told_response(rt: &HostRuntime) -> io::Result<Told> {
    let credential = told(rt, "credential")?;
    let auth_data = told(rt, "authenticator-data")?;
    let signature = told(rt, "signature")?;
    let client_data = told(rt, "client-data")?;
    Ok(Told {
        credential,
        auth_data,
        signature,
        client_data,
    })
}

/// The signature that a sign-in asks for, copied out, since the site changes when the sign-in is accepted; of a credential that
/// is not there under a key that signs nothing.
fn asked(
    alloc: Global,
    site: &Site,
    parts: &AssertionParts<'_>,
) -> Result<VerifiedSignature, AllocError> {
    let key = match site.row(parts.credential) {
        Some(row) => row.key,
        None => NO_KEY,
    };
    VerifiedSignature::of_response(
        alloc,
        &key,
        parts.auth_data,
        parts.client_data,
        parts.signature,
    )
}

/// Signs the account in.
pub(crate) fn sign_in(rt: &HostRuntime, site: &mut Site, words: [u8; 24]) -> io::Result<()> {
    let Ok(started) = site.begin_sign_in(Some(USER), &[], true, words) else {
        return Err(unexpected());
    };
    tell_bytes(rt, "challenge", &started.challenge)?;
    let response = told_response(rt)?;
    let parts = AssertionParts {
        credential: response.credential.as_slice(),
        user: None,
        auth_data: response.auth_data.as_slice(),
        signature: response.signature.as_slice(),
        client_data: response.client_data.as_slice(),
    };
    let asked = asked(rt.alloc(), site, &parts)?;
    let verifier = verified(rt, asked.view())?;
    match site.finish_parts(&verifier, started.session, &parts) {
        Ok(signed_in) => tell_bytes(rt, "signed-in", signed_in.user.as_slice()),
        Err(refusal) => tell(rt, format!(in rt.alloc(); "refused: {refusal}")?.as_str()),
    }
}
