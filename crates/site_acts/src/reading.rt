//! Reading a line.

ghost use Rattle.std.specs.Prelude.{◌≡◌, IfErr, IfOk};
ghost use Rattle.serde_json.specs.View.{view};
ghost use Rattle.site_acts.specs.Lines.{HasMembers, HasVerified, Reads, Says, SaysAsks, SaysBeginRegistration, SaysBeginSignIn, SaysFinishRegistration, SaysFinishSignIn, name_of};
ghost use Rattle.site_acts.specs.Faults.{IsRefused, IsRefusedIn, OfAct, OfAsks, OfBeginRegistration, OfBeginSignIn, OfFinishRegistration, OfFinishSignIn, OfFive, OfSignature, OfVerified, kind_name};
ghost use Rattle.site_acts.specs.Private.{IsSaid, IsSignature};

use crate::act::{Act, BeginRegistration, BeginSignIn, FinishRegistration, FinishSignIn};
use crate::acts::{ActKind, act_named, names_of};
use crate::algorithms::algorithms;
use crate::keys::key;
use crate::response::{assertion_response, credential_id, registration_response};
use crate::transports::told_transports;
use crate::verified::Verified;
use json_lines::{
    LineError, LineFault, Numbered, bytes, check_names, flag, list_of_bytes, member, needed,
    optional_bytes, read_object, text, text_or,
};
use serde_json::Value;
use site_state::Asks;
use std::alloc::Global;
use verification::VerifiedSignature;

/// What a line says.
#[derive(Debug, Drop)]
pub struct Line {
    /// The number that the answer repeats.
    pub id: u64,
    /// What it asks for.
    pub act: Act,
}

/// The signature of the five members of `verify`.
fn signature(alloc: Global, found: &Value) -> Result<VerifiedSignature, LineError>
    ensures found { IfOk result (IsSignature (view found.now)) }
    ensures amiss { IfErr result (OfFive (view found.now)) }
{
    Ok(VerifiedSignature {
        key: key(alloc, found)?,
        message: bytes(alloc, found, "message")?,
        signature: bytes(alloc, found, "signature")?,
    })
}

/// What the host says of the signature.
fn said(alloc: Global, found: &Value) -> Result<Verified, LineError>
    ensures found { IfOk result (IsSaid (view found.now)) }
    ensures amiss { IfErr result (OfSignature (view found.now)) }
{
    if found.as_bool() == Some(false) {
        return Ok(Verified::Invalid);
    }
    if !found.is_object() {
        return Err(LineError::BadForm("verified"));
    }
    let valid = signature(alloc, found)?;
    Ok(Verified::Valid(valid))
}

/// What the host found of the signature: the five members of `verify`, where it is valid, or false where it is not.
fn verified(alloc: Global, line: &Value) -> Result<Verified, LineError>
    ensures found { IfOk result (HasVerified (view line.now)) }
    ensures amiss { IfErr result (OfVerified (view line.now)) }
{
    let Some(found) = member(line, "verified") else {
        return Ok(Verified::Nothing);
    };
    let found = said(alloc, found)?;
    Ok(found)
}

/// How a registration is to begin.
fn asks(line: &Value) -> Result<Asks, LineError>
    ensures found { IfOk result (SaysAsks (view line.now)) }
    ensures amiss { IfErr result (OfAsks (view line.now)) }
{
    Ok(Asks {
        conditional: flag(line, "conditional", false)?,
        attestation: flag(line, "attestation", false)?,
    })
}

/// A registration that is to begin.
fn begin_registration(alloc: Global, line: &Value) -> Result<BeginRegistration, LineError>
    ensures found { IfOk result (SaysBeginRegistration (view line.now)) }
    ensures amiss { IfErr result (OfBeginRegistration (view line.now)) }
{
    let user = bytes(alloc, line, "user")?;
    let user_name = text(line, "user_name")?;
    let display_name = text_or(line, "display_name", user_name)?;
    Ok(BeginRegistration {
        user,
        user_name: String::from_str(alloc, user_name)?,
        display_name: String::from_str(alloc, display_name)?,
        exclude: list_of_bytes(alloc, line, "exclude")?,
        user_verification: flag(line, "user_verification", false)?,
        resident: flag(line, "resident", true)?,
        algorithms: algorithms(alloc, line)?,
        asks: asks(line)?,
    })
}

/// A sign-in that is to begin.
fn begin_sign_in(alloc: Global, line: &Value) -> Result<BeginSignIn, LineError>
    ensures found { IfOk result (SaysBeginSignIn (view line.now)) }
    ensures amiss { IfErr result (OfBeginSignIn (view line.now)) }
{
    Ok(BeginSignIn {
        user: optional_bytes(alloc, line, "user")?,
        allow: list_of_bytes(alloc, line, "allow")?,
        user_verification: flag(line, "user_verification", false)?,
    })
}

/// A registration that is to be finished.
fn finish_registration(alloc: Global, line: &Value) -> Result<FinishRegistration, LineError>
    ensures found { IfOk result (SaysFinishRegistration (view line.now)) }
    ensures amiss { IfErr result (OfFinishRegistration (view line.now)) }
{
    let session = bytes(alloc, line, "session")?;
    let response = needed(line, "response")?;
    Ok(FinishRegistration {
        session,
        credential: credential_id(alloc, response)?,
        response: registration_response(alloc, response)?,
        transports: told_transports(alloc, line, response)?,
        verified: verified(alloc, line)?,
    })
}

/// A sign-in that is to be finished.
fn finish_sign_in(alloc: Global, line: &Value) -> Result<FinishSignIn, LineError>
    ensures found { IfOk result (SaysFinishSignIn (view line.now)) }
    ensures amiss { IfErr result (OfFinishSignIn (view line.now)) }
{
    Ok(FinishSignIn {
        session: bytes(alloc, line, "session")?,
        response: assertion_response(alloc, needed(line, "response")?)?,
        verified: verified(alloc, line)?,
    })
}

/// The act of this kind.
fn act_of(alloc: Global, kind: ActKind, line: &Value) -> Result<Act, LineError>
    ensures members { IfOk result (HasMembers (view line.now)) }
    ensures name { IfOk result (λ act. name_of act ≡ kind_name kind) }
    ensures amiss { IfErr result (OfAct kind (view line.now)) }
{
    Ok(match kind {
        ActKind::BeginRegistration => Act::BeginRegistration(begin_registration(alloc, line)?),
        ActKind::FinishRegistration => Act::FinishRegistration(finish_registration(alloc, line)?),
        ActKind::BeginSignIn => Act::BeginSignIn(begin_sign_in(alloc, line)?),
        ActKind::FinishSignIn => Act::FinishSignIn(finish_sign_in(alloc, line)?),
        ActKind::Retire => Act::Retire(bytes(alloc, line, "credential")?),
        ActKind::Delete => Act::Delete(bytes(alloc, line, "credential")?),
        ActKind::RetireAll => Act::RetireAll(bytes(alloc, line, "user")?),
        ActKind::Erase => Act::Erase(bytes(alloc, line, "user")?),
        ActKind::Abandon => Act::Abandon(bytes(alloc, line, "session")?),
        ActKind::Rows => Act::Rows(optional_bytes(alloc, line, "user")?),
        ActKind::Status => Act::Status,
        ActKind::Backup => Act::Backup(String::from_str(alloc, text(line, "path")?)?),
    })
}

/// What a line's object asks for.
fn act_in(alloc: Global, line: &Value) -> Result<Act, LineError>
    ensures found { IfOk result (Says (view line.now)) }
    ensures amiss { IfErr result (IsRefusedIn (view line.now)) }
{
    let Some(kind) = act_named(text(line, "act")?) else {
        return Err(LineError::UnknownAct);
    };
    check_names(names_of(kind), line)?;
    act_of(alloc, kind, line)
}

/// Reads a line: an object with a number, the name of an `act`, and the members that the act takes. A member that it does not
/// take is refused: so a misspelled one is not passed over. Of a line that is refused the number is answered too, where it can be
/// read.
pub fn read_line(alloc: Global, line: &[u8]) -> Result<Line, LineFault>
    // What is read is what the line says,
    ensures found { IfOk result (λ read. Reads line.now read.id read.act) }
    // and what is not read is refused for the cause that is named, with its number where it has one.
    ensures refused { IfErr result (λ fault. IsRefused line.now fault.id fault.error) }
{
    let Numbered { id, object } = read_object(alloc, line)?;
    match act_in(alloc, &object) {
        Ok(act) => Ok(Line { id, act }),
        Err(error) => Err(LineFault {
            id: Some(id),
            error,
        }),
    }
}
