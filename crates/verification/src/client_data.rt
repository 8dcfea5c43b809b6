//! The steps on client data that both ceremonies have (WebAuthn Level 2, section 5.8.1; on frames, Level 3).

ghost use Rattle.std.specs.Prelude.{◌≡◌, IfErr, IsErrOf, OnOk, Some};
ghost use Rattle.refusal_order.specs.Lines.{Each, FirstFailing};
ghost use Rattle.clientdata.specs.Reading.{seen_of};
ghost use Rattle.verification.specs.ClientData.{Fails, IsSerialised, PassesClientDataStep, client_data_order};

use crate::party::RelyingParty;
use clientdata::{CeremonyType, Seen, is_challenge_text, read};
use std::alloc::Global;

/// The step on client data that fails.
#[derive(Clone, Copy, Debug, PartialEq, Eq, Drop)]
pub(crate) enum ClientDataStep {
    Readable,
    Type,
    Challenge,
    Origin,
    CrossOrigin,
    TopOrigin,
    TokenBinding,
}

/// Why client data are refused: the first step that fails, or that memory ran out.
#[derive(Clone, Copy, Debug, PartialEq, Eq, Drop)]
pub(crate) enum ClientDataError {
    Fails(ClientDataStep),
    Memory,
}

/// Judges client data that were read.
fn check_seen(
    bytes: &[u8],
    seen: &Seen,
    kind: CeremonyType,
    challenge: &[u8; 32],
    party: &RelyingParty,
) -> Result<(), ClientDataStep>
    requires { seen_of bytes.now ≡ Some seen.now }
    ensures passes { OnOk result (Each (PassesClientDataStep kind challenge.now party.now bytes.now) client_data_order) }
    ensures refused { IfErr result (FirstFailing (PassesClientDataStep kind challenge.now party.now bytes.now) client_data_order) }
{
    if seen.kind.as_str() != kind.text() {
        return Err(ClientDataStep::Type);
    }
    if !is_challenge_text(seen.challenge.as_str(), challenge) {
        return Err(ClientDataStep::Challenge);
    }
    if !party.has_origin(seen.origin.as_str()) {
        return Err(ClientDataStep::Origin);
    }
    if !party.may_be_framed(seen) {
        return Err(ClientDataStep::CrossOrigin);
    }
    if !party.has_top_origin(seen) {
        return Err(ClientDataStep::TopOrigin);
    }
    if !party.has_no_binding(seen) {
        return Err(ClientDataStep::TokenBinding);
    }
    Ok(())
}

/// Judges client data as those of a ceremony of this kind and challenge. What is serialised is read back, so client
/// data that are the expected text are not read.
pub(crate) fn check_client_data(
    alloc: Global,
    bytes: &[u8],
    kind: CeremonyType,
    challenge: &[u8; 32],
    party: &RelyingParty,
) -> Result<(), ClientDataError>
    ensures passes { OnOk result (Each (PassesClientDataStep kind challenge.now party.now bytes.now) client_data_order) }
    ensures refused { IfErr result (Fails kind challenge.now party.now bytes.now) }
    ensures memory { IsErrOf result ClientDataError.Memory → IsSerialised kind challenge.now party.now bytes.now → ⊥ }
{
    if party.expects(bytes, kind, challenge) {
        return Ok(());
    }
    let seen = match read(alloc, bytes) {
        Ok(seen) => seen,
        Err(clientdata::Error::Unreadable) => {
            return Err(ClientDataError::Fails(ClientDataStep::Readable));
        }
        Err(clientdata::Error::Memory) => return Err(ClientDataError::Memory),
    };
    match check_seen(bytes, &seen, kind, challenge, party) {
        Ok(()) => Ok(()),
        Err(step) => Err(ClientDataError::Fails(step)),
    }
}
