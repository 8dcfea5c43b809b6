//! What a token grants (CTAP 2.1, sections 6.1.2 and 6.2.2).

ghost use Rattle.std.specs.Prelude.{◌≡◌, IfOk, OnErr, OnOk, option_map};
ghost use Rattle.pin_protocols.specs.Asks.{entries};
ghost use Rattle.key_pin.specs.Grants.{Grants, IsNew, after_grant, claim, granted, is_for, token_of};
ghost use Rattle.key_pin.specs.Pieces.{Gives};
ghost use Rattle.key_pin.specs.State.{pin_view, token_view};

use crate::checks::{known_protocol, needed_number};
use crate::computing::verified;
use crate::end::End;
use crate::state::{ClientPin, Token};
use crate::words::Grant;
use ctap_encoding::status::PIN_AUTH_INVALID;
use pin_protocols::{Answers, Protocol};
use std::alloc::{AllocError, Global};

/// The token in use, where it is of this protocol.
fn token_of<'a>(token: &'a Option<Token>, protocol: Protocol) -> Result<&'a Token, End>
    ensures { Gives (λ t. token_view t.now) result (token_of protocol (option_map token_view token.now)) }
{
    match token {
        Some(token) if token.protocol.number() == protocol.number() => Ok(token),
        _ => Err(End::Refused(PIN_AUTH_INVALID)),
    }
}

/// Whether a token's rp id is this, or none.
fn is_for(rp_id: &str, own: Option<&str>) -> bool
    ensures { result ≡ is_for rp_id.now (option_map (λ b. b.now) own.entry) }
{
    match own {
        Some(own) => own == rp_id,
        None => true,
    }
}

impl ClientPin {
    /// Whether the token grants it.
    #[tactic(auto, unfolding(crate::specs::Grants::granted))]
    fn granted(
        &self,
        alloc: Global,
        answers: &Answers,
        protocol: Option<u64>,
        param: &[u8],
        permission: u64,
        rp_id: &str,
        client_data_hash: &[u8],
    ) -> Result<(), End>
        ensures { Gives (λ _. tt) result (granted (entries answers.now) (claim protocol param.now permission rp_id.now client_data_hash.now) (pin_view self.now).token) }
    {
        let number = needed_number(protocol)?;
        let protocol = known_protocol(number)?;
        let token = token_of(&self.token, protocol)?;
        verified(
            alloc,
            answers,
            protocol,
            &token.bytes,
            client_data_hash,
            param,
        )?;
        if token.permissions & permission == 0 || !is_for(rp_id, token.rp_id.as_deref()) {
            return Err(End::Refused(PIN_AUTH_INVALID));
        }
        Ok(())
    }

    /// Whether the user was verified for a makeCredential (`permission` 1) or getAssertion (2) for this relying party and this
    /// hash of client data, which has the members `pinUvAuthProtocol` and `pinUvAuthParam` (CTAP 2.1, sections 6.1.2, step 11,
    /// and 6.2.2, step 6). A token without an rp id is for this one from then on.
    ///
    /// Refused by the first of these that applies: 0x14 without a protocol; 0x02 of another than 1 and 2; 0x33 where no token of
    /// it is in use, the param is not the hash authenticated by it, the token has not the permission, or has another rp id.
    /// 0x7F where an answer of the host has another size.
    /// Where it is not granted, or there is no memory, nothing changes.
    pub fn verify(
        &mut self,
        alloc: Global,
        answers: &Answers,
        protocol: Option<u64>,
        param: &[u8],
        permission: u64,
        rp_id: &str,
        client_data_hash: &[u8],
    ) -> Result<Grant, AllocError>
        ensures grant { IfOk result (Grants (granted (entries answers.now) (claim protocol param.now permission rp_id.now client_data_hash.now) (pin_view self.old).token)) }
        ensures state { OnOk result (pin_view self.new ≡ after_grant (granted (entries answers.now) (claim protocol param.now permission rp_id.now client_data_hash.now) (pin_view self.old).token) rp_id.now (pin_view self.old)) }
        // Asked is nothing that was answered.
        ensures asks { IfOk result (IsNew (entries answers.now)) }
        // If memory runs out nothing has changed.
        ensures err { OnErr result (pin_view self.new ≡ pin_view self.old) }
    {
        let own = String::from_str(alloc, rp_id)?;
        match self.granted(
            alloc,
            answers,
            protocol,
            param,
            permission,
            rp_id,
            client_data_hash,
        ) {
            Ok(()) => {
                if let Some(token) = &mut self.token {
                    token.rp_id = Some(own);
                }
                Ok(Grant::Granted)
            }
            Err(End::Asks(ask)) => Ok(Grant::Asks(ask)),
            Err(End::Refused(status)) => Ok(Grant::Refused(status)),
            Err(End::Memory) => Err(AllocError),
        }
    }
}
