//! A request of authenticatorClientPIN that is kept.

ghost use Rattle.std.specs.Prelude.{◌≡◌, IfOk, option_map, string_bytes};
ghost use Rattle.pin_client_messages.specs.ReplyView.{key_view};
ghost use Rattle.pin_key_messages.specs.AskingView.{asking_view};
ghost use Rattle.key_pin.specs.Query.{query_view};
ghost use Rattle.key_device.specs.Reading.{asking_of, bytes_of, key_of, query_of};

use pin_client_messages::AgreementKey;
use pin_key_messages::PinAsked;
use std::alloc::{AllocError, Global};

/// The platform's public key, as it was given.
#[derive(Drop)]
pub(crate) struct KeptKey {
    pub kty: i128,
    pub alg: i128,
    pub crv: i128,
    pub x: Vec<u8>,
    pub y: Vec<u8>,
}

/// A request of authenticatorClientPIN (CTAP 2.1, section 6.5.5), in memory of its own.
#[derive(Drop)]
pub(crate) struct PinCommand {
    pub protocol: Option<u64>,
    pub subcommand: u64,
    pub key: Option<KeptKey>,
    pub param: Option<Vec<u8>>,
    pub new_pin: Option<Vec<u8>>,
    pub pin_hash: Option<Vec<u8>>,
    pub permissions: Option<u64>,
    pub rp_id: Option<String>,
}

fn kept_key(alloc: Global, key: &Option<AgreementKey<'_>>) -> Result<Option<KeptKey>, AllocError>
    ensures { IfOk result (λ k. option_map key_of k ≡ option_map key_view key.now) }
{
    match key {
        Some(key) => Ok(Some(KeptKey {
            kty: key.kty,
            alg: key.alg,
            crv: key.crv,
            x: Vec::from_slice(alloc, key.x)?,
            y: Vec::from_slice(alloc, key.y)?,
        })),
        None => Ok(None),
    }
}

fn kept_bytes(alloc: Global, bytes: Option<&[u8]>) -> Result<Option<Vec<u8>>, AllocError>
    ensures { IfOk result (λ v. bytes_of v ≡ option_map (λ b. b.now) bytes.entry) }
{
    match bytes {
        Some(bytes) => Ok(Some(Vec::from_slice(alloc, bytes)?)),
        None => Ok(None),
    }
}

fn kept_text(alloc: Global, text: Option<&str>) -> Result<Option<String>, AllocError>
    ensures { IfOk result (λ s. option_map string_bytes s ≡ option_map (λ b. b.now) text.entry) }
{
    match text {
        Some(text) => Ok(Some(String::from_str(alloc, text)?)),
        None => Ok(None),
    }
}

/// A request that was read, in memory of its own.
pub(crate) fn kept_command(alloc: Global, asked: &PinAsked<'_>) -> Result<PinCommand, AllocError>
    ensures { IfOk result (λ c. asking_of c ≡ asking_view asked.now) }
{
    Ok(PinCommand {
        protocol: asked.protocol,
        subcommand: asked.subcommand,
        key: kept_key(alloc, &asked.key)?,
        param: kept_bytes(alloc, asked.param)?,
        new_pin: kept_bytes(alloc, asked.new_pin)?,
        pin_hash: kept_bytes(alloc, asked.pin_hash)?,
        permissions: asked.permissions,
        rp_id: kept_text(alloc, asked.rp_id)?,
    })
}

fn lent_key(key: &Option<KeptKey>) -> Option<AgreementKey<'_>>
    ensures { option_map key_view result ≡ option_map key_of key.now }
{
    match key {
        Some(key) => Some(AgreementKey {
            kty: key.kty,
            alg: key.alg,
            crv: key.crv,
            x: &key.x,
            y: &key.y,
        }),
        None => None,
    }
}

fn lent_bytes(bytes: &Option<Vec<u8>>) -> Option<&[u8]>
    ensures { option_map (λ b. b.now) result ≡ bytes_of bytes.now }
{
    match bytes {
        Some(bytes) => Some(bytes.as_slice()),
        None => None,
    }
}

fn lent_text(text: &Option<String>) -> Option<&str>
    ensures { option_map (λ b. b.now) result ≡ option_map string_bytes text.now }
{
    match text {
        Some(text) => Some(text.as_str()),
        None => None,
    }
}

/// It, lent.
pub(crate) fn lent_command(command: &PinCommand) -> PinAsked<'_>
    ensures { query_view result ≡ query_of command.now }
{
    PinAsked {
        protocol: command.protocol,
        subcommand: command.subcommand,
        key: lent_key(&command.key),
        param: lent_bytes(&command.param),
        new_pin: lent_bytes(&command.new_pin),
        pin_hash: lent_bytes(&command.pin_hash),
        permissions: command.permissions,
        rp_id: lent_text(&command.rp_id),
    }
}
