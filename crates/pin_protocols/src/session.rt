//! What is agreed with a key, and what is computed by the shared secret.

ghost use Rattle.std.specs.Prelude.{◌≡◌, ◌≤◌, ◌++◌, true, IfErr, IfOk, length, replicate};
ghost use Rattle.pin_client_messages.specs.CommandView.{point_view};
ghost use Rattle.pin_protocols.specs.Asks.{Answered, Stops, entries};
ghost use Rattle.pin_protocols.specs.Flows.{IsSession, IsSessionAsk};
ghost use Rattle.pin_protocols.specs.declared.protocol.Protocol.TheVariants.{Two};
ghost use Rattle.pin_protocols.specs.Protocols.{Authenticates, HasParts, IsAgreement, IsDerivation, IsProduct, IsSecret, agreement_ask, authentication, decryption, encryption, has_iv, product_ask, shortened};
ghost use Rattle.pin_protocols.specs.FlowView.{secret_view};

use crate::answers::{Answers, answered};
use crate::ask::Operation;
use crate::protocol::Protocol;
use crate::stop::Stop;
use pin_client_messages::Point;
use sha2::{Digest, Sha256};
use std::alloc::{AllocError, Global};

/// The shared secret of a key agreement: its two keys, which by protocol one are the same.
#[derive(Debug, Drop)]
pub struct Secret {
    pub(crate) hmac: Vec<u8>,
    pub(crate) aes: Vec<u8>,
}

impl Secret {
    /// The key that messages are authenticated by.
    pub fn hmac(&self) -> &[u8]
        ensures { result.now ≡ (secret_view self.now).hmac }
    {
        &self.hmac
    }
}

/// The client's public key, and the shared secret.
#[derive(Debug, Drop)]
pub(crate) struct Session<'a> {
    pub own: Point<'a>,
    pub secret: Secret,
}

/// The client's public key, and the product's coordinate x.
#[derive(Drop)]
struct Agreement<'a> {
    own: Point<'a>,
    z: &'a [u8],
}

/// The IV of protocol one.
pub(crate) fn no_iv() -> [u8; 16]
    ensures { result ≡ replicate 16 0 }
{
    [0; 16]
}

/// The parts of the answer to an agreement.
fn parts(answer: &[u8]) -> Agreement<'_>
    requires { length answer.now ≡ 96 }
    ensures { HasParts answer.now (point_view result.own) result.z.now }
{
    let (x, rest) = answer.split_at(32);
    let (y, z) = rest.split_at(32);
    Agreement {
        own: Point { x, y },
        z,
    }
}

/// Two messages as one.
pub(crate) fn joined(alloc: Global, front: &[u8], back: &[u8]) -> Result<Vec<u8>, AllocError>
    ensures { IfOk result (λ v. v.items ≡ front.now ++ back.now) }
{
    let mut all = Vec::from_slice(alloc, front)?;
    all.extend_from_slice(back)?;
    Ok(all)
}

/// The answer to an agreement with a key's point.
fn agreement_answer<'a>(
    alloc: Global,
    answers: &'a Answers,
    peer: &Point<'_>,
) -> Result<&'a [u8], Stop>
    ensures answered { IfOk result (λ b. Answered (entries answers.now) (agreement_ask (point_view peer.now)) b.now) }
    ensures stops { IfErr result (Stops (entries answers.now) (λ a. a ≡ agreement_ask (point_view peer.now))) }
{
    let text = joined(alloc, peer.x, peer.y)?;
    answered(alloc, answers, Operation::Agree, &[], &[], &text)
}

/// The coordinate x of the product of an authenticator's private key, for which `key` stands, and a client's point
/// (CTAP 2.1, section 6.5.6, `decapsulate`): 32 bytes. It lies in the answers.
///
/// Stops as [`Stop::BadAnswer`] where the host says by an answer of another size that it is no point of the curve.
pub fn product<'a>(
    alloc: Global,
    answers: &'a Answers,
    key: &[u8],
    peer: &Point<'_>,
) -> Result<&'a [u8], Stop>
    ensures product { IfOk result (λ z. IsProduct (entries answers.now) key.now (point_view peer.now) z.now) }
    ensures stops { IfErr result (Stops (entries answers.now) (λ a. a ≡ product_ask key.now (point_view peer.now))) }
{
    let text = joined(alloc, peer.x, peer.y)?;
    match answered(alloc, answers, Operation::Agree, key, &[], &text) {
        Ok(answer) => Ok(parts(answer).z),
        Err(e) => Err(e),
    }
}

fn agreed<'a>(alloc: Global, answers: &'a Answers, peer: &Point<'_>) -> Result<Agreement<'a>, Stop>
    ensures agreed { IfOk result (λ g. IsAgreement (entries answers.now) (point_view peer.now) (point_view g.own) g.z.now) }
    ensures stops { IfErr result (Stops (entries answers.now) (λ a. a ≡ agreement_ask (point_view peer.now))) }
{
    match agreement_answer(alloc, answers, peer) {
        Ok(answer) => Ok(parts(answer)),
        Err(e) => Err(e),
    }
}

fn derived(alloc: Global, answers: &Answers, z: &[u8]) -> Result<Secret, Stop>
    ensures derived { IfOk result (λ s. IsSecret (entries answers.now) Two z.now (secret_view s)) }
    ensures stops { IfErr result (Stops (entries answers.now) (IsDerivation (entries answers.now) Two z.now)) }
{
    let hmac = match answered(alloc, answers, Operation::Derive, z, &[], b"CTAP2 HMAC key") {
        Ok(key) => key,
        Err(e) => return Err(e),
    };
    let aes = match answered(alloc, answers, Operation::Derive, z, &[], b"CTAP2 AES key") {
        Ok(key) => key,
        Err(e) => return Err(e),
    };
    Ok(Secret {
        hmac: Vec::from_slice(alloc, hmac)?,
        aes: Vec::from_slice(alloc, aes)?,
    })
}

/// The shared secret that a product gives (CTAP 2.1, section 6.5.6, `kdf`, and 6.5.7). Stops at the two keys that are
/// derived by protocol two.
pub fn shared_secret(
    alloc: Global,
    answers: &Answers,
    protocol: Protocol,
    z: &[u8],
) -> Result<Secret, Stop>
    ensures secret { IfOk result (λ s. IsSecret (entries answers.now) protocol z.now (secret_view s)) }
    ensures stops { IfErr result (Stops (entries answers.now) (IsDerivation (entries answers.now) protocol z.now)) }
{
    match protocol {
        Protocol::One => {
            let key = Sha256::digest(z);
            Ok(Secret {
                hmac: Vec::from_slice(alloc, &key)?,
                aes: Vec::from_slice(alloc, &key)?,
            })
        }
        Protocol::Two => derived(alloc, answers, z),
    }
}

/// What is agreed with a key's point.
pub(crate) fn begun<'a>(
    alloc: Global,
    answers: &'a Answers,
    protocol: Protocol,
    peer: &Point<'_>,
) -> Result<Session<'a>, Stop>
    ensures agreed { IfOk result (λ g. IsSession (entries answers.now) protocol (point_view peer.now) (point_view g.own) (secret_view g.secret)) }
    ensures stops { IfErr result (Stops (entries answers.now) (IsSessionAsk (entries answers.now) protocol (point_view peer.now))) }
{
    let agreement = match agreed(alloc, answers, peer) {
        Ok(agreement) => agreement,
        Err(e) => return Err(e),
    };
    match shared_secret(alloc, answers, protocol, agreement.z) {
        Ok(secret) => Ok(Session {
            own: agreement.own,
            secret,
        }),
        Err(e) => Err(e),
    }
}

/// A text encrypted (CTAP 2.1, section 6.5.6, `encrypt`, and 6.5.7): the ciphertext, by protocol two after its IV. It
/// lies in the answers. Stops at the encryption.
pub fn sealed<'a>(
    alloc: Global,
    answers: &'a Answers,
    protocol: Protocol,
    secret: &Secret,
    text: &[u8],
) -> Result<&'a [u8], Stop>
    ensures sealed { IfOk result (λ b. Answered (entries answers.now) (encryption protocol secret.now.aes.items text.now) b.now) }
    ensures stops { IfErr result (Stops (entries answers.now) (λ a. a ≡ encryption protocol secret.now.aes.items text.now)) }
{
    match protocol {
        Protocol::One => {
            let iv = no_iv();
            answered(alloc, answers, Operation::Encrypt, &secret.aes, &iv, text)
        }
        Protocol::Two => answered(alloc, answers, Operation::Seal, &secret.aes, &[], text),
    }
}

/// A ciphertext decrypted (CTAP 2.1, section 6.5.6, `decrypt`, and 6.5.7); by protocol two it is after its IV. The text
/// lies in the answers. Stops at the decryption.
pub fn opened<'a>(
    alloc: Global,
    answers: &'a Answers,
    protocol: Protocol,
    secret: &Secret,
    ciphertext: &[u8],
) -> Result<&'a [u8], Stop>
    requires { has_iv protocol (length ciphertext.now) ≡ true }
    ensures opened { IfOk result (λ b. Answered (entries answers.now) (decryption protocol secret.now.aes.items ciphertext.now) b.now) }
    ensures stops { IfErr result (Stops (entries answers.now) (λ a. a ≡ decryption protocol secret.now.aes.items ciphertext.now)) }
{
    match protocol {
        Protocol::One => {
            let iv = no_iv();
            answered(
                alloc,
                answers,
                Operation::Decrypt,
                &secret.aes,
                &iv,
                ciphertext,
            )
        }
        Protocol::Two => {
            let (iv, rest) = ciphertext.split_at(16);
            answered(alloc, answers, Operation::Decrypt, &secret.aes, iv, rest)
        }
    }
}

/// The part of a tag that a message has.
fn shortened<'a>(protocol: Protocol, tag: &'a [u8]) -> &'a [u8]
    requires { 16 ≤ length tag.now }
    ensures { result.now ≡ shortened protocol tag.now }
{
    match protocol {
        Protocol::One => tag.split_at(16).0,
        Protocol::Two => tag,
    }
}

/// A message authenticated by a key (CTAP 2.1, section 6.5.6, `authenticate`, and 6.5.7): 16 bytes by protocol one, 32 by
/// two. It lies in the answers. Stops at the authentication.
pub fn authenticated<'a>(
    alloc: Global,
    answers: &'a Answers,
    protocol: Protocol,
    key: &[u8],
    message: &[u8],
) -> Result<&'a [u8], Stop>
    ensures authenticated { IfOk result (λ b. Authenticates (entries answers.now) protocol key.now message.now b.now) }
    ensures stops { IfErr result (Stops (entries answers.now) (λ a. a ≡ authentication key.now message.now)) }
{
    match answered(alloc, answers, Operation::Authenticate, key, &[], message) {
        Ok(tag) => Ok(shortened(protocol, tag)),
        Err(e) => Err(e),
    }
}
