//! What is computed by the host's answers.

ghost use Rattle.std.specs.Prelude.{◌≡◌, true, length};
ghost use Rattle.std.specs.Str.{bytes_eq};
ghost use Rattle.pin_client_messages.specs.CommandView.{point_view};
ghost use Rattle.pin_protocols.specs.Asks.{entries};
ghost use Rattle.pin_protocols.specs.FlowView.{secret_view};
ghost use Rattle.pin_protocols.specs.Protocols.{has_iv};
ghost use Rattle.key_pin.specs.Host.{decrypted, encrypted, product, secret, verified};
ghost use Rattle.key_pin.specs.Pieces.{Gives, of_product_stop};

use crate::end::End;
use ctap_encoding::status::{INVALID_PARAMETER, PIN_AUTH_INVALID};
use pin_client_messages::Point;
use pin_protocols::{Answers, Protocol, Secret, Stop};
use std::alloc::Global;

/// Why there is no product: an answer of another size says that the client's point is none of the curve.
fn no_product(stop: Stop) -> End
    ensures { result ≡ of_product_stop stop }
{
    match stop {
        Stop::Memory => End::Memory,
        Stop::Asks(ask) => End::Asks(ask),
        _ => End::Refused(INVALID_PARAMETER),
    }
}

/// The coordinate x of the product of the own key and the client's point.
pub(crate) fn product<'a>(
    alloc: Global,
    answers: &'a Answers,
    key: &[u8],
    peer: &Point<'_>,
) -> Result<&'a [u8], End>
    ensures { Gives (λ z. z.now) result (product (entries answers.now) key.now (point_view peer.now)) }
{
    match pin_protocols::product(alloc, answers, key, peer) {
        Ok(z) => Ok(z),
        Err(stop) => Err(no_product(stop)),
    }
}

/// The shared secret.
pub(crate) fn secret(
    alloc: Global,
    answers: &Answers,
    protocol: Protocol,
    z: &[u8],
) -> Result<Secret, End>
    ensures { Gives secret_view result (secret (entries answers.now) protocol z.now) }
{
    match pin_protocols::shared_secret(alloc, answers, protocol, z) {
        Ok(secret) => Ok(secret),
        Err(stop) => Err(End::from(stop)),
    }
}

/// A text encrypted.
pub(crate) fn encrypted<'a>(
    alloc: Global,
    answers: &'a Answers,
    protocol: Protocol,
    secret: &Secret,
    text: &[u8],
) -> Result<&'a [u8], End>
    ensures { Gives (λ b. b.now) result (encrypted (entries answers.now) protocol (secret_view secret.now) text.now) }
{
    match pin_protocols::sealed(alloc, answers, protocol, secret, text) {
        Ok(sealed) => Ok(sealed),
        Err(stop) => Err(End::from(stop)),
    }
}

/// A ciphertext decrypted.
pub(crate) fn decrypted<'a>(
    alloc: Global,
    answers: &'a Answers,
    protocol: Protocol,
    secret: &Secret,
    ciphertext: &[u8],
) -> Result<&'a [u8], End>
    requires { has_iv protocol (length ciphertext.now) ≡ true }
    ensures { Gives (λ b. b.now) result (decrypted (entries answers.now) protocol (secret_view secret.now) ciphertext.now) }
{
    match pin_protocols::opened(alloc, answers, protocol, secret, ciphertext) {
        Ok(text) => Ok(text),
        Err(stop) => Err(End::from(stop)),
    }
}

/// Whether they are the same bytes. Of as many bytes it takes as long, wherever they differ.
pub(crate) fn is_same(left: &[u8], right: &[u8]) -> bool
    ensures { result ≡ bytes_eq left.now right.now }
{
    if left.len() != right.len() {
        return false;
    }
    let mut differences = 0;
    for i in 0..left.len() {
        differences |= left[i] ^ right[i];
    }
    differences == 0
}

/// Whether a param is this message authenticated by this key.
pub(crate) fn verified(
    alloc: Global,
    answers: &Answers,
    protocol: Protocol,
    key: &[u8],
    message: &[u8],
    param: &[u8],
) -> Result<(), End>
    ensures { Gives (λ _. tt) result (verified (entries answers.now) protocol key.now message.now param.now) }
{
    let tag = match pin_protocols::authenticated(alloc, answers, protocol, key, message) {
        Ok(tag) => tag,
        Err(stop) => return Err(End::from(stop)),
    };
    if is_same(tag, param) {
        Ok(())
    } else {
        Err(End::Refused(PIN_AUTH_INVALID))
    }
}
