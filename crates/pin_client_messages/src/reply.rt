//! Replies to authenticatorClientPIN (CTAP 2.1, section 6.5.5), lent by the bytes that were read.

ghost use Rattle.std.specs.Prelude.{◌≡◌, ◌⊎◌, IfSome, OnSome, IfNone};
ghost use Rattle.pin_client_messages.specs.CommandView.{point_view};
ghost use Rattle.pin_client_messages.specs.Replies.{IsPoint};
ghost use Rattle.pin_client_messages.specs.ReplyView.{key_view};

use crate::command::Point;

/// The public key of the authenticator's key agreement (CTAP 2.1, section 6.5.6), as it was given: a COSE_Key.
#[derive(Clone, Copy, Debug, Drop)]
pub struct AgreementKey<'a> {
    /// The key type: 2.
    pub kty: i128,
    /// The algorithm: -25.
    pub alg: i128,
    /// The curve: 1.
    pub crv: i128,
    /// The coordinate x: 32 bytes.
    pub x: &'a [u8],
    /// The coordinate y: 32 bytes.
    pub y: &'a [u8],
}

impl<'a> AgreementKey<'a> {
    /// The point, where type, algorithm and curve are those of the key agreement. Whether it lies on the curve is
    /// not looked at.
    pub fn point(&self) -> Option<Point<'a>>
        ensures found { IfSome result (λ p. (point_view p ≡ record { x = self.now.x.now; y = self.now.y.now })
            × IsPoint (key_view self.now)) }
        ensures none { IfNone result (IsPoint (key_view self.now) → ⊥) }
    {
        if self.kty == 2 && self.alg == -25 && self.crv == 1 {
            Some(Point {
                x: self.x,
                y: self.y,
            })
        } else {
            None
        }
    }
}

/// A reply: what is there depends on the subcommand.
#[derive(Clone, Copy, Debug, Drop)]
pub struct PinReply<'a> {
    /// The member `keyAgreement`.
    pub key: Option<AgreementKey<'a>>,
    /// The member `pinUvAuthToken`, encrypted.
    pub token: Option<&'a [u8]>,
    /// The member `pinRetries`: how many attempts are left.
    pub pin_retries: Option<u64>,
    /// The member `powerCycleState`: whether the key takes no PIN before it is powered anew.
    pub power_cycle: Option<bool>,
    /// The member `uvRetries`: how many attempts of built-in verification are left.
    pub uv_retries: Option<u64>,
}
