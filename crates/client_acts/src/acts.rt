//! The acts by name, the members that each takes, and what the help shows of them.

ghost use Rattle.std.specs.Prelude.{◌≡◌, MatchOption, map};
ghost use Rattle.client_acts.specs.Kinds.{kind_name, names_for};
ghost use Rattle.client_acts.specs.declared.acts.Kind.{Kind as ActKind};

use std::alloc::{AllocError, Global};

/// The kind of an act.
#[derive(Clone, Copy, Debug, PartialEq, Eq, Drop)]
pub(crate) enum Kind {
    Register,
    SignIn,
    Information,
    SetPin,
    ChangePin,
    Packet,
    Pin,
    Computed,
    Choose,
    Cancel,
}

/// The kind of an act of this name.
pub(crate) fn kind_named(name: &str) -> Option<Kind>
    ensures { MatchOption result ((kind : ActKind) → name.now ≡ kind_name kind → ⊥) (λ kind. name.now ≡ kind_name kind) }
{
    match name {
        "register" => Some(Kind::Register),
        "sign_in" => Some(Kind::SignIn),
        "information" => Some(Kind::Information),
        "set_pin" => Some(Kind::SetPin),
        "change_pin" => Some(Kind::ChangePin),
        "packet" => Some(Kind::Packet),
        "pin" => Some(Kind::Pin),
        "computed" => Some(Kind::Computed),
        "choose" => Some(Kind::Choose),
        "cancel" => Some(Kind::Cancel),
        _ => None,
    }
}

/// The names of the members of lines of this kind, beside `id` and `act`.
pub(crate) fn names_of(kind: Kind) -> &'static [&'static str]
    ensures { map (λ n. n.now) result.now ≡ names_for kind }
{
    match kind {
        Kind::Register | Kind::SignIn => &["origin", "options", "nonce", "built_in"],
        Kind::Information => &["nonce"],
        Kind::SetPin | Kind::ChangePin => &["new_pin", "nonce"],
        Kind::Packet => &["packet"],
        Kind::Pin => &["pin"],
        Kind::Computed => &["bytes"],
        Kind::Choose => &["number"],
        Kind::Cancel => &[],
    }
}

/// Each act with its members, and each state, as the help shows them.
pub fn acts_help(alloc: Global) -> Result<String, AllocError> {
    String::from_str(
        alloc,
        "A line in is {\"id\": NUMBER, \"act\": NAME, ..}. The line out has the same id, the packets to `send` to the key in their
order, and a `state`. Bytes are in base64url without padding. In brackets is what may be left out.

Acts that begin, and drop what was under way:
  register     origin, options, nonce, [built_in]   the options are those that a page hands to the browser, as JSON
  sign_in      origin, options, nonce, [built_in]
  information  nonce                                what the key tells of itself
  set_pin      new_pin, nonce                       the first PIN
  change_pin   new_pin, nonce                       the old one is asked for
`nonce` is 8 random bytes; `built_in` false: do not use the key's own user verification.

Acts that go on:
  packet       packet                               64 bytes that the key sent
  pin          pin
  computed     bytes                                the result that `asks` asked for
  choose       number                               which of `credentials`, from 0
  cancel

States:
  waits        read a packet from the key; `keepalive` if the key is at work
  touch        as `waits`; ask the user to touch the key
  needs_pin    retries (or null), wrong             whether a PIN was just refused
  asks         operation, key, iv, text             one of agree, derive, seal, encrypt, decrypt, authenticate
  choose       credentials                          each id, user_id, user_name, display_name
  registered   response                             as the browser's credential.toJSON()
  signed_in    response
  information  what the key reports of itself
  pin_set
  refused      name, text, [status, code]           the act is over
  error        text                                 the line had no effect
",
    )
}
