//! How the user is verified (CTAP 2.1, sections 6.1.2, 6.2.2, 6.4 and 6.5.5.7; WebAuthn Level 2, section 5.8.6).

ghost use Rattle.std.specs.Prelude.{◌≡◌};
ghost use Rattle.ctap_open_replies.specs.ReplyView.{info_view};
ghost use Rattle.client_ceremony.specs.Way.{assertion_way, creation_demands, creation_way, is_discoverable, offered, or_presence, way};

use crate::told::{is_on, protocol_of};
use crate::wish::{Asserting, Creating, Requirement};
use ctap_open_replies::KeyInfo;

/// How the user is verified.
#[derive(Clone, Copy, Debug, Drop)]
pub(crate) enum Way {
    /// By the key itself, for a token.
    BuiltInToken,
    /// By the key itself, by the option `uv` of the command.
    BuiltInOption,
    /// By the PIN, for a token.
    Pin,
    /// Not: presence alone.
    Presence,
    /// It is to be, and there is no way.
    Nothing,
}

/// The first way that the key offers.
fn offered(info: &KeyInfo<'_>, built_in: bool) -> Way
    ensures { result ≡ offered (info_view info.now) built_in }
{
    let built_in = built_in && is_on(info, "uv");
    let tokens = is_on(info, "pinUvAuthToken");
    if built_in && (tokens && protocol_of(info).is_some()) {
        return Way::BuiltInToken;
    }
    if built_in && !tokens {
        return Way::BuiltInOption;
    }
    if is_on(info, "clientPin") {
        return Way::Pin;
    }
    Way::Nothing
}

/// Whether a registration asks this key for a discoverable credential (WebAuthn Level 2, section 5.4.6).
pub fn is_discoverable(info: &KeyInfo<'_>, resident: Requirement) -> bool
    ensures { result ≡ is_discoverable (info_view info.now) resident }
{
    match resident {
        Requirement::Required => true,
        Requirement::Preferred => is_on(info, "rk"),
        Requirement::Discouraged => false,
    }
}

/// Whether the key makes no such credential without a verification.
fn creation_demands(info: &KeyInfo<'_>, discoverable: bool) -> bool
    ensures { result ≡ creation_demands (info_view info.now) discoverable }
{
    let always = is_on(info, "alwaysUv");
    let has_pin = is_on(info, "clientPin");
    let lenient = is_on(info, "makeCredUvNotRqd");
    always || (has_pin && (discoverable || !lenient))
}

/// What is offered, or else presence alone.
fn or_presence(offered: Way) -> Way
    ensures { result ≡ or_presence offered }
{
    match offered {
        Way::Nothing => Way::Presence,
        Way::BuiltInToken => Way::BuiltInToken,
        Way::BuiltInOption => Way::BuiltInOption,
        Way::Pin => Way::Pin,
        Way::Presence => Way::Presence,
    }
}

/// How the user is verified where it is wanted so, where the key demands it or not, and where this is offered.
fn way_of(verification: Requirement, demanded: bool, offered: Way) -> Way
    ensures { result ≡ way verification demanded offered }
{
    if demanded {
        return offered;
    }
    match verification {
        Requirement::Required => offered,
        Requirement::Preferred => or_presence(offered),
        Requirement::Discouraged => Way::Presence,
    }
}

/// How the user is verified for a registration.
pub(crate) fn creation_way(info: &KeyInfo<'_>, creating: &Creating<'_>, built_in: bool) -> Way
    ensures { result ≡ creation_way (info_view info.now) creating.now built_in }
{
    let discoverable = is_discoverable(info, creating.resident);
    let demanded = creation_demands(info, discoverable);
    way_of(creating.verification, demanded, offered(info, built_in))
}

/// How the user is verified for a sign-in.
pub(crate) fn assertion_way(info: &KeyInfo<'_>, asserting: &Asserting<'_>, built_in: bool) -> Way
    ensures { result ≡ assertion_way (info_view info.now) asserting.now built_in }
{
    let demanded = is_on(info, "alwaysUv");
    way_of(asserting.verification, demanded, offered(info, built_in))
}
