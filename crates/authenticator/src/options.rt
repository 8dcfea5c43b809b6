//! The options of requests, and the consent that they ask for.

ghost use Rattle.std.specs.Prelude.{◌≡◌, not, ◌&&◌, ◌||◌, option_map};
ghost use Rattle.ctap_requests.specs.RequestView.{assertion_options_view, creation_options_view};
ghost use Rattle.authenticator.specs.Orders.{assertion_flags, creation_flags, is_false, is_true};

use crate::consent::Consent;
use ctap_requests::{AssertionOptions, CreationOptions};

/// Whether an option is there and true.
pub(crate) fn is_true(option: Option<bool>) -> bool
    ensures { result ≡ is_true option }
{
    match option {
        Some(value) => value,
        None => false,
    }
}

/// Whether an option is there and false.
pub(crate) fn is_false(option: Option<bool>) -> bool
    ensures { result ≡ is_false option }
{
    match option {
        Some(value) => !value,
        None => false,
    }
}

/// The options of a makeCredential request.
pub(crate) fn creation_options(options: Option<CreationOptions>) -> CreationOptions
    ensures { creation_options_view result ≡ creation_flags (option_map creation_options_view options) }
{
    match options {
        Some(options) => options,
        None => CreationOptions {
            rk: None,
            up: None,
            uv: None,
        },
    }
}

/// The options of a getAssertion request.
pub(crate) fn assertion_options(options: Option<AssertionOptions>) -> AssertionOptions
    ensures { assertion_options_view result ≡ assertion_flags (option_map assertion_options_view options) }
{
    match options {
        Some(options) => options,
        None => AssertionOptions { up: None, uv: None },
    }
}

/// Whether verification is asked for and not configured.
pub(crate) fn is_unmet(uv: Option<bool>, configured: bool) -> bool
    ensures { result ≡ (is_true uv && not configured) }
{
    is_true(uv) && !configured
}

/// Whether presence or verification is asked for and not given.
pub(crate) fn is_denied(up: bool, uv: Option<bool>, consent: Consent) -> bool
    ensures { result ≡ ((up && not consent.present) || (is_true uv && not consent.verified)) }
{
    (up && !consent.present) || (is_true(uv) && !consent.verified)
}
