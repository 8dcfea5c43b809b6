//! What the key told of itself (CTAP 2.1, section 6.4).

ghost use Rattle.std.specs.Prelude.{◌≡◌, ◌==◌, ◌||◌, option_map};
ghost use Rattle.std.specs.Prelude as list;
ghost use Rattle.std.specs.List.{list_any};
ghost use Rattle.ctap_open_replies.specs.ReplyView.{info_view};
ghost use Rattle.client_ceremony.specs.Way.{is_fido2, is_on, is_version, protocol_told};

use ctap_open_replies::KeyInfo;
use ctap_open_requests::option_value;
use pin_protocols::Protocol;

fn is_version(version: &str) -> bool
    ensures { result ≡ is_version version.now }
{
    version == "FIDO_2_0" || (version == "FIDO_2_1_PRE" || version == "FIDO_2_1")
}

fn any_version(versions: &[&str]) -> bool
    ensures { result ≡ list_any (λ v. is_version v.now) versions.now }
{
    versions.iter().any(|v| is_version(v))
}

/// Whether it speaks a version of CTAP 2.
pub(crate) fn is_fido2(info: &KeyInfo<'_>) -> bool
    ensures { result ≡ is_fido2 (info_view info.now) }
{
    any_version(&info.versions)
}

/// Whether the key gave an option as true.
pub(crate) fn is_on(info: &KeyInfo<'_>, name: &str) -> bool
    ensures { result ≡ is_on name.now (info_view info.now) }
{
    match option_value(info, name) {
        Some(value) => value,
        None => false,
    }
}

fn first_known(protocols: &[u64]) -> Option<&u64>
    ensures { option_map (λ n. n.now) result ≡ list.find (λ n. n == 1 || n == 2) protocols.now }
{
    protocols.iter().find(|p| **p == 1 || **p == 2)
}

/// The first of the key's protocols that is known.
pub(crate) fn protocol_of(info: &KeyInfo<'_>) -> Option<Protocol>
    ensures { result ≡ protocol_told (info_view info.now) }
{
    let Some(protocols) = &info.pin_uv_auth_protocols else {
        return None;
    };
    match first_known(protocols) {
        Some(number) => Protocol::of(*number),
        None => None,
    }
}
