//! What a key told of itself (CTAP 2.1, section 6.4), and what is asked of it.

ghost use Rattle.std.specs.Prelude.{◌≡◌, IfErr, OnOk, map, option_and_then, option_map, length};
ghost use Rattle.std.specs.Prelude as list;
ghost use Rattle.std.specs.List.{list_any};
ghost use Rattle.std.specs.Str.{bytes_eq};
ghost use Rattle.ctap_open_replies.specs.ReplyView.{info_view};
ghost use Rattle.ctap_open_requests.specs.Limits.{IsWithin, has_long_id, is_offered, is_over, max_message, offers, told_option, value_of};
ghost use Rattle.ctap_open_requests.specs.Pieces.{IsBeyond};
ghost use Rattle.ctap_open_requests.specs.RequestView.{options_view};

use crate::error::RequestError;
use crate::request::Options;
use ctap_open_replies::KeyInfo;

/// The first option of this name.
fn first_of<'a, 'o>(options: &'o [(&'a str, bool)], name: &str) -> Option<&'o (&'a str, bool)>
    ensures { option_map (λ o. o.now) result ≡ list.find (λ o. bytes_eq o.0.now name.now) options.entry.now }
{
    options.iter().find(|o| o.0 == name)
}

/// The option's value.
fn value_of(options: &[(&str, bool)], name: &str) -> Option<bool>
    ensures { result ≡ value_of name.now (map (λ o. (o.0.now, o.1)) options.now) }
{
    match first_of(options, name) {
        Some(option) => Some(option.1),
        None => None,
    }
}

/// The value of an option as the key told it (CTAP 2.1, section 6.4): of `rk`, `clientPin`, `uv` and the others.
pub fn option_value(info: &KeyInfo<'_>, name: &str) -> Option<bool>
    ensures { result ≡ option_and_then (value_of name.now) (info_view info.now).options }
{
    match &info.options {
        Some(options) => value_of(options, name),
        None => None,
    }
}

/// The option's value as it was given, or else its default.
fn told_option(info: &KeyInfo<'_>, name: &str, default: bool) -> bool
    ensures { result ≡ told_option name.now default (info_view info.now) }
{
    match option_value(info, name) {
        Some(value) => value,
        None => default,
    }
}

/// Whether it is not asked for, or offered.
fn is_offered(asked: Option<bool>, told: bool) -> bool
    ensures { result ≡ is_offered asked told }
{
    match asked {
        Some(true) => told,
        _ => true,
    }
}

fn offers(info: &KeyInfo<'_>, options: &Options) -> bool
    ensures { result ≡ offers (info_view info.now) (options_view options.now) }
{
    let rk = is_offered(options.rk, told_option(info, "rk", false));
    let up = is_offered(options.up, told_option(info, "up", true));
    let uv = is_offered(options.uv, told_option(info, "uv", false));
    rk && (up && uv)
}

fn is_over(limit: Option<u64>, size: usize) -> bool
    ensures { result ≡ is_over limit size }
{
    match limit {
        Some(limit) => limit < size as u64,
        None => false,
    }
}

/// Whether an id has more bytes than the limit.
fn any_over(limit: Option<u64>, ids: &[&[u8]]) -> bool
    ensures { result ≡ list_any (λ id. is_over limit (length id.now)) ids.now }
{
    ids.iter().any(|id| is_over(limit, id.len()))
}

fn has_long_id(info: &KeyInfo<'_>, ids: &[&[u8]]) -> bool
    ensures { result ≡ has_long_id (info_view info.now) (map (λ b. b.now) ids.now) }
{
    any_over(info.max_credential_id_length, ids)
}

/// Whether what is asked is within what the key told, but for the message's length.
pub fn check_limits(
    info: &KeyInfo<'_>,
    options: &Options,
    ids: &[&[u8]],
) -> Result<(), RequestError>
    ensures within { OnOk result (IsWithin (info_view info.now) (options_view options.now) (map (λ b. b.now) ids.now)) }
    ensures beyond { IfErr result (IsBeyond (info_view info.now) (options_view options.now) (map (λ b. b.now) ids.now)) }
{
    if !offers(info, options) {
        return Err(RequestError::OptionNotOffered);
    }
    if is_over(info.max_credential_count_in_list, ids.len()) {
        return Err(RequestError::ListTooLong);
    }
    if has_long_id(info, ids) {
        return Err(RequestError::IdTooLong);
    }
    Ok(())
}

/// How many bytes a message may have.
pub fn max_message(info: &KeyInfo<'_>) -> u64
    ensures { result ≡ max_message (info_view info.now) }
{
    match info.max_msg_size {
        Some(size) => size,
        None => 1024,
    }
}
