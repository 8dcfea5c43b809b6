//! What a relying party may be: an rp id and origins as browsers write them, so that a wrong one is refused at the start and
//! not at each visitor's response. The same as `check_party` of the Python package.

ghost use Rattle.std.specs.Prelude.{◌↔◌, ◌≤◌, IsTrue};

/// The most bytes of an rp id.
const MOST_OF_AN_RP_ID: usize = 253;

/// Why a relying party is refused.
#[derive(Clone, Copy, Debug, PartialEq, Eq, Drop, thiserror::Error)]
pub(crate) enum PartyFault {
    /// The rp id is no domain of 1 to 253 bytes in lower case.
    #[error("the rp id is not a domain in lower case, as example.com")]
    BadRpId,
    /// The rp id ends in a number.
    #[error("the rp id is an IP address")]
    IpAddress,
    /// An origin has a path, a capital or no scheme, or is empty.
    #[error("an origin is not in lower case and without a path, as https://example.com")]
    BadOrigin,
    /// The port is above 65,535, begins with 0, or is the scheme's own, which browsers leave out.
    #[error("an origin has a port that browsers do not write")]
    BadPort,
    /// No web origin's host is the rp id or ends in it.
    #[error("the rp id is not of an origin's host")]
    OtherHost,
}

/// A letter in lower case.
fn is_lower(byte: u8) -> bool
    ensures { IsTrue result ↔ ((97 ≤ byte) × (byte ≤ 122)) }
{
    byte.is_ascii_lowercase()
}

/// A character at the ends of a domain's label.
fn is_label_end(byte: u8) -> bool {
    is_lower(byte) || byte.is_ascii_digit() || byte == b'_'
}

/// A part of a domain between its dots.
fn is_label(label: &str) -> bool {
    let bytes = label.as_bytes();
    let (Some(first), Some(last)) = (bytes.first(), bytes.last()) else {
        return false;
    };
    is_label_end(*first)
        && is_label_end(*last)
        && bytes
            .iter()
            .all(|byte| is_label_end(*byte) || *byte == b'-')
}

/// Whether each byte is a digit, and there is one.
fn is_number(text: &str) -> bool {
    !text.is_empty() && text.bytes().all(|byte| byte.is_ascii_digit())
}

/// That the rp id is a domain as browsers write it, and no IP address (WebAuthn Level 2, section 4).
fn check_rp_id(rp_id: &str) -> Result<(), PartyFault> {
    if MOST_OF_AN_RP_ID < rp_id.len() {
        return Err(PartyFault::BadRpId);
    }
    for label in rp_id.split('.') {
        if !is_label(label) {
            return Err(PartyFault::BadRpId);
        }
    }
    match rp_id.rsplit_once('.') {
        Some((_, last)) if is_number(last) => Err(PartyFault::IpAddress),
        None if is_number(rp_id) => Err(PartyFault::IpAddress),
        _ => Ok(()),
    }
}

/// A scheme (RFC 3986, section 3.1), in lower case.
fn is_scheme(scheme: &str) -> bool {
    let bytes = scheme.as_bytes();
    let Some(first) = bytes.first() else {
        return false;
    };
    is_lower(*first)
        && bytes.iter().all(|byte| {
            is_lower(*byte) || byte.is_ascii_digit() || matches!(*byte, b'+' | b'.' | b'-')
        })
}

/// A host: a name in lower case, or an address of IPv6 in brackets.
fn is_host(host: &str) -> bool {
    if let Some(address) = host
        .strip_prefix('[')
        .and_then(|rest| rest.strip_suffix(']'))
    {
        return !address.is_empty()
            && address
                .bytes()
                .all(|byte| matches!(byte, b'0'..=b'9' | b'a'..=b'f' | b':'));
    }
    !host.is_empty()
        && host
            .bytes()
            .all(|byte| is_label_end(byte) || byte == b'.' || byte == b'-')
}

/// That a port is one that browsers write: 1 to 65,535, and not the scheme's own.
fn check_port(scheme: &str, port: &str) -> Result<(), PartyFault> {
    if !is_number(port) || port.starts_with('0') {
        return Err(PartyFault::BadPort);
    }
    let is_own = scheme == "https" && port == "443" || scheme == "http" && port == "80";
    match port.parse::<u16>() {
        Ok(_) if !is_own => Ok(()),
        _ => Err(PartyFault::BadPort),
    }
}

/// The host and the port of what stands after an origin's scheme.
fn host_and_port(rest: &str) -> (&str, Option<&str>) {
    if rest.ends_with(']') {
        return (rest, None);
    }
    match rest.rsplit_once(':') {
        Some((host, port)) => (host, Some(port)),
        None => (rest, None),
    }
}

/// Whether an origin is that of an app for Android.
fn is_android(origin: &str) -> bool {
    match origin.strip_prefix("android:apk-key-hash:") {
        Some(hash) => {
            !hash.is_empty()
                && hash.bytes().all(|byte| byte.is_ascii_alphanumeric()
                    || byte == b'_'
                    || byte == b'-')
        }
        None => false,
    }
}

/// The host of a web origin as browsers write it (RFC 6454, section 6.2); nothing of an app's.
fn host_of(origin: &str) -> Result<Option<&str>, PartyFault> {
    if is_android(origin) {
        return Ok(None);
    }
    let Some((scheme, rest)) = origin.split_once("://") else {
        return Err(PartyFault::BadOrigin);
    };
    let (host, port) = host_and_port(rest);
    if !is_scheme(scheme) || !is_host(host) {
        return Err(PartyFault::BadOrigin);
    }
    if let Some(port) = port {
        check_port(scheme, port)?;
    }
    if scheme == "https" || scheme == "http" {
        Ok(Some(host))
    } else {
        Ok(None)
    }
}

/// Whether a host is the rp id or ends in it, after a dot.
fn is_of(host: &str, rp_id: &str) -> bool {
    match host.strip_suffix(rp_id) {
        Some(front) => front.is_empty() || front.ends_with('.'),
        None => false,
    }
}

/// That an rp id, origins and those of pages that may frame are as browsers write them, and that the host of a web origin,
/// where there is one, is the rp id or ends in it.
pub(crate) fn check_party(
    rp_id: &str,
    origins: &[&str],
    top_origins: &[&str],
) -> Result<(), PartyFault> {
    check_rp_id(rp_id)?;
    for origin in top_origins {
        host_of(origin)?;
    }
    let (mut has_web, mut has_own) = (false, false);
    for origin in origins {
        if let Some(host) = host_of(origin)? {
            has_web = true;
            has_own = has_own || is_of(host, rp_id);
        }
    }
    if has_web && !has_own {
        return Err(PartyFault::OtherHost);
    }
    Ok(())
}
