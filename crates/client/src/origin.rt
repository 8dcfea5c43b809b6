//! The caller's origin, and the rp ids that it may ask for.

ghost use Rattle.std.specs.Prelude.{◌≡◌, ◌↔◌, IfErr, IfOk, IsTrue, OnOk, Some};
ghost use Rattle.url.specs.Origin.{ascii_serialization, origin_of};
ghost use Rattle.client.specs.Origins.{IsRpIdOf};
ghost use Rattle.client.specs.Steps.{IsCut, IsFault, IsNoOrigin, IsUrlOf, MayAsk, MayNotAsk};
ghost use Rattle.client.specs.declared.error.RequestError.TheVariants as errors;

use crate::error::RequestError;
use std::alloc::Global;
use url::{ParseError, Url};

/// The most bytes of an origin.
const MAX_ORIGIN_LENGTH: usize = 1024;

/// What `url` refuses is a fault of the text, or that memory ran out.
fn refusal_of(error: ParseError) -> RequestError
    ensures { IsFault error result }
{
    match error {
        ParseError::OutOfMemory | ParseError::Overflow => RequestError::Memory,
        _ => RequestError::BadOrigin,
    }
}

/// Whether the URL's origin is serialised as this text; it fails only if memory runs out.
fn is_serialised(alloc: Global, url: &Url, text: &str) -> Result<bool, RequestError>
    ensures same { IfOk result (λ same. IsTrue same ↔ (ascii_serialization (origin_of url.now) ≡ text.now)) }
    ensures memory { IfErr result (λ e. e ≡ errors.Memory) }
{
    let Ok(origin) = url.origin() else {
        return Err(RequestError::Memory);
    };
    let serialised = origin.ascii_serialization(alloc)?;
    Ok(serialised.as_str() == text)
}

/// The URL whose origin is serialised as this text, where its scheme is `https`.
fn origin_url(alloc: Global, text: &str) -> Result<Url, RequestError>
    ensures url { IfOk result (IsUrlOf text.now) }
    ensures refused { IfErr result (IsNoOrigin text.now) }
{
    if text.len() > MAX_ORIGIN_LENGTH {
        return Err(RequestError::BadOrigin);
    }
    let url = match Url::parse(alloc, text) {
        Ok(url) => url,
        Err(error) => return Err(refusal_of(error)),
    };
    if url.scheme() != "https" || !is_serialised(alloc, &url, text)? {
        return Err(RequestError::BadOrigin);
    }
    Ok(url)
}

/// Whether nothing stands in front, or its last byte is a dot.
fn is_cut(front: &[u8]) -> bool
    ensures { IsTrue result ↔ IsCut front.now }
{
    match front.split_last() {
        Some((last, _)) => *last == b'.',
        None => true,
    }
}

/// Whether the rp id is the host, or what follows a dot of it.
fn is_rp_id_of(host: &str, rp_id: &str) -> bool
    ensures { IsTrue result ↔ IsRpIdOf host.now rp_id.now }
{
    if rp_id.is_empty() {
        return false;
    }
    match host.as_bytes().strip_suffix(rp_id.as_bytes()) {
        Some(front) => is_cut(front),
        None => false,
    }
}

/// Whether a caller of this origin may ask for this rp id.
pub fn check_origin(alloc: Global, origin: &str, rp_id: &str) -> Result<(), RequestError>
    ensures may_ask { OnOk result (MayAsk origin.now rp_id.now) }
    ensures refused { IfErr result (MayNotAsk origin.now rp_id.now) }
{
    let url = origin_url(alloc, origin)?;
    let Some(host) = url.domain() else {
        return Err(RequestError::BadOrigin);
    };
    if !is_rp_id_of(host, rp_id) {
        return Err(RequestError::RpIdNotOfOrigin);
    }
    Ok(())
}
