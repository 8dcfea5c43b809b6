//! What a response contains, decoded.

use decoded::{
    Attestation, AuthData, ClientData, Fault, put_json, put_null_or_hex, write_attestation,
    write_auth_data, write_client_data,
};
use explanation_case::{Kind, Parts};
use serde_json::Value;
use std::alloc::{AllocError, Global};

/// What the parts of a response contain.
#[derive(Drop)]
pub(crate) struct Contents<'a> {
    pub client_data: ClientData<'a>,
    pub auth_data: AuthData<'a>,
    /// Of a registration.
    pub attestation: Option<Attestation<'a>>,
}

/// Bytes, lent; none if they are absent.
pub(crate) fn lent(bytes: &Option<Vec<u8>>) -> Option<&[u8]> {
    match bytes {
        Some(bytes) => Some(bytes.as_slice()),
        None => None,
    }
}

impl<'a> Contents<'a> {
    /// Reads the parts of a response of this kind.
    pub(crate) fn read(
        alloc: Global,
        kind: Kind,
        parts: &'a Parts,
    ) -> Result<Contents<'a>, AllocError> {
        let attestation = match kind {
            Kind::Registration => Some(Attestation::read(lent(&parts.object).unwrap_or(&[]))),
            Kind::SignIn => None,
        };
        let auth_data = match attestation {
            Some(object) => object.auth_data,
            None => lent(&parts.auth_data),
        };
        Ok(Contents {
            client_data: ClientData::read(alloc, lent(&parts.client_data).unwrap_or(&[]))?,
            auth_data: AuthData::read(auth_data.unwrap_or(&[])),
            attestation,
        })
    }
}

/// Writes a member of an object under another name; null where it is absent.
fn put_value(
    alloc: Global,
    name: &str,
    object: &Value,
    member: &str,
    out: &mut String,
) -> Result<(), AllocError> {
    match object.get(member) {
        Some(value) => {
            let text = value.to_string(alloc)?;
            put_json(name, text.as_str(), out)
        }
        None => put_json(name, "null", out),
    }
}

/// Writes what the client says beside the parts that are verified.
fn put_client(
    alloc: Global,
    kind: Kind,
    response: &Value,
    parts: &Parts,
    out: &mut String,
) -> Result<(), AllocError> {
    out.push_str("{")?;
    put_null_or_hex(alloc, "id", lent(&parts.raw_id), out)?;
    out.push(',')?;
    put_value(
        alloc,
        "attachment",
        response,
        "authenticatorAttachment",
        out,
    )?;
    out.push(',')?;
    match response.get("response") {
        Some(inner) => put_value(alloc, "transports", inner, "transports", out)?,
        None => put_json("transports", "null", out)?,
    }
    out.push(',')?;
    put_value(
        alloc,
        "extension_results",
        response,
        "clientExtensionResults",
        out,
    )?;
    if kind == Kind::SignIn {
        out.push(',')?;
        put_null_or_hex(alloc, "user_handle", lent(&parts.user_handle), out)?;
        out.push(',')?;
        put_null_or_hex(alloc, "signature", lent(&parts.signature), out)?;
    }
    out.push('}')
}

/// What a response contains, as an object of JSON.
pub(crate) fn contents_text(
    alloc: Global,
    kind: Kind,
    response: &Value,
    parts: &Parts,
    contents: &Contents<'_>,
) -> Result<String, Fault> {
    let mut out = String::new(alloc);
    out.push_str("{\"client\":")?;
    put_client(alloc, kind, response, parts, &mut out)?;
    out.push_str(",\"client_data\":")?;
    write_client_data(alloc, &contents.client_data, &mut out)?;
    out.push_str(",\"authenticator_data\":")?;
    write_auth_data(alloc, &contents.auth_data, &mut out)?;
    out.push_str(",\"attestation\":")?;
    match &contents.attestation {
        Some(object) => write_attestation(alloc, object, &mut out)?,
        None => out.push_str("null")?,
    }
    out.push('}')?;
    Ok(out)
}
