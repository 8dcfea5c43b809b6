//! What answers say of credentials and signatures, as values of JSON.

ghost use Rattle.std.specs.Prelude.{◌≡◌, ◌++◌, IfOk, OnOk, map, option_and_then, option_map};
ghost use Rattle.serde_json.specs.Data.{array, no_members, object};
ghost use Rattle.serde_json.specs.View.{items_of, members_view, view};
ghost use Rattle.cose.specs.Keys.{lent_key_view, x_of as x_in};
ghost use Rattle.site_state.specs.Details.{detail_view};
ghost use Rattle.site_state.specs.RowViews.{row_view};
ghost use Rattle.json_lines.specs.Written.{natural};
ghost use Rattle.site_lines.specs.Written.{aaguid_or_null as aaguid_or_null_of, attested_members, bytes_or_null as bytes_or_null_of, data_members, flag_or_null as flag_or_null_of, integer_or_null as integer_or_null_of, key_members, known_members, registered as registered_of, row_members, signed_in as signed_in_of, to_verify, who_members, whole_row as whole_row_of, whole_rows, y_of as y_in};
ghost use Rattle.site_lines.specs.Private.{row_at};

use authdata::flags::{BS, UV, is_set};
use cose::{CoseKey, KeyView};
use json_lines::base64_text;
use serde_json::{Map, Value, put};
use site_acts::{Known, texts};
use site_state::Row;
use site_stored::{Registered, SignedIn, Summary};
use std::alloc::{AllocError, Global};
use verification::VerifiedSignature;

/// The coordinate x of a key, of an RSA key its modulus.
fn x_of<'a>(key: &'a KeyView<'_>) -> &'a [u8]
    ensures { result.now ≡ x_in (lent_key_view key.now) }
{
    match key {
        KeyView::Es256 { x, y: _ } => x,
        KeyView::EdDsa { x } => x,
        KeyView::Rs256(key) => key.n,
    }
}

/// The coordinate y of a key, of an RSA key its exponent; of EdDSA it is empty.
fn y_of<'a>(key: &'a KeyView<'_>) -> &'a [u8]
    ensures { result.now ≡ y_in (lent_key_view key.now) }
{
    match key {
        KeyView::Es256 { x: _, y } => y,
        KeyView::EdDsa { x: _ } => &[],
        KeyView::Rs256(key) => key.e,
    }
}

/// Adds a public key.
fn put_key(alloc: Global, key: &CoseKey, out: &mut Map<String, Value>) -> Result<(), AllocError>
    ensures { OnOk result (members_view out.new.entries ≡ key_members key.now (members_view out.old.entries)) }
{
    let key = key.view();
    put(out, alloc, "algorithm", Value::from(key.alg().number()))?;
    put(out, alloc, "x", base64_text(alloc, x_of(&key))?)?;
    put(out, alloc, "y", base64_text(alloc, y_of(&key))?)
}

/// A signature that is to be verified.
pub(crate) fn verify(alloc: Global, asked: &VerifiedSignature) -> Result<Value, AllocError>
    ensures { IfOk result (λ v. view v ≡ to_verify asked.now) }
{
    let mut members = Map::new(alloc);
    put_key(alloc, &asked.key, &mut members)?;
    put(
        &mut members,
        alloc,
        "message",
        base64_text(alloc, asked.message.as_slice())?,
    )?;
    put(
        &mut members,
        alloc,
        "signature",
        base64_text(alloc, asked.signature.as_slice())?,
    )?;
    Ok(Value::Object(members))
}

/// A flag; null where it is not known.
fn flag_or_null(known: Option<bool>) -> Value
    ensures { view result ≡ flag_or_null_of known }
{
    match known {
        Some(flag) => Value::Bool(flag),
        None => Value::Null,
    }
}

/// A number; null where it is not known.
fn number_or_null(known: Option<i64>) -> Value
    ensures { view result ≡ integer_or_null_of known }
{
    match known {
        Some(number) => Value::from(number),
        None => Value::Null,
    }
}

/// Bytes; null where there are none.
fn bytes_or_null(alloc: Global, known: Option<&[u8]>) -> Result<Value, AllocError>
    ensures { IfOk result (λ v. view v ≡ bytes_or_null_of (option_map (λ bytes. bytes.now) known.entry)) }
{
    match known {
        Some(bytes) => base64_text(alloc, bytes),
        None => Ok(Value::Null),
    }
}

/// An aaguid; null where it is not known, or has not 16 bytes.
fn aaguid_or_null(alloc: Global, aaguid: Option<&[u8]>) -> Result<Value, AllocError>
    ensures { IfOk result (λ v. view v ≡ aaguid_or_null_of (option_map (λ bytes. bytes.now) aaguid.entry)) }
{
    match aaguid {
        Some(bytes) if bytes.len() == 16 => base64_text(alloc, bytes),
        _ => Ok(Value::Null),
    }
}

/// Adds a credential, as its row has it.
fn put_row(alloc: Global, row: &Row, out: &mut Map<String, Value>) -> Result<(), AllocError>
    ensures { OnOk result (members_view out.new.entries ≡ row_members (row_view row.now) (members_view out.old.entries)) }
{
    put(
        out,
        alloc,
        "credential",
        base64_text(alloc, row.id.as_slice())?,
    )?;
    put(out, alloc, "user", base64_text(alloc, row.user.as_slice())?)?;
    put_key(alloc, &row.key, out)?;
    put(out, alloc, "sign_count", Value::from(row.sign_count))?;
    put(out, alloc, "eligible", flag_or_null(row.eligible))?;
    put(out, alloc, "retired", Value::Bool(row.retired))
}

/// When a credential was registered.
fn created_at(known: &Known) -> Option<i64>
    ensures { result ≡ option_and_then (λ d. d.created_at) (option_map detail_view known.now.detail) }
{
    match &known.detail {
        Some(detail) => detail.created_at,
        None => None,
    }
}

/// When it was last used.
fn used_at(known: &Known) -> Option<i64>
    ensures { result ≡ option_and_then (λ d. d.used_at) (option_map detail_view known.now.detail) }
{
    match &known.detail {
        Some(detail) => detail.used_at,
        None => None,
    }
}

/// The aaguid of its authenticator.
fn aaguid(known: &Known) -> Option<&[u8]>
    ensures { option_map (λ bytes. bytes.now) result ≡ option_and_then (λ d. d.aaguid) (option_map detail_view known.now.detail) }
{
    match &known.detail {
        Some(detail) => detail.aaguid.as_deref(),
        None => None,
    }
}

/// Adds what is known of a credential beside what verdicts ask for.
fn put_known(alloc: Global, known: &Known, out: &mut Map<String, Value>) -> Result<(), AllocError>
    ensures { OnOk result (members_view out.new.entries ≡ known_members known.now (members_view out.old.entries)) }
{
    put(out, alloc, "created_at", number_or_null(created_at(known)))?;
    put(out, alloc, "used_at", number_or_null(used_at(known)))?;
    put(
        out,
        alloc,
        "transports",
        texts(alloc, known.transports.as_slice())?,
    )?;
    put(out, alloc, "aaguid", aaguid_or_null(alloc, aaguid(known))?)
}

/// A credential, with what is known of it.
fn whole_row(alloc: Global, row: &Row, known: &Known) -> Result<Value, AllocError>
    ensures { IfOk result (λ v. view v ≡ whole_row_of row.now known.now) }
{
    let mut members = Map::new(alloc);
    put_row(alloc, row, &mut members)?;
    put_known(alloc, known, &mut members)?;
    Ok(Value::Object(members))
}

/// Adds a credential, with what is known of it, where that is answered.
fn push_row(
    alloc: Global,
    row: &Row,
    known: Option<&Known>,
    list: &mut Vec<Value>,
) -> Result<(), AllocError>
    ensures { OnOk result (map view list.new.items ≡ map view list.old.items ++ row_at row.now (option_map (λ k. k.now) known.entry)) }
{
    let Some(known) = known else {
        return Ok(());
    };
    let row = whole_row(alloc, row, known)?;
    Ok(list.push(row)?)
}

/// Credentials, each with what is known of it, as a list.
#[tactic(auto, using(crate::proofs::Counted::rows_more))]
fn row_list(alloc: Global, rows: &[Row], known: &[Known]) -> Result<Vec<Value>, AllocError>
    ensures { IfOk result (λ list. map view list.items ≡ whole_rows rows.now known.now) }
{
    let mut list = Vec::with_capacity(alloc, rows.len())?;
    for (at, row) in rows.iter().enumerate() {
        push_row(alloc, row, known.get(at), &mut list)?;
    }
    Ok(list)
}

/// Credentials, each with what is known of it.
pub(crate) fn rows(alloc: Global, rows: &[Row], known: &[Known]) -> Result<Value, AllocError>
    ensures { IfOk result (λ v. view v ≡ array (items_of (whole_rows rows.now known.now))) }
{
    let list = row_list(alloc, rows, known)?;
    Ok(Value::Array(list))
}

/// Adds what authenticator data say.
fn put_data(
    alloc: Global,
    summary: &Summary,
    out: &mut Map<String, Value>,
) -> Result<(), AllocError>
    ensures { OnOk result (members_view out.new.entries ≡ data_members summary.now (members_view out.old.entries)) }
{
    let verified = is_set(summary.flags, UV);
    put(out, alloc, "user_verified", Value::Bool(verified))?;
    put(out, alloc, "flags", Value::from(summary.flags))?;
    put(
        out,
        alloc,
        "extensions",
        bytes_or_null(alloc, summary.extensions.as_deref())?,
    )
}

/// Adds what the authenticator data of a registration say, and the format of their object.
fn put_attested(
    alloc: Global,
    told: &Registered,
    out: &mut Map<String, Value>,
) -> Result<(), AllocError>
    ensures { OnOk result (members_view out.new.entries ≡ attested_members told.now (members_view out.old.entries)) }
{
    put(out, alloc, "aaguid", base64_text(alloc, &told.aaguid)?)?;
    put(
        out,
        alloc,
        "format",
        Value::try_from_str(alloc, told.format.as_str())?,
    )?;
    let backed_up = is_set(told.summary.flags, BS);
    put(out, alloc, "backed_up", Value::Bool(backed_up))?;
    put_data(alloc, &told.summary, out)
}

/// The credential that was registered, with what its response says.
pub(crate) fn registered(alloc: Global, told: &Registered) -> Result<Value, AllocError>
    ensures { IfOk result (λ v. view v ≡ registered_of told.now) }
{
    let mut members = Map::new(alloc);
    put_row(alloc, &told.credential, &mut members)?;
    put_attested(alloc, told, &mut members)?;
    Ok(Value::Object(members))
}

/// Adds who signed in.
fn put_who(alloc: Global, who: &SignedIn, out: &mut Map<String, Value>) -> Result<(), AllocError>
    requires { members_view out.old.entries ≡ no_members }
    ensures { OnOk result (members_view out.new.entries ≡ who_members who.now) }
{
    put(
        out,
        alloc,
        "credential",
        base64_text(alloc, who.credential.as_slice())?,
    )?;
    put(out, alloc, "user", base64_text(alloc, who.user.as_slice())?)?;
    let backed_up = is_set(who.summary.flags, BS);
    put(out, alloc, "backed_up", Value::Bool(backed_up))
}

/// Who signed in, with what the response says.
pub(crate) fn signed_in(alloc: Global, who: &SignedIn) -> Result<Value, AllocError>
    ensures { IfOk result (λ v. view v ≡ signed_in_of who.now) }
{
    let mut members = Map::new(alloc);
    put_who(alloc, who, &mut members)?;
    put(
        &mut members,
        alloc,
        "sign_count",
        Value::from(who.summary.sign_count),
    )?;
    put_data(alloc, &who.summary, &mut members)?;
    Ok(Value::Object(members))
}
