//! An explanation, as lines or as JSON.

use crate::explaining::{Explained, Verdict};
use crate::lines::Line;
use crate::numbers::numbers_of;
use crate::shown::{Shown, ShownStep, Words};
use base64::engine::general_purpose::URL_SAFE_NO_PAD;
use decoded::{put_json, put_null_or_text};
use explanation_case::Kind;
use std::alloc::{AllocError, Global};
use std::fmt::Write;
use verification::VerifiedSignature;

/// Why a case whose signature is not known is not judged.
const NOT_KNOWN: &str =
    "the signature is not verified here: verify it, and add signature_verified, true or false";

fn kind_name(kind: Kind) -> &'static str {
    match kind {
        Kind::Registration => "registration",
        Kind::SignIn => "sign-in",
    }
}

/// The letter before the numbers of a kind's refusals.
fn letter_of(kind: Kind) -> &'static str {
    match kind {
        Kind::Registration => "G",
        Kind::SignIn => "W",
    }
}

impl Verdict {
    fn name(self) -> &'static str {
        match self {
            Verdict::Accepted => "accepted",
            Verdict::Refused => "refused",
            Verdict::NotJudged => "not judged",
        }
    }
}

impl Explained {
    /// The letter before the numbers of refusals.
    fn letter(&self) -> &'static str {
        match self.kind {
            Some(kind) => letter_of(kind),
            None => "",
        }
    }

    /// Why it is not judged, as a text; none where it is.
    fn reason(&self, alloc: Global) -> Result<Option<String>, AllocError> {
        match &self.fault {
            Some(fault) => Ok(Some(format!(in alloc; "{fault}")?)),
            None if self.asked.is_some() => Ok(Some(String::from_str(alloc, NOT_KNOWN)?)),
            None => Ok(None),
        }
    }
}

/// Writes the first line.
fn write_head(alloc: Global, told: &Explained, out: &mut String) -> Result<(), AllocError> {
    let kind = match told.kind {
        Some(kind) => kind_name(kind),
        None => "response",
    };
    let verdict = told.verdict().name();
    write!(out, "{kind} {verdict}")?;
    if told.verdict() == Verdict::Refused {
        if let Some(words) = told.refusal() {
            let (letter, number, name, text) = (
                told.letter(),
                words.number,
                words.name,
                words.text,
            );
            write!(out, " {letter}{number} {name}: {text}")?;
        }
    }
    if let Some(reason) = told.reason(alloc)? {
        write!(out, ": {reason}")?;
    }
    out.push('\n')
}

/// Writes an indented line of bytes in hex.
fn write_hex(alloc: Global, of: &str, bytes: &[u8], out: &mut String) -> Result<(), AllocError> {
    let digits = hex::encode(alloc, bytes)?;
    writeln!(out, "                  {of}: {digits}")
}

/// Writes the signature that is to be verified.
fn write_asked(
    alloc: Global,
    asked: &VerifiedSignature,
    out: &mut String,
) -> Result<(), AllocError> {
    let key = asked.key.view();
    let numbers = numbers_of(&key);
    let algorithm = numbers.algorithm;
    writeln!(out, "                  algorithm: {algorithm}")?;
    write_hex(alloc, "x", numbers.x, out)?;
    if !numbers.y.is_empty() {
        write_hex(alloc, "y", numbers.y, out)?;
    }
    write_hex(alloc, "message", &asked.message, out)?;
    write_hex(alloc, "signature", &asked.signature, out)?;
    out.push_str("                  the steps after this one are shown as for a valid signature\n")
}

/// Writes what a step looks at, a line each.
fn write_lines(lines: &[Line], out: &mut String) -> Result<(), AllocError> {
    for line in lines {
        let of = line.of.as_str();
        write!(out, "                  {of}: ")?;
        match (line.text.as_deref(), line.hex.as_deref()) {
            (Some(text), Some(digits)) => writeln!(out, "{text}, in bytes {digits}")?,
            (Some(one), None) | (None, Some(one)) => writeln!(out, "{one}")?,
            (None, None) => writeln!(out)?,
        }
    }
    Ok(())
}

/// Writes a step's line, and what to do if it fails or is not judged.
fn write_step(
    alloc: Global,
    told: &Explained,
    step: &ShownStep,
    out: &mut String,
) -> Result<(), AllocError> {
    let (letter, number, state) = (told.letter(), step.words.number, step.shown.name());
    let code = format!(in alloc; "{letter}{number}")?;
    let (asks, standard) = (step.words.asks, step.words.standard);
    writeln!(out, "{state:<13}{code:<5}{asks} ({standard})")?;
    if step.shown == Shown::Failed {
        write_lines(&step.compared, out)?;
        let (when, advice) = (step.words.when, step.words.advice);
        writeln!(out, "                  it is refused where: {when}")?;
        writeln!(out, "                  what to do: {advice}")?;
    }
    match &told.asked {
        Some(asked) if step.shown == Shown::NotJudged => write_asked(alloc, asked, out),
        _ => Ok(()),
    }
}

/// Appends an explanation as lines: the kind and the verdict, then each step.
pub fn write_text(alloc: Global, told: &Explained, out: &mut String) -> Result<(), AllocError> {
    write_head(alloc, told, out)?;
    for step in &told.steps {
        write_step(alloc, told, step, out)?;
    }
    Ok(())
}

/// Writes a member whose value is bytes, in base64url.
fn put_bytes(alloc: Global, name: &str, bytes: &[u8], out: &mut String) -> Result<(), AllocError> {
    let text = URL_SAFE_NO_PAD.encode(alloc, bytes)?;
    write!(out, ",\"{name}\":\"{text}\"")
}

/// Writes the members that name a step.
fn put_name(
    alloc: Global,
    letter: &str,
    words: &Words,
    out: &mut String,
) -> Result<(), AllocError> {
    let (number, name) = (words.number, words.name);
    write!(out, "{{\"number\":{number},\"code\":\"{letter}{number}\",")?;
    put_null_or_text(alloc, "name", Some(name), out)
}

/// Writes the refusal.
fn put_refusal(alloc: Global, told: &Explained, out: &mut String) -> Result<(), AllocError> {
    let refusal = match told.verdict() {
        Verdict::Refused => told.refusal(),
        Verdict::Accepted | Verdict::NotJudged => None,
    };
    let Some(words) = refusal else {
        return out.push_str("\"refusal\":null");
    };
    out.push_str("\"refusal\":")?;
    put_name(alloc, told.letter(), words, out)?;
    out.push(',')?;
    put_null_or_text(alloc, "text", Some(words.text), out)?;
    out.push('}')
}

/// Writes what a step looks at.
fn put_lines(alloc: Global, lines: &[Line], out: &mut String) -> Result<(), AllocError> {
    for (i, line) in lines.iter().enumerate() {
        out.push_str(if i == 0 { "{" } else { ",{" })?;
        put_null_or_text(alloc, "of", Some(line.of.as_str()), out)?;
        out.push(',')?;
        put_null_or_text(alloc, "text", line.text.as_deref(), out)?;
        out.push(',')?;
        put_null_or_text(alloc, "hex", line.hex.as_deref(), out)?;
        out.push('}')?;
    }
    Ok(())
}

/// Writes a step.
fn put_step(
    alloc: Global,
    letter: &str,
    step: &ShownStep,
    out: &mut String,
) -> Result<(), AllocError> {
    let words = step.words;
    put_name(alloc, letter, words, out)?;
    let members = [
        ("standard", words.standard),
        ("asks", words.asks),
        ("state", step.shown.name()),
        ("refusal", words.text),
        ("when", words.when),
        ("advice", words.advice),
    ];
    for (name, text) in members {
        out.push(',')?;
        put_null_or_text(alloc, name, Some(text), out)?;
    }
    out.push_str(",\"bytes\":[")?;
    put_lines(alloc, &step.compared, out)?;
    out.push_str("]}")
}

/// Writes the signature that is not judged.
fn put_asked(alloc: Global, asked: &VerifiedSignature, out: &mut String) -> Result<(), AllocError> {
    let key = asked.key.view();
    let numbers = numbers_of(&key);
    let algorithm = numbers.algorithm;
    write!(out, "{{\"algorithm\":{algorithm}")?;
    put_bytes(alloc, "x", numbers.x, out)?;
    put_bytes(alloc, "y", numbers.y, out)?;
    put_bytes(alloc, "message", &asked.message, out)?;
    put_bytes(alloc, "signature", &asked.signature, out)?;
    out.push('}')
}

/// Writes the members before the steps.
fn put_head(alloc: Global, told: &Explained, out: &mut String) -> Result<(), AllocError> {
    out.push('{')?;
    put_null_or_text(alloc, "kind", told.kind.map(kind_name), out)?;
    out.push(',')?;
    put_null_or_text(alloc, "verdict", Some(told.verdict().name()), out)?;
    out.push(',')?;
    let reason = told.reason(alloc)?;
    put_null_or_text(alloc, "fault", reason.as_deref(), out)?;
    out.push(',')?;
    put_refusal(alloc, told, out)
}

/// Writes the steps.
fn put_steps(alloc: Global, told: &Explained, out: &mut String) -> Result<(), AllocError> {
    for (i, step) in told.steps.iter().enumerate() {
        out.push_str(if i == 0 { "\n" } else { ",\n" })?;
        put_step(alloc, told.letter(), step, out)?;
    }
    Ok(())
}

/// Appends an explanation as one object of JSON, a line for each step.
pub fn write_json(alloc: Global, told: &Explained, out: &mut String) -> Result<(), AllocError> {
    put_head(alloc, told, out)?;
    out.push_str(",\"signature\":")?;
    match &told.asked {
        Some(asked) => put_asked(alloc, asked, out)?,
        None => out.push_str("null")?,
    }
    out.push(',')?;
    put_json("credential", told.stored.as_deref().unwrap_or("null"), out)?;
    out.push(',')?;
    put_json("decoded", told.contents.as_deref().unwrap_or("null"), out)?;
    out.push_str(",\"steps\":[")?;
    put_steps(alloc, told, out)?;
    out.push_str("]}\n")
}
