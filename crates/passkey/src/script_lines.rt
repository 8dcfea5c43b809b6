//! The lines of a replay script: the one table that the help shows and the script's parser reads.

use std::alloc::{AllocError, Global};
use std::fmt::Write;

/// What a line of a script says.
#[derive(Clone, Copy, Debug, PartialEq, Eq)]
pub enum LineKind {
    Site,
    Row,
    Session,
    Client,
    Valid,
    Packet,
    Clear,
    SignIn,
    Table,
    Backup,
    Retire,
}

/// A form of a script's lines.
struct Form {
    kind: LineKind,
    /// The first word.
    word: &'static str,
    /// What stands after it.
    fields: &'static str,
    meaning: &'static str,
    /// One line, or several, which follow those of the forms before.
    example: &'static str,
}

/// Each form of a line.
static FORMS: [Form; 11] = [
    Form {
        kind: LineKind::Site,
        word: "site",
        fields: "<rp id> <origin>",
        meaning: "the site; the first line",
        example: "site abc https://abc",
    },
    Form {
        kind: LineKind::Row,
        word: "row",
        fields: "<id> <user> <key> <count>",
        meaning: "a registered credential; directly after a site or row line",
        example: "row 0a 01 a40101032720062158201111111111111111111111111111111111111111111111111111111111111111 0",
    },
    Form {
        kind: LineKind::Session,
        word: "session",
        fields: "<user or -> <0 or 1> <words> [ids]",
        meaning: "a sign-in begins; 1 requires verification",
        example: "session 01 0 000000000000000000000000000000000000000000000000",
    },
    Form {
        kind: LineKind::Client,
        word: "client",
        fields: "<text to the end of the line>",
        meaning: "the client data from here on",
        example: "client {\"type\":\"webauthn.get\",\"challenge\":\"AAAAAAAAAAEAAAAAAAAAAAAAAAAAAAAAAAAAAAAAAAA\",\"origin\":\"https://abc\",\
            \"crossOrigin\":false}",
    },
    Form {
        kind: LineKind::Valid,
        word: "valid",
        fields: "<key> <auth data> <sig>",
        meaning: "the signature is valid for the data, then the client data's hash",
        example: "valid a40101032720062158201111111111111111111111111111111111111111111111111111111111111111 \
            ba7816bf8f01cfea414140de5dae2223b00361a396177a9cb410ff61f20015ad0100000001 5a",
    },
    Form {
        kind: LineKind::Packet,
        word: "packet",
        fields: "<hex>",
        meaning: "one more packet, filled up with zeros",
        example: "packet 0000000190004400a301a2626964410a64747970656a7075626c69632d6b6579025825ba7816bf8f01cfea414140de5dae2223b00361a396177a9cb410ff\
            61f2\n  packet 00000001000015ad010000000103415a",
    },
    Form {
        kind: LineKind::SignIn,
        word: "signin",
        fields: "<session> <channel>",
        meaning: "the site's verdict on the packets",
        example: "signin 1 00000001",
    },
    Form {
        kind: LineKind::Clear,
        word: "clear",
        fields: "",
        meaning: "no packets any more",
        example: "clear",
    },
    Form {
        kind: LineKind::Table,
        word: "table",
        fields: "",
        meaning: "the registered credentials, with their counters",
        example: "table",
    },
    Form {
        kind: LineKind::Backup,
        word: "backup",
        fields: "",
        meaning: "which of them are eligible for backup",
        example: "backup",
    },
    Form {
        kind: LineKind::Retire,
        word: "retire",
        fields: "<id>",
        meaning: "the credential is retired",
        example: "retire 0a",
    },
];

const BEHIND_THE_LINES: &str =
    "Bytes are in hex, a channel has 8 hex digits. Empty lines and lines that begin with # are passed over.

What is printed:
  session N CHALLENGE         a sign-in began: its number, and its challenge as client data have it
  accepted USER ID used N     a sign-in was accepted: its user and credential, and how many packets were read
  refused WHAT                it was not: W and the number of a step of WebAuthn section 7.2 (docs/REFUSALS.md), or what was
                              amiss before it: Incomplete (packets are missing), Dead N KIND (packet N, from 0, ended the
                              message), DeviceError XX, Status XX (CTAP's, in hex), Empty, NotCanonical, Shape (of the reply)
  ID USER COUNT               of table: a credential, its user and its signature counter
  ID yes, no or unknown       of backup: whether a credential is eligible for backup

A line of each:";

/// The kind of the lines that begin with this word.
pub fn line_kind(word: &str) -> Option<LineKind> {
    for form in &FORMS {
        if form.word == word {
            return Some(form.kind);
        }
    }
    None
}

/// A form with what it says, as the help shows it.
fn put_form(help: &mut String, form: &Form) -> Result<(), AllocError> {
    let (word, fields, meaning) = (form.word, form.fields, form.meaning);
    writeln!(help, "  {word:<7} {fields:<34} {meaning}")
}

/// The example of a form.
fn put_example(help: &mut String, form: &Form) -> Result<(), AllocError> {
    help.push_str("\n  ")?;
    help.push_str(form.example)
}

/// The forms, and a script with a line of each.
fn put_forms(help: &mut String) -> Result<(), AllocError> {
    for form in &FORMS {
        put_form(help, form)?;
    }
    help.push_str(BEHIND_THE_LINES)?;
    for form in &FORMS {
        put_example(help, form)?;
    }
    Ok(())
}

/// The help of `passkey replay`: each form of a line with what it says, and a script with a line of each.
pub fn replay_help(alloc: Global) -> Result<String, AllocError> {
    let mut help = String::from_str(alloc, "Lines of a script:\n")?;
    put_forms(&mut help)?;
    Ok(help)
}
