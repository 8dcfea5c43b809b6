//! The acts, what each takes, and what the help shows of it.

ghost use Rattle.std.specs.Prelude.{◌≡◌, MatchOption, map};
ghost use Rattle.site_acts.specs.Faults.{kind_name, names_for};
ghost use Rattle.site_acts.specs.declared.acts.ActKind.{ActKind as Kind};

use std::alloc::{AllocError, Global};
use std::fmt::Write;

/// The kind of an act.
#[derive(Clone, Copy, Debug, PartialEq, Eq, Drop)]
pub(crate) enum ActKind {
    BeginRegistration,
    FinishRegistration,
    BeginSignIn,
    FinishSignIn,
    Retire,
    Delete,
    RetireAll,
    Erase,
    Abandon,
    Rows,
    Status,
    Backup,
}

impl ActKind {
    /// Its name in a line.
    fn name(self) -> &'static str
        ensures { result.now ≡ kind_name self }
    {
        match self {
            ActKind::BeginRegistration => "begin_registration",
            ActKind::FinishRegistration => "finish_registration",
            ActKind::BeginSignIn => "begin_sign_in",
            ActKind::FinishSignIn => "finish_sign_in",
            ActKind::Retire => "retire",
            ActKind::Delete => "delete",
            ActKind::RetireAll => "retire_all",
            ActKind::Erase => "erase",
            ActKind::Abandon => "abandon",
            ActKind::Rows => "rows",
            ActKind::Status => "status",
            ActKind::Backup => "backup",
        }
    }
}

/// A member that lines of an act have.
struct Member {
    act: ActKind,
    name: &'static str,
    is_needed: bool,
    meaning: &'static str,
}

/// An act.
struct Form {
    kind: ActKind,
    meaning: &'static str,
    answer: &'static str,
}

/// Each act.
static FORMS: [Form; 12] = [
    Form {
        kind: ActKind::BeginRegistration,
        meaning: "begin a registration",
        answer: "session, number, options",
    },
    Form {
        kind: ActKind::FinishRegistration,
        meaning: "judge its response",
        answer: "verify, accepted or refused",
    },
    Form {
        kind: ActKind::BeginSignIn,
        meaning: "begin a sign-in",
        answer: "session, number, options",
    },
    Form {
        kind: ActKind::FinishSignIn,
        meaning: "judge its response",
        answer: "verify, accepted or refused",
    },
    Form {
        kind: ActKind::Retire,
        meaning: "stop a credential from signing in",
        answer: "retired: whether it could until now",
    },
    Form {
        kind: ActKind::Delete,
        meaning: "delete a credential",
        answer: "deleted: whether it was there",
    },
    Form {
        kind: ActKind::RetireAll,
        meaning: "stop a user's credentials from signing in",
        answer: "retired_all: how many could until now",
    },
    Form {
        kind: ActKind::Erase,
        meaning: "delete a user's credentials",
        answer: "erased: how many there were",
    },
    Form {
        kind: ActKind::Abandon,
        meaning: "end a session",
        answer: "abandoned: whether it was open",
    },
    Form {
        kind: ActKind::Rows,
        meaning: "list the credentials of a user, or all",
        answer: "rows",
    },
    Form {
        kind: ActKind::Status,
        meaning: "report the state of the site",
        answer: "status",
    },
    Form {
        kind: ActKind::Backup,
        meaning: "copy the file",
        answer: "backup: whether the copy is whole on the disk",
    },
];

/// Each act's members, beside `id` and `act`.
static MEMBERS: [Member; 26] = [
    Member {
        act: ActKind::BeginRegistration,
        name: "user",
        is_needed: true,
        meaning: "the account's user handle",
    },
    Member {
        act: ActKind::BeginRegistration,
        name: "user_name",
        is_needed: true,
        meaning: "the account's name",
    },
    Member {
        act: ActKind::BeginRegistration,
        name: "display_name",
        is_needed: false,
        meaning: "the user's name [default: user_name]",
    },
    Member {
        act: ActKind::BeginRegistration,
        name: "exclude",
        is_needed: false,
        meaning: "the ids of the account's credentials",
    },
    Member {
        act: ActKind::BeginRegistration,
        name: "user_verification",
        is_needed: false,
        meaning: "true: require user verification",
    },
    Member {
        act: ActKind::BeginRegistration,
        name: "resident",
        is_needed: false,
        meaning: "false: the passkey need not be discoverable",
    },
    Member {
        act: ActKind::BeginRegistration,
        name: "algorithms",
        is_needed: false,
        meaning: "some of -7, -8, -257 [default: all]",
    },
    Member {
        act: ActKind::BeginRegistration,
        name: "conditional",
        is_needed: false,
        meaning: "true: a conditional create",
    },
    Member {
        act: ActKind::BeginRegistration,
        name: "attestation",
        is_needed: false,
        meaning: "true: ask for an attestation",
    },
    Member {
        act: ActKind::FinishRegistration,
        name: "session",
        is_needed: true,
        meaning: "the session that the begin answered",
    },
    Member {
        act: ActKind::FinishRegistration,
        name: "response",
        is_needed: true,
        meaning: "the browser's credential.toJSON()",
    },
    Member {
        act: ActKind::FinishRegistration,
        name: "transports",
        is_needed: false,
        meaning: "the texts of getTransports() [default: those of the response]",
    },
    Member {
        act: ActKind::FinishRegistration,
        name: "verified",
        is_needed: false,
        meaning: "what verify held if the signature is valid; false if it is not",
    },
    Member {
        act: ActKind::BeginSignIn,
        name: "user",
        is_needed: false,
        meaning: "the account's user handle",
    },
    Member {
        act: ActKind::BeginSignIn,
        name: "allow",
        is_needed: false,
        meaning: "the ids that may answer [default: any]",
    },
    Member {
        act: ActKind::BeginSignIn,
        name: "user_verification",
        is_needed: false,
        meaning: "true: require user verification",
    },
    Member {
        act: ActKind::FinishSignIn,
        name: "session",
        is_needed: true,
        meaning: "the session that the begin answered",
    },
    Member {
        act: ActKind::FinishSignIn,
        name: "response",
        is_needed: true,
        meaning: "the browser's credential.toJSON()",
    },
    Member {
        act: ActKind::FinishSignIn,
        name: "verified",
        is_needed: false,
        meaning: "what verify held if the signature is valid; false if it is not",
    },
    Member {
        act: ActKind::Retire,
        name: "credential",
        is_needed: true,
        meaning: "the credential's id",
    },
    Member {
        act: ActKind::Delete,
        name: "credential",
        is_needed: true,
        meaning: "the credential's id",
    },
    Member {
        act: ActKind::Abandon,
        name: "session",
        is_needed: true,
        meaning: "the session that the begin answered",
    },
    Member {
        act: ActKind::RetireAll,
        name: "user",
        is_needed: true,
        meaning: "the account's user handle",
    },
    Member {
        act: ActKind::Erase,
        name: "user",
        is_needed: true,
        meaning: "the account's user handle",
    },
    Member {
        act: ActKind::Rows,
        name: "user",
        is_needed: false,
        meaning: "the account's user handle",
    },
    Member {
        act: ActKind::Backup,
        name: "path",
        is_needed: true,
        meaning: "a path where no file is",
    },
];

/// The act of this name.
pub(crate) fn act_named(name: &str) -> Option<ActKind>
    ensures { MatchOption result ((kind : Kind) → name.now ≡ kind_name kind → ⊥) (λ kind. name.now ≡ kind_name kind) }
{
    match name {
        "begin_registration" => Some(ActKind::BeginRegistration),
        "finish_registration" => Some(ActKind::FinishRegistration),
        "begin_sign_in" => Some(ActKind::BeginSignIn),
        "finish_sign_in" => Some(ActKind::FinishSignIn),
        "retire" => Some(ActKind::Retire),
        "delete" => Some(ActKind::Delete),
        "retire_all" => Some(ActKind::RetireAll),
        "erase" => Some(ActKind::Erase),
        "abandon" => Some(ActKind::Abandon),
        "rows" => Some(ActKind::Rows),
        "status" => Some(ActKind::Status),
        "backup" => Some(ActKind::Backup),
        _ => None,
    }
}

/// The names of the members of an act's lines, beside `id` and `act`.
pub(crate) fn names_of(act: ActKind) -> &'static [&'static str]
    ensures { map (λ n. n.now) result.now ≡ names_for act }
{
    match act {
        ActKind::BeginRegistration => &[
            "user",
            "user_name",
            "display_name",
            "exclude",
            "user_verification",
            "resident",
            "algorithms",
            "conditional",
            "attestation",
        ],
        ActKind::FinishRegistration => &["session", "response", "transports", "verified"],
        ActKind::BeginSignIn => &["user", "allow", "user_verification"],
        ActKind::FinishSignIn => &["session", "response", "verified"],
        ActKind::Retire | ActKind::Delete => &["credential"],
        ActKind::Abandon => &["session"],
        ActKind::RetireAll | ActKind::Erase | ActKind::Rows => &["user"],
        ActKind::Status => &[],
        ActKind::Backup => &["path"],
    }
}

/// The lines of the help on one act.
fn act_help(help: &mut String, form: &Form) -> Result<(), AllocError> {
    let (name, meaning, answer) = (form.kind.name(), form.meaning, form.answer);
    writeln!(help, "\n  {name:<20} {meaning}")?;
    for member in &MEMBERS {
        if member.act == form.kind {
            let (name, meaning) = (member.name, member.meaning);
            let left_out = if member.is_needed { "" } else { " (optional)" };
            writeln!(help, "    {name:<18} {meaning}{left_out}")?;
        }
    }
    writeln!(help, "    answers            {answer}")
}

/// Each act with its members and its answer, as the help shows them.
pub fn acts_help(alloc: Global) -> Result<String, AllocError> {
    let mut help = String::from_str(
        alloc,
        "A line in is {\"id\": NUMBER, \"act\": NAME, ..}; its answer has the same id. Bytes are base64url without padding.
Any answer may be an error, which changes nothing, or failed, after which the site is shut.

Acts:
",
    )?;
    for form in &FORMS {
        act_help(&mut help, form)?;
    }
    Ok(help)
}
