//! What a line is answered.

use json_lines::LineError;
use site_acts::{BeginRegistration, BeginSignIn, Known};
use site_state::{BeginError, Row};
use site_stored::{Begun, Failure, Registered, SignedIn};
use verification::{RegistrationRefusal, SignInRefusal, VerifiedSignature};

/// How many there are.
#[derive(Clone, Copy, Debug, PartialEq, Eq, Drop)]
pub struct Counts {
    /// Credentials, retired ones too.
    pub credentials: u32,
    /// The number that the next session will have.
    pub next_session: u64,
}

/// Why no session begins. Nothing has changed.
#[derive(Clone, Copy, Debug, Drop, thiserror::Error)]
pub enum NotBegun {
    /// The site begins no such session.
    #[error("{0}")]
    Refused(BeginError),
    /// The next session's number fits no column.
    #[error("there is no number for another session")]
    NoNumber,
}

/// What a line is answered.
#[derive(Debug, Drop)]
pub enum Answer {
    /// A registration has begun, what it was asked for, and what is known of the credentials that the account has.
    RegistrationBegun(Begun, BeginRegistration, Vec<Known>),
    /// A sign-in has begun, what it was asked for, and what is known of the credentials that may answer.
    SignInBegun(Begun, BeginSignIn, Vec<Known>),
    /// A credential is registered.
    Registered(Registered),
    /// A user signed in.
    SignedIn(SignedIn),
    /// The host is to verify a signature, and to ask again. Nothing has changed.
    Verify(VerifiedSignature),
    /// The first step that a registration does not pass, and the credential id that the client names. Nothing has changed.
    RegistrationRefused(RegistrationRefusal, Vec<u8>),
    /// The first step that a sign-in does not pass, and the credential id. Nothing has changed.
    SignInRefused(SignInRefusal, Vec<u8>),
    /// Whether the credential is retired only now.
    Retired(bool),
    /// Whether the credential was there until now.
    Deleted(bool),
    /// How many credentials of a user are retired only now.
    RetiredAll(usize),
    /// How many credentials of a user there were until now.
    Erased(usize),
    /// Whether the session was open until now.
    Abandoned(bool),
    /// The credentials of a user, or all, and what is known of each.
    Rows(Vec<Row>, Vec<Known>),
    /// How many there are.
    Status(Counts),
    /// The path to which the site's file is to be copied, once all is committed.
    Backup(String),
    /// Why the site's file was not copied.
    NotBackedUp(String),
    /// No session begins. Nothing has changed.
    NotBegun(NotBegun),
    /// The line is refused. Nothing has changed.
    Error(LineError),
    /// The disk or memory failed, now or earlier. The site is shut.
    Failed(Failure),
}
