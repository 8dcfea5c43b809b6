//! What a line asks for.

use crate::verified::Verified;
use authdata::{AssertionResponse, RegistrationResponse};
use cose::Alg;
use site_state::Asks;

/// A registration that is to begin.
#[derive(Debug, Drop)]
pub struct BeginRegistration {
    /// The user handle of the account.
    pub user: Vec<u8>,
    /// The account's name, which the page shows.
    pub user_name: String,
    /// The user's name, which the page shows.
    pub display_name: String,
    /// The ids of the credentials that the account has.
    pub exclude: Vec<Vec<u8>>,
    /// Whether the user is to be verified.
    pub user_verification: bool,
    /// Whether the credential is to be found without an id.
    pub resident: bool,
    /// The algorithms that are offered.
    pub algorithms: Vec<Alg>,
    /// How it is begun; without a word not conditional, and with no attestation asked for.
    pub asks: Asks,
}

/// A sign-in that is to begin.
#[derive(Debug, Drop)]
pub struct BeginSignIn {
    /// The user handle of the account, where it is known.
    pub user: Option<Vec<u8>>,
    /// The ids of the credentials that may answer; none for any.
    pub allow: Vec<Vec<u8>>,
    /// Whether the user is to be verified.
    pub user_verification: bool,
}

/// A registration that is to be finished.
#[derive(Debug, Drop)]
pub struct FinishRegistration {
    /// The session, as its begin was answered.
    pub session: Vec<u8>,
    /// The credential id that the client names. It is shown, and judged by nothing.
    pub credential: Vec<u8>,
    /// The response.
    pub response: RegistrationResponse,
    /// The transports that the client tells (WebAuthn Level 2, section 5.8.4).
    pub transports: Vec<String>,
    /// What the host found of the signature.
    pub verified: Verified,
}

/// A sign-in that is to be finished.
#[derive(Debug, Drop)]
pub struct FinishSignIn {
    /// The session, as its begin was answered.
    pub session: Vec<u8>,
    /// The response.
    pub response: AssertionResponse,
    /// What the host found of the signature.
    pub verified: Verified,
}

/// What a line asks for.
#[derive(Debug, Drop)]
pub enum Act {
    BeginRegistration(BeginRegistration),
    FinishRegistration(FinishRegistration),
    BeginSignIn(BeginSignIn),
    FinishSignIn(FinishSignIn),
    /// Retire the credential of an id.
    Retire(Vec<u8>),
    /// Delete the credential of an id.
    Delete(Vec<u8>),
    /// Retire each credential of a user.
    RetireAll(Vec<u8>),
    /// Delete each credential of a user.
    Erase(Vec<u8>),
    /// End a session, which is as its begin was answered.
    Abandon(Vec<u8>),
    /// Tell the credentials of a user, or all.
    Rows(Option<Vec<u8>>),
    /// Tell how the site is.
    Status,
    /// Copy the site's file to a path.
    Backup(String),
}
