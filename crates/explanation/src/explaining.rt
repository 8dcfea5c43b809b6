//! A case explained.

use crate::asked;
use crate::compared::compared;
use crate::contents::{Contents, contents_text};
use crate::facts::{Facts, registration_session, sign_in_session};
use crate::judged::{explain_registration, explain_sign_in};
use crate::lines::Lines;
use crate::shown::{Shown, ShownStep, Words, is_asked, shown_steps, unreached};
use crate::stored::{stored_by_registration, stored_by_sign_in};
use crate::words::{REGISTRATION, SIGN_IN};
use authdata::Profile;
use decoded::Fault;
use explanation_case::{
    CaseError, CredentialRow, Kind, Parts, RegistrationCase, SignInCase, parts_of, value_of,
};
use serde_json::Value;
use std::alloc::{AllocError, Global};
use verification::{Policy, RegistrationAttempt, RowView, SignInAttempt, VerifiedSignature};

/// What is explained of a case.
#[derive(Drop)]
pub struct Explained {
    /// The kind of its response, if it has one.
    pub kind: Option<Kind>,
    /// Why it is not judged, if it cannot be.
    pub fault: Option<CaseError>,
    pub(crate) steps: Vec<ShownStep>,
    /// The signature that is not judged.
    pub(crate) asked: Option<VerifiedSignature>,
    /// The credential to store, in JSON.
    pub(crate) stored: Option<String>,
    /// What the response contains, in JSON.
    pub(crate) contents: Option<String>,
}

/// What a case comes to.
#[derive(Clone, Copy, Debug, PartialEq, Eq, Drop)]
pub enum Verdict {
    Accepted,
    Refused,
    NotJudged,
}

/// What steps come to: accepted if each is passed, and refused if one fails and each before it is passed, whatever the
/// signature is.
fn verdict_of(steps: &[ShownStep]) -> Verdict {
    for step in steps {
        match step.shown {
            Shown::Passed => {}
            Shown::Failed => return Verdict::Refused,
            Shown::NotJudged | Shown::NotReached => return Verdict::NotJudged,
        }
    }
    Verdict::Accepted
}

impl Explained {
    /// The step at which the response is refused, whatever its signature is.
    pub(crate) fn refusal(&self) -> Option<&'static Words> {
        for step in &self.steps {
            match step.shown {
                Shown::Passed => {}
                Shown::Failed => return Some(step.words),
                Shown::NotJudged | Shown::NotReached => return None,
            }
        }
        None
    }

    /// What the case comes to.
    pub fn verdict(&self) -> Verdict {
        if self.fault.is_some() {
            return Verdict::NotJudged;
        }
        verdict_of(&self.steps)
    }
}

/// A row, lent.
fn lent(row: &Option<CredentialRow>) -> Option<RowView<'_>> {
    match row {
        Some(row) => Some(row.view()),
        None => None,
    }
}

/// The lines of a step.
fn lines_of(alloc: Global, name: &str, facts: &Facts<'_>) -> Result<Lines, AllocError> {
    let mut lines = Lines::new(alloc);
    match compared(name, facts, &mut lines) {
        Err(Fault::Memory) => Err(AllocError),
        // What is not readable was looked at before.
        Ok(()) | Err(Fault::At(_)) => Ok(lines),
    }
}

/// The steps with what each looks at.
fn with_lines(
    alloc: Global,
    steps: &[ShownStep],
    facts: &Facts<'_>,
) -> Result<Vec<ShownStep>, AllocError> {
    let mut found = Vec::new(alloc);
    for step in steps {
        let lines = lines_of(alloc, step.words.name, facts)?;
        found.push(ShownStep {
            words: step.words,
            shown: step.shown,
            compared: lines.list,
        })?;
    }
    Ok(found)
}

/// A signature, unless it is said whether it is valid.
fn unless_said(asked: Option<VerifiedSignature>, said: Option<bool>) -> Option<VerifiedSignature> {
    if said.is_some() { None } else { asked }
}

/// The steps, and the signature that the verdict depends on.
#[derive(Drop)]
struct Outcome {
    steps: Vec<ShownStep>,
    asked: Option<VerifiedSignature>,
}

/// The steps of a sign-in, if its signature is said to be valid or not, or nothing is said of it.
fn sign_in_steps(
    alloc: Global,
    attempt: &SignInAttempt<'_, '_>,
    said: Option<bool>,
) -> Result<Outcome, AllocError> {
    let valid = explain_sign_in(alloc, attempt, true)?;
    let invalid = explain_sign_in(alloc, attempt, false)?;
    let steps = shown_steps(alloc, &SIGN_IN, &valid, &invalid, said)?;
    let asked = if is_asked(&valid, &invalid) {
        asked::of_sign_in(alloc, attempt)?
    } else {
        None
    };
    Ok(Outcome { steps, asked })
}

/// Whether a credential with the id is registered, and whether there is no room for another one.
#[derive(Clone, Copy, Drop)]
struct Place {
    is_registered: bool,
    is_full: bool,
}

/// The steps of a registration, if its signature is said to be valid or not, or nothing is said of it.
fn registration_steps(
    alloc: Global,
    attempt: &RegistrationAttempt<'_, '_>,
    said: Option<bool>,
    place: Place,
) -> Result<Outcome, AllocError> {
    let valid = explain_registration(alloc, attempt, true, place.is_registered, place.is_full)?;
    let invalid = explain_registration(alloc, attempt, false, place.is_registered, place.is_full)?;
    let steps = shown_steps(alloc, &REGISTRATION, &valid, &invalid, said)?;
    let asked = if is_asked(&valid, &invalid) {
        asked::of_registration(alloc, attempt)?
    } else {
        None
    };
    Ok(Outcome { steps, asked })
}

/// A sign-in judged, of which these facts are known.
fn judged_sign_in(
    alloc: Global,
    steps: &[ShownStep],
    facts: &Facts<'_>,
) -> Result<(Vec<ShownStep>, Option<String>), AllocError> {
    let steps = with_lines(alloc, steps, facts)?;
    let stored = if verdict_of(&steps) == Verdict::Accepted {
        stored_by_sign_in(alloc, facts)?
    } else {
        None
    };
    Ok((steps, stored))
}

/// A registration judged, of which these facts are known.
fn judged_registration(
    alloc: Global,
    steps: &[ShownStep],
    facts: &Facts<'_>,
    profile: Profile,
) -> Result<(Vec<ShownStep>, Option<String>), AllocError> {
    let steps = with_lines(alloc, steps, facts)?;
    let stored = if verdict_of(&steps) == Verdict::Accepted {
        stored_by_registration(alloc, facts, profile)?
    } else {
        None
    };
    Ok((steps, stored))
}

/// What is known of a sign-in.
fn sign_in_facts<'x>(
    case: &'x Value,
    parts: &'x Parts,
    contents: &'x Contents<'x>,
    read: &'x SignInCase<'x>,
    asked: Option<&'x VerifiedSignature>,
) -> Facts<'x> {
    Facts {
        case,
        kind: Kind::SignIn,
        parts,
        contents,
        rp_id: read.party.rp_id(),
        session: sign_in_session(read),
        row: lent(&read.row),
        policy: Policy {
            accept_none: true,
            accept_self: true,
        },
        is_registered: false,
        is_full: false,
        asked,
        valid: read.said,
    }
}

/// What is known of a registration.
fn registration_facts<'x>(
    case: &'x Value,
    parts: &'x Parts,
    contents: &'x Contents<'x>,
    read: &'x RegistrationCase<'x>,
    asked: Option<&'x VerifiedSignature>,
) -> Facts<'x> {
    Facts {
        case,
        kind: Kind::Registration,
        parts,
        contents,
        rp_id: read.party.rp_id(),
        session: registration_session(read),
        row: None,
        policy: read.policy,
        is_registered: read.is_registered,
        is_full: read.is_full,
        asked,
        valid: read.said,
    }
}

/// A case that is not judged, and what its response contains.
fn not_judged(
    alloc: Global,
    kind: Kind,
    fault: CaseError,
    contents: String,
) -> Result<Explained, CaseError> {
    let table: &'static [Words] = match kind {
        Kind::SignIn => &SIGN_IN,
        Kind::Registration => &REGISTRATION,
    };
    if let CaseError::Memory = fault {
        return Err(fault);
    }
    Ok(Explained {
        kind: Some(kind),
        fault: Some(fault),
        steps: unreached(alloc, table)?,
        asked: None,
        stored: None,
        contents: Some(contents),
    })
}

/// What a response contains, in JSON.
fn contents_of(
    alloc: Global,
    kind: Kind,
    response: &Value,
    parts: &Parts,
    contents: &Contents<'_>,
) -> Result<String, CaseError> {
    match contents_text(alloc, kind, response, parts, contents) {
        Ok(text) => Ok(text),
        Err(_) => Err(CaseError::Memory),
    }
}

/// A sign-in's case explained.
fn sign_in(
    alloc: Global,
    case: &Value,
    response: &Value,
    inner: &Value,
) -> Result<Explained, CaseError> {
    let parts = Parts::read(alloc, response, inner)?;
    let contents = Contents::read(alloc, Kind::SignIn, &parts)?;
    let text = contents_of(alloc, Kind::SignIn, response, &parts, &contents)?;
    let read = match SignInCase::read(alloc, case, inner, &parts) {
        Ok(read) => read,
        Err(fault) => return not_judged(alloc, Kind::SignIn, fault, text),
    };
    let session = read.session.as_ref();
    let credential = lent(&read.row);
    let attempt = SignInAttempt {
        party: &read.party,
        session,
        credential,
        response: read.response,
    };
    let outcome = sign_in_steps(alloc, &attempt, read.said)?;
    let facts = sign_in_facts(case, &parts, &contents, &read, outcome.asked.as_ref());
    let (steps, stored) = judged_sign_in(alloc, &outcome.steps, &facts)?;
    Ok(Explained {
        kind: Some(Kind::SignIn),
        fault: None,
        steps,
        asked: unless_said(outcome.asked, read.said),
        stored,
        contents: Some(text),
    })
}

/// A registration's case explained.
fn registration(
    alloc: Global,
    case: &Value,
    response: &Value,
    inner: &Value,
) -> Result<Explained, CaseError> {
    let parts = Parts::read(alloc, response, inner)?;
    let contents = Contents::read(alloc, Kind::Registration, &parts)?;
    let text = contents_of(alloc, Kind::Registration, response, &parts, &contents)?;
    let read = match RegistrationCase::read(alloc, case, inner, &parts) {
        Ok(read) => read,
        Err(fault) => return not_judged(alloc, Kind::Registration, fault, text),
    };
    let session = read.session.as_ref();
    let attempt = RegistrationAttempt {
        party: &read.party,
        policy: read.policy,
        session,
        response: read.response,
    };
    let place = Place {
        is_registered: read.is_registered,
        is_full: read.is_full,
    };
    let outcome = registration_steps(alloc, &attempt, read.said, place)?;
    let facts = registration_facts(case, &parts, &contents, &read, outcome.asked.as_ref());
    let profile = read.party.profile();
    let (steps, stored) = judged_registration(alloc, &outcome.steps, &facts, profile)?;
    Ok(Explained {
        kind: Some(Kind::Registration),
        fault: None,
        steps,
        asked: unless_said(outcome.asked, read.said),
        stored,
        contents: Some(text),
    })
}

/// Explains a case in JSON: the value that the bytes are, with a response and what it is judged by.
///
/// Refused as `NotUtf8`, `TooDeep` and `NotJson` if the bytes are no value, and as `Memory`; every other error is the `fault`
/// of what is explained.
pub fn explain(alloc: Global, input: &[u8]) -> Result<Explained, CaseError> {
    let case = value_of(alloc, input)?;
    if let (Some(response), Some((inner, kind))) = (case.get("response"), parts_of(&case)) {
        return match kind {
            Kind::SignIn => sign_in(alloc, &case, response, inner),
            Kind::Registration => registration(alloc, &case, response, inner),
        };
    }
    Ok(Explained {
        kind: None,
        fault: Some(CaseError::NoResponse),
        steps: Vec::new(alloc),
        asked: None,
        stored: None,
        contents: None,
    })
}
