//! Running a script: `passkey replay`.

use crate::script::{Fault, Line, parse_line};
use authdata::Profile;
use ceremony::{Error, sign_in};
use clientdata::{challenge_text, hash};
use cose::{CoseKey, ListScheme};
use hidframe::Packet;
use site::{BeginError, Policy, Row, SignInRefusal, Site, Table};
use std::alloc::{AllocError, Global};
use std::fmt::Write;
use std::str;

/// A script as it runs, with a list of the signatures that count as valid.
#[derive(Drop)]
struct Replay<'a> {
    rp_id: &'a str,
    origin: &'a str,
    site: Site,
    /// The rows so far, while a row may follow.
    rows: Option<Table>,
    client_data: &'a str,
    scheme: ListScheme,
    packets: Vec<Packet>,
}

/// Where a script ended, by the line's number from 1, and why.
#[derive(Drop)]
pub struct ScriptEnd {
    pub line: usize,
    pub fault: Fault,
}

/// A site that accepts both kinds of attestation.
fn site_with(alloc: Global, rp_id: &str, origin: &str, rows: Table) -> Result<Site, Fault> {
    let policy = Policy {
        accept_none: true,
        accept_self: true,
    };
    match Site::with_table(alloc, rp_id, &[origin], policy, rows) {
        Ok(site) => Ok(site),
        Err(site::Error::Memory) => Err(Fault::Memory),
        Err(_) => Err(Fault::BadScript),
    }
}

/// Begins a script by its first line.
fn begin<'a>(alloc: Global, first: Line<'a>) -> Result<Replay<'a>, Fault> {
    let Line::Site { rp_id, origin } = first else {
        return Err(Fault::BadScript);
    };
    Ok(Replay {
        rp_id,
        origin,
        site: site_with(alloc, rp_id, origin, Table::new(alloc))?,
        rows: Some(Table::new(alloc)),
        client_data: "",
        scheme: ListScheme::new(alloc),
        packets: Vec::new(alloc),
    })
}

/// Adds a row to those so far.
fn add_row(rows: &mut Option<Table>, row: Row) -> Result<(), Fault> {
    let Some(table) = rows else {
        return Err(Fault::BadScript);
    };
    if !table.admits(Profile::Strict, &row) {
        return Err(Fault::BadScript);
    }
    table.push(row)?;
    Ok(())
}

/// Writes what a sign-in is refused for.
fn write_refusal(error: &Error<SignInRefusal>, out: &mut String) -> Result<(), AllocError> {
    match error {
        Error::Incomplete => writeln!(out, "refused Incomplete"),
        Error::Dead { index, kind } => writeln!(out, "refused Dead {index} {kind:?}"),
        Error::DeviceError(code) => writeln!(out, "refused DeviceError {code:02x}"),
        Error::Reply(ctap_encoding::Error::Refused(code)) => writeln!(
            out,
            "refused Status {code:02x}"
        ),
        Error::Reply(reason) => writeln!(out, "refused {reason:?}"),
        Error::Refused(step) => {
            let number = step.number();
            writeln!(out, "refused W{number}")
        }
        Error::Memory => Err(AllocError),
    }
}

/// Writes the registered credentials.
fn write_table(alloc: Global, site: &Site, out: &mut String) -> Result<(), AllocError> {
    for row in site.rows() {
        let id = hex::encode(alloc, row.id)?;
        let user = hex::encode(alloc, row.user)?;
        let count = row.sign_count;
        writeln!(out, "{id} {user} {count}")?;
    }
    Ok(())
}

/// Writes which of the registered credentials are eligible for backup.
fn write_backup(alloc: Global, site: &Site, out: &mut String) -> Result<(), AllocError> {
    for row in site.rows() {
        let id = hex::encode(alloc, row.id)?;
        let said = match row.eligible {
            None => "unknown",
            Some(false) => "no",
            Some(true) => "yes",
        };
        writeln!(out, "{id} {said}")?;
    }
    Ok(())
}

impl<'a> Replay<'a> {
    /// Begins a sign-in, and writes its number and its challenge.
    fn begin_sign_in(
        &mut self,
        alloc: Global,
        user: Option<Vec<u8>>,
        uv: bool,
        words: [u8; 24],
        allow: &[Vec<u8>],
        out: &mut String,
    ) -> Result<(), Fault> {
        let allow: Vec<&[u8]> = allow.iter().map(|id| id.as_slice()).collect(alloc)?;
        match self.site.begin_sign_in(user.as_deref(), &allow, uv, words) {
            Ok(started) => {
                let number = started.session;
                let challenge = challenge_text(alloc, &started.challenge)?;
                writeln!(out, "session {number} {challenge}")?;
                Ok(())
            }
            Err(BeginError::Memory) => Err(Fault::Memory),
            Err(_) => Err(Fault::BadScript),
        }
    }

    /// Lists a signature as valid.
    fn add_valid(
        &mut self,
        alloc: Global,
        key: CoseKey,
        auth_data: &[u8],
        sig: &[u8],
    ) -> Result<(), AllocError> {
        let mut message = Vec::from_slice(alloc, auth_data)?;
        message.extend_from_slice(&hash(self.client_data.as_bytes()))?;
        self.scheme.add(key, &message, sig)
    }

    /// Writes the verdict on the packets.
    fn sign_in(
        &mut self,
        alloc: Global,
        session: u64,
        cid: u32,
        out: &mut String,
    ) -> Result<(), AllocError> {
        let verdict = sign_in(
            alloc,
            &mut self.site,
            &self.scheme,
            session,
            cid,
            self.client_data.as_bytes(),
            &self.packets,
        );
        match verdict {
            Ok(accepted) => {
                let user = hex::encode(alloc, accepted.user.as_slice())?;
                let credential = hex::encode(alloc, accepted.credential.as_slice())?;
                let used = accepted.used;
                writeln!(out, "accepted {user} {credential} used {used}")
            }
            Err(error) => write_refusal(&error, out),
        }
    }

    /// Makes the site of the rows so far, before the first line after them.
    fn close_rows(&mut self, alloc: Global) -> Result<(), Fault> {
        if let Some(rows) = self.rows.take() {
            self.site = site_with(alloc, self.rp_id, self.origin, rows)?;
        }
        Ok(())
    }

    /// Does what a line says that is not the first.
    fn step(&mut self, alloc: Global, line: Line<'a>, out: &mut String) -> Result<(), Fault> {
        match line {
            Line::Site { .. } => return Err(Fault::BadScript),
            Line::Row(row) => add_row(&mut self.rows, row)?,
            Line::Session {
                user,
                uv,
                words,
                allow,
            } => self.begin_sign_in(alloc, user, uv, words, &allow, out)?,
            Line::Client(text) => self.client_data = text,
            Line::Valid {
                key,
                auth_data,
                sig,
            } => self.add_valid(alloc, key, &auth_data, &sig)?,
            Line::Packet(packet) => self.packets.push(packet)?,
            Line::Clear => self.packets.clear(),
            Line::SignIn { session, cid } => self.sign_in(alloc, session, cid, out)?,
            Line::Table => write_table(alloc, &self.site, out)?,
            Line::Backup => write_backup(alloc, &self.site, out)?,
            Line::Retire(id) => {
                if !self.site.retire(&id) {
                    return Err(Fault::BadScript);
                }
            }
        }
        Ok(())
    }

    /// Runs a line that is not the first, after the rows where it is none.
    fn run(&mut self, alloc: Global, line: Line<'a>, out: &mut String) -> Result<(), Fault> {
        if !matches!(line, Line::Row(_)) {
            self.close_rows(alloc)?;
        }
        self.step(alloc, line, out)
    }
}

/// Runs one line of a script that has begun or not.
fn run_line<'a>(
    alloc: Global,
    bytes: &'a [u8],
    state: &mut Option<Replay<'a>>,
    out: &mut String,
) -> Result<(), Fault> {
    let Ok(text) = str::from_utf8(bytes) else {
        return Err(Fault::BadScript);
    };
    let line = parse_line(alloc, text)?;
    match state {
        None => {
            *state = Some(begin(alloc, line)?);
            Ok(())
        }
        Some(replay) => replay.run(alloc, line, out),
    }
}

/// Runs the lines of a script that has begun or not.
fn run_lines<'a>(
    alloc: Global,
    script: &'a [u8],
    state: &mut Option<Replay<'a>>,
    out: &mut String,
) -> Result<(), ScriptEnd> {
    for (i, bytes) in script.split(|b| *b == b'\n').enumerate() {
        if bytes.is_empty() || bytes[0] == b'#' {
            continue;
        }
        if let Err(fault) = run_line(alloc, bytes, state, out) {
            return Err(ScriptEnd { line: i + 1, fault });
        }
    }
    Ok(())
}

/// Runs a script; what it prints is appended to `out`, also where it ends early.
///
/// Lines end with a line feed. Empty ones, and those that begin with `#`, are passed over.
pub fn run_script(alloc: Global, script: &[u8], out: &mut String) -> Result<(), ScriptEnd> {
    let mut state = None;
    run_lines(alloc, script, &mut state, out)
}
