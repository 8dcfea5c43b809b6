//! The site's file.

use crate::fault::Fault;
use crate::options::Options;
use crate::party::check_party;
use site_files::{FileError, FileSite, Unknown, create, open};
use site_stored::{Bounds, Opening};
use std::alloc::Global;
use std::fs::File;
use std::io::Read;
use verification::RelyingParty;

/// The relying party.
fn party(alloc: Global, options: &Options<'_>) -> Result<RelyingParty, Fault> {
    let Ok(party) = RelyingParty::framed_by(
        alloc,
        options.profile,
        options.rp_id,
        options.origins.as_slice(),
        options.top_origins.as_slice(),
    ) else {
        return Err(Fault::Memory);
    };
    Ok(party)
}

/// How much the site may have.
fn bounds(options: &Options<'_>) -> Bounds {
    Bounds {
        lifetime: u64::from(options.expire),
        credentials: options.max_credentials,
    }
}

/// 32 random bytes of the system, for the key of a new file.
fn random_key(rt: &HostRuntime) -> Result<[u8; 32], Fault> {
    let mut key = [0; 32];
    File::open(rt, "/dev/urandom")?.read_exact(&mut key)?;
    Ok(key)
}

/// Makes the site's file.
fn made(rt: &HostRuntime, options: &Options<'_>) -> Result<FileSite<Unknown>, Fault> {
    let party = party(rt.alloc(), options)?;
    let made = create(
        rt,
        options.file,
        party,
        options.policy,
        bounds(options),
        !options.has_no_sums,
        options.is_wary,
        random_key(rt)?,
        Unknown,
    );
    made.map_err(Fault::File)
}

/// Opens the site's file.
fn opened(rt: &HostRuntime, options: &Options<'_>) -> Result<FileSite<Unknown>, Fault> {
    let opening = Opening {
        party: party(rt.alloc(), options)?,
        policy: options.policy,
        bounds: bounds(options),
        at_least: options.at_least,
    };
    let key = random_key(rt)?;
    let opened = open(rt, options.file, opening, &key, options.is_wary, Unknown);
    opened.map_err(Fault::File)
}

/// Why no site is made where a file stands that has none.
fn unless_taken_up(e: Fault) -> Fault {
    match e {
        Fault::File(FileError::Exists) => Fault::File(FileError::NoSite),
        other => other,
    }
}

/// Makes the site's file where this is why none is opened: where none is there, or one of a creation that was cut off, which is taken up.
fn made_instead(
    rt: &HostRuntime,
    options: &Options<'_>,
    e: Fault,
) -> Result<FileSite<Unknown>, Fault> {
    match e {
        Fault::File(FileError::NoFile) => made(rt, options),
        Fault::File(FileError::NoSite) => made(rt, options).map_err(unless_taken_up),
        other => Err(other),
    }
}

/// The site of the file: one that is made with `--new`, opened with `--existing`, and else opened where it is there.
pub(crate) fn site_of(rt: &HostRuntime, options: &Options<'_>) -> Result<FileSite<Unknown>, Fault> {
    check_party(
        options.rp_id,
        options.origins.as_slice(),
        options.top_origins.as_slice(),
    )?;
    if options.is_new {
        return made(rt, options);
    }
    match opened(rt, options) {
        Ok(site) => Ok(site),
        Err(e) if !options.is_existing => made_instead(rt, options, e),
        Err(e) => Err(e),
    }
}
