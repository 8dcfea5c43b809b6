//! The command line.

ghost use Rattle.std.specs.Prelude.{◌≡◌, ◌≤◌, IfOk, IfSome};

use authdata::Profile;
use clap::error::ErrorKind;
use clap::{Arg, ArgAction, ArgMatches, Command, Error};
use json_lines::VERSION;
use std::alloc::{AllocError, Global};
use verification::Policy;

/// The profiles.
static PROFILES: [&str; 3] = ["level3", "open", "strict"];

/// The attestations that are accepted.
static ATTESTATIONS: [&str; 3] = ["any", "none", "self"];

/// What is answered where a value is not a number that it may be.
const BAD_MAX_CREDENTIALS: &str = "--max-credentials takes a number from 1 to 1000000\n";

const BAD_EXPIRE: &str = "--expire takes a number of seconds from 1 to 1000000\n";

const BAD_AT_LEAST: &str = "--at-least takes a number\n";

/// What is answered where a value is missing.
const MISSING: &str = "FILE, --rp-id or --origin is missing\n";

/// What is logged.
static LOGS: [&str; 2] = ["refusals", "all"];

/// What is answered on standard error.
#[derive(Clone, Copy, Debug, PartialEq, Eq, Drop)]
pub(crate) enum Log {
    /// Refusals, failures, sessions that don't begin, and backups that fail.
    Refusals,
    /// Acceptances and each other error too.
    All,
}

/// What the command line asks for.
#[derive(Drop)]
pub(crate) struct Options<'a> {
    /// The path of the site's file.
    pub file: &'a str,
    /// The rp id.
    pub rp_id: &'a str,
    /// The relying party's name, which the page shows.
    pub rp_name: &'a str,
    /// The origins of its pages.
    pub origins: Vec<&'a str>,
    /// The origins of other sites' pages that may have these in a frame.
    pub top_origins: Vec<&'a str>,
    /// Which responses it takes.
    pub profile: Profile,
    /// Which attestations it accepts.
    pub policy: Policy,
    /// The most credentials.
    pub max_credentials: u32,
    /// Whether the file must not be there yet.
    pub is_new: bool,
    /// Whether the file must be there.
    pub is_existing: bool,
    /// Whether a new file has no sums of its pages.
    pub has_no_sums: bool,
    /// Whether nothing is supposed of a write that is cut off.
    pub is_wary: bool,
    /// The number of a session that is known to have been begun, and 0 where none is known.
    pub at_least: u64,
    /// What is answered on standard error, if anything.
    pub log: Option<Log>,
    /// After how many seconds an open session expires.
    pub expire: u32,
}

/// An option with a value.
fn option<'a>(alloc: Global, name: &'a str, value: &'a str, help: &'a str) -> Arg<'a> {
    Arg::new(alloc, name)
        .long(name)
        .value_name(value)
        .help(help)
}

/// An option without a value.
fn switch<'a>(alloc: Global, name: &'a str, help: &'a str) -> Arg<'a> {
    Arg::new(alloc, name)
        .long(name)
        .action(ArgAction::SetTrue)
        .help(help)
}

/// The program's parser with the relying party's options.
fn party_options<'a>(alloc: Global, help: &'a str) -> Result<Command<'a>, AllocError> {
    Command::new(alloc, "passkey-site")
        .about("A relying party over lines: one JSON object in, one out")
        .version(VERSION)
        .after_help(help)
        .arg(
            Arg::new(alloc, "FILE")
                .required(true)
                .help("The site's SQLite file"),
        )?
        .arg(option(
            alloc,
            "rp-id",
            "ID",
            "The relying party id: the site's domain",
        )
        .required(true))?
        .arg(
            option(
                alloc,
                "origin",
                "ORIGIN",
                "An origin of the site's pages (repeatable)",
            )
            .required(true)
            .action(ArgAction::Append),
        )
}

/// The same with the options of what it accepts.
fn policy_options<'a>(alloc: Global, help: &'a str) -> Result<Command<'a>, AllocError> {
    party_options(alloc, help)?
        .arg(option(
            alloc,
            "top-origin",
            "ORIGIN",
            "An origin whose pages may show the site's in a frame (repeatable)",
        )
        .action(ArgAction::Append))?
        .arg(option(
            alloc,
            "rp-name",
            "NAME",
            "Name shown to the user [default: the rp id]",
        ))?
        .arg(option(
            alloc,
            "profile",
            "PROFILE",
            "Which responses to accept [default: level3]",
        )
        .value_parser(PROFILES.as_slice()))?
        .arg(option(
            alloc,
            "attestation",
            "WHICH",
            "Which attestations to accept [default: any]",
        )
        .value_parser(ATTESTATIONS.as_slice()))
}

/// The same with the options of how much there may be.
fn bound_options<'a>(alloc: Global, help: &'a str) -> Result<Command<'a>, AllocError> {
    policy_options(alloc, help)?
        .arg(option(
            alloc,
            "max-credentials",
            "N",
            "Most credentials to keep, up to 1000000 [default: 1000000]",
        ))?
        .arg(option(
            alloc,
            "expire",
            "SECONDS",
            "Seconds until a session expires, up to 1000000 [default: 300]",
        ))
}

/// The option of the log, which may come without a value.
fn log_option<'a>(alloc: Global) -> Arg<'a> {
    option(
        alloc,
        "log",
        "WHICH",
        "Log refusals to standard error, or all outcomes [default: refusals]",
    )
    .num_args(0..=1)
    .require_equals(true)
    .default_missing_value("refusals")
    .value_parser(LOGS.as_slice())
}

/// The same with the options of the file.
fn file_options<'a>(alloc: Global, help: &'a str) -> Result<Command<'a>, AllocError> {
    bound_options(alloc, help)?
        .arg(switch(alloc, "new", "Make the file; fail if it exists"))?
        .arg(switch(alloc, "existing", "Open the file; fail if there is none").conflicts_with(
            "new",
        )?)?
        .arg(option(
            alloc,
            "at-least",
            "N",
            "Refuse a copy of the file that is older than the answer whose `known` was N",
        )
        .conflicts_with("new")?)?
        .arg(switch(
            alloc,
            "no-sums",
            "Make a new file without page checksums, so that sqlite3 can write it",
        )
        .conflicts_with("existing")?)?
        .arg(switch(
            alloc,
            "wary",
            "Flush each commit twice, for disks where a write that is cut off may leave any bytes",
        ))
}

/// The program's parser, with this text after its help.
fn parser<'a>(alloc: Global, help: &'a str) -> Result<Command<'a>, AllocError> {
    file_options(alloc, help)?.arg(log_option(alloc))
}

/// The words with the value of `--log` joined to it, as the parser takes it: the word after it is its value only where it
/// is one.
pub(crate) fn joined<'a>(alloc: Global, owned: &'a [String]) -> Result<Vec<&'a str>, AllocError> {
    let mut words: Vec<&'a str> = Vec::with_capacity(alloc, owned.len())?;
    for word in owned {
        let word = match (words.last(), word.as_str()) {
            (Some(&"--log"), "all") => "--log=all",
            (Some(&"--log"), "refusals") => "--log=refusals",
            (_, word) => word,
        };
        if word.starts_with("--log=") && words.last() == Some(&"--log") {
            words.pop();
        }
        words.push(word)?;
    }
    Ok(words)
}

/// What clap reads of the arguments.
fn command_line<'a>(
    alloc: Global,
    help: &'a str,
    arguments: &'a [&'a str],
) -> Result<ArgMatches<'a>, Error> {
    let mut parser = parser(alloc, help)?;
    parser.try_get_matches_from_mut(arguments)
}

/// The attestations of their word; any where there is none.
fn policy_named(word: Option<&str>) -> Policy {
    Policy {
        accept_none: word != Some("self"),
        accept_self: word != Some("none"),
    }
}

/// The profile of its word; that of Level 3 where there is none.
fn profile_named(word: Option<&str>) -> Profile {
    match word {
        Some("strict") => Profile::Strict,
        Some("open") => Profile::Open,
        _ => Profile::Level3,
    }
}

/// What is logged, of its word; nothing where there is none.
fn log_named(word: Option<&str>) -> Option<Log> {
    match word {
        Some("all") => Some(Log::All),
        Some(_) => Some(Log::Refusals),
        None => None,
    }
}

/// The number of a word, or this one where there is none; nothing where the word is not a number.
fn number(word: Option<&str>, absent: u64) -> Option<u64> {
    match word {
        Some(word) => word.parse::<u64>().ok(),
        None => Some(absent),
    }
}

/// The bound of a word, from 1 to 1,000,000, or this one where there is none.
fn bound(word: Option<&str>, absent: u64) -> Option<u32>
    ensures { IfSome result (λ n. (1 ≤ n) × (n ≤ 1000000)) }
{
    let bound = number(word, absent)?;
    if bound < 1 || 1_000_000 < bound {
        return None;
    }
    u32::try_from(bound).ok()
}

/// The numbers of the options.
#[derive(Clone, Copy, Drop)]
struct Numbers {
    max_credentials: u32,
    expire: u32,
    at_least: u64,
}

/// The numbers that were read; or what is answered of the first that is not a number, or out of its bounds.
fn numbers_of(matches: &ArgMatches<'_>) -> Result<Numbers, &'static str>
    ensures within { IfOk result (λ n.
        ((1 ≤ n.expire) × (n.expire ≤ 1000000)) × ((1 ≤ n.max_credentials) × (n.max_credentials ≤ 1000000))) }
{
    let Some(max_credentials) = bound(matches.get_str("max-credentials"), 1_000_000) else {
        return Err(BAD_MAX_CREDENTIALS);
    };
    let Some(expire) = bound(matches.get_str("expire"), 300) else {
        return Err(BAD_EXPIRE);
    };
    let Some(at_least) = number(matches.get_str("at-least"), 0) else {
        return Err(BAD_AT_LEAST);
    };
    Ok(Numbers {
        max_credentials,
        expire,
        at_least,
    })
}

/// The options, with the values that were read before.
fn options_with<'a>(
    matches: &ArgMatches<'a>,
    file: &'a str,
    rp_id: &'a str,
    origins: Vec<&'a str>,
    top_origins: Vec<&'a str>,
    numbers: Numbers,
) -> Options<'a>
    ensures { (result.expire ≡ numbers.expire) × (result.max_credentials ≡ numbers.max_credentials) }
{
    Options {
        file,
        rp_id,
        rp_name: matches.get_str("rp-name").unwrap_or(rp_id),
        origins,
        top_origins,
        profile: profile_named(matches.get_str("profile")),
        policy: policy_named(matches.get_str("attestation")),
        max_credentials: numbers.max_credentials,
        is_new: matches.get_flag("new"),
        is_existing: matches.get_flag("existing") || 0 < numbers.at_least,
        has_no_sums: matches.get_flag("no-sums"),
        is_wary: matches.get_flag("wary"),
        at_least: numbers.at_least,
        log: log_named(matches.get_str("log")),
        expire: numbers.expire,
    }
}

/// The options that were read; or what is answered of a value that is missing, not a number, or out of its bounds.
fn options_of<'a>(
    alloc: Global,
    matches: &ArgMatches<'a>,
) -> Result<Result<Options<'a>, &'static str>, AllocError>
    ensures within { IfOk result (λ found. IfOk found (λ o.
        ((1 ≤ o.expire) × (o.expire ≤ 1000000)) × ((1 ≤ o.max_credentials) × (o.max_credentials ≤ 1000000)))) }
{
    let Some(file) = matches.get_str("FILE") else {
        return Ok(Err(MISSING));
    };
    let Some(rp_id) = matches.get_str("rp-id") else {
        return Ok(Err(MISSING));
    };
    let Some(origins) = matches.get_strs("origin") else {
        return Ok(Err(MISSING));
    };
    let numbers = match numbers_of(matches) {
        Ok(numbers) => numbers,
        Err(text) => return Ok(Err(text)),
    };
    let origins = Vec::from_slice(alloc, origins)?;
    let top_origins = Vec::from_slice(alloc, matches.get_strs("top-origin").unwrap_or(&[]))?;
    Ok(Ok(options_with(matches, file, rp_id, origins, top_origins, numbers)))
}

/// What is answered in place of serving.
#[derive(Drop)]
pub(crate) struct Told {
    /// The text, with the end of its last line.
    pub text: String,
    /// Whether it is the help or the version, which was asked for, and no refusal.
    pub is_help: bool,
}

/// What clap tells.
fn told_by(alloc: Global, error: &Error) -> Result<Told, AllocError> {
    Ok(Told {
        text: format!(in alloc; "{error}")?,
        is_help: matches!(
            error.kind(),
            ErrorKind::DisplayHelp | ErrorKind::DisplayVersion
        ),
    })
}

/// The options that were read, or what is answered of a value.
fn options_or_told<'a>(
    alloc: Global,
    matches: &ArgMatches<'a>,
) -> Result<Result<Options<'a>, Told>, AllocError>
    ensures within { IfOk result (λ found. IfOk found (λ o.
        ((1 ≤ o.expire) × (o.expire ≤ 1000000)) × ((1 ≤ o.max_credentials) × (o.max_credentials ≤ 1000000)))) }
{
    match options_of(alloc, matches)? {
        Ok(options) => Ok(Ok(options)),
        Err(text) => Ok(Err(Told {
            text: String::from_str(alloc, text)?,
            is_help: false,
        })),
    }
}

/// The options of the arguments, the program's name first, with this text after the help; or what is answered in place of serving.
pub(crate) fn asked_for<'a>(
    alloc: Global,
    help: &'a str,
    arguments: &'a [&'a str],
) -> Result<Result<Options<'a>, Told>, AllocError>
    ensures within { IfOk result (λ found. IfOk found (λ o.
        ((1 ≤ o.expire) × (o.expire ≤ 1000000)) × ((1 ≤ o.max_credentials) × (o.max_credentials ≤ 1000000)))) }
{
    match command_line(alloc, help, arguments) {
        Ok(matches) => options_or_told(alloc, &matches),
        Err(error) => Ok(Err(told_by(alloc, &error)?)),
    }
}
