//! The command line, as clap reads it.

ghost use Rattle.std.specs.Prelude.{◌≡◌, false, IfNone, IfOk, IfSome, map, codes};
ghost use Rattle.clap.specs.Words.{app_of, new_app, shape_of, subcommand_rows_of, with_rule, with_subcommand};
ghost use Rattle.clap.specs.declared.builder.command.Command.TheViews.{out-Command as fields_of};
ghost use Rattle.clientdata.specs.declared.record.CeremonyType.{CeremonyType};
ghost use Rattle.passkey.specs.declared.arguments.Inspection.{Inspection};
ghost use Rattle.passkey.specs.CommandLine.{HasApp, HasAppOf, HasAppOfBoth, IsAsked, IsAskedBy, ceremony_word, check_app, check_options_app, check_type_app, checking_app, explain_app, explain_json_app, inspect_app, inspecting_app, inspection_word, passkey_app, replay_app, replaying_app, required, required_option};
ghost use Rattle.passkey.specs.Private.{HasRuleOf, chosen};

use crate::script_lines::replay_help;
use clap::error::ErrorKind;
use clap::{Arg, ArgAction, ArgMatches, Command as Parser, Error};
use clientdata::CeremonyType;
use std::alloc::{AllocError, Global};

/// The arguments for the kinds of bytes that can be inspected.
static INSPECTIONS: [&str; 4] = ["cbor", "authdata", "packets", "clientdata"];

/// The arguments for the ceremonies whose client data can be checked.
static CEREMONIES: [&str; 2] = ["create", "get"];

/// The kind of bytes that are inspected.
#[derive(Clone, Copy, Debug, PartialEq, Eq)]
pub enum Inspection {
    /// `cbor`: one value of canonical CBOR, in hex.
    Cbor,
    /// `authdata`: authenticator data, in hex.
    AuthData,
    /// `packets`: CTAPHID packets, one of 128 hex digits a line.
    Packets,
    /// `clientdata`: client data, as they are.
    ClientData,
}

/// What a command line asks for.
#[derive(Debug, Drop)]
pub enum Subcommand {
    /// Show what standard input says, as this kind of bytes.
    Inspect(Inspection),
    /// Verify client data on standard input against these members: the ceremony, the challenge in hex, the
    /// origin, and whether the ceremony was in a cross-origin frame.
    Check {
        kind: CeremonyType,
        challenge: String,
        origin: String,
        cross: bool,
    },
    /// Run the script on standard input.
    Replay,
    /// Tell each step of the case in this file, in JSON or as lines.
    Explain {
        json: bool,
        file: String,
    },
}

const PASSKEY_HELP: &str =
    "Where the programs passkey-site and passkey-client are installed beside it, these words run them:
  site    A relying party over lines of JSON; passkey site --help
  client  A client of security keys over lines of JSON; passkey client --help

softkey is a security key over lines of text; softkey --help. passkey --version prints the version.

Example: passkey replay < examples/sign-in.txt";

const INSPECT_HELP: &str =
    "Standard input is hex; for clientdata it is the bytes themselves. Spaces, tabs and line ends in hex are
ignored. Each packet is a line of 128 digits. If bytes are refused, it prints a fault with its number, and
the status is 1.

Example: echo a1 01 81 41 0a | passkey inspect cbor";

const EXPLAIN_HELP: &str =
    "FILE is a case in JSON, as the inspector shows it: the browser's response, rp_id, origins and session, and of a sign-in
the credential's row. Bytes are base64url. It prints each step in order: passed, failed or not reached; for the one that fails also when
it is refused, and what to do. The program verifies no signature: set signature_verified to true or false. Without
it, the signature and its message are printed as not judged, and the steps after them as if it were valid.

The status is 0 if the response is accepted, 1 if it is refused, 2 if it is not judged.

Example: passkey explain case.json";

const CHECK_HELP: &str =
    "Prints match, or differ with status 1. This is the limited verification of WebAuthn, section 5.8.1.2.

Example: passkey check --type get --challenge 000102 --origin https://a.example < client-data.json";

/// An argument that is required, and one of these words.
fn choice<'a>(alloc: Global, name: &'a str, words: &'a [&'a str], help: &'a str) -> Arg<'a>
    ensures rule { HasRuleOf (chosen name.entry.now) result }
    ensures local { result.global ≡ false }
{
    Arg::new(alloc, name)
        .required(true)
        .value_parser(words)
        .help(help)
}

/// A subcommand without arguments.
fn plain<'a>(alloc: Global, name: &'a str, about: &'a str, help: &'a str) -> Parser<'a>
    ensures { HasApp (new_app name.entry.now) result }
{
    Parser::new(alloc, name).about(about).after_help(help)
}

/// The subcommand that shows bytes.
fn inspect<'a>(alloc: Global) -> Result<Parser<'a>, AllocError>
    ensures { IfOk result (λ c. HasAppOf inspect_app c) }
{
    let kind = choice(alloc, "kind", INSPECTIONS.as_slice(), "What the bytes are");
    let parser = plain(alloc, "inspect", "Show what bytes say", INSPECT_HELP);
    parser.arg(kind)
}

/// The parser with one more option, which is required.
fn with_required<'a>(
    alloc: Global,
    parser: Parser<'a>,
    name: &'a str,
    help: &'a str,
) -> Result<Parser<'a>, AllocError>
    requires { (fields_of parser).has_globals ≡ false }
    ensures { IfOk result (λ c. HasApp (with_rule (app_of parser.entry) (required_option name.entry.now)) c) }
{
    let option = Arg::new(alloc, name).long(name).required(true).help(help);
    parser.arg(option)
}

/// The subcommand that checks client data with its first option.
fn check_type<'a>(alloc: Global) -> Result<Parser<'a>, AllocError>
    ensures { IfOk result (λ c. HasAppOf check_type_app c) }
{
    let kind = choice(alloc, "type", CEREMONIES.as_slice(), "The ceremony").long("type");
    let about = "Verify client data against what they should say";
    let parser = plain(alloc, "check", about, CHECK_HELP);
    parser.arg(kind)
}

/// The same with its options but the last.
fn check_options<'a>(alloc: Global) -> Result<Parser<'a>, AllocError>
    ensures { IfOk result (λ c. HasAppOf check_options_app c) }
{
    let parser = check_type(alloc)?;
    let parser = with_required(alloc, parser, "challenge", "The challenge, in hex")?;
    with_required(alloc, parser, "origin", "The origin, as https://a.example")
}

/// The subcommand that checks client data.
fn check<'a>(alloc: Global) -> Result<Parser<'a>, AllocError>
    ensures { IfOk result (λ c. HasAppOf check_app c) }
{
    let cross = Arg::new(alloc, "cross")
        .long("cross")
        .action(ArgAction::SetTrue)
        .help("In a frame of another origin");
    check_options(alloc)?.arg(cross)
}

/// The program's parser without its subcommands.
fn top<'a>(alloc: Global) -> Parser<'a>
    ensures { HasApp (required (new_app (codes "passkey"))) result }
{
    Parser::new(alloc, "passkey")
        .about("Passkey sign-in, from USB packets to a site's verdict")
        .after_help(PASSKEY_HELP)
        .subcommand_required(true)
}

/// The parser with one more subcommand.
fn with_sub<'a>(parser: Parser<'a>, sub: Parser<'a>) -> Result<Parser<'a>, AllocError>
    requires top { (fields_of parser).has_globals ≡ false }
    requires sub { (fields_of sub).has_globals ≡ false }
    ensures { IfOk result (λ c. HasApp (with_subcommand (app_of parser.entry) (shape_of sub.entry)) c) }
{
    parser.subcommand(sub)
}

/// The subcommand that runs a script, with this text after its help.
fn replay<'a>(alloc: Global, help: &'a str) -> Parser<'a>
    ensures { HasApp replay_app result }
{
    let about = "Run a script from standard input: packets in, the site's verdict out";
    plain(alloc, "replay", about, help)
}

/// The switch for JSON.
fn explain_json<'a>(alloc: Global) -> Result<Parser<'a>, AllocError>
    ensures { IfOk result (HasApp explain_json_app) }
{
    let json = Arg::new(alloc, "json")
        .long("json")
        .action(ArgAction::SetTrue)
        .help("Tell it in JSON");
    let about = "Tell why a response is accepted or refused, step by step";
    plain(alloc, "explain", about, EXPLAIN_HELP).arg(json)
}

/// The subcommand that explains a case.
fn explain<'a>(alloc: Global) -> Result<Parser<'a>, AllocError>
    ensures { IfOk result (HasApp explain_app) }
{
    let file = Arg::new(alloc, "file")
        .required(true)
        .help("The file of the case");
    explain_json(alloc)?.arg(file)
}

/// The program's parser with its first subcommand.
fn inspecting<'a>(alloc: Global) -> Result<Parser<'a>, AllocError>
    ensures { IfOk result (λ c. HasAppOf inspecting_app c) }
{
    let inspect = inspect(alloc)?;
    with_sub(top(alloc), inspect)
}

/// The same with its second one.
fn checking<'a>(alloc: Global) -> Result<Parser<'a>, AllocError>
    ensures { IfOk result (λ c. HasAppOfBoth checking_app c) }
{
    let check = check(alloc)?;
    let parser = inspecting(alloc)?;
    with_sub(parser, check)
}

/// The same with its third one, with this text after its help.
fn replaying<'a>(alloc: Global, help: &'a str) -> Result<Parser<'a>, AllocError>
    ensures { IfOk result (λ c. HasAppOfBoth replaying_app c) }
{
    let parser = checking(alloc)?;
    with_sub(parser, replay(alloc, help))
}

/// The program's parser, with this text after the help of `replay`.
fn passkey<'a>(alloc: Global, help: &'a str) -> Result<Parser<'a>, AllocError>
    ensures { IfOk result (λ c. HasAppOfBoth passkey_app c) }
{
    let explain = explain(alloc)?;
    let parser = replaying(alloc, help)?;
    with_sub(parser, explain)
}

/// The kind of bytes that a word names.
fn inspection_named(word: &str) -> Option<Inspection>
    ensures named { IfSome result (λ kind. inspection_word kind ≡ word.now) }
    ensures none { IfNone result ((kind : Inspection) → inspection_word kind ≡ word.now → ⊥) }
{
    match word {
        "cbor" => Some(Inspection::Cbor),
        "authdata" => Some(Inspection::AuthData),
        "packets" => Some(Inspection::Packets),
        "clientdata" => Some(Inspection::ClientData),
        _ => None,
    }
}

/// The ceremony that a word names.
fn ceremony_named(word: &str) -> Option<CeremonyType>
    ensures named { IfSome result (λ kind. ceremony_word kind ≡ word.now) }
    ensures none { IfNone result ((kind : CeremonyType) → ceremony_word kind ≡ word.now → ⊥) }
{
    match word {
        "create" => Some(CeremonyType::Create),
        "get" => Some(CeremonyType::Get),
        _ => None,
    }
}

/// What an inspection asks for.
fn inspected(matches: &ArgMatches<'_>) -> Option<Subcommand>
    ensures { IfSome result (IsAsked (subcommand_rows_of matches.now)) }
{
    let inner = matches.subcommand_matches("inspect")?;
    let word = inner.get_str("kind")?;
    let kind = inspection_named(word)?;
    Some(Subcommand::Inspect(kind))
}

/// What a check asks for.
fn checked(alloc: Global, matches: &ArgMatches<'_>) -> Result<Option<Subcommand>, AllocError>
    ensures { IfOk result (λ o. IfSome o (IsAsked (subcommand_rows_of matches.now))) }
{
    let Some(inner) = matches.subcommand_matches("check") else {
        return Ok(None);
    };
    let Some(word) = inner.get_str("type") else {
        return Ok(None);
    };
    let Some(kind) = ceremony_named(word) else {
        return Ok(None);
    };
    let Some(challenge) = inner.get_str("challenge") else {
        return Ok(None);
    };
    let Some(origin) = inner.get_str("origin") else {
        return Ok(None);
    };
    let cross = inner.get_flag("cross");
    let challenge = String::from_str(alloc, challenge)?;
    let origin = String::from_str(alloc, origin)?;
    Ok(Some(Subcommand::Check {
        kind,
        challenge,
        origin,
        cross,
    }))
}

/// What a replay asks for.
fn replayed(matches: &ArgMatches<'_>) -> Option<Subcommand>
    ensures { IfSome result (IsAsked (subcommand_rows_of matches.now)) }
{
    matches.subcommand_matches("replay")?;
    Some(Subcommand::Replay)
}

/// What an explanation asks for.
fn explained(alloc: Global, matches: &ArgMatches<'_>) -> Result<Option<Subcommand>, AllocError>
    ensures { IfOk result (λ o. IfSome o (IsAsked (subcommand_rows_of matches.now))) }
{
    let Some(inner) = matches.subcommand_matches("explain") else {
        return Ok(None);
    };
    let Some(file) = inner.get_str("file") else {
        return Ok(None);
    };
    let json = inner.get_flag("json");
    let file = String::from_str(alloc, file)?;
    Ok(Some(Subcommand::Explain { json, file }))
}

/// What the matches ask for.
fn asked_by(alloc: Global, matches: &ArgMatches<'_>) -> Result<Option<Subcommand>, AllocError>
    ensures { IfOk result (λ o. IfSome o (IsAsked (subcommand_rows_of matches.now))) }
{
    if let Some(asked) = inspected(matches) {
        return Ok(Some(asked));
    }
    if let Some(asked) = checked(alloc, matches)? {
        return Ok(Some(asked));
    }
    if let Some(asked) = replayed(matches) {
        return Ok(Some(asked));
    }
    explained(alloc, matches)
}

/// What the arguments ask the program's parser for; nothing where a value is missing.
fn asked<'a>(
    alloc: Global,
    parser: &mut Parser<'a>,
    arguments: &'a [&'a str],
) -> Result<Option<Subcommand>, Error>
    requires { HasAppOfBoth passkey_app parser.old }
    ensures { IfOk result (λ o. IfSome o (IsAskedBy (map (λ w. w.now) arguments.now))) }
{
    let matches = parser.try_get_matches_from_mut(arguments)?;
    Ok(asked_by(alloc, &matches)?)
}

/// What the arguments ask the program's parser for, where no value is missing.
fn wanted<'a>(
    alloc: Global,
    parser: &mut Parser<'a>,
    arguments: &'a [&'a str],
) -> Result<Subcommand, Error>
    requires { HasAppOfBoth passkey_app parser.old }
    ensures { IfOk result (λ a. IsAskedBy (map (λ w. w.now) arguments.now) a) }
{
    match asked(alloc, parser, arguments)? {
        Some(asked) => Ok(asked),
        None => Err(parser.error(ErrorKind::MissingRequiredArgument, "a value is missing")?),
    }
}

/// What the arguments ask for, the program's name first. Arguments that are refused, and a call for help, give
/// clap's error, which has the text to show; its kind is `OutOfMemory` where there was no memory.
pub fn command<'a>(alloc: Global, arguments: &'a [&'a str]) -> Result<Subcommand, Error>
    ensures { IfOk result (λ a. IsAskedBy (map (λ w. w.now) arguments.now) a) }
{
    let help = replay_help(alloc)?;
    let mut parser = passkey(alloc, help.as_str())?;
    wanted(alloc, &mut parser, arguments)
}
