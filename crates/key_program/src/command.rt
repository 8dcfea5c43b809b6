//! The lines that are read.

ghost use Rattle.std.specs.Prelude.{◌≡◌, ◌∷◌, [], IfOk, IfSome, IsTrue, map};
ghost use Rattle.std.specs.Bool.{OnTrue};
ghost use Rattle.key_program.specs.Words.{AreKeys, AreWords, IsConsent, IsFlag, IsHex, IsHexOrNone, IsRandom, Says, is_of_pin, words_of};

use authenticator::{Consent, HandedKeys, Words};
use hex::FromHex;
use hidframe::Packet;
use key_pin::PinWords;
use std::alloc::{AllocError, Global};

/// A line.
#[derive(Drop)]
pub enum LineCommand {
    /// `packet <128 hex>`
    Packet(Packet),
    /// `decide <present> <verified> <id> <secret> <es256 x> <es256 y> <eddsa x>`, with the keys of a credential that may be made
    Decide(Consent, Words, HandedKeys),
    /// `wait`
    Wait,
    /// `expire`
    Expire,
    /// `compute <secret> <x> <y> <token>`
    Compute(PinWords),
    /// `answer <hex or ->`
    Answer(Vec<u8>),
    /// `signature <hex>`
    Signature(Vec<u8>),
    /// `save`
    Save,
    /// `load <hex>`
    Load(Vec<u8>),
    /// `load-pin <hex>`
    LoadPin(Vec<u8>),
    /// `power`
    Power,
    /// `over`
    Over,
}

/// 32 bytes, as 64 digits.
fn word_of_32(word: &str) -> Option<[u8; 32]>
    ensures { IfSome result (λ bytes. IsHex bytes word.now) }
{
    <[u8; 32] as FromHex>::from_hex(word).ok()
}

/// 64 bytes, as 128 digits.
fn word_of_64(word: &str) -> Option<[u8; 64]>
    ensures { IfSome result (λ bytes. IsHex bytes word.now) }
{
    <[u8; 64] as FromHex>::from_hex(word).ok()
}

/// Bytes in hex.
fn bytes_of(alloc: Global, word: &str) -> Option<Vec<u8>>
    ensures { IfSome result (λ bytes. IsHex bytes.items word.now) }
{
    hex::decode(alloc, word).ok()
}

/// Bytes in hex, or none as `-`.
fn bytes_or_none(alloc: Global, word: &str) -> Option<Vec<u8>>
    ensures { IfSome result (λ bytes. IsHexOrNone bytes.items word.now) }
{
    if word == "-" {
        return Some(Vec::new(alloc));
    }
    bytes_of(alloc, word)
}

/// 1 for yes, 0 for no.
fn flag(word: &str) -> Option<bool>
    ensures { IfSome result (λ b. IsFlag b word.now) }
{
    if word == "1" {
        Some(true)
    } else if word == "0" {
        Some(false)
    } else {
        None
    }
}

/// The words of a consent.
fn read_consent(present: &str, verified: &str) -> Option<Consent>
    ensures { IfSome result (λ c. IsConsent c present.now verified.now) }
{
    Some(Consent {
        present: flag(present)?,
        verified: flag(verified)?,
    })
}

/// The random words for a credential that may be made.
fn read_random(id: &str, secret: &str) -> Option<Words>
    ensures { IfSome result (λ w. IsRandom w id.now secret.now) }
{
    Some(Words {
        id: word_of_32(id)?,
        secret: word_of_32(secret)?,
    })
}

/// The keys of a credential that may be made.
fn read_keys(es256_x: &str, es256_y: &str, eddsa_x: &str) -> Option<HandedKeys>
    ensures { IfSome result (λ k. AreKeys k es256_x.now es256_y.now eddsa_x.now) }
{
    Some(HandedKeys {
        es256_x: word_of_32(es256_x)?,
        es256_y: word_of_32(es256_y)?,
        eddsa_x: word_of_32(eddsa_x)?,
    })
}

/// The words for a computation.
fn read_words(secret: &str, x: &str, y: &str, token: &str) -> Option<PinWords>
    ensures { IfSome result (λ w. AreWords w secret.now x.now y.now token.now) }
{
    Some(PinWords {
        secret: word_of_32(secret)?,
        x: word_of_32(x)?,
        y: word_of_32(y)?,
        token: word_of_32(token)?,
    })
}

/// A line of one word.
fn bare_command(name: &str) -> Option<LineCommand>
    ensures { IfSome result (λ c. Says c (name.now ∷ [])) }
{
    if name == "wait" {
        Some(LineCommand::Wait)
    } else if name == "expire" {
        Some(LineCommand::Expire)
    } else if name == "save" {
        Some(LineCommand::Save)
    } else if name == "power" {
        Some(LineCommand::Power)
    } else if name == "over" {
        Some(LineCommand::Over)
    } else {
        None
    }
}

/// A line of a name and bytes.
fn bytes_command(alloc: Global, name: &str, word: &str) -> Option<LineCommand>
    ensures { IfSome result (λ c. Says c (name.now ∷ word.now ∷ [])) }
{
    if name == "packet" {
        Some(LineCommand::Packet(Packet(word_of_64(word)?)))
    } else if name == "answer" {
        Some(LineCommand::Answer(bytes_or_none(alloc, word)?))
    } else if name == "signature" {
        Some(LineCommand::Signature(bytes_of(alloc, word)?))
    } else if name == "load" {
        Some(LineCommand::Load(bytes_of(alloc, word)?))
    } else if name == "load-pin" {
        Some(LineCommand::LoadPin(bytes_of(alloc, word)?))
    } else {
        None
    }
}

/// A line of a name and the words for a computation.
fn words_command(name: &str, secret: &str, x: &str, y: &str, token: &str) -> Option<LineCommand>
    ensures { IfSome result (λ c. Says c (name.now ∷ secret.now ∷ x.now ∷ y.now ∷ token.now ∷ [])) }
{
    if name != "compute" {
        return None;
    }
    Some(LineCommand::Compute(read_words(secret, x, y, token)?))
}

/// A line of a name and the words of a decision.
fn decision_command(
    name: &str,
    present: &str,
    verified: &str,
    id: &str,
    secret: &str,
    es256_x: &str,
    es256_y: &str,
    eddsa_x: &str,
) -> Option<LineCommand>
    ensures { IfSome result (λ c. Says c (name.now ∷ present.now ∷ verified.now ∷ id.now ∷ secret.now ∷ es256_x.now ∷ es256_y.now ∷ eddsa_x.now ∷ [])) }
{
    if name != "decide" {
        return None;
    }
    Some(LineCommand::Decide(
        read_consent(present, verified)?,
        read_random(id, secret)?,
        read_keys(es256_x, es256_y, eddsa_x)?,
    ))
}

/// The words of a line, with a space between each two.
fn words_of(alloc: Global, line: &str) -> Result<Vec<&str>, AllocError>
    ensures { IfOk result (λ words. map (λ w. w.now) words.items ≡ words_of line.now) }
{
    line.split(' ').collect(alloc)
}

/// What words say; nothing where they have none of the forms, or where there was no memory to read them.
fn command_of(alloc: Global, words: &[&str]) -> Option<LineCommand>
    ensures { IfSome result (λ c. Says c (map (λ w. w.now) words.now)) }
{
    match words {
        [name] => bare_command(name),
        [name, word] => bytes_command(alloc, name, word),
        [name, secret, x, y, token] => words_command(name, secret, x, y, token),
        [
            name,
            present,
            verified,
            id,
            secret,
            es256_x,
            es256_y,
            eddsa_x,
        ] => decision_command(
            name, present, verified, id, secret, es256_x, es256_y, eddsa_x,
        ),
        _ => None,
    }
}

impl LineCommand {
    /// Whether only a key reads it that takes PINs.
    fn is_of_pin(&self) -> bool
        ensures { result ≡ is_of_pin self.now }
    {
        match self {
            LineCommand::Compute(_)
            | LineCommand::Answer(_)
            | LineCommand::LoadPin(_)
            | LineCommand::Power
            | LineCommand::Over => true,
            _ => false,
        }
    }
}

/// What a line says to a key that takes PINs, or takes none; nothing where it has none of the forms, or where there was no memory
/// to read it.
pub fn line_command(alloc: Global, takes_pin: bool, line: &str) -> Option<LineCommand>
    ensures says { IfSome result (λ c. Says c (words_of line.now)) }
    ensures takes { IfSome result (λ c. OnTrue (is_of_pin c) (IsTrue takes_pin)) }
{
    let words = words_of(alloc, line).ok()?;
    let command = command_of(alloc, &words)?;
    if command.is_of_pin() && !takes_pin {
        return None;
    }
    Some(command)
}
