//! Client data read.

ghost use Rattle.std.specs.Prelude.{◌≡◌, IfOk, IsErr, IsErrOf, MatchOption, None, Some, option_and_then, true, false};
ghost use Rattle.serde_json.specs.Read.{read as json_read};
ghost use Rattle.clientdata.specs.Reading.{is_text, seen_in, seen_of};

use crate::error::Error;
use crate::members::find;
use crate::text::Text;
use json::{Reader, Scratch};
use std::alloc::Global;

/// What client data say of token binding (WebAuthn Level 2, section 5.8.1, `tokenBinding`).
#[derive(Clone, Copy, Debug, PartialEq, Eq)]
pub enum Binding {
    /// There is no member `tokenBinding`.
    Absent,
    /// The member is an object whose `status` is the text `supported`.
    Supported,
    /// The member is an object whose `status` is the text `not-supported`, which older browsers write (WebAuthn Level 1,
    /// section 5.8.1).
    NotSupported,
    /// The member is anything else: `present`, an unknown status, `null`, no object.
    Other,
}

/// What client data say of `crossOrigin` (WebAuthn Level 3, section 5.8.1): whether the page is in one of another origin.
#[derive(Clone, Copy, Debug, PartialEq, Eq)]
pub enum CrossOrigin {
    /// There is no member `crossOrigin`.
    Absent,
    /// The member is `false`.
    False,
    /// The member is `true`.
    True,
    /// The member is anything else: a text, a number, `null`.
    Other,
}

/// What client data say of `topOrigin` (WebAuthn Level 3, section 5.8.1): the origin of the page at the top.
#[derive(Debug, Drop)]
pub enum TopOrigin {
    /// There is no member `topOrigin`.
    Absent,
    /// The member is this text.
    Named(Text),
    /// The member is no text.
    Other,
}

/// What a relying party reads of client data.
#[derive(Debug, Drop)]
pub struct Seen {
    /// The member `type`, any text.
    pub kind: Text,
    /// The member `challenge`, any text; it isn't decoded.
    pub challenge: Text,
    /// The member `origin`, any text.
    pub origin: Text,
    /// The member `tokenBinding`.
    pub binding: Binding,
    /// The member `crossOrigin`.
    pub cross_origin: CrossOrigin,
    /// The member `topOrigin`.
    pub top_origin: TopOrigin,
}

/// Reads client data (WebAuthn Level 2, section 5.8.1): UTF-8 without a byte order mark, of any
/// length, that is a JSON object (RFC 8259) as `serde_json` reads one, whose members `type`,
/// `challenge` and `origin` are texts. Whatever `tokenBinding`, `crossOrigin` and `topOrigin` are, the text is readable;
/// unknown members aren't looked at.
///
/// From the reading of `serde_json` it follows that of members with one name, after unescaping, the
/// last one stands, and that the whole text is unreadable where any number in it is too large for a
/// 64-bit float, any escape in it is a lone surrogate, or objects and arrays nest deeper than 127.
///
/// The error is [`Error::Unreadable`] (16) if the bytes are anything else, or [`Error::Memory`] if
/// a growth was refused, which comes only once the bytes are known to be UTF-8 without the mark.
pub fn read(alloc: Global, bytes: &[u8]) -> Result<Seen, Error>
    ensures ok { IfOk result (λ seen. seen_of bytes.now ≡ Some seen) }

    // Nothing is read exactly where there is nothing, unless memory runs out.
    ensures unreadable { IsErrOf result Error.Unreadable → seen_of bytes.now ≡ None }
    ensures nothing { seen_of bytes.now ≡ None → IsErr result }
    ensures no_text { is_text bytes.now ≡ false → IsErrOf result Error.Unreadable }
{
    let Some(json) = unmarked_text(bytes) else {
        return Err(Error::Unreadable);
    };
    read_text(alloc, json)
}

/// Reads client data of a text. Its stack does not grow with the nesting of what the text has.
fn read_text(alloc: Global, json: &str) -> Result<Seen, Error>
    ensures ok { IfOk result (λ seen. option_and_then seen_in (json_read json.now) ≡ Some seen) }
    ensures unreadable { IsErrOf result Error.Unreadable → option_and_then seen_in (json_read json.now) ≡ None }
{
    let mut scratch = Scratch::new(alloc);
    let Ok(mut reader) = Reader::new(json, &mut scratch) else {
        return Err(Error::Memory);
    };
    match find(&mut reader) {
        Ok(found) => found.copied(alloc),
        Err(_) => Err(Error::Unreadable),
    }
}

/// U+FEFF in UTF-8.
const BYTE_ORDER_MARK: [u8; 3] = [0xef, 0xbb, 0xbf];

/// The bytes as a text, if they are UTF-8 and don't begin with a byte order mark.
fn unmarked_text(bytes: &[u8]) -> Option<&str>
    ensures { MatchOption result (is_text bytes.now ≡ false)
        (λ text. (is_text bytes.now ≡ true) × (text.now ≡ bytes.now)) }
{
    if bytes.starts_with(&BYTE_ORDER_MARK) {
        return None;
    }
    match str::from_utf8(bytes) {
        Ok(text) => Some(text),
        Err(_) => None,
    }
}
