//! Reading a part of an encoding where it is known which part comes.

ghost use Rattle.std.specs.Prelude.{◌≡◌, ◌<◌, ◌^◌, ◌++◌, IfSome, length};
ghost use Rattle.ccbor.specs.Item as of;
ghost use Rattle.ccbor.specs.Canon.{spelling};

use crate::head::{BYTES, head_at};
use crate::leaf::content_at;

/// The content of the byte string whose canonical encoding is at the front of the input, and what follows it; none
/// where no such encoding is there. No memory is taken.
pub fn bytes_first(bytes: &[u8]) -> Option<(&[u8], &[u8])>
    ensures { IfSome result (λ r. (bytes.now ≡ spelling (of.bytes r.0.now) ++ r.1.now) × (length r.0.now < 2 ^ 64)) }
{
    let Ok((head, rest)) = head_at(bytes) else {
        return None;
    };
    if head.major != BYTES {
        return None;
    }
    let Ok((content, rest)) = content_at(rest, head.argument) else {
        return None;
    };
    Some((content, rest))
}
