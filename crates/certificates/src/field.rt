//! Elements, with the errors of this crate.

ghost use Rattle.std.specs.Prelude.{◌≡◌, ◌<◌, option_map};
ghost use Rattle.certificates.specs.Steps.{Gives, field_at, optional_field_at, whole_field_at, integer_field_at};

use crate::error::Error;
use crate::tags::INTEGER;
use der::{Tag, read_integer, read_optional, read_tagged, read_whole};

/// The content of the element at the front, which has this tag, and what follows it.
pub fn field(tag: Tag, bytes: &[u8]) -> Result<(&[u8], &[u8]), Error>
    requires { tag.number < 31 }
    ensures { Gives (λ x. (x.0.now, x.1.now)) result (field_at tag bytes.now) }
{
    match read_tagged(tag, bytes) {
        Ok(found) => Ok(found),
        Err(error) => Err(Error::Encoding(error)),
    }
}

/// As `field`, where the element may be absent.
pub fn optional_field(tag: Tag, bytes: &[u8]) -> Result<(Option<&[u8]>, &[u8]), Error>
    requires { tag.number < 31 }
    ensures { Gives (λ x. (option_map (λ c. c.now) x.0, x.1.now)) result (optional_field_at tag bytes.now) }
{
    match read_optional(tag, bytes) {
        Ok(found) => Ok(found),
        Err(error) => Err(Error::Encoding(error)),
    }
}

/// The content of the element of this tag that the whole input is.
pub fn whole_field(tag: Tag, bytes: &[u8]) -> Result<&[u8], Error>
    requires { tag.number < 31 }
    ensures { Gives (λ c. c.now) result (whole_field_at tag bytes.now) }
{
    match read_whole(tag, bytes) {
        Ok(found) => Ok(found),
        Err(error) => Err(Error::Encoding(error)),
    }
}

/// The content of the integer at the front, and what follows it.
#[tactic(auto, unfolding(crate::specs::Steps::integer_field_at))]
pub fn integer_field(bytes: &[u8]) -> Result<(&[u8], &[u8]), Error>
    ensures { Gives (λ x. (x.0.now, x.1.now)) result (integer_field_at bytes.now) }
{
    let (content, rest) = field(INTEGER, bytes)?;
    match read_integer(content) {
        Ok(_) => Ok((content, rest)),
        Err(error) => Err(Error::Encoding(error)),
    }
}
