//! When a certificate is valid (RFC 5280, 4.1.2.5).

ghost use Rattle.std.specs.Prelude.{◌≡◌};
ghost use Rattle.certificates.specs.Form.{time_view, validity_view};
ghost use Rattle.certificates.specs.Steps.{Gives};
ghost use Rattle.certificates.specs.Reading.{time_at, validity_at};

use crate::error::Error;
use crate::field::{field, optional_field};
use crate::tags::{GENERALIZED_TIME, UTC_TIME};

/// A time, raw.
#[derive(Clone, Copy, Debug, PartialEq, Eq, Drop)]
pub struct Time<'a> {
    /// Whether it is a GeneralizedTime, with a year of four digits, and no UTCTime.
    pub generalized: bool,
    /// Its digits and what follows them, as they are.
    pub octets: &'a [u8],
}

/// From when to when.
#[derive(Clone, Copy, Debug, PartialEq, Eq, Drop)]
pub struct Validity<'a> {
    pub not_before: Time<'a>,
    pub not_after: Time<'a>,
}

/// The time at the front, and what follows it.
#[tactic(auto, unfolding(crate::specs::Reading::time_at))]
fn time_at(bytes: &[u8]) -> Result<(Time<'_>, &[u8]), Error>
    ensures { Gives (λ x. (time_view x.0, x.1.now)) result (time_at bytes.now) }
{
    let (utc, rest) = optional_field(UTC_TIME, bytes)?;
    if let Some(octets) = utc {
        return Ok((
            Time {
                generalized: false,
                octets,
            },
            rest,
        ));
    }
    let (octets, rest) = field(GENERALIZED_TIME, rest)?;
    Ok((
        Time {
            generalized: true,
            octets,
        },
        rest,
    ))
}

/// The validity of this content.
#[tactic(auto, unfolding(crate::specs::Reading::validity_at))]
pub fn validity_at(content: &[u8]) -> Result<Validity<'_>, Error>
    ensures { Gives validity_view result (validity_at content.now) }
{
    let (not_before, rest) = time_at(content)?;
    let (not_after, rest) = time_at(rest)?;
    if !rest.is_empty() {
        return Err(Error::Encoding(der::Error::Trailing));
    }
    Ok(Validity {
        not_before,
        not_after,
    })
}
