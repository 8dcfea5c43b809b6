//! Elements: an identifier octet, a length and a content.

ghost use Rattle.std.specs.Prelude.{◌≡◌, ◌<◌, ◌^◌, ◌++◌, ◌⊎◌, List, ℕ, length, option_map, IfErr, IfNone, IfOk, IfSome, IsErr, IsErrOf, IsFalse, IsTrue};
ghost use Rattle.der.specs.declared.error.Error.TheVariants as errors;
ghost use Rattle.der.specs.Encoding.{element, begins_with, IsElement};
ghost use Rattle.der.specs.Refusals.{BeginsWith, Refused, RefusedAs};
ghost use Rattle.der.specs.Reading.{Gives, octet_at, octets_1_at, octets_2_at, octets_3_at, octets_4_at, length_at, content_at, element_at, tagged_at, optional_at, whole_at};

use crate::error::Error;
use crate::tag::Tag;

/// An element, where it lies.
#[derive(Clone, Copy, Debug, PartialEq, Eq, Drop)]
pub struct Element<'a> {
    pub tag: Tag,
    pub content: &'a [u8],
}

/// The next octet, and what follows it.
fn octet_at(bytes: &[u8]) -> Result<(u8, &[u8]), Error>
    ensures { Gives (λ x. (x.0, x.1.now)) result (octet_at bytes.now) }
{
    match bytes.split_first() {
        Some((octet, rest)) => Ok((*octet, rest)),
        None => Err(Error::Cut),
    }
}

/// A length in one octet, and what follows it.
#[tactic(auto, unfolding(crate::specs::Reading::octets_1_at))]
fn octets_1_at(bytes: &[u8]) -> Result<(u32, &[u8]), Error>
    ensures { Gives (λ x. (x.0, x.1.now)) result (octets_1_at bytes.now) }
{
    let (number, rest) = octet_at(bytes)?;
    if number < 0x80 {
        return Err(Error::NotShortest);
    }
    Ok((u32::from(number), rest))
}

/// A length in two octets, and what follows it.
#[tactic(auto, unfolding(crate::specs::Reading::octets_2_at))]
fn octets_2_at(bytes: &[u8]) -> Result<(u32, &[u8]), Error>
    ensures limit { IfOk result (λ x. x.0 < 2 ^ 16) }
    ensures exact { Gives (λ x. (x.0, x.1.now)) result (octets_2_at bytes.now) }
{
    let (high, rest) = octet_at(bytes)?;
    if high == 0 {
        return Err(Error::NotShortest);
    }
    let (low, rest) = octet_at(rest)?;
    Ok((256 * u32::from(high) + u32::from(low), rest))
}

/// A length in three octets, and what follows it.
#[tactic(auto, unfolding(crate::specs::Reading::octets_3_at))]
fn octets_3_at(bytes: &[u8]) -> Result<(u32, &[u8]), Error>
    ensures limit { IfOk result (λ x. x.0 < 2 ^ 24) }
    ensures exact { Gives (λ x. (x.0, x.1.now)) result (octets_3_at bytes.now) }
{
    let (high, rest) = octets_2_at(bytes)?;
    let (low, rest) = octet_at(rest)?;
    Ok((256 * high + u32::from(low), rest))
}

/// A length in four octets, and what follows it.
#[tactic(auto, unfolding(crate::specs::Reading::octets_4_at))]
fn octets_4_at(bytes: &[u8]) -> Result<(u32, &[u8]), Error>
    ensures { Gives (λ x. (x.0, x.1.now)) result (octets_4_at bytes.now) }
{
    let (high, rest) = octets_3_at(bytes)?;
    let (low, rest) = octet_at(rest)?;
    Ok((256 * high + u32::from(low), rest))
}

/// The length at the front, and what follows it.
#[tactic(auto, unfolding(crate::specs::Reading::length_at))]
fn length_at(bytes: &[u8]) -> Result<(u32, &[u8]), Error>
    ensures { Gives (λ x. (x.0, x.1.now)) result (length_at bytes.now) }
{
    let (first, rest) = octet_at(bytes)?;
    match first {
        0..0x80 => Ok((u32::from(first), rest)),
        0x80 => Err(Error::BadLength),
        0x81 => octets_1_at(rest),
        0x82 => octets_2_at(rest),
        0x83 => octets_3_at(rest),
        0x84 => octets_4_at(rest),
        _ => Err(Error::TooLong),
    }
}

/// The content after its length, and what follows it.
#[tactic(auto, unfolding(crate::specs::Reading::content_at))]
fn content_at(bytes: &[u8]) -> Result<(&[u8], &[u8]), Error>
    ensures { Gives (λ x. (x.0.now, x.1.now)) result (content_at bytes.now) }
{
    let (count, rest) = length_at(bytes)?;
    if rest.len() < count as usize {
        return Err(Error::Cut);
    }
    Ok(rest.split_at(count as usize))
}

/// The element at the front, and what follows it.
#[tactic(auto, unfolding(crate::specs::Reading::element_at))]
fn element_at(bytes: &[u8]) -> Result<(Element<'_>, &[u8]), Error>
    ensures { Gives (λ x. ((x.0.tag, x.0.content.now), x.1.now)) result (element_at bytes.now) }
{
    let (first, rest) = octet_at(bytes)?;
    let tag = Tag::of(first);
    if tag.number == 31 {
        return Err(Error::LongTag);
    }
    let (content, rest) = content_at(rest)?;
    Ok((Element { tag, content }, rest))
}

/// The content of the element at the front, which has this tag, and what follows the element.
#[tactic(auto, unfolding(crate::specs::Reading::tagged_at))]
fn tagged_at(tag: Tag, bytes: &[u8]) -> Result<(&[u8], &[u8]), Error>
    requires { tag.number < 31 }
    ensures { Gives (λ x. (x.0.now, x.1.now)) result (tagged_at tag bytes.now) }
{
    let (first, rest) = octet_at(bytes)?;
    if first != tag.identifier() {
        return Err(Error::OtherTag);
    }
    content_at(rest)
}

/// As `tagged_at`, where the element may be absent.
#[tactic(auto, unfolding(crate::specs::Reading::optional_at))]
fn optional_at(tag: Tag, bytes: &[u8]) -> Result<(Option<&[u8]>, &[u8]), Error>
    requires { tag.number < 31 }
    ensures { Gives (λ x. (option_map (λ c. c.now) x.0, x.1.now)) result (optional_at tag bytes.now) }
{
    let Some(first) = bytes.first() else {
        return Ok((None, bytes));
    };
    if *first != tag.identifier() {
        return Ok((None, bytes));
    }
    let (content, rest) = tagged_at(tag, bytes)?;
    Ok((Some(content), rest))
}

/// The content of the element of this tag that the whole input is.
#[tactic(auto, unfolding(crate::specs::Reading::whole_at))]
fn whole_at(tag: Tag, bytes: &[u8]) -> Result<&[u8], Error>
    requires { tag.number < 31 }
    ensures { Gives (λ c. c.now) result (whole_at tag bytes.now) }
{
    let (content, rest) = tagged_at(tag, bytes)?;
    if !rest.is_empty() {
        return Err(Error::Trailing);
    }
    Ok(content)
}

/// The element at the front, of whatever tag, and what follows it (X.690, 8.1 and 10.1).
///
/// Refused as `Cut`, `LongTag`, `BadLength`, `TooLong` or `NotShortest`.
pub fn read_element(bytes: &[u8]) -> Result<(Element<'_>, &[u8]), Error>
    // The element's encoding is at the front.
    ensures found { IfOk result (λ x. IsElement x.0.tag x.0.content.now
        × (bytes.now ≡ element x.0.tag x.0.content.now ++ x.1.now)) }
    // Where it is refused, no element's is,
    ensures none { IsErr result → (tag : Tag) (content rest : List ℕ) → IsElement tag content
        → bytes.now ≡ element tag content ++ rest → ⊥ }
    // and this is why.
    ensures refused { IfErr result (λ e. Refused e bytes.now) }
    ensures exact { Gives (λ x. ((x.0.tag, x.0.content.now), x.1.now)) result (element_at bytes.now) }
{
    element_at(bytes)
}

/// The content of the element at the front, which has this tag, and what follows the element.
///
/// Refused as `OtherTag`, and otherwise as by `read_element`.
pub fn read_tagged(tag: Tag, bytes: &[u8]) -> Result<(&[u8], &[u8]), Error>
    requires { tag.number < 31 }
    ensures found { IfOk result (λ x. IsElement tag x.0.now × (bytes.now ≡ element tag x.0.now ++ x.1.now)) }
    ensures none { IsErr result → (content rest : List ℕ) → IsElement tag content
        → bytes.now ≡ element tag content ++ rest → ⊥ }
    ensures refused { IfErr result (λ e. RefusedAs tag e bytes.now) }
    ensures exact { Gives (λ x. (x.0.now, x.1.now)) result (tagged_at tag bytes.now) }
{
    tagged_at(tag, bytes)
}

/// As `read_tagged`, where the element may be absent: none where the bytes begin with no identifier octet of this tag.
pub fn read_optional(tag: Tag, bytes: &[u8]) -> Result<(Option<&[u8]>, &[u8]), Error>
    requires { tag.number < 31 }
    ensures found { IfOk result (λ x. IfSome x.0 (λ c. IsElement tag c.now
        × (bytes.now ≡ element tag c.now ++ x.1.now))) }
    ensures absent { IfOk result (λ x. IfNone x.0 ((x.1.now ≡ bytes.now) × IsFalse (begins_with tag bytes.now))) }
    ensures none { IsErr result → (content rest : List ℕ) → IsElement tag content
        → bytes.now ≡ element tag content ++ rest → ⊥ }
    ensures refused { IfErr result (λ e. RefusedAs tag e bytes.now × IsTrue (begins_with tag bytes.now)) }
    ensures exact { Gives (λ x. (option_map (λ c. c.now) x.0, x.1.now)) result (optional_at tag bytes.now) }
{
    optional_at(tag, bytes)
}

/// The content of the element of this tag that the whole input is.
///
/// Refused as `Trailing` where bytes follow the element, and otherwise as by `read_tagged`.
pub fn read_whole(tag: Tag, bytes: &[u8]) -> Result<&[u8], Error>
    requires { tag.number < 31 }
    ensures found { IfOk result (λ c. IsElement tag c.now × (bytes.now ≡ element tag c.now)) }
    ensures none { IsErr result → (content : List ℕ) → IsElement tag content → bytes.now ≡ element tag content → ⊥ }
    ensures trailing { IsErrOf result errors.Trailing → BeginsWith tag bytes.now }
    ensures refused { IfErr result (λ e. (e ≡ errors.Trailing) ⊎ RefusedAs tag e bytes.now) }
    ensures exact { Gives (λ c. c.now) result (whole_at tag bytes.now) }
{
    whole_at(tag, bytes)
}
