//! Contents: booleans, integers and bit strings.

ghost use Rattle.std.specs.Prelude.{◌≡◌, ◌<◌, Bool, List, ℕ, IfOk, IsErr};
ghost use Rattle.der.specs.Encoding.{boolean_octets, unsigned_octets, is_padded, IsBitString, IsDigits, IsInteger};
ghost use Rattle.der.specs.Reading.{Gives, boolean_in, integer_in, unsigned_in, bit_string_in};

use crate::error::Error;

/// An integer of whatever size, where its content lies.
#[derive(Clone, Copy, Debug, PartialEq, Eq, Drop)]
pub struct Integer<'a> {
    pub negative: bool,
    /// The number's two's complement, in the fewest octets.
    pub octets: &'a [u8],
}

/// A bit string, where its content lies.
#[derive(Clone, Copy, Debug, PartialEq, Eq, Drop)]
pub struct BitString<'a> {
    /// How many bits of the last octet are not of the string, 0 to 7; they are 0.
    pub unused: u8,
    pub octets: &'a [u8],
}

/// The boolean of this content (X.690, 8.2 and 11.1).
#[tactic(auto, unfolding(crate::specs::Reading::boolean_in))]
pub fn read_boolean(content: &[u8]) -> Result<bool, Error>
    ensures found { IfOk result (λ b. content.now ≡ boolean_octets b) }
    ensures none { IsErr result → (b : Bool) → content.now ≡ boolean_octets b → ⊥ }
    ensures exact { Gives (λ b. b) result (boolean_in content.now) }
{
    match content {
        [0] => Ok(false),
        [0xff] => Ok(true),
        _ => Err(Error::NotBoolean),
    }
}

/// The integer of this content.
#[tactic(auto, unfolding(crate::specs::Reading::integer_in))]
fn integer_in(content: &[u8]) -> Result<Integer<'_>, Error>
    ensures same { IfOk result (λ n. n.octets.now ≡ content.now) }
    ensures exact { Gives (λ n. n.negative) result (integer_in content.now) }
{
    match content {
        [] => Err(Error::Empty),
        [0, 0..0x80, ..] => Err(Error::NotShortest),
        [0xff, 0x80..=0xff, ..] => Err(Error::NotShortest),
        [first, ..] => Ok(Integer {
            negative: *first > 0x7f,
            octets: content,
        }),
    }
}

/// The integer of this content (X.690, 8.3).
///
/// Refused as `Empty` or `NotShortest`.
pub fn read_integer(content: &[u8]) -> Result<Integer<'_>, Error>
    ensures same { IfOk result (λ n. n.octets.now ≡ content.now) }
    ensures found { IfOk result (λ n. IsInteger n.negative content.now) }
    ensures none { IsErr result → (negative : Bool) → IsInteger negative content.now → ⊥ }
    ensures exact { Gives (λ n. n.negative) result (integer_in content.now) }
{
    integer_in(content)
}

/// The digits of the integer of this content, which is not negative: to the base 256, highest first, the first not 0;
/// none for 0 (X.690, 8.3).
#[tactic(auto, unfolding(crate::specs::Reading::unsigned_in))]
pub fn read_unsigned(content: &[u8]) -> Result<&[u8], Error>
    ensures found { IfOk result (λ digits. IsDigits digits.now × (content.now ≡ unsigned_octets digits.now)) }
    ensures none { IsErr result → (digits : List ℕ) → IsDigits digits → content.now ≡ unsigned_octets digits → ⊥ }
    ensures exact { Gives (λ digits. digits.now) result (unsigned_in content.now) }
{
    match content {
        [] => Err(Error::Empty),
        [0x80..=0xff, ..] => Err(Error::Negative),
        [0, 0..0x80, ..] => Err(Error::NotShortest),
        [0, digits @ ..] => Ok(digits),
        _ => Ok(content),
    }
}

/// Whether this many low bits of the last octet are 0. Where there is no octet, no bit is unused.
fn is_padded(unused: u8, octets: &[u8]) -> bool
    requires { unused < 8 }
    ensures { result ≡ is_padded unused octets.now }
{
    match octets.last() {
        Some(last) => *last % (1 << unused) == 0,
        None => unused == 0,
    }
}

/// The bit string of this content (X.690, 8.6 and 11.2).
#[tactic(auto, unfolding(crate::specs::Reading::bit_string_in))]
pub fn read_bit_string(content: &[u8]) -> Result<BitString<'_>, Error>
    ensures found { IfOk result (λ b. IsBitString b.unused b.octets.now content.now) }
    ensures none { IsErr result → (unused : ℕ) (octets : List ℕ) → IsBitString unused octets content.now → ⊥ }
    ensures exact { Gives (λ b. (b.unused, b.octets.now)) result (bit_string_in content.now) }
{
    let Some((unused, octets)) = content.split_first() else {
        return Err(Error::Empty);
    };
    let unused = *unused;
    if unused > 7 {
        return Err(Error::BadUnused);
    }
    if is_padded(unused, octets) {
        return Ok(BitString { unused, octets });
    }
    if octets.is_empty() {
        Err(Error::BadUnused)
    } else {
        Err(Error::BadPadding)
    }
}
