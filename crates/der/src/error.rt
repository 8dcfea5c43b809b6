//! Why bytes are refused.

use thiserror::Error;

/// Why bytes are not what was to be read: the first fault from the left.
#[derive(Clone, Copy, Debug, PartialEq, Eq, Drop, Error)]
pub enum Error {
    /// The bytes end within an element, or a content within a subidentifier.
    #[error("the bytes end too early")]
    Cut,
    /// The number of the tag is above 30, in octets of its own (X.690, 8.1.2.4).
    #[error("a tag number above 30")]
    LongTag,
    /// The length is of the indefinite form (X.690, 8.1.3.6 and 10.1).
    #[error("a length of the indefinite form")]
    BadLength,
    /// The length has more than four octets after its first.
    #[error("a length of more than four octets")]
    TooLong,
    /// A length, an integer or a subidentifier has an octet more than it needs (X.690, 8.3.2, 8.19.2 and 10.1).
    #[error("more octets than are needed")]
    NotShortest,
    /// The element has another tag.
    #[error("another tag")]
    OtherTag,
    /// Bytes follow the element.
    #[error("bytes follow the element")]
    Trailing,
    /// The content has no octet, and needs one.
    #[error("an empty content")]
    Empty,
    /// The content is neither that of false nor that of true (X.690, 8.2 and 11.1).
    #[error("not a boolean")]
    NotBoolean,
    /// The integer is negative, where none may be.
    #[error("a negative integer")]
    Negative,
    /// The number of unused bits is above 7, or not 0 where there is no other octet (X.690, 8.6.2).
    #[error("unused bits that are not there")]
    BadUnused,
    /// An unused bit of a bit string is not 0 (X.690, 11.2.1).
    #[error("an unused bit that is set")]
    BadPadding,
}
