//! Items of CBOR (RFC 8949, section 3) of definite length, in any encoding.

/// How deep arrays, maps and tags may nest.
pub(crate) const LEVELS: u8 = 17;

/// The head of an item.
#[derive(Clone, Copy, Drop)]
pub(crate) struct Head {
    pub major: u8,
    pub number: u64,
    /// How many bytes the number takes after the first.
    pub size: usize,
    /// Where the content begins.
    pub end: usize,
}

/// The number that bytes are, the highest first.
fn number_of(bytes: &[u8]) -> u64 {
    let mut number = 0;
    for byte in bytes {
        number = (number << 8) | u64::from(*byte);
    }
    number
}

/// How many bytes follow the first, by its low bits; none for an indefinite length.
fn size_of(short: u8) -> Option<usize> {
    match short {
        0..=23 => Some(0),
        24 => Some(1),
        25 => Some(2),
        26 => Some(4),
        27 => Some(8),
        _ => None,
    }
}

/// The head at an offset.
pub(crate) fn head_at(bytes: &[u8], at: usize) -> Option<Head> {
    let first = *bytes.get(at)?;
    let short = first & 31;
    let size = size_of(short)?;
    let start = at.checked_add(1)?;
    let end = start.checked_add(size)?;
    let digits = bytes.get(start..end)?;
    let number = if digits.is_empty() {
        u64::from(short)
    } else {
        number_of(digits)
    };
    Some(Head {
        major: first >> 5,
        number,
        size,
        end,
    })
}

/// The content of a byte or text string.
pub(crate) fn content<'a>(bytes: &'a [u8], head: &Head) -> Option<&'a [u8]> {
    let size = usize::try_from(head.number).ok()?;
    bytes.get(head.end..head.end.checked_add(size)?)
}

/// Where the item at an offset ends; the offset of the one that can't be read, if there is one.
pub(crate) fn end_of(bytes: &[u8], at: usize, levels: u8) -> Result<usize, usize> {
    if levels == 0 {
        return Err(at);
    }
    let Some(head) = head_at(bytes, at) else {
        return Err(at);
    };
    match head.major {
        2 | 3 => match content(bytes, &head) {
            Some(content) => Ok(head.end.saturating_add(content.len())),
            None => Err(at),
        },
        4 => {
            let mut end = head.end;
            for _ in 0..head.number {
                end = end_of(bytes, end, levels - 1)?;
            }
            Ok(end)
        }
        5 => {
            let mut end = head.end;
            for _ in 0..head.number {
                end = end_of(bytes, end, levels - 1)?;
                end = end_of(bytes, end, levels - 1)?;
            }
            Ok(end)
        }
        6 => end_of(bytes, head.end, levels - 1),
        _ => Ok(head.end),
    }
}

/// The bytes of the item at an offset, and where it ends.
pub(crate) fn span_at(bytes: &[u8], at: usize) -> Result<(&[u8], usize), usize> {
    let end = end_of(bytes, at, LEVELS)?;
    match bytes.get(at..end) {
        Some(span) => Ok((span, end)),
        None => Err(at),
    }
}
