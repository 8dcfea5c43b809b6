//! The number of a line that is not read as a whole, since it nests too deep, is too long, or has a number or a character
//! that is not taken.

use crate::reading::MAX_LINE;

/// How much of the name of a member has been read, as `id`.
#[derive(Clone, Copy, PartialEq, Eq, Drop)]
enum Name {
    Other,
    Start,
    I,
    Id,
}

/// What has been read of a member's value.
#[derive(Clone, Copy, PartialEq, Eq, Drop)]
enum Number {
    Start,
    Digits(u64),
    Ended(u64),
    Other,
}

/// A scan of the bytes of a line: where it is, and the number that was found.
#[derive(Drop)]
struct Scan {
    depth: usize,
    is_text: bool,
    is_escaped: bool,
    is_value: bool,
    name: Name,
    number: Number,
    id: Option<u64>,
}

/// The name with a character more.
fn longer(name: Name, byte: u8) -> Name {
    match (name, byte) {
        (Name::Start, b'i') => Name::I,
        (Name::I, b'd') => Name::Id,
        _ => Name::Other,
    }
}

/// The number with a digit more, as JSON writes numbers: without a zero before them.
fn with_digit(number: Number, byte: u8) -> Number {
    let digit = u64::from(byte.saturating_sub(b'0'));
    match number {
        Number::Start => Number::Digits(digit),
        Number::Digits(0) => Number::Other,
        Number::Digits(front) => match front
            .checked_mul(10)
            .and_then(|front| front.checked_add(digit))
        {
            Some(number) => Number::Digits(number),
            None => Number::Other,
        },
        Number::Ended(_) | Number::Other => Number::Other,
    }
}

impl Scan {
    fn new() -> Scan {
        Scan {
            depth: 0,
            is_text: false,
            is_escaped: false,
            is_value: false,
            name: Name::Other,
            number: Number::Start,
            id: None,
        }
    }

    /// A byte inside a text.
    fn take_text(&mut self, byte: u8) {
        if self.is_escaped {
            self.is_escaped = false;
            return;
        }
        match byte {
            b'"' => self.is_text = false,
            b'\\' => {
                self.is_escaped = true;
                self.name = Name::Other;
            }
            _ if self.depth == 1 && !self.is_value => self.name = longer(self.name, byte),
            _ => {}
        }
    }

    /// A text begins.
    fn begin_text(&mut self) {
        self.is_text = true;
        if self.depth == 1 {
            if self.is_value {
                self.number = Number::Other;
            } else {
                self.name = Name::Start;
            }
        }
    }

    /// A member of the line's object ends. Of members with one name the last stands.
    fn end_member(&mut self) {
        if self.is_value && self.name == Name::Id {
            self.id = match self.number {
                Number::Digits(number) | Number::Ended(number) => Some(number),
                Number::Start | Number::Other => None,
            };
        }
        self.is_value = false;
        self.name = Name::Other;
        self.number = Number::Start;
    }

    /// A byte of the line's object, outside of what nests in it.
    fn take_member(&mut self, byte: u8) {
        match byte {
            b':' => self.is_value = true,
            b',' => self.end_member(),
            b'0'..=b'9' => self.number = with_digit(self.number, byte),
            b' ' | b'\t' | b'\r' | b'\n' => {
                if let Number::Digits(number) = self.number {
                    self.number = Number::Ended(number);
                }
            }
            _ => self.number = Number::Other,
        }
    }

    /// A byte outside a text.
    fn take(&mut self, byte: u8) {
        match byte {
            b'"' => self.begin_text(),
            b'{' | b'[' => {
                if self.depth == 1 {
                    self.number = Number::Other;
                }
                self.depth = self.depth.saturating_add(1);
            }
            b'}' | b']' => {
                if self.depth == 1 {
                    self.end_member();
                }
                self.depth = self.depth.saturating_sub(1);
            }
            _ if self.depth == 1 => self.take_member(byte),
            _ => {}
        }
    }
}

/// The number of the member `id` of a line that begins as an object, by its first `MAX_LINE` + 1 bytes; nothing where it
/// has none, or one that is not a number from 0 to 2^64 - 1. A name that is written by escapes is another one.
pub(crate) fn id_of(line: &[u8]) -> Option<u64> {
    let mut scan = Scan::new();
    for (at, &byte) in line.iter().enumerate() {
        if MAX_LINE < at || at == 0 && byte != b'{' {
            break;
        }
        if scan.is_text {
            scan.take_text(byte);
        } else {
            scan.take(byte);
        }
    }
    scan.id
}
