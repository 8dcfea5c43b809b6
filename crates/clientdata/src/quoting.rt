//! Quoted texts.

ghost use Rattle.std.specs.Prelude.{◌≡◌, ◌<◌, ◌++◌, IfOk, OnOk, codes, string_bytes};
ghost use Rattle.std.specs.Char.{digit_char};
ghost use Rattle.clientdata.specs.Quoted.{escaped, four_hex_digits, quoted};

use std::alloc::{AllocError, Global};

/// A text between quotation marks, as client data have texts: a quotation mark and a backslash after a
/// backslash, a code point below U+0020 as `\u` and four lower-case hex digits, every other one in
/// UTF-8 (WebAuthn Level 2, section 5.8.1.1). It fails only if memory runs out.
pub fn quoted_text(alloc: Global, text: &str) -> Result<String, AllocError>
    ensures { IfOk result (λ whole. string_bytes whole ≡ quoted text.now) }
{
    let mut whole = String::new(alloc);
    push_quoted(&mut whole, text)?;
    Ok(whole)
}

/// Appends a text between quotation marks.
pub(crate) fn push_quoted(text: &mut String, inner: &str) -> Result<(), AllocError>
    ensures { OnOk result (string_bytes text.new ≡ string_bytes text.old ++ quoted inner.now) }
{
    text.push('"')?;
    for c in inner.chars() {
        push_escaped(text, c)?;
    }
    text.push('"')
}

/// Appends one code point of a quoted text.
fn push_escaped(text: &mut String, c: char) -> Result<(), AllocError>
    ensures { OnOk result (string_bytes text.new ≡ string_bytes text.old ++ escaped c) }
{
    match c {
        '"' => text.push_str("\\\""),
        '\\' => text.push_str("\\\\"),
        '\0'..='\x1f' => push_control(text, u32::from(c)),
        _ => text.push(c),
    }
}

/// Appends `\u` and the four hex digits of a code point below U+0020.
fn push_control(text: &mut String, code: u32) -> Result<(), AllocError>
    requires { code < 0x20 }
    ensures { OnOk result
        (string_bytes text.new ≡ string_bytes text.old ++ (codes "\\u" ++ four_hex_digits code)) }
{
    text.push_str("\\u00")?;
    text.push(hex_digit(code / 16))?;
    text.push(hex_digit(code % 16))
}

/// The lower-case hex digit of a number.
fn hex_digit(n: u32) -> char
    requires { n < 16 }
    ensures digit { result ≡ digit_char n }
    ensures ascii { result < 128 }
{
    char::from_digit(n, 16).unwrap()
}
