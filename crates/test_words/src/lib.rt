//! Tables as texts, and bytes as words, for the crates of tests.
//!
//! Rows are written in two notations. A table is lines, each of parts with `|` between them. Bytes in a part are words:
//! hexadecimal digits, with `*` and how often they stand where that is not once; characters after `'`; or a name, which
//! stands for its own words. What is done in an order is a script: acts with `;` between them, each of the answer that is
//! wanted, the act's name, and words `name=value`. The crate that has the acts reads the script; the README shows both.
#![tactic(auto)]

use std::alloc::{AllocError, Global};
use std::fmt::{Debug, Display};

/// Lines, each of parts with `|` between them.
pub type Table = &'static str;

/// The part of a line with this number, from 0; nothing where the line has fewer.
pub fn part(line: &str, number: usize) -> &str {
    line.split('|').nth(number).unwrap_or("")
}

/// The number that a part of a line is, if it is one.
pub fn number(line: &str, index: usize) -> Option<usize> {
    part(line, index).parse().ok()
}

/// What a name stands for in the first of these tables that has it; another word stands for itself.
fn meaning<'a>(names: &'a [&'a str], word: &'a str) -> &'a str {
    for table in names {
        for line in table.lines() {
            if part(line, 0) == word {
                return part(line, 1);
            }
        }
    }
    word
}

/// Appends what a word stands for that is no name; a word that is none is an error.
fn append(alloc: Global, bytes: &mut Vec<u8>, word: &str) -> Result<(), AllocError> {
    if let Some(characters) = word.strip_prefix("'") {
        return bytes.extend_from_slice(characters.as_bytes());
    }
    let (digits, count) = match word.split_once("*") {
        Some((digits, count)) => (digits, count.parse().unwrap_or(0)),
        None => (word, 1),
    };
    let Ok(found) = hex::decode(alloc, digits) else {
        return Err(AllocError);
    };
    for _ in 0..count {
        bytes.extend_from_slice(&found)?;
    }
    Ok(())
}

/// Appends the bytes of these words, with spaces between them, of which these tables have the names: lines of a name
/// and its words.
pub fn append_words<'a>(
    alloc: Global,
    names: &'a [&'a str],
    bytes: &mut Vec<u8>,
    words: &'a str,
) -> Result<(), AllocError> {
    for name in words.split_whitespace() {
        for word in meaning(names, name).split_whitespace() {
            append(alloc, bytes, word)?;
        }
    }
    Ok(())
}

/// The bytes of these words, of which these tables have the names.
pub fn bytes_of<'a>(
    alloc: Global,
    names: &'a [&'a str],
    words: &'a str,
) -> Result<Vec<u8>, AllocError> {
    let mut bytes = Vec::new(alloc);
    append_words(alloc, names, &mut bytes, words)?;
    Ok(bytes)
}

/// Appends the line of a refusal, after a line break where one stands before: its number, 0 where it has none; its name
/// and its text.
pub fn append_refusal<E: Debug + Display>(
    alloc: Global,
    number: Option<u8>,
    error: &E,
    lines: &mut String,
) -> Result<(), AllocError> {
    let line = format!(in alloc; "{}|{error:?}|{error}", number.unwrap_or(0))?;
    if !lines.is_empty() {
        lines.push_str("\n")?;
    }
    lines.push_str(line.as_str())
}
