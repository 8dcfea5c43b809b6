//! Lines that show what a step looks at.

use decoded::ascii_json;
use serde_json::Value;
use std::alloc::{AllocError, Global};

/// What stands for a value that is absent.
pub(crate) const NOT_THERE: &str = "not there";

/// A value that a step looks at: as a text, in hex, or both.
#[derive(Drop)]
pub(crate) struct Line {
    pub of: String,
    pub text: Option<String>,
    pub hex: Option<String>,
}

/// The lines of a step.
#[derive(Drop)]
pub(crate) struct Lines {
    pub alloc: Global,
    pub list: Vec<Line>,
}

impl Lines {
    pub(crate) fn new(alloc: Global) -> Lines {
        Lines {
            alloc,
            list: Vec::new(alloc),
        }
    }

    /// Adds a value with a text and in hex.
    pub(crate) fn both(
        &mut self,
        of: &str,
        text: Option<&str>,
        hex: Option<&str>,
    ) -> Result<(), AllocError> {
        let alloc = self.alloc;
        let text = match text {
            Some(text) => Some(String::from_str(alloc, text)?),
            None => None,
        };
        let hex = match hex {
            Some(hex) => Some(String::from_str(alloc, hex)?),
            None => None,
        };
        let of = String::from_str(alloc, of)?;
        Ok(self.list.push(Line { of, text, hex })?)
    }

    /// Adds a text.
    pub(crate) fn text(&mut self, of: &str, text: &str) -> Result<(), AllocError> {
        self.both(of, Some(text), None)
    }

    /// Adds bytes.
    pub(crate) fn bytes(&mut self, of: &str, bytes: Option<&[u8]>) -> Result<(), AllocError> {
        let Some(bytes) = bytes else {
            return self.text(of, NOT_THERE);
        };
        let digits = hex::encode(self.alloc, bytes)?;
        self.both(of, None, Some(digits.as_str()))
    }

    /// Adds a value of JSON.
    pub(crate) fn json(&mut self, of: &str, value: &Value) -> Result<(), AllocError> {
        let text = ascii_json(self.alloc, value)?;
        self.text(of, text.as_str())
    }

    /// Adds a counter.
    pub(crate) fn count(&mut self, of: &str, count: Option<u32>) -> Result<(), AllocError> {
        let Some(count) = count else {
            return self.text(of, "null");
        };
        let text = format!(in self.alloc; "{count}")?;
        let digits = format!(in self.alloc; "{count:08x}")?;
        self.both(of, Some(text.as_str()), Some(digits.as_str()))
    }
}
