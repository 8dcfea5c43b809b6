//! A verifier of listed signatures.

ghost use Rattle.std.specs.Prelude.{◌≡◌, ◌↔◌, ◌++◌, ◌∷◌, [], Contains, IsTrue, OnOk, OnErr};
ghost use Rattle.cose.specs.Keys.{lent_key_view};
ghost use Rattle.cose.specs.Listed.{entry_view};

use crate::key::{CoseKey, KeyView};
use crate::scheme::Verifier;
use std::alloc::{AllocError, Global};
use std::marker::Model;

/// A key, a message and a signature.
#[derive(Drop)]
struct Entry {
    key: CoseKey,
    message: Vec<u8>,
    sig: Vec<u8>,
}

/// A verifier to which exactly the signatures are valid that were listed: a contract sees it as
/// the list of keys, messages and signatures in the order in which they were added.
#[derive(Drop)]
pub struct ListScheme {
    entries: Vec<Entry>,
}

impl Model for ListScheme {
    ghost use Rattle.std.specs.Prelude.{List, ℕ, map};
    ghost use Rattle.cose.specs.declared.key.CoseKey.{CoseKey};
    ghost use Rattle.cose.specs.Listed.{entry_view};

    ghost Value = { List (CoseKey × List ℕ × List ℕ) };

    ghost view = { λ s. map entry_view s.entries.items };
}

impl ListScheme {
    /// A verifier to which no signature is valid yet. It takes no memory.
    pub fn new(alloc: Global) -> Self
        ensures { result ≡ [] }
    {
        ListScheme {
            entries: Vec::new(alloc),
        }
    }

    /// Lists a signature as valid for the message under the key. If memory runs out, none is
    /// listed.
    pub fn add(&mut self, key: CoseKey, message: &[u8], sig: &[u8]) -> Result<(), AllocError>
        ensures ok { OnOk result (self.new ≡ self.old ++ (key, message.now, sig.now) ∷ []) }
        ensures err { OnErr result (self.new ≡ self.old) }
    {
        let alloc = *self.entries.allocator();
        let message = Vec::from_slice(alloc, message)?;
        let sig = Vec::from_slice(alloc, sig)?;
        self.entries.push(Entry { key, message, sig })?;
        Ok(())
    }
}

/// Whether the text is these two parts, one after the other.
pub fn is_joined(text: &[u8], first: &[u8], second: &[u8]) -> bool
    ensures { IsTrue result ↔ (text.now ≡ first.now ++ second.now) }
{
    match text.strip_prefix(first) {
        Some(back) => back == second,
        None => false,
    }
}

/// Whether the entry is of this key, message and signature.
fn is_entry(entry: &Entry, key: &KeyView<'_>, first: &[u8], second: &[u8], sig: &[u8]) -> bool
    ensures { IsTrue result
        ↔ (entry_view entry.now ≡ (lent_key_view key.now, first.now ++ second.now, sig.now)) }
{
    entry.key.view().is_same(key)
        && is_joined(entry.message.as_slice(), first, second)
        && entry.sig.as_slice() == sig
}

impl Verifier for ListScheme {
    ghost valid = { λ s key message sig. Contains s (key, message, sig) };

    fn verify(&self, key: &KeyView<'_>, parts: [&[u8]; 2], sig: &[u8]) -> bool {
        let [first, second] = parts;
        for entry in &self.entries {
            if is_entry(entry, key, first, second, sig) {
                return true;
            }
        }
        false
    }
}
