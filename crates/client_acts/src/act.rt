//! What a line asks for.

use crate::options::{CreationOptions, RequestOptions};
use hidframe::Packet;

/// What an act is to do.
#[derive(Debug, Drop)]
pub enum Aim {
    /// Register a credential at the key.
    Register(CreationOptions),
    /// Sign in by a credential of the key.
    SignIn(RequestOptions),
    /// Tell what the key tells of itself.
    Inform,
    /// Set the key's first PIN.
    SetPin(String),
    /// Change the key's PIN to this.
    ChangePin(String),
}

/// An act that is to begin.
#[derive(Debug, Drop)]
pub struct Begin {
    /// What it is to do.
    pub aim: Aim,
    /// Random bytes, which distinguish the key's answer from those to others.
    pub nonce: [u8; 8],
    /// Whether the key may verify its user by itself.
    pub built_in: bool,
}

/// What takes the act that is under way further.
#[derive(Debug, Drop)]
pub enum Further {
    /// A packet that came from the key.
    Packet(Packet),
    /// The user's PIN.
    Pin(String),
    /// What the host was asked to compute.
    Computed(Vec<u8>),
    /// Which of the credentials the user chose.
    Choose(u64),
    /// The user cancels.
    Cancel,
}

/// What a line asks for.
#[derive(Debug, Drop)]
pub enum Act {
    /// One begins; what was under way is dropped.
    Begin(Begin),
    /// The one that is under way goes on.
    Further(Further),
}
