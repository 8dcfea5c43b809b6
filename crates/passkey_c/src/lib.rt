//! The steps of a relying party for hosts in other languages: each call judges one response by what it gets,
//! and keeps nothing. `c/passkey.h` declares the calls, and says of each member what it is.
//!
//! A call answers 0 where the response is accepted, 1 to 18 for the step that refuses it, 100 and up for a member
//! that is out of its limits, and 127 where there was no memory. What it tells is written only with the answer 0.
//!
//! The mathematics of signatures is the host's. It passes the public key, the message and the signature that it
//! verified, and never a flag: so a signature of anything else is refused at the signature's step.
#![tactic(auto)]

pub mod answers;
pub mod asked;
pub mod assertion;
pub mod input;
pub mod keys;
pub mod parts;
pub mod registration;
pub mod seen;
pub mod signature;
pub mod small;
pub mod texts;
