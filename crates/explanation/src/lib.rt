//! Why a relying party accepts or refuses a response: each step by which it verifies it, and whether the response passes it (WebAuthn,
//! sections 7.1 and 7.2).
#![tactic(auto)]

mod asked;
mod compared;
mod contents;
mod explaining;
mod facts;
mod judged;
mod lines;
mod numbers;
mod shown;
mod signature;
mod stored;
mod told;
mod words;
mod written;

pub use explaining::{Explained, Verdict, explain};
pub use judged::{explain_registration, explain_sign_in};
pub use told::{StepState, ToldStep};
pub use written::{write_json, write_text};
