//! What a security key over lines answers: packets, decisions and signatures in, packets and what is to be signed out.
#![tactic(auto)]

pub mod command;
pub mod lines;
pub mod serving;
pub mod telling;
