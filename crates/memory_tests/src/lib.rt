//! Each call of a registration, a sign-in and a restart made again where it had no memory; and the site and the security
//! key's end of that test, which `hostile_tests` takes too.
#![tactic(auto)]

mod end;
mod sites;

pub use end::{CONSENT, End, WORDS, packet};
pub use sites::{HERE, POLICY, Rp, USER, saved, site_of};

#[cfg(test)]
mod refused;
