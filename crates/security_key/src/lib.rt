//! A security key: the authenticator's end of CTAPHID packets (CTAP 2.1, section 11.2), one act at a time.
#![tactic(auto)]

mod law;
mod serving;

pub use law::serving_laws;
pub use serving::{
    Act, MOST_PACKETS, ServeError, Served, begin_serving, drain, finish_serving, serve,
};
