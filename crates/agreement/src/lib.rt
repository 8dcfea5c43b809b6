//! The agreement of a site and an authenticator, from end to end.
#![tactic(auto)]

mod acting;
mod law;

pub use acting::{
    abandon, begin_registration, begin_sign_in, finish_parts, finish_registration_parts, handle,
    load, register, reload, restore, retire, set_max_open, sign_in,
};
pub use law::{agreement, below, full_run, hosts_runs, of_all_runs};
