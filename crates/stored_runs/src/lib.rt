//! What sites over stores tell, as runs of the law over all runs.
#![tactic(auto)]

mod law;
mod making;

pub use law::stored_runs;
pub use making::{
    abandon, begin_registration, begin_sign_in, commit, create, delete, erase, finish_parts,
    finish_registration_parts, open, retire, retire_all,
};
