//! A relying party with its own table of credentials and its own sessions (WebAuthn Level 2, section 7).
#![tactic(auto)]

mod error;
mod law;
mod loading;
mod reading;
mod registration;
mod restore;
mod saving;
mod signing_in;
mod site;
mod table_error;

pub use error::Error;
pub use law::{one_table, site_laws};
pub use loading::{Loaded, load};
pub use registration::Registered;
pub use saving::save;
pub use signing_in::SignedIn;
pub use site::{MAX_RP_ID, Site};
pub use site_state::{BeginError, Row, Rows, Session, Started, Table};
pub use table_error::TableError;
pub use verification::{
    AssertionParts, Policy, RegistrationParts, RegistrationRefusal, RowView, SignInRefusal,
    VerificationError,
};
