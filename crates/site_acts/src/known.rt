//! What is known of a credential beside what verdicts ask for.

use site_state::Detail;

/// A credential by its id, and what is known of it beside what verdicts ask for.
#[derive(Debug, Drop)]
pub struct Known {
    /// Its id.
    pub id: Vec<u8>,
    /// What is known of it.
    pub detail: Option<Detail>,
    /// Its transports; none where they are not known, or are none.
    pub transports: Vec<String>,
}
