//! What a site keeps of a credential that no verdict asks for.

/// What is known of a credential beside what verdicts ask for.
#[derive(Debug, Drop)]
pub struct Detail {
    /// When it was registered, in seconds of the host's clock.
    pub created_at: Option<i64>,
    /// When it was last used, in seconds of the host's clock.
    pub used_at: Option<i64>,
    /// The transports that its client told, joined by commas.
    pub transports: Vec<u8>,
    /// The aaguid that its authenticator data said.
    pub aaguid: Option<Vec<u8>>,
}
