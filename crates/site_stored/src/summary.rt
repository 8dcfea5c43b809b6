//! What authenticator data say, kept for the answer to a ceremony.

ghost use Rattle.std.specs.Prelude.{◌≡◌, IfOk, option_map};
ghost use Rattle.authdata.specs.Layout.{lent_auth_view};
ghost use Rattle.site_stored.specs.Summaries.{Summarises};

use authdata::AuthView;
use std::alloc::{AllocError, Global};

/// What authenticator data say, but for the credential that they attest.
#[derive(Debug, Drop)]
pub struct Summary {
    /// The signature counter.
    pub sign_count: u32,
    /// The flags, by their bits.
    pub flags: u8,
    /// The map of extensions, where there is one.
    pub extensions: Option<Vec<u8>>,
}

/// A copy of bytes, where there are any.
fn copied(alloc: Global, bytes: Option<&[u8]>) -> Result<Option<Vec<u8>>, AllocError>
    ensures { IfOk result (λ c. option_map (λ v. v.items) c ≡ option_map (λ b. b.now) bytes.entry) }
{
    match bytes {
        Some(bytes) => Ok(Some(Vec::from_slice(alloc, bytes)?)),
        None => Ok(None),
    }
}

/// The summary of authenticator data.
pub(crate) fn summary_of(alloc: Global, auth_data: &AuthView<'_>) -> Result<Summary, AllocError>
    ensures { IfOk result (λ s. Summarises s (lent_auth_view auth_data.now)) }
{
    Ok(Summary {
        sign_count: auth_data.sign_count,
        flags: auth_data.flags,
        extensions: copied(alloc, auth_data.extensions)?,
    })
}
