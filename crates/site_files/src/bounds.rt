//! How much a site may have.

use crate::error::FileError;
use site_stored::Bounds;

/// The most credentials.
const MOST: u32 = 1_000_000;

/// That a site may have no more than this product is measured with.
pub fn check_bounds(bounds: Bounds) -> Result<(), FileError> {
    if MOST < bounds.credentials {
        return Err(FileError::BadBound);
    }
    Ok(())
}
