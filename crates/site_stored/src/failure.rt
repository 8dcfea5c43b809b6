//! Why a call over a store gives no answer of the site's.

ghost use Rattle.std.specs.Prelude.{◌≡◌};
ghost use Rattle.sqlite_trees.specs.declared.error.StoreError.TheVariants as stores;
ghost use Rattle.site_stored.specs.declared.failure.Failure.TheVariants as failures;
ghost use Rattle.site_stored.specs.declared.failure.CreateFailure.TheVariants as creates;
ghost use Rattle.site_stored.specs.declared.failure.OpenFailure.TheVariants as opens;
ghost use Rattle.site_stored.specs.declared.failure.BeginFailure.TheVariants as begins;
ghost use Rattle.site_stored.specs.declared.failure.FinishFailure.TheVariants as finishes;
ghost use Rattle.site_stored.specs.Private.{seal_refusal};

use site_seal::SealError;
use site_state::BeginError;
use sqlite_trees::error::StoreError;
use std::alloc::AllocError;
use std::fmt::Display;
use verification::VerificationError;

/// Why a call over a store gives no answer of the site's.
#[derive(Clone, Copy, Debug, PartialEq, Eq, Drop, thiserror::Error)]
pub enum Failure {
    /// The site was shut by an earlier failure. Nothing has changed.
    #[error("the site is shut by an earlier failure")]
    Shut,
    /// The disk or memory failed, or the file is not what was written. From now on the site is shut; what the file holds is what
    /// was committed.
    #[error("the store failed, and the site is shut: {0}")]
    Failed(StoreError),
}

impl From<StoreError> for Failure {
    ghost from_gives = { λ e f. f ≡ failures.Failed e };

    fn from(e: StoreError) -> Failure {
        Failure::Failed(e)
    }
}

/// Why no site is made over a store.
#[derive(Clone, Copy, Debug, PartialEq, Eq, Drop, thiserror::Error)]
pub enum CreateFailure {
    /// A tree of the store is no table or index of a site's, or has a row.
    #[error("the tables are not those of a new site")]
    NotNew,
    /// The disk or memory failed.
    #[error("the store failed: {0}")]
    Failed(StoreError),
}

impl From<StoreError> for CreateFailure {
    ghost from_gives = { λ e f. f ≡ creates.Failed e };

    fn from(e: StoreError) -> CreateFailure {
        CreateFailure::Failed(e)
    }
}

impl From<AllocError> for CreateFailure {
    ghost from_gives = { λ _ f. f ≡ creates.Failed stores.OutOfMemory };

    fn from(_e: AllocError) -> CreateFailure {
        CreateFailure::Failed(StoreError::OutOfMemory)
    }
}

/// Why a store is not opened as a site's.
#[derive(Clone, Copy, Debug, PartialEq, Eq, Drop, thiserror::Error)]
pub enum OpenFailure {
    /// A tree of the store is no table or index of a site's, or there is no row of a site.
    #[error("the tables are not those of a site")]
    NoSite,
    /// The version or the rp id is another.
    #[error("the tables are those of another site or version")]
    OtherSite,
    /// The version is a later one.
    #[error("the tables are of a later version")]
    Newer,
    /// A session had a number that is none of those that it says were given.
    #[error("the tables are an older copy")]
    Older,
    /// There are more credentials than a site has.
    #[error("there are more rows than a site has")]
    TooMany,
    /// A row is none that a site has written.
    #[error("a row is not one that a site has written")]
    BadRow,
    /// The disk or memory failed.
    #[error("the store failed: {0}")]
    Failed(StoreError),
}

impl From<StoreError> for OpenFailure {
    ghost from_gives = { λ e f. f ≡ opens.Failed e };

    fn from(e: StoreError) -> OpenFailure {
        OpenFailure::Failed(e)
    }
}

impl From<AllocError> for OpenFailure {
    ghost from_gives = { λ _ f. f ≡ opens.Failed stores.OutOfMemory };

    fn from(_e: AllocError) -> OpenFailure {
        OpenFailure::Failed(StoreError::OutOfMemory)
    }
}

/// Why no session begins.
#[derive(Clone, Copy, Debug, PartialEq, Eq, Drop, thiserror::Error)]
pub enum BeginFailure {
    /// What is asked is out of its limits, or there was no memory for it. Nothing has changed.
    #[error("{0}")]
    Site(BeginError),
    /// The number of the session is so high that none after it fits a column. Nothing has changed.
    #[error("the session's number fits no column")]
    NoNumber,
    /// It was not asked, or the store failed.
    #[error("{0}")]
    Store(Failure),
}

impl From<BeginError> for BeginFailure {
    ghost from_gives = { λ e f. f ≡ begins.Site e };

    fn from(e: BeginError) -> BeginFailure {
        BeginFailure::Site(e)
    }
}

impl From<SealError> for BeginFailure {
    ghost from_gives = { λ e f. f ≡ begins.Site (seal_refusal e) };

    fn from(e: SealError) -> BeginFailure {
        match e {
            SealError::BadInput => BeginFailure::Site(BeginError::BadInput),
            SealError::Memory => BeginFailure::Site(BeginError::Memory),
        }
    }
}

impl From<Failure> for BeginFailure {
    ghost from_gives = { λ e f. f ≡ begins.Store e };

    fn from(e: Failure) -> BeginFailure {
        BeginFailure::Store(e)
    }
}

/// Why a ceremony is not finished, whose steps have refusals `W`.
#[derive(Clone, Copy, Debug, PartialEq, Eq, Drop, thiserror::Error)]
#[error_bound(W: Display)]
pub enum FinishFailure<W> {
    /// A step refuses it, or there was no memory for it. Nothing has changed.
    #[error("{0}")]
    Site(VerificationError<W>),
    /// It was not asked, or the store failed.
    #[error("{0}")]
    Store(Failure),
}

impl<W> From<VerificationError<W>> for FinishFailure<W> {
    ghost from_gives = { λ e f. f ≡ finishes.Site e };

    fn from(e: VerificationError<W>) -> FinishFailure<W> {
        FinishFailure::Site(e)
    }
}

impl<W> From<Failure> for FinishFailure<W> {
    ghost from_gives = { λ e f. f ≡ finishes.Store e };

    fn from(e: Failure) -> FinishFailure<W> {
        FinishFailure::Store(e)
    }
}
