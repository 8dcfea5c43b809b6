//! Why an act is over without having done what it was to do.

ghost use Rattle.std.specs.Prelude.{◌≡◌};
ghost use Rattle.client_lines.specs.Written.{code_of, refused_name, status_of};

use client_ceremony::Refusal;
use ctap_encoding::status::KEEPALIVE_CANCEL;
use std::alloc::{AllocError, AllocFailed};

/// Why an act is over without having done what it was to do.
#[derive(Debug, Drop, thiserror::Error)]
pub enum Refused {
    /// The origin is none that may ask (WebAuthn Level 2, section 5.1.3, step 5).
    #[error("the origin is not one that may ask")]
    BadOrigin,
    /// The rp id is neither the origin's host nor what follows a dot of it.
    #[error("the rp id is not one of the origin")]
    RpIdNotOfOrigin,
    /// The options ask for what no key can be asked for.
    #[error("the options are none that a key can be asked for")]
    Unfit,
    /// It was cancelled.
    #[error("cancelled")]
    Cancelled,
    /// The key answered by an error of CTAPHID (CTAP 2.1, section 11.2.9.1.6), of this code.
    #[error("the key answered by error {0} of its packets")]
    DeviceError(u8),
    /// A packet of the key fits no reply.
    #[error("the key's packets are no reply")]
    ChannelDead,
    /// Each other cause (`client_ceremony`).
    #[error("{0}")]
    Client(Refusal),
}

impl Refused {
    /// Its name in a line.
    pub(crate) fn name(&self) -> &'static str
        ensures { result.now ≡ refused_name self.now }
    {
        match self {
            Refused::BadOrigin => "bad_origin",
            Refused::RpIdNotOfOrigin => "rp_id_not_of_origin",
            Refused::Unfit => "unfit",
            Refused::Cancelled => "cancelled",
            Refused::DeviceError(_) => "device_error",
            Refused::ChannelDead => "channel_dead",
            Refused::Client(refusal) => refusal.name(),
        }
    }

    /// The key's status byte, where it refused by one that has no name.
    pub(crate) fn status(&self) -> Option<u8>
        ensures { result ≡ status_of self.now }
    {
        match self {
            Refused::Cancelled => Some(KEEPALIVE_CANCEL),
            Refused::Client(Refusal::Status(status)) => Some(*status),
            _ => None,
        }
    }

    /// The code of the error of CTAPHID.
    pub(crate) fn code(&self) -> Option<u8>
        ensures { result ≡ code_of self.now }
    {
        match self {
            Refused::DeviceError(code) => Some(*code),
            _ => None,
        }
    }
}

impl From<Refusal> for Refused {
    fn from(refusal: Refusal) -> Refused {
        match refusal {
            Refusal::Status(KEEPALIVE_CANCEL) => Refused::Cancelled,
            other => Refused::Client(other),
        }
    }
}

impl From<AllocError> for Refused {
    fn from(_e: AllocError) -> Refused {
        Refused::Client(Refusal::Memory)
    }
}

impl<T: Drop> From<AllocFailed<T>> for Refused {
    fn from(_e: AllocFailed<T>) -> Refused {
        Refused::Client(Refusal::Memory)
    }
}
