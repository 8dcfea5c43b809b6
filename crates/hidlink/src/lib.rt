//! Both ends of a CTAPHID channel: section 11.2 of CTAP 2.1.
#![tactic(auto)]

mod arbitration;
mod collection;
mod law;
mod opening;
mod room;
mod transaction;

pub use arbitration::MAX_CHANNELS;
pub use collection::{
    Collector, DeadKind, Ended, Outcome, Received, feed_all, one_outcome, receive,
};
pub use law::whole_request;
pub use opening::{Opener, Opening};
pub use transaction::{Device, DeviceEvent, Refusal, one_history, one_step};
