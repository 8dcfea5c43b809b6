//! A law of the numbers of CTAPHID.

ghost use Rattle.hidframe.specs.Numbers.{HasCapabilities, HasChannels, HasCommands, HasErrors, HasSizes, HasStatuses};

/// The numbers of [`ctaphid`](crate::ctaphid) are these, each written out.
pub fn protocol_numbers()
    ensures sizes { HasSizes }
    ensures channels { HasChannels }
    ensures commands { HasCommands }
    ensures errors { HasErrors }
    ensures statuses { HasStatuses }
    ensures capabilities { HasCapabilities }
{}
