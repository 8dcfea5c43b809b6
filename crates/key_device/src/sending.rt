//! Answering the request that the device works on.

ghost use Rattle.std.specs.Prelude.{◌≡◌, ◌<◌, ◌+◌, ◌≤◌, [], ◌∷◌, ◌⊎◌, length, vec_capacity, vec_len, IsErrOf, OnErr, OnOk};
ghost use Rattle.hidframe.specs.declared.ctaphid.TheConstants.{MAX_PAYLOAD_SIZE};
ghost use Rattle.hidlink.specs.Ranks.{IsWorking};
ghost use Rattle.key_device.specs.Sending.{IsAnswered};
ghost use Rattle.key_device.specs.declared.error.KeyError.TheVariants as errors;

use crate::error::KeyError;
use ctap_encoding::status::OTHER;
use hidframe::Packet;
use hidframe::ctaphid::MAX_PAYLOAD_SIZE;
use hidlink::Device;
use security_key::{MOST_PACKETS, drain};

/// The bytes, where they fit into a message; else status 0x7F.
fn fitting<'a>(reply: &'a [u8]) -> &'a [u8]
    ensures size { length result.now ≤ MAX_PAYLOAD_SIZE }
    ensures same { (result.now ≡ reply.now) ⊎ ((MAX_PAYLOAD_SIZE < length reply.now) × (result.now ≡ 0x7F ∷ [])) }
{
    if reply.len() <= MAX_PAYLOAD_SIZE {
        reply
    } else {
        &[OTHER]
    }
}

/// Makes room for the packets of a message.
pub(crate) fn make_room(out: &mut Vec<Packet>) -> Result<(), KeyError>
    ensures room { OnOk result (vec_len out.new + 129 ≤ vec_capacity out.new) }
    ensures items { out.new.items ≡ out.old.items }
    ensures memory { OnErr result (IsErrOf result errors.Memory) }
{
    out.reserve(MOST_PACKETS)?;
    Ok(())
}

/// Answers the request that the device works on, where there is room for the packets.
pub(crate) fn answer(device: &mut Device, reply: &[u8], out: &mut Vec<Packet>)
    requires left { device.old.left ≡ [] }
    requires works { IsWorking device.old.state }
    requires room { vec_len out.old + 129 ≤ vec_capacity out.old }
    ensures answered { IsAnswered device.old out.old.items reply.now device.new out.new.items }
    ensures drained { device.new.left ≡ [] }
{
    let _ = device.answer(fitting(reply));
    drain(device, out);
}
