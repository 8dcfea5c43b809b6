//! The law of a request that comes whole.

ghost use Rattle.std.specs.Prelude.{◌≡◌, ◌≢◌, ◌≤◌, ◌++◌, [], ◌∷◌, List, ℕ, length, map};
ghost use Rattle.hidframe.specs.declared.Packet.{Packet};
ghost use Rattle.hidframe.specs.declared.ctaphid.TheConstants.{CTAPHID_CBOR, MAX_PAYLOAD_SIZE};
ghost use Rattle.hidframe.specs.Frames.{ZeroFrames};
ghost use Rattle.hidframe.specs.Packets.{fields};
ghost use Rattle.hidlink.specs.History.{Answered, DeviceCall, Kept, Leaves, Took};
ghost use Rattle.hidlink.specs.Ranks.{Idle, TransactionState, Working, response};
ghost use Rattle.hidlink.specs.Told.{IsOut, told_before};

/// The law of a request that comes whole to an idle device (CTAP 2.1, sections 11.2.4 and 11.2.5): of the
/// zero-filled packets of a CBOR message that isn't empty, on a channel that is out. They leave the
/// device at work on that message. Nothing is sent at any of them, and the last alone tells the
/// request. A keepalive leaves it at the same work, and an answer that fits leaves it idle.
pub fn whole_request()
    ensures comes { (h : List DeviceCall) (n c : ℕ) (m : List ℕ) (ps : List Packet) → Leaves h n Idle → IsOut n c → m ≢ []
        → ZeroFrames c CTAPHID_CBOR m ps → Leaves (h ++ map Took ps) n (Working c m) }
    ensures quiet { (h : List DeviceCall) (n c : ℕ) (m : List ℕ) (before : List Packet) (p : Packet) (after : List Packet)
        → Leaves h n Idle → IsOut n c → m ≢ [] → ZeroFrames c CTAPHID_CBOR m (before ++ p ∷ after)
        → (s : TransactionState) × Leaves (h ++ map Took before) n s × (response n s (fields p) ≡ told_before c after) }
    ensures kept { (h : List DeviceCall) (n c status : ℕ) (m : List ℕ) → Leaves h n (Working c m)
        → Leaves (h ++ Kept status ∷ []) n (Working c m) }
    ensures answered { (h : List DeviceCall) (n c : ℕ) (m reply : List ℕ) → Leaves h n (Working c m) → length reply ≤ MAX_PAYLOAD_SIZE
        → Leaves (h ++ Answered reply ∷ []) n Idle }
{}
