//! A law of what is asked.

ghost use Rattle.std.specs.Prelude.{◌≡◌, ℕ};
ghost use Rattle.client.specs.Asked.{Asks, ClientCall, Sent};

/// A call asks one thing on a channel: the client data and the packets are determined.
pub fn one_asking()
    ensures { (x : ClientCall) (c : ℕ) (out other : Sent) → Asks x c out → Asks x c other → out ≡ other }
{}
