//! Laws of the PIN.

ghost use Rattle.key_pin.specs.Laws.{PinLaws};

/// What holds over all calls, whatever is asked and answered: how many retries are left, when a token is given, and what a token
/// grants.
pub fn pin_laws()
    ensures { PinLaws }
{}
