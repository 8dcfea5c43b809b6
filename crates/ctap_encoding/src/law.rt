//! A law of the status bytes.

ghost use Rattle.ctap_encoding.specs.StatusNumbers.{HasPinStatuses, HasReadingStatuses, HasRefusingStatuses};

/// The numbers of [`status`](crate::status) are these, each written out.
pub fn status_numbers()
    ensures reading { HasReadingStatuses }
    ensures refusing { HasRefusingStatuses }
    ensures pins { HasPinStatuses }
{}
