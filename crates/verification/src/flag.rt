//! Flags of authenticator data.

ghost use Rattle.std.specs.Prelude.{◌≡◌, ◌↔◌, IsTrue, true};
ghost use Rattle.authdata.specs.Flags.{is_set, UV};

use authdata::flags;

/// Whether the flags say that the user was verified, where that is required.
pub(crate) fn is_verified_as(required: bool, flags: u8) -> bool
    ensures { IsTrue result ↔ (required ≡ true → is_set flags UV ≡ true) }
{
    !required || flags::is_set(flags, flags::UV)
}
