//! The flags of authenticator data (WebAuthn section 6.1), each by its bit. The other bits are
//! reserved.

ghost use Rattle.std.specs.Prelude.{◌≡◌, ◌↔◌, IsTrue};
ghost use Rattle.authdata.specs.Flags.{is_set, HasBackup};

/// User present.
pub const UP: u8 = 0x01;

/// User verified.
pub const UV: u8 = 0x04;

/// Backup eligible: the credential may be backed up. A mark of profile 2.
pub const BE: u8 = 0x08;

/// Backup state: the credential is backed up. A mark of profile 2.
pub const BS: u8 = 0x10;

/// Attested credential data included.
pub const AT: u8 = 0x40;

/// Extension data included.
pub const ED: u8 = 0x80;

/// Whether a flag is set.
pub fn is_set(flags: u8, flag: u8) -> bool
    ensures { result ≡ is_set flags flag }
{
    flags & flag != 0
}

/// Whether `BS` is set only with `BE`.
pub(crate) fn has_backup(flags: u8) -> bool
    ensures { IsTrue result ↔ HasBackup flags }
{
    !is_set(flags, BS) || is_set(flags, BE)
}
