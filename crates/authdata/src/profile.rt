//! What a relying party takes of authenticator data.

ghost use Rattle.std.specs.Prelude.{◌≡◌, ◌↔◌, IsTrue, true};
ghost use Rattle.authdata.specs.Flags.{is_set, ED};
ghost use Rattle.authdata.specs.Profiles.{max_id};
ghost use Rattle.authdata.specs.declared.profile.Profile.TheVariants.{Strict};

use crate::flags;

/// Which responses a relying party takes. The steps are the same in each. In the open one three of them ask less than in the
/// strict one: those on token binding, on authenticator data and on attestation objects.
#[derive(Clone, Copy, Debug, PartialEq, Eq, Drop)]
pub enum Profile {
    /// No extension data, credential ids of 1 to 64 bytes, no token binding but `supported`.
    Strict,
    /// What real keys and browsers send besides: extension data, which are not looked at (WebAuthn Level 2, sections
    /// 7.1, step 17, and 7.2, step 18), credential ids of 1 to 1,023 bytes (Level 3, section 4, "Credential ID"), and the
    /// status `not-supported` of token binding, which older browsers write.
    Open,
    /// WebAuthn Level 3, sections 7.1 and 7.2: authenticator data as in the open one, token binding is not looked at, and the
    /// steps on frames, presence and attestation are Level 3's.
    Level3,
}

impl Profile {
    /// The most bytes of a credential id.
    pub fn max_id(self) -> usize
        ensures { result ≡ max_id self }
    {
        match self {
            Profile::Strict => 64,
            Profile::Open | Profile::Level3 => 1023,
        }
    }

    /// Whether it has no extension data, and the flags say that there are any.
    pub(crate) fn bars_extensions(self, flags: u8) -> bool
        ensures { IsTrue result ↔ ((self ≡ Strict) × (is_set flags ED ≡ true)) }
    {
        match self {
            Profile::Strict => flags::is_set(flags, flags::ED),
            Profile::Open | Profile::Level3 => false,
        }
    }
}
