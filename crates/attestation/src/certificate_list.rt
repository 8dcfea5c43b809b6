//! A list of certificates.

ghost use Rattle.std.specs.Prelude.{◌≤◌};

/// How many certificates a statement may have: 8.
pub const MAX_CERTIFICATES: usize = 8;

/// The certificates of a statement, where they lie; none of a statement that has none.
#[derive(Clone, Copy, Debug, Drop)]
pub struct Certificates<'a> {
    pub(crate) list: [&'a [u8]; MAX_CERTIFICATES],
    pub(crate) count: usize,
    ghost limit: { count ≤ 8 },
}
