//! Public keys as numbers.

use cose::KeyView;

/// The numbers of a public key: its COSE number, x and y; of RSA the modulus and the exponent.
#[derive(Clone, Copy, Drop)]
pub(crate) struct Numbers<'a> {
    pub algorithm: &'static str,
    pub x: &'a [u8],
    pub y: &'a [u8],
}

pub(crate) fn numbers_of<'a>(key: &'a KeyView<'a>) -> Numbers<'a> {
    match key {
        KeyView::Es256 { x, y } => Numbers {
            algorithm: "-7",
            x,
            y,
        },
        KeyView::EdDsa { x } => Numbers {
            algorithm: "-8",
            x,
            y: &[],
        },
        KeyView::Rs256(rsa) => Numbers {
            algorithm: "-257",
            x: rsa.n,
            y: rsa.e,
        },
    }
}
