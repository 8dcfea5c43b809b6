//! The certificates of a statement.

ghost use Rattle.std.specs.Prelude.{◌≡◌, [], List, ℕ, length, map, MatchOption};
ghost use Rattle.ccbor.specs.Viewing.{shown};
ghost use Rattle.attestation.specs.Certified.{leaf_of};
ghost use Rattle.attestation.specs.Statements.{certificates_view, x5c_item, AreCertificates};

use crate::certificate_list::{Certificates, MAX_CERTIFICATES};
use ccbor::View;

impl<'a> Certificates<'a> {
    /// No certificates.
    pub fn none() -> Certificates<'a>
        ensures { certificates_view result ≡ [] }
    {
        let nothing: &[u8] = &[];
        Certificates {
            list: [nothing; MAX_CERTIFICATES],
            count: 0,
        }
    }

    /// The certificates, at most `MAX_CERTIFICATES`, each as it lies: the leaf first, and then those of the authorities.
    pub fn as_slice(&self) -> &[&'a [u8]]
        ensures { map (λ b. b.now) result.now ≡ certificates_view self.now }
    {
        &self.list[..self.count]
    }

    /// The first certificate; no bytes where there is none.
    pub fn leaf(&self) -> &'a [u8]
        ensures { result.now ≡ leaf_of (certificates_view self.now) }
    {
        if self.count == 0 {
            return &[];
        }
        self.list[0]
    }

    /// How many there are.
    pub fn count(&self) -> usize
        ensures { result ≡ length (certificates_view self.now) }
    {
        self.count
    }
}

/// The certificates that the array of this value has: at least one, and at most `MAX_CERTIFICATES`.
pub fn certificates_in<'a>(value: &View<'a>) -> Option<Certificates<'a>>
    ensures { MatchOption result ((cs : List (List ℕ)) → AreCertificates cs → shown value.now ≡ x5c_item cs → ⊥)
        (λ c. AreCertificates (certificates_view c) × (shown value.now ≡ x5c_item (certificates_view c))) }
{
    let mut items = value.as_array()?;
    let nothing: &[u8] = &[];
    let mut list = [nothing; MAX_CERTIFICATES];
    let mut count = 0;
    while let Some((item, rest)) = items.split_first() {
        if count == MAX_CERTIFICATES {
            return None;
        }
        let Some(certificate) = item.as_bytes() else {
            return None;
        };
        list[count] = certificate;
        count += 1;
        items = rest;
    }
    if count == 0 {
        return None;
    }
    Some(Certificates { list, count })
}
