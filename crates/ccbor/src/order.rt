//! The order of a map's keys (CTAP 2.1, "Message Encoding").

ghost use Rattle.std.specs.Prelude.{◌≡◌};
ghost use Rattle.ccbor.specs.Canon.{major_of, before};

/// The major type of an encoding; of no bytes it is 0.
fn major_of(encoding: &[u8]) -> u8
    ensures { result ≡ major_of encoding.now }
{
    match encoding.first() {
        Some(first) => *first / 32,
        None => 0,
    }
}

/// Whether one encoded key comes before another: the lower major type first, then the shorter, then
/// the one with the lower byte where they first differ.
#[tactic(auto, unfolding(crate::specs::Canon::before))]
pub fn before(a: &[u8], b: &[u8]) -> bool
    ensures { result ≡ before a.now b.now }
{
    let (major_a, major_b) = (major_of(a), major_of(b));
    if major_a != major_b {
        return major_a < major_b;
    }
    if a.len() != b.len() {
        return a.len() < b.len();
    }
    a.cmp(b).is_lt()
}
