// Whether two places in memory hold the same, without a jump for each word: what differs is gathered, and is tested once at
// the end, so that a processor takes several words at a time. It relies on nothing.

ghost use Rattle.std.specs.Prelude.{◌≡◌, ◌↔◌, IsTrue, length};

/// Whether both are the same words.
#[inline(always)]
pub fn same_words(one: &[u64], other: &[u64]) -> bool
    requires { length one.now ≡ length other.now }
    ensures { IsTrue result ↔ (one.now ≡ other.now) }
{
    let mut differences = 0;
    for k in 0..one.len() {
        differences |= one[k] ^ other[k];
    }
    differences == 0
}

/// Whether both are the same bytes.
#[inline(always)]
pub fn same_bytes(one: &[u8], other: &[u8]) -> bool
    requires { length one.now ≡ length other.now }
    ensures { IsTrue result ↔ (one.now ≡ other.now) }
{
    let mut differences = 0;
    for k in 0..one.len() {
        differences |= one[k] ^ other[k];
    }
    differences == 0
}
