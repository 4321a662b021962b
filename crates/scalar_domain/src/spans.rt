// A range of words. It relies on nothing.

ghost use Rattle.std.specs.Prelude.{◌≡◌, ℕ, ◌+◌, ◌-◌, ◌*◌, ◌/◌, ◌%◌, ◌^◌, ◌<◌, ◌≤◌, ◌≢◌, if◌then◌else◌, ◌==◌, min, max};
ghost use Rattle.scalar_domain.specs.Scalar.{Within, place};

/// The words from `least` to `most`, both included: none where `least` is above `most`.
#[derive(Clone, Copy, Debug, PartialEq, Eq)]
pub struct Span {
    pub least: u64,
    pub most: u64,
}

/// The sign of a word.
pub const SIGN: u64 = 1 << 63;

impl Span {
    /// That word alone.
    pub fn exactly(value: u64) -> Self
        ensures { (result.least ≡ value) × (result.most ≡ value) }
    {
        Span {
            least: value,
            most: value,
        }
    }

    /// Every word.
    pub fn any() -> Self
        ensures { (w : ℕ) → w < 2 ^ 64 → Within result w }
    {
        Span {
            least: 0,
            most: u64::MAX,
        }
    }

    /// What both have.
    pub fn meet(self, other: Span) -> Self
        ensures kept { (w : ℕ) → Within self w → Within other w → Within result w }
        ensures in_self { (w : ℕ) → Within result w → Within self w }
        ensures in_other { (w : ℕ) → Within result w → Within other w }
    {
        Span {
            least: self.least.max(other.least),
            most: self.most.min(other.most),
        }
    }

    /// From the lesser least to the greater most: the least range with the words of both, if both have any.
    pub fn hull(self, other: Span) -> Self
        ensures of_self { (w : ℕ) → Within self w → Within result w }
        ensures of_other { (w : ℕ) → Within other w → Within result w }
        ensures bounds { (n : ℕ) → self.most ≤ n → other.most ≤ n → result.most ≤ n }
        ensures ends { (result.least ≡ min self.least other.least) × (result.most ≡ max self.most other.most) }
    {
        Span {
            least: self.least.min(other.least),
            most: self.most.max(other.most),
        }
    }

    /// Where its words stand in the order of signed words, which turns at the sign: every place where they lie on both
    /// sides of that.
    pub fn turned(self) -> Self
        ensures { (w : ℕ) → w < 2 ^ 64 → Within self w → Within result (place w) }
    {
        if (self.least < SIGN) == (self.most < SIGN) {
            Span {
                least: self.least.wrapping_add(SIGN),
                most: self.most.wrapping_add(SIGN),
            }
        } else {
            Span::any()
        }
    }
}
