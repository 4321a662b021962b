// Bits of a word that are known. It relies on `spans`.

ghost use Rattle.std.specs.Prelude.{◌≡◌, ℕ, false, ◌<◌, ◌≤◌, ◌^◌, ◌-◌, ◌*◌, ◌/◌, ◌%◌, bit_and, bit_or, bit_xor};
ghost use Rattle.scalar_domain.specs.Scalar.{Agrees, Subset, Within};

use crate::spans::Span;

/// The bits that a word must have, and those that it may have.
#[derive(Clone, Copy, Debug, PartialEq, Eq)]
pub struct KnownBits {
    pub must: u64,
    pub may: u64,
}

impl KnownBits {
    /// Nothing is known.
    pub fn any() -> Self
        ensures { (w : ℕ) → w < 2 ^ 64 → Agrees result w }
    {
        KnownBits {
            must: 0,
            may: u64::MAX,
        }
    }

    /// Each bit is that word's.
    pub fn exactly(value: u64) -> Self
        ensures agrees { Agrees result value }
        ensures only { (result.must ≡ value) × (result.may ≡ value) }
    {
        KnownBits {
            must: value,
            may: value,
        }
    }

    /// The bits that all words of a range have alike, from the top.
    pub fn of(span: Span) -> Self
        ensures { (w : ℕ) → w < 2 ^ 64 → Within span w → Agrees result w }
    {
        let open = ones_over(span.least ^ span.most);
        KnownBits {
            must: span.least & !open,
            may: span.most | open,
        }
    }

    /// The range in which all words with these bits lie.
    pub fn span(self) -> Span
        ensures { (w : ℕ) → Agrees self w → Within result w }
    {
        Span {
            least: self.must,
            most: self.may,
        }
    }

    /// The words that have these bits.
    pub(crate) fn with(self, bits: u64) -> Self
        ensures has { (w : ℕ) → Agrees self w → Subset bits w → Agrees result w }
        ensures only { (w : ℕ) → Agrees result w → Agrees self w }
    {
        KnownBits {
            must: self.must | bits,
            may: self.may,
        }
    }

    /// The words that have none of these bits.
    pub(crate) fn without(self, bits: u64) -> Self
        ensures has { (w : ℕ) → w < 2 ^ 64 → Agrees self w → bit_and w bits ≡ 0 → Agrees result w }
        ensures only { (w : ℕ) → Agrees result w → Agrees self w }
    {
        KnownBits {
            must: self.must,
            may: self.may & !bits,
        }
    }

    /// Whether no word has the bits that it must have and none but those that it may have.
    pub(crate) fn is_empty(self) -> bool
        ensures { (w : ℕ) → Agrees self w → result ≡ false }
    {
        self.must & self.may != self.must
    }

    /// The bits that both of two words have.
    pub(crate) fn and(self, other: KnownBits) -> Self
        ensures { (a b : ℕ) → Agrees self a → Agrees other b → Agrees result (bit_and a b) }
    {
        KnownBits {
            must: self.must & other.must,
            may: self.may & other.may,
        }
    }

    /// The bits that either of two words has.
    pub(crate) fn or(self, other: KnownBits) -> Self
        ensures { (a b : ℕ) → Agrees self a → Agrees other b → Agrees result (bit_or a b) }
    {
        KnownBits {
            must: self.must | other.must,
            may: self.may | other.may,
        }
    }

    /// The bits that just one of two words has.
    pub(crate) fn xor(self, other: KnownBits) -> Self
        ensures { (a b : ℕ) → a < 2 ^ 64 → b < 2 ^ 64 → Agrees self a → Agrees other b → Agrees result (bit_xor a b) }
    {
        KnownBits {
            must: (self.must & !other.may) | (other.must & !self.may),
            may: (self.may | other.may) & !(self.must & other.must),
        }
    }

    /// The bits of words shifted left.
    pub(crate) fn shifted_left(self, count: u64) -> Self
        requires { count < 64 }
        ensures { (w : ℕ) → Agrees self w → Agrees result (w * 2 ^ count % 2 ^ 64) }
    {
        KnownBits {
            must: self.must << count,
            may: self.may << count,
        }
    }

    /// The bits of words shifted right.
    pub(crate) fn shifted_right(self, count: u64) -> Self
        requires { count < 64 }
        ensures { (w : ℕ) → Agrees self w → Agrees result (w / 2 ^ count) }
    {
        KnownBits {
            must: self.must >> count,
            may: self.may >> count,
        }
    }

    /// What both say.
    pub fn meet(self, other: KnownBits) -> Self
        ensures kept { (w : ℕ) → Agrees self w → Agrees other w → Agrees result w }
        ensures in_self { (w : ℕ) → Agrees result w → Agrees self w }
        ensures in_other { (w : ℕ) → Agrees result w → Agrees other w }
    {
        KnownBits {
            must: self.must | other.must,
            may: self.may & other.may,
        }
    }

    /// What one or the other says.
    pub fn hull(self, other: KnownBits) -> Self
        ensures of_self { (w : ℕ) → Agrees self w → Agrees result w }
        ensures of_other { (w : ℕ) → Agrees other w → Agrees result w }
    {
        KnownBits {
            must: self.must & other.must,
            may: self.may | other.may,
        }
    }
}

// As many ones from the lowest bit on as the word has bits.
fn ones_over(word: u64) -> u64
    ensures { (m : ℕ) × (m ≤ 64) × (word < 2 ^ m) × (result ≡ 2 ^ m - 1) }
{
    if word == 0 {
        0
    } else {
        u64::MAX >> word.leading_zeros()
    }
}
