// Where sums, products, quotients and remainders of words lie, modulo 2^64. It relies on `spans`.

ghost use Rattle.std.specs.Prelude.{◌≡◌, ℕ, ◌+◌, ◌-◌, ◌*◌, ◌/◌, ◌%◌, ◌^◌, ◌<◌, ◌≤◌};
ghost use Rattle.bpf_words.specs.Words.{quotient, remainder};
ghost use Rattle.scalar_domain.specs.Scalar.{Within};

use crate::spans::Span;

impl Span {
    /// Sums of a word of each and of `more`: any word where some of them pass 2^64 and others do not.
    pub(crate) fn sum(self, other: Span, more: u64) -> Self
        ensures { (a b : ℕ) → Within self a → Within other b → Within result ((a + b + more) % 2 ^ 64) }
    {
        let least = u128::from(self.least) + u128::from(other.least) + u128::from(more);
        let most = u128::from(self.most) + u128::from(other.most) + u128::from(more);
        if least / WORDS == most / WORDS {
            Span {
                least: (least % WORDS) as u64,
                most: (most % WORDS) as u64,
            }
        } else {
            Span::any()
        }
    }

    /// What is left of 2^64 - 1 by its words.
    pub(crate) fn complement(self) -> Self
        ensures { (w : ℕ) → w < 2 ^ 64 → Within self w → Within result (2 ^ 64 - 1 - w) }
    {
        Span {
            least: !self.most,
            most: !self.least,
        }
    }

    /// Products: any word where the greatest passes 2^64.
    pub(crate) fn product(self, other: Span) -> Self
        ensures { (a b : ℕ) → Within self a → Within other b → Within result ((a * b) % 2 ^ 64) }
    {
        match self.most.checked_mul(other.most) {
            Some(most) => Span {
                least: self.least.wrapping_mul(other.least),
                most,
            },
            None => Span::any(),
        }
    }

    /// Quotients, where one by 0 is 0.
    pub(crate) fn quotient(self, other: Span) -> Self
        ensures { (a b : ℕ) → Within self a → Within other b → Within result (quotient a b) }
    {
        if other.least == 0 || other.most == 0 {
            Span {
                least: 0,
                most: self.most,
            }
        } else {
            Span {
                least: self.least / other.most,
                most: self.most / other.least,
            }
        }
    }

    /// What is left of its words by the other's, where 0 leaves the word.
    pub(crate) fn remainder(self, other: Span) -> Self
        ensures { (a b : ℕ) → Within self a → Within other b → Within result (remainder a b) }
    {
        if self.most < other.least {
            self
        } else if other.least == 0 {
            Span {
                least: 0,
                most: self.most,
            }
        } else {
            Span {
                least: 0,
                most: self.most.min(other.most.saturating_sub(1)),
            }
        }
    }
}

// How many words there are.
const WORDS: u128 = 1 << 64;
