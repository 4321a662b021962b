// Ranges narrowed by the order of two words. It relies on `spans`.

ghost use Rattle.std.specs.Prelude.{◌≡◌, ◌≢◌, ℕ, ◌<◌, ◌≤◌, false, true, nat_lt, Bool};
ghost use Rattle.scalar_domain.specs.Scalar.{Within};

use crate::spans::Span;

impl Span {
    /// Whether it has no word.
    pub(crate) fn is_empty(self) -> bool
        ensures { (w : ℕ) → Within self w → result ≡ false }
    {
        self.least > self.most
    }

    /// Its words that are less than some word of the other, or with `is_less` false the others.
    pub(crate) fn less(self, other: Span, is_less: bool) -> Self
        ensures has { (a b : ℕ) → Within self a → Within other b → nat_lt a b ≡ is_less → Within result a }
        ensures only { (a : ℕ) → Within result a → Within self a }
    {
        if is_less {
            self.at_most(other.most.saturating_sub(1))
        } else {
            self.at_least(other.least)
        }
    }

    /// Its words that some word of the other is less than, or with `is_less` false the others.
    pub(crate) fn greater(self, other: Span, is_less: bool) -> Self
        ensures has { (a b : ℕ) → Within other a → Within self b → nat_lt a b ≡ is_less → Within result b }
        ensures only { (b : ℕ) → Within result b → Within self b }
    {
        if is_less {
            self.at_least(other.least.saturating_add(1))
        } else {
            self.at_most(other.most)
        }
    }

    fn at_most(self, most: u64) -> Self
        ensures has { (w : ℕ) → Within self w → w ≤ most → Within result w }
        ensures only { (w : ℕ) → Within result w → Within self w }
    {
        Span {
            least: self.least,
            most: self.most.min(most),
        }
    }

    fn at_least(self, least: u64) -> Self
        ensures has { (w : ℕ) → Within self w → least ≤ w → Within result w }
        ensures only { (w : ℕ) → Within result w → Within self w }
    {
        Span {
            least: self.least.max(least),
            most: self.most,
        }
    }

    /// Its words that differ from a word of the other: where that has just one, and it is an end, the end is left out.
    pub(crate) fn differing(self, other: Span) -> Self
        ensures has { (a b : ℕ) → Within self a → Within other b → a ≢ b → Within result a }
        ensures only { (a : ℕ) → Within result a → Within self a }
    {
        if other.least != other.most {
            self
        } else if self.least == other.least {
            self.at_least(other.least.saturating_add(1))
        } else if self.most == other.least {
            self.at_most(other.least.saturating_sub(1))
        } else {
            self
        }
    }
}
