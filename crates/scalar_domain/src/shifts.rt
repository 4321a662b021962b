// Where shifted words lie. It relies on `spans`.

ghost use Rattle.std.specs.Prelude.{◌≡◌, ℕ, ◌+◌, ◌-◌, ◌*◌, ◌/◌, ◌%◌, ◌^◌, ◌<◌, ◌≤◌};
ghost use Rattle.std.specs.Int.{w64, int_shr, cast_signed, cast_unsigned};
ghost use Rattle.scalar_domain.specs.Scalar.{Within, place};

use crate::spans::{SIGN, Span};

impl Span {
    /// What its words are modulo a width, as counts of bits to shift by.
    pub(crate) fn counts(self, width: u64) -> Self
        requires { 0 < width }
        ensures least_below { result.least < width }
        ensures most_below { result.most < width }
        ensures reduced { (w : ℕ) → Within self w → Within result (w % width) }
    {
        if self.least == self.most {
            Span::exactly(self.least % width)
        } else if self.least <= self.most && self.most < width {
            self
        } else {
            Span {
                least: 0,
                most: width - 1,
            }
        }
    }

    /// Its words shifted left by a count: any word where some bit is lost.
    pub(crate) fn shifted_left(self, counts: Span) -> Self
        requires least_below { counts.least < 64 }
        requires most_below { counts.most < 64 }
        ensures { (w k : ℕ) → Within self w → Within counts k → Within result (w * 2 ^ k % 2 ^ 64) }
    {
        if self.most <= u64::MAX >> counts.most {
            Span {
                least: self.least << counts.least,
                most: self.most << counts.most,
            }
        } else {
            Span::any()
        }
    }

    /// Its words shifted right by a count.
    pub(crate) fn shifted_right(self, counts: Span) -> Self
        requires least_below { counts.least < 64 }
        requires most_below { counts.most < 64 }
        ensures { (w k : ℕ) → Within self w → Within counts k → Within result (w / 2 ^ k) }
    {
        Span {
            least: self.least >> counts.most,
            most: self.most >> counts.least,
        }
    }

    /// Places of signed words, shifted left: any place where a signed word leaves its range.
    pub(crate) fn signed_shifted_left(self, count: u64) -> Self
        requires { count < 64 }
        ensures { (w : ℕ) → w < 2 ^ 64 → Within self (place w) → Within result (place (w * 2 ^ count % 2 ^ 64)) }
    {
        let lost = SIGN - (SIGN >> count);
        if lost <= self.least
            && self.most.wrapping_sub(lost) <= u64::MAX >> count
            && lost <= self.most
        {
            Span {
                least: (self.least - lost) << count,
                most: (self.most - lost) << count,
            }
        } else {
            Span::any()
        }
    }

    /// Places of signed words, shifted right.
    pub(crate) fn signed_shifted_right(self, count: u64) -> Self
        requires { count < 64 }
        ensures { (w : ℕ) → w < 2 ^ 64 → Within self (place w) → Within result (place (cast_unsigned w64 (int_shr (cast_signed w64 w) count))) }
    {
        let lost = SIGN - (SIGN >> count);
        Span {
            least: (self.least >> count).wrapping_add(lost),
            most: (self.most >> count).wrapping_add(lost),
        }
    }
}
