// What is known of a word. It relies on `spans` and `bits`.

ghost use Rattle.std.specs.Prelude.{◌≡◌, ℕ, false, ◌<◌, ◌≤◌, ◌^◌, ◌≤ℤ◌, IfSome, SomeIff};
ghost use Rattle.std.specs.Int.{w64, cast_signed};
ghost use Rattle.scalar_domain.specs.Scalar.{Has, place};

use crate::bits::KnownBits;
use crate::spans::{SIGN, Span};

/// A set of words: those that lie in an unsigned range and, as signed numbers, in a signed one, and whose known bits are
/// so. It may be empty.
#[derive(Clone, Copy, Debug, PartialEq, Eq)]
pub struct Scalar {
    pub unsigned: Span,
    /// By places in the order of signed words.
    pub signed: Span,
    pub bits: KnownBits,
}

impl Scalar {
    /// Every word.
    pub fn any() -> Self
        ensures { (w : ℕ) → w < 2 ^ 64 → Has result w }
    {
        Scalar {
            unsigned: Span::any(),
            signed: Span::any(),
            bits: KnownBits::any(),
        }
    }

    /// That word alone.
    pub fn exactly(value: u64) -> Self
        ensures has { Has result value }
        ensures only { (w : ℕ) → Has result w → w ≡ value }
        ensures is_known { (result.unsigned.least ≡ value) × (result.unsigned.most ≡ value) }
        ensures is_placed { (result.signed.least ≡ place value) × (result.signed.most ≡ place value) }
    {
        Scalar {
            unsigned: Span::exactly(value),
            signed: Span::exactly(value.wrapping_add(SIGN)),
            bits: KnownBits::exactly(value),
        }
    }

    /// The words from `least` to `most`, both included, as numbers without a sign.
    pub fn within(least: u64, most: u64) -> Self
        ensures has { (w : ℕ) → least ≤ w → w ≤ most → Has result w }
        ensures only { (w : ℕ) → Has result w → (least ≤ w) × (w ≤ most) }
    {
        Scalar {
            unsigned: Span { least, most },
            ..Scalar::any()
        }
        .tightened()
    }

    /// The words from `least` to `most`, both included, as signed numbers.
    pub fn signed_within(least: i64, most: i64) -> Self
        ensures has { (w : ℕ) → w < 2 ^ 64 → least ≤ℤ cast_signed w64 w → cast_signed w64 w ≤ℤ most → Has result w }
        ensures only { (w : ℕ) → Has result w → (least ≤ℤ cast_signed w64 w) × (cast_signed w64 w ≤ℤ most) }
    {
        let signed = Span {
            least: least.cast_unsigned().wrapping_add(SIGN),
            most: most.cast_unsigned().wrapping_add(SIGN),
        };
        Scalar {
            signed,
            ..Scalar::any()
        }
        .tightened()
    }

    /// No word is less, as a number without a sign.
    pub fn least(self) -> u64
        ensures bound { (w : ℕ) → Has self w → result ≤ w }
        ensures is_end { result ≡ self.unsigned.least }
    {
        self.unsigned.least
    }

    /// No word is greater, as a number without a sign.
    pub fn most(self) -> u64
        ensures bound { (w : ℕ) → Has self w → w ≤ result }
        ensures is_end { result ≡ self.unsigned.most }
    {
        self.unsigned.most
    }

    /// Its only word, where `least` and `most` agree.
    pub fn known(self) -> Option<u64>
        ensures only { IfSome result (λ n. (w : ℕ) → Has self w → w ≡ n) }
        ensures where_ends_agree { SomeIff result (self.unsigned.least ≡ self.unsigned.most) self.unsigned.least }
    {
        if self.unsigned.least == self.unsigned.most {
            Some(self.unsigned.least)
        } else {
            None
        }
    }

    /// The same words, with what its ranges and its bits say of one another.
    pub(crate) fn tightened(self) -> Self
        ensures has { (w : ℕ) → Has self w → Has result w }
        ensures only { (w : ℕ) → Has result w → Has self w }
    {
        let unsigned = self
            .unsigned
            .meet(self.bits.span())
            .meet(self.signed.turned());
        Scalar {
            unsigned,
            signed: self.signed.meet(unsigned.turned()),
            bits: self.bits.meet(KnownBits::of(unsigned)),
        }
    }

    /// The words that both have.
    pub(crate) fn meet(self, other: Scalar) -> Self
        ensures has { (w : ℕ) → Has self w → Has other w → Has result w }
        ensures only { (w : ℕ) → Has result w → Has self w }
        ensures only_other { (w : ℕ) → Has result w → Has other w }
    {
        Scalar {
            unsigned: self.unsigned.meet(other.unsigned),
            signed: self.signed.meet(other.signed),
            bits: self.bits.meet(other.bits),
        }
    }

    /// Whether it is seen to have no word.
    pub(crate) fn is_empty(self) -> bool
        ensures { (w : ℕ) → Has self w → result ≡ false }
    {
        self.unsigned.is_empty() || self.signed.is_empty() || self.bits.is_empty()
    }

    /// The words that either has, and perhaps more.
    pub fn join(self, other: Scalar) -> Self
        ensures of_self { (w : ℕ) → Has self w → Has result w }
        ensures of_other { (w : ℕ) → Has other w → Has result w }
        ensures bounds { (n : ℕ) → self.unsigned.most ≤ n → other.unsigned.most ≤ n → result.unsigned.most ≤ n }
    {
        Scalar {
            unsigned: self.unsigned.hull(other.unsigned),
            signed: self.signed.hull(other.signed),
            bits: self.bits.hull(other.bits),
        }
    }
}
