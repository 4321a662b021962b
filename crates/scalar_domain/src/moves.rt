// Scalars shifted, and extended by their sign. It relies on `shifts` for ranges and on `bits`.

ghost use Rattle.std.specs.Prelude.{◌≡◌, ℕ, ◌<◌, ◌*◌, ◌/◌, ◌%◌, ◌^◌};
ghost use Rattle.std.specs.Int.{w64, cast_signed, cast_unsigned, int_shr};
ghost use Rattle.scalar_domain.specs.Scalar.{Has, Within};

use crate::bits::KnownBits;
use crate::scalars::Scalar;
use crate::spans::{SIGN, Span};

/// Words shifted left by a count of a range.
pub(crate) fn shifted_left(words: Scalar, counts: Span) -> Scalar
    requires least_below { counts.least < 64 }
    requires most_below { counts.most < 64 }
    ensures { (w k : ℕ) → Has words w → Within counts k → Has result (w * 2 ^ k % 2 ^ 64) }
{
    let unsigned = words.unsigned.shifted_left(counts);
    if counts.least == counts.most {
        Scalar {
            unsigned,
            signed: words.signed.signed_shifted_left(counts.least),
            bits: words.bits.shifted_left(counts.least),
        }
        .tightened()
    } else {
        Scalar::within(unsigned.least, unsigned.most)
    }
}

/// Words shifted right by a count of a range, with zeros from above.
pub(crate) fn shifted_right(words: Scalar, counts: Span) -> Scalar
    requires least_below { counts.least < 64 }
    requires most_below { counts.most < 64 }
    ensures { (w k : ℕ) → Has words w → Within counts k → Has result (w / 2 ^ k) }
{
    let unsigned = words.unsigned.shifted_right(counts);
    if counts.least == counts.most {
        Scalar {
            unsigned,
            signed: Span::any(),
            bits: words.bits.shifted_right(counts.least),
        }
        .tightened()
    } else {
        Scalar::within(unsigned.least, unsigned.most)
    }
}

/// Signed words shifted right by a count of a range: any word where one may be negative and the count is not known.
pub(crate) fn signed_shifted_right(words: Scalar, counts: Span) -> Scalar
    requires least_below { counts.least < 64 }
    requires most_below { counts.most < 64 }
    ensures { (w k : ℕ) → Has words w → Within counts k → Has result (cast_unsigned w64 (int_shr (cast_signed w64 w) k)) }
{
    if words.signed.least >= SIGN {
        shifted_right(words, counts)
    } else if counts.least == counts.most {
        Scalar {
            unsigned: Span::any(),
            signed: words.signed.signed_shifted_right(counts.least),
            bits: KnownBits::any(),
        }
        .tightened()
    } else {
        Scalar::any()
    }
}

/// What is left of words without so many of their upper bits, extended by its sign.
pub(crate) fn extended(words: Scalar, upper: u64) -> Scalar
    requires { upper < 64 }
    ensures { (w : ℕ) → Has words w → Has result (cast_unsigned w64 (int_shr (cast_signed w64 (w * 2 ^ upper % 2 ^ 64)) upper)) }
{
    let counts = Span::exactly(upper);
    signed_shifted_right(shifted_left(words, counts), counts)
}
