// Sums, products and bits of two scalars, modulo 2^64. It relies on `sums` for ranges and on `bits`.

ghost use Rattle.std.specs.Prelude.{◌≡◌, ℕ, ◌<◌, ◌^◌};
ghost use Rattle.std.specs.Int.{w64};
ghost use Rattle.bpf_insn.specs.declared.insn.AluOp.TheVariants.{Add, Sub, Mul, Div, Mod, Or, And, Xor};
ghost use Rattle.bpf_words.specs.Words.{alu};
ghost use Rattle.scalar_domain.specs.Scalar.{Has, Within};

use crate::bits::KnownBits;
use crate::scalars::Scalar;
use crate::spans::{SIGN, Span};

/// Sums. Their bits are known by their ranges alone, as those of differences and products.
pub(crate) fn add(left: Scalar, right: Scalar) -> Scalar
    ensures { (a b : ℕ) → Has left a → Has right b → Has result (alu w64 Add a b) }
{
    Scalar {
        unsigned: left.unsigned.sum(right.unsigned, 0),
        signed: left.signed.sum(right.signed, SIGN),
        bits: KnownBits::any(),
    }
    .tightened()
}

/// Differences.
pub(crate) fn sub(left: Scalar, right: Scalar) -> Scalar
    ensures { (a b : ℕ) → Has left a → Has right b → Has result (alu w64 Sub a b) }
{
    Scalar {
        unsigned: left.unsigned.sum(right.unsigned.complement(), 1),
        signed: left.signed.sum(right.signed.complement(), SIGN + 1),
        bits: KnownBits::any(),
    }
    .tightened()
}

/// Products.
pub(crate) fn mul(left: Scalar, right: Scalar) -> Scalar
    ensures { (a b : ℕ) → Has left a → Has right b → Has result (alu w64 Mul a b) }
{
    by_unsigned(left.unsigned.product(right.unsigned))
}

/// Quotients.
pub(crate) fn div(left: Scalar, right: Scalar) -> Scalar
    ensures { (a b : ℕ) → Has left a → Has right b → Has result (alu w64 Div a b) }
{
    by_unsigned(left.unsigned.quotient(right.unsigned))
}

/// Remainders. A word that is less than what it is divided by stays as it is.
pub(crate) fn modulo(left: Scalar, right: Scalar) -> Scalar
    ensures { (a b : ℕ) → Has left a → Has right b → Has result (alu w64 Mod a b) }
{
    if left.unsigned.most < right.unsigned.least {
        left
    } else {
        by_unsigned(left.unsigned.remainder(right.unsigned))
    }
}

/// The bits of both.
pub(crate) fn and(left: Scalar, right: Scalar) -> Scalar
    ensures { (a b : ℕ) → Has left a → Has right b → Has result (alu w64 And a b) }
{
    let unsigned = Span {
        least: 0,
        most: left.unsigned.most.min(right.unsigned.most),
    };
    Scalar {
        unsigned,
        signed: Span::any(),
        bits: left.bits.and(right.bits),
    }
    .tightened()
}

/// The bits of either.
pub(crate) fn or(left: Scalar, right: Scalar) -> Scalar
    ensures { (a b : ℕ) → Has left a → Has right b → Has result (alu w64 Or a b) }
{
    let unsigned = Span {
        least: left.unsigned.least.max(right.unsigned.least),
        most: u64::MAX,
    };
    Scalar {
        unsigned,
        signed: Span::any(),
        bits: left.bits.or(right.bits),
    }
    .tightened()
}

/// The bits of just one.
pub(crate) fn xor(left: Scalar, right: Scalar) -> Scalar
    ensures { (a b : ℕ) → Has left a → Has right b → Has result (alu w64 Xor a b) }
{
    Scalar {
        unsigned: Span::any(),
        signed: Span::any(),
        bits: left.bits.xor(right.bits),
    }
    .tightened()
}

// The words of an unsigned range.
fn by_unsigned(unsigned: Span) -> Scalar
    ensures { (w : ℕ) → w < 2 ^ 64 → Within unsigned w → Has result w }
{
    Scalar::within(unsigned.least, unsigned.most)
}
