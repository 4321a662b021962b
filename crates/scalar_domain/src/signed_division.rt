// Signed quotients and remainders: those of words that are not negative are the plain ones, and any others may be any
// word. It relies on `wide` and `halves`.

ghost use Rattle.std.specs.Prelude.{◌≡◌, ℕ, ◌<◌, true};
ghost use Rattle.std.specs.Int.{w32, w64};
ghost use Rattle.bpf_insn.specs.declared.insn.AluOp.TheVariants.{SignedDiv, SignedMod};
ghost use Rattle.bpf_words.specs.Words.{alu, low};
ghost use Rattle.scalar_domain.specs.Scalar.{Has};

use crate::halves::low_half;
use crate::scalars::Scalar;
use crate::spans::SIGN;
use crate::wide;

// The sign of a word of 32 bits.
const HALF_SIGN: u64 = 1 << 31;

/// Quotients of words of 64 bits.
pub(crate) fn signed_div64(left: Scalar, right: Scalar) -> Scalar
    ensures { (a b : ℕ) → Has left a → Has right b → Has result (alu w64 SignedDiv a b) }
{
    if both_below(left, right, SIGN) {
        wide::div(left, right)
    } else {
        Scalar::any()
    }
}

/// Remainders of words of 64 bits.
pub(crate) fn signed_modulo64(left: Scalar, right: Scalar) -> Scalar
    ensures { (a b : ℕ) → Has left a → Has right b → Has result (alu w64 SignedMod a b) }
{
    if both_below(left, right, SIGN) {
        wide::modulo(left, right)
    } else {
        Scalar::any()
    }
}

/// Quotients of words of 32 bits.
pub(crate) fn signed_div32(left: Scalar, right: Scalar) -> Scalar
    ensures { (a b : ℕ) → Has left (low w32 a) → Has right (low w32 b) → Has result (alu w32 SignedDiv (low w32 a) (low w32 b)) }
{
    if both_below(left, right, HALF_SIGN) {
        low_half(wide::div(left, right))
    } else {
        low_half(Scalar::any())
    }
}

/// Remainders of words of 32 bits.
pub(crate) fn signed_modulo32(left: Scalar, right: Scalar) -> Scalar
    ensures { (a b : ℕ) → Has left (low w32 a) → Has right (low w32 b) → Has result (alu w32 SignedMod (low w32 a) (low w32 b)) }
{
    if both_below(left, right, HALF_SIGN) {
        low_half(wide::modulo(left, right))
    } else {
        low_half(Scalar::any())
    }
}

// Whether all words of both are less than a bound.
fn both_below(left: Scalar, right: Scalar, bound: u64) -> bool
    ensures for_left { (a : ℕ) → Has left a → result ≡ true → a < bound }
    ensures for_right { (b : ℕ) → Has right b → result ≡ true → b < bound }
{
    left.unsigned.most < bound && right.unsigned.most < bound
}
