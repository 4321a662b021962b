// What arithmetic makes of scalars. It relies on `wide`, `signed_division`, `moves` and `halves`, and for
// known words on `bpf_words`.

ghost use Rattle.std.specs.Prelude.{◌≡◌, ℕ};
ghost use Rattle.std.specs.Int.{w32, w64};
ghost use Rattle.bpf_words.specs.Words.{alu, alu_of, low};
ghost use Rattle.scalar_domain.specs.Scalar.{Has};

use crate::halves::low_half;
use crate::moves::{extended, shifted_left, shifted_right, signed_shifted_right};
use crate::scalars::Scalar;
use crate::signed_division::{signed_div32, signed_div64, signed_modulo32, signed_modulo64};
use crate::wide;
use bpf_insn::{AluOp, Width};

/// What an operation of that width makes of two words.
pub fn alu(width: Width, op: AluOp, left: Scalar, right: Scalar) -> Scalar
    ensures { (a b : ℕ) → Has left a → Has right b → Has result (alu_of width op a b) }
{
    match (left.known(), right.known()) {
        (Some(a), Some(b)) => Scalar::exactly(bpf_words::alu(width, op, a, b)),
        _ => match width {
            Width::Bits64 => alu64(op, left, right),
            Width::Bits32 => alu32(op, low_half(left), low_half(right)),
        },
    }
}

// At 64 bits.
fn alu64(op: AluOp, left: Scalar, right: Scalar) -> Scalar
    ensures { (a b : ℕ) → Has left a → Has right b → Has result (alu w64 op a b) }
{
    let counts = right.unsigned.counts(64);
    match op {
        AluOp::Add => wide::add(left, right),
        AluOp::Sub => wide::sub(left, right),
        AluOp::Mul => wide::mul(left, right),
        AluOp::Div => wide::div(left, right),
        AluOp::Mod => wide::modulo(left, right),
        AluOp::SignedDiv => signed_div64(left, right),
        AluOp::SignedMod => signed_modulo64(left, right),
        AluOp::Or => wide::or(left, right),
        AluOp::And => wide::and(left, right),
        AluOp::Xor => wide::xor(left, right),
        AluOp::Lsh => shifted_left(left, counts),
        AluOp::Rsh => shifted_right(left, counts),
        AluOp::Arsh => signed_shifted_right(left, counts),
        AluOp::Mov => right,
    }
}

// At 32 bits, of the low halves: the low half of what 64 bits give, but for counts, signs and what is borrowed.
fn alu32(op: AluOp, left: Scalar, right: Scalar) -> Scalar
    ensures { (a b : ℕ) → Has left (low w32 a) → Has right (low w32 b) → Has result (alu w32 op (low w32 a) (low w32 b)) }
{
    let counts = right.unsigned.counts(32);
    match op {
        AluOp::Add => low_half(wide::add(left, right)),
        AluOp::Sub => low_half(wide::sub(left, right)),
        AluOp::Mul => low_half(wide::mul(left, right)),
        AluOp::Div => low_half(wide::div(left, right)),
        AluOp::Mod => low_half(wide::modulo(left, right)),
        AluOp::SignedDiv => signed_div32(left, right),
        AluOp::SignedMod => signed_modulo32(left, right),
        AluOp::Or => low_half(wide::or(left, right)),
        AluOp::And => low_half(wide::and(left, right)),
        AluOp::Xor => low_half(wide::xor(left, right)),
        AluOp::Lsh => low_half(shifted_left(left, counts)),
        AluOp::Rsh => low_half(shifted_right(left, counts)),
        AluOp::Arsh => low_half(signed_shifted_right(extended(left, 32), counts)),
        AluOp::Mov => right,
    }
}
