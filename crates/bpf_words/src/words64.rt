// Arithmetic and comparisons of words of 64 bits (RFC 9669, sections 4.1 and 4.3): total functions. They rely on
// `bpf_insn` for the operations and the conditions.

ghost use Rattle.std.specs.Prelude.{◌≡◌};
ghost use Rattle.std.specs.Int.{w64};
ghost use Rattle.bpf_insn.specs.declared.insn.AluOp.TheVariants.{Div, SignedDiv, Mod, SignedMod, Arsh};
ghost use Rattle.bpf_words.specs.Words.{alu, holds};

use bpf_insn::{AluOp, Condition};

/// What an operation makes of two words of 64 bits.
#[inline(always)]
pub fn alu64(op: AluOp, dst: u64, src: u64) -> u64
    ensures { result ≡ alu w64 op dst src }
{
    match op {
        AluOp::Add => dst.wrapping_add(src),
        AluOp::Sub => dst.wrapping_sub(src),
        AluOp::Mul => dst.wrapping_mul(src),
        AluOp::Div => quotient(dst, src),
        AluOp::SignedDiv => signed_quotient(dst, src),
        AluOp::Mod => remainder(dst, src),
        AluOp::SignedMod => signed_remainder(dst, src),
        AluOp::Or => dst | src,
        AluOp::And => dst & src,
        AluOp::Xor => dst ^ src,
        AluOp::Lsh => dst << (src % 64),
        AluOp::Rsh => dst >> (src % 64),
        AluOp::Arsh => shifted_right(dst, src),
        AluOp::Mov => src,
    }
}

/// Whether a condition holds of two words of 64 bits.
#[inline(always)]
pub fn holds64(condition: Condition, dst: u64, src: u64) -> bool
    ensures { result ≡ holds w64 condition dst src }
{
    match condition {
        Condition::Equal => dst == src,
        Condition::NotEqual => dst != src,
        Condition::Greater => dst > src,
        Condition::GreaterOrEqual => dst >= src,
        Condition::Less => dst < src,
        Condition::LessOrEqual => dst <= src,
        Condition::AnyBit => dst & src != 0,
        Condition::SignedGreater => dst.cast_signed() > src.cast_signed(),
        Condition::SignedGreaterOrEqual => dst.cast_signed() >= src.cast_signed(),
        Condition::SignedLess => dst.cast_signed() < src.cast_signed(),
        Condition::SignedLessOrEqual => dst.cast_signed() <= src.cast_signed(),
    }
}

fn quotient(dst: u64, src: u64) -> u64
    ensures { result ≡ alu w64 Div dst src }
{
    if src == 0 { 0 } else { dst / src }
}

fn remainder(dst: u64, src: u64) -> u64
    ensures { result ≡ alu w64 Mod dst src }
{
    if src == 0 { dst } else { dst % src }
}

fn signed_quotient(dst: u64, src: u64) -> u64
    ensures { result ≡ alu w64 SignedDiv dst src }
{
    if src == 0 {
        0
    } else {
        // The least word by -1 wraps to itself.
        dst.cast_signed()
            .wrapping_div(src.cast_signed())
            .cast_unsigned()
    }
}

fn signed_remainder(dst: u64, src: u64) -> u64
    ensures { result ≡ alu w64 SignedMod dst src }
{
    if src == 0 {
        dst
    } else {
        dst.cast_signed()
            .wrapping_rem(src.cast_signed())
            .cast_unsigned()
    }
}

fn shifted_right(dst: u64, src: u64) -> u64
    ensures { result ≡ alu w64 Arsh dst src }
{
    (dst.cast_signed() >> (src % 64)).cast_unsigned()
}
