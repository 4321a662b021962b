// What arithmetic instructions, byte swaps and conditional jumps compute of what registers hold (RFC 9669, sections 4.1
// to 4.3): total functions. They rely on `words64` and `words32` for each width, on `swaps` for byte orders, and on
// `low`.

ghost use Rattle.std.specs.Prelude.{◌≡◌};
ghost use Rattle.std.specs.Int.{w32, w64};
ghost use Rattle.bpf_words.specs.Words.{alu, alu_of, holds_of, in_place, low, negated};

use crate::low::low32;
use crate::swaps::swap;
use crate::words32::{alu_of_32, holds32};
use crate::words64::{alu64, holds64};
use bpf_insn::{AluOp, Condition, InPlaceOp, Width};

/// What an operation of that width makes of two words.
pub fn alu(width: Width, op: AluOp, dst: u64, src: u64) -> u64
    ensures { result ≡ alu_of width op dst src }
{
    match width {
        Width::Bits32 => alu32(op, dst, src),
        Width::Bits64 => alu64(op, dst, src),
    }
}

/// What an operation makes of the low 32 bits of two words. The upper half of the result is 0.
#[inline(always)]
pub fn alu32(op: AluOp, dst: u64, src: u64) -> u64
    ensures { result ≡ alu w32 op (low w32 dst) (low w32 src) }
{
    u64::from(alu_of_32(op, low32(dst), low32(src)))
}

/// What an operation makes of one word in its place.
pub fn in_place(op: InPlaceOp, word: u64) -> u64
    ensures { result ≡ in_place op word }
{
    match op {
        InPlaceOp::Neg(Width::Bits32) => negated32(word),
        InPlaceOp::Neg(Width::Bits64) => negated64(word),
        InPlaceOp::Reorder(order, size) => swap(order, size, word),
    }
}

/// Minus a word.
pub fn negated64(word: u64) -> u64
    ensures { result ≡ negated w64 word }
{
    0u64.wrapping_sub(word)
}

/// Minus the low 32 bits of a word. The upper half of the result is 0.
pub fn negated32(word: u64) -> u64
    ensures { result ≡ negated w32 word }
{
    u64::from(0u32.wrapping_sub(low32(word)))
}

/// Whether a condition holds of two words, or of their low 32 bits.
pub fn holds(width: Width, condition: Condition, dst: u64, src: u64) -> bool
    ensures { result ≡ holds_of width condition dst src }
{
    match width {
        Width::Bits32 => holds32(condition, low32(dst), low32(src)),
        Width::Bits64 => holds64(condition, dst, src),
    }
}
