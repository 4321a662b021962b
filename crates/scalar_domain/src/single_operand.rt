// What an operation on one word makes of a scalar. It relies on `arithmetic`, `moves` and `halves`, and for known words on
// `bpf_words`.

ghost use Rattle.std.specs.Prelude.{◌≡◌, ℕ, ◌-◌, ◌^◌};
ghost use Rattle.bpf_words.specs.Words.{in_place, sign_extended, size_of, swap};
ghost use mir.Val.{bits};
ghost use Rattle.scalar_domain.specs.Scalar.{Has};

use crate::arithmetic::alu;
use crate::halves::low_half;
use crate::moves::extended;
use crate::scalars::Scalar;
use crate::wide;
use bpf_insn::{AluOp, ByteOrder, InPlaceOp, SignExtension, WordSize};

/// What an operation makes of one word in its place. Of a word that is not known, bytes that are reversed may be any.
pub fn in_place(op: InPlaceOp, scalar: Scalar) -> Scalar
    ensures { (w : ℕ) → Has scalar w → Has result (in_place op w) }
{
    match scalar.known() {
        Some(word) => Scalar::exactly(bpf_words::in_place(op, word)),
        None => changed(op, scalar),
    }
}

fn changed(op: InPlaceOp, scalar: Scalar) -> Scalar
    ensures { (w : ℕ) → Has scalar w → Has result (in_place op w) }
{
    match op {
        InPlaceOp::Neg(width) => alu(width, AluOp::Sub, Scalar::exactly(0), scalar),
        InPlaceOp::Reorder(order, size) => reordered(order, size, scalar),
    }
}

fn reordered(order: ByteOrder, size: WordSize, scalar: Scalar) -> Scalar
    ensures { (w : ℕ) → Has scalar w → Has result (swap order size w) }
{
    let greatest = greatest(size);
    match order {
        ByteOrder::Little => wide::and(scalar, Scalar::exactly(greatest)),
        ByteOrder::Big => Scalar::within(0, greatest),
        ByteOrder::Swapped => Scalar::within(0, greatest),
    }
}

// The greatest word of a size.
fn greatest(size: WordSize) -> u64
    ensures { result ≡ 2 ^ bits (size_of size) - 1 }
{
    match size {
        WordSize::Word16 => 0xffff,
        WordSize::Word32 => 0xffff_ffff,
        WordSize::Word64 => u64::MAX,
    }
}

/// The low bits of a word, extended by their sign. To 32 bits the upper half is 0.
pub fn extend(extension: SignExtension, scalar: Scalar) -> Scalar
    ensures { (w : ℕ) → Has scalar w → Has result (sign_extended extension w) }
{
    match extension {
        SignExtension::From8To32 => low_half(extended(scalar, 56)),
        SignExtension::From16To32 => low_half(extended(scalar, 48)),
        SignExtension::From8To64 => extended(scalar, 56),
        SignExtension::From16To64 => extended(scalar, 48),
        SignExtension::From32To64 => extended(scalar, 32),
    }
}
