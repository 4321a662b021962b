// What a comparison of 64 bits says of its sides. It relies on `limits` for ranges and on `bits`.

ghost use Rattle.std.specs.Prelude.{◌≡◌, ◌≢◌, ℕ, nat_lt, not, bit_and, ◌==◌};
ghost use Rattle.std.specs.Int.{w64};
ghost use Rattle.bpf_words.specs.Words.{holds};
ghost use Rattle.scalar_domain.specs.Scalar.{Has, place};

use crate::narrowing::Sides;
use crate::scalars::Scalar;
use bpf_insn::Condition;

/// Both sides where the condition holds of them, or with `taken` false where it does not.
pub(crate) fn compared(condition: Condition, taken: bool, left: Scalar, right: Scalar) -> Sides
    ensures has { (a b : ℕ) → Has left a → Has right b → holds w64 condition a b ≡ taken → Has result.left a × Has result.right b }
    ensures only_left { (a : ℕ) → Has result.left a → Has left a }
    ensures only_right { (b : ℕ) → Has result.right b → Has right b }
{
    match condition {
        Condition::Equal => alike(left, right, taken),
        Condition::NotEqual => alike(left, right, !taken),
        Condition::Less => ordered(left, right, taken),
        Condition::GreaterOrEqual => ordered(left, right, !taken),
        Condition::Greater => ordered(right, left, taken).turned(),
        Condition::LessOrEqual => ordered(right, left, !taken).turned(),
        Condition::SignedLess => signed_ordered(left, right, taken),
        Condition::SignedGreaterOrEqual => signed_ordered(left, right, !taken),
        Condition::SignedGreater => signed_ordered(right, left, taken).turned(),
        Condition::SignedLessOrEqual => signed_ordered(right, left, !taken).turned(),
        Condition::AnyBit => sharing(left, right, taken),
    }
}

impl Sides {
    /// The sides changed for one another.
    fn turned(self) -> Self
        ensures left { result.left ≡ self.right }
        ensures right { result.right ≡ self.left }
    {
        Sides {
            left: self.right,
            right: self.left,
        }
    }
}

// Both sides where their words are equal, or are not.
fn alike(left: Scalar, right: Scalar, are_equal: bool) -> Sides
    ensures has { (a b : ℕ) → Has left a → Has right b → (a == b) ≡ are_equal → Has result.left a × Has result.right b }
    ensures only_left { (a : ℕ) → Has result.left a → Has left a }
    ensures only_right { (b : ℕ) → Has result.right b → Has right b }
{
    if are_equal {
        let both = left.meet(right);
        Sides {
            left: both,
            right: both,
        }
    } else {
        Sides {
            left: differing(left, right),
            right: differing(right, left),
        }
    }
}

fn differing(words: Scalar, other: Scalar) -> Scalar
    ensures has { (a b : ℕ) → Has words a → Has other b → a ≢ b → Has result a }
    ensures only { (a : ℕ) → Has result a → Has words a }
{
    Scalar {
        unsigned: words.unsigned.differing(other.unsigned),
        signed: words.signed.differing(other.signed),
        bits: words.bits,
    }
}

// Both sides where the left word is less, or is not.
fn ordered(left: Scalar, right: Scalar, is_less: bool) -> Sides
    ensures has { (a b : ℕ) → Has left a → Has right b → nat_lt a b ≡ is_less → Has result.left a × Has result.right b }
    ensures only_left { (a : ℕ) → Has result.left a → Has left a }
    ensures only_right { (b : ℕ) → Has result.right b → Has right b }
{
    Sides {
        left: Scalar {
            unsigned: left.unsigned.less(right.unsigned, is_less),
            signed: left.signed,
            bits: left.bits,
        },
        right: Scalar {
            unsigned: right.unsigned.greater(left.unsigned, is_less),
            signed: right.signed,
            bits: right.bits,
        },
    }
}

// The same of signed words.
fn signed_ordered(left: Scalar, right: Scalar, is_less: bool) -> Sides
    ensures has { (a b : ℕ) → Has left a → Has right b → nat_lt (place a) (place b) ≡ is_less → Has result.left a × Has result.right b }
    ensures only_left { (a : ℕ) → Has result.left a → Has left a }
    ensures only_right { (b : ℕ) → Has result.right b → Has right b }
{
    Sides {
        left: Scalar {
            unsigned: left.unsigned,
            signed: left.signed.less(right.signed, is_less),
            bits: left.bits,
        },
        right: Scalar {
            unsigned: right.unsigned,
            signed: right.signed.greater(left.signed, is_less),
            bits: right.bits,
        },
    }
}

// Both sides where their words have a bit in common, or have none.
fn sharing(left: Scalar, right: Scalar, is_shared: bool) -> Sides
    ensures has { (a b : ℕ) → Has left a → Has right b → not (bit_and a b == 0) ≡ is_shared → Has result.left a × Has result.right b }
    ensures only_left { (a : ℕ) → Has result.left a → Has left a }
    ensures only_right { (b : ℕ) → Has result.right b → Has right b }
{
    if is_shared {
        Sides {
            left: sharing_some(left, right),
            right: sharing_some(right, left),
        }
    } else {
        Sides {
            left: sharing_none(left, right),
            right: sharing_none(right, left),
        }
    }
}

// The words with a bit that a word of the other has: where only one may be that, they have it.
fn sharing_some(words: Scalar, other: Scalar) -> Scalar
    ensures has { (a b : ℕ) → Has words a → Has other b → bit_and a b ≢ 0 → Has result a }
    ensures only { (a : ℕ) → Has result a → Has words a }
{
    let common = words.bits.may & other.bits.may;
    if common == 0 {
        Scalar::within(1, 0)
    } else if common == 1 << common.trailing_zeros() {
        Scalar {
            unsigned: words.unsigned,
            signed: words.signed,
            bits: words.bits.with(common),
        }
    } else {
        words
    }
}

// The words with no bit of a word of the other.
fn sharing_none(words: Scalar, other: Scalar) -> Scalar
    ensures has { (a b : ℕ) → Has words a → Has other b → bit_and a b ≡ 0 → Has result a }
    ensures only { (a : ℕ) → Has result a → Has words a }
{
    Scalar {
        unsigned: words.unsigned,
        signed: words.signed,
        bits: words.bits.without(other.bits.must),
    }
}
