// What a comparison says of its sides on either way. It relies on `comparing` and, for 32 bits, on `halves` and `moves`.

ghost use Rattle.std.specs.Prelude.{◌≡◌, ℕ, IfSome};
ghost use Rattle.std.specs.Int.{w64};
ghost use Rattle.bpf_words.specs.Words.{holds, holds_of};
ghost use Rattle.bpf_insn.specs.declared.insn.Width.TheVariants.{Bits32};
ghost use Rattle.scalar_domain.specs.Scalar.{Has, SidesHave};
ghost use Rattle.scalar_domain.specs.Halves.{compared_half};

use crate::comparing::compared;
use crate::halves::{low_half, with_low_half};
use crate::moves::extended;
use crate::scalars::Scalar;
use bpf_insn::{Condition, Width};

/// What is known of the two sides of a comparison.
#[derive(Clone, Copy, Debug, PartialEq, Eq)]
pub struct Sides {
    pub left: Scalar,
    pub right: Scalar,
}

/// What is known of both sides where the condition holds of them, or with `taken` false where it does not: None where
/// no words go that way.
pub fn narrow(
    width: Width,
    condition: Condition,
    taken: bool,
    left: Scalar,
    right: Scalar,
) -> Option<Sides>
    ensures kept { (a b : ℕ) → Has left a → Has right b → holds_of width condition a b ≡ taken → SidesHave result a b }
    ensures left_only { IfSome result (λ sides. (a : ℕ) → Has sides.left a → Has left a) }
    ensures right_only { IfSome result (λ sides. (b : ℕ) → Has sides.right b → Has right b) }
{
    match width {
        Width::Bits64 => narrow64(condition, taken, left, right),
        Width::Bits32 => narrow32(condition, taken, left, right),
    }
}

fn narrow64(condition: Condition, taken: bool, left: Scalar, right: Scalar) -> Option<Sides>
    ensures kept { (a b : ℕ) → Has left a → Has right b → holds w64 condition a b ≡ taken → SidesHave result a b }
    ensures left_only { IfSome result (λ sides. (a : ℕ) → Has sides.left a → Has left a) }
    ensures right_only { IfSome result (λ sides. (b : ℕ) → Has sides.right b → Has right b) }
{
    possible(compared(condition, taken, left, right))
}

// The low halves are compared as words of 64 bits, and what is left of them narrows the words.
fn narrow32(condition: Condition, taken: bool, left: Scalar, right: Scalar) -> Option<Sides>
    ensures kept { (a b : ℕ) → Has left a → Has right b → holds_of Bits32 condition a b ≡ taken → SidesHave result a b }
    ensures left_only { IfSome result (λ sides. (a : ℕ) → Has sides.left a → Has left a) }
    ensures right_only { IfSome result (λ sides. (b : ℕ) → Has sides.right b → Has right b) }
{
    let left_half = compared_half(condition, left);
    let right_half = compared_half(condition, right);
    match narrow64(condition, taken, left_half, right_half) {
        Some(halves) => possible(Sides {
            left: with_low_half(left, low_half(halves.left)),
            right: with_low_half(right, low_half(halves.right)),
        }),
        None => None,
    }
}

// The low half of a word as it is compared: extended by its sign where the comparison is signed.
fn compared_half(condition: Condition, words: Scalar) -> Scalar
    ensures { (w : ℕ) → Has words w → Has result (compared_half condition w) }
{
    match condition {
        Condition::SignedGreater => extended(words, 32),
        Condition::SignedGreaterOrEqual => extended(words, 32),
        Condition::SignedLess => extended(words, 32),
        Condition::SignedLessOrEqual => extended(words, 32),
        _ => low_half(words),
    }
}

// The sides, where they are not seen to be empty.
fn possible(sides: Sides) -> Option<Sides>
    ensures kept { (a b : ℕ) → Has sides.left a → Has sides.right b → SidesHave result a b }
    ensures left_only { IfSome result (λ narrowed. (a : ℕ) → Has narrowed.left a → Has sides.left a) }
    ensures right_only { IfSome result (λ narrowed. (b : ℕ) → Has narrowed.right b → Has sides.right b) }
{
    let left = sides.left.tightened();
    let right = sides.right.tightened();
    if left.is_empty() || right.is_empty() {
        None
    } else {
        Some(Sides { left, right })
    }
}
