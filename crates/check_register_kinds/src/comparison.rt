// What one way of a conditional jump says of what is compared. It relies on `scalar_domain` for numbers.

ghost use Rattle.std.specs.Prelude.{◌≡◌, ℕ, ◌==◌, true, false, not, Some, IfOk, IsOkAnd, IsTrue, Option};
ghost use Rattle.bpf_words.specs.Words.{holds_of};
ghost use Rattle.bpf_insn.specs.declared.insn.Condition.TheVariants.{Equal, NotEqual};
ghost use Rattle.bpf_insn.specs.declared.insn.Width.TheVariants.{Bits64};
ghost use Rattle.check_register_kinds.specs.Finds.{Found, FindsWay, IsOfNumbers, found_of};
ghost use Rattle.check_register_kinds.specs.Freezes.{FreezeNumbers};
ghost use Rattle.check_register_kinds.specs.Kinds.{HoldsKind, IsKnown, IsNumber};

use crate::cause::Cause;
use crate::freeze_name::FreezeName;
use crate::kind::Kind;
use bpf_insn::{Condition, Width};
use scalar_domain::{Scalar, narrow};

/// What is known where a jump goes one way.
#[derive(Clone, Copy, Debug, PartialEq, Eq)]
pub enum Finding {
    /// No machine goes that way.
    NoWay,
    /// Both are numbers, the first and the second one of these.
    Numbers(Scalar, Scalar),
    /// The freeze of that name is 0.
    FreezeIsZero(FreezeName),
    /// It is not 0.
    FreezeIsSure(FreezeName),
}

/// What is found where the condition holds of what `first` and `second` say, or with `taken` false where it does not.
/// With `is_constant` the second is the instruction's own constant: a freeze is tested for 0 against that alone.
///
/// # Errors
/// `UnwrittenRegister` where either may be unwritten, and `AddressAsNumber` for all else that is compared with an
/// address or a freeze.
pub fn compared(
    width: Width,
    condition: Condition,
    taken: bool,
    first: Kind,
    second: Kind,
    is_constant: bool,
) -> Result<Finding, Cause>
    ensures means { IfOk result (λ finding. (numbers : FreezeNumbers) → FindsWay numbers width condition taken first second finding) }
    ensures equal { (name : FreezeName) → first ≡ Kind.Freeze name → width ≡ Bits64 → is_constant ≡ true → IsKnown 0 second → condition ≡ Equal → result ≡ Ok (found_of name taken) }
    ensures not_equal { (name : FreezeName) → first ≡ Kind.Freeze name → width ≡ Bits64 → is_constant ≡ true → IsKnown 0 second → condition ≡ NotEqual → result ≡ Ok (found_of name (not taken)) }
    ensures unwritten { second ≡ Kind.Unwritten → result ≡ Err Cause.UnwrittenRegister }
    ensures unwritten_first { first ≡ Kind.Unwritten → result ≡ Err Cause.UnwrittenRegister }
    ensures numbers { IsNumber first → IsNumber second → IsOkAnd result IsOfNumbers }
{
    match first {
        Kind::Unwritten => Err(Cause::UnwrittenRegister),
        Kind::Number(left) => number_compared(width, condition, taken, left, second),
        Kind::Address(_, _) => Err(second.as_number()),
        Kind::Freeze(name) => {
            if is_zero_constant(second, is_constant) {
                freeze_tested(width, condition, taken, name, second)
            } else {
                Err(second.as_number())
            }
        }
    }
}

// Whether it is the constant 0.
fn is_zero_constant(kind: Kind, is_constant: bool) -> bool
    ensures means { IsTrue result → (numbers : FreezeNumbers) (o : Option ℕ) → HoldsKind numbers kind o → o ≡ Some 0 }
    ensures number { IsTrue result → IsNumber kind }
    ensures exists { is_constant ≡ true → IsKnown 0 kind → IsTrue result }
{
    if is_constant {
        kind.known() == Some(0)
    } else {
        false
    }
}

// What is found of a number that is compared.
fn number_compared(
    width: Width,
    condition: Condition,
    taken: bool,
    left: Scalar,
    second: Kind,
) -> Result<Finding, Cause>
    ensures means { IfOk result (λ finding. (numbers : FreezeNumbers) → FindsWay numbers width condition taken (Kind.Number left) second finding) }
    ensures unwritten { second ≡ Kind.Unwritten → result ≡ Err Cause.UnwrittenRegister }
    ensures numbers { IsNumber second → IsOkAnd result IsOfNumbers }
{
    match second {
        Kind::Number(right) => Ok(numbers_compared(width, condition, taken, left, right)),
        Kind::Unwritten | Kind::Address(_, _) | Kind::Freeze(_) => Err(second.as_number()),
    }
}

// What is found of two numbers.
fn numbers_compared(
    width: Width,
    condition: Condition,
    taken: bool,
    left: Scalar,
    right: Scalar,
) -> Finding
    ensures means { (numbers : FreezeNumbers) → FindsWay numbers width condition taken (Kind.Number left) (Kind.Number right) result }
    ensures numbers { IsOfNumbers result }
{
    match narrow(width, condition, taken, left, right) {
        Some(sides) => Finding::Numbers(sides.left, sides.right),
        None => Finding::NoWay,
    }
}

// What is found of a freeze that is compared with what is known to be 0.
fn freeze_tested(
    width: Width,
    condition: Condition,
    taken: bool,
    name: FreezeName,
    second: Kind,
) -> Result<Finding, Cause>
    requires { (numbers : FreezeNumbers) (o : Option ℕ) → HoldsKind numbers second o → o ≡ Some 0 }
    ensures means { IfOk result (λ finding. (numbers : FreezeNumbers) → FindsWay numbers width condition taken (Kind.Freeze name) second finding) }
    ensures equal { width ≡ Bits64 → condition ≡ Equal → result ≡ Ok (found_of name taken) }
    ensures not_equal { width ≡ Bits64 → condition ≡ NotEqual → result ≡ Ok (found_of name (not taken)) }
{
    match width {
        Width::Bits32 => Err(Cause::AddressAsNumber),
        Width::Bits64 => match condition {
            Condition::Equal => Ok(freeze_found(name, taken)),
            Condition::NotEqual => Ok(freeze_found(name, !taken)),
            _ => Err(Cause::AddressAsNumber),
        },
    }
}

// What is found of a freeze that is 0, or is not.
fn freeze_found(name: FreezeName, is_zero: bool) -> Finding
    ensures means { (numbers : FreezeNumbers) (number : ℕ) → numbers name ≡ Some number → (number == 0) ≡ is_zero → Found numbers number 0 result }
    ensures found { result ≡ found_of name is_zero }
{
    if is_zero {
        Finding::FreezeIsZero(name)
    } else {
        Finding::FreezeIsSure(name)
    }
}
