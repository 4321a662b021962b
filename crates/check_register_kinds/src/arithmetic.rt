// What arithmetic makes of kinds. It relies on `scalar_domain` for numbers and on `addresses` for addresses.

ghost use Rattle.std.specs.Prelude.{◌≡◌, ℕ, true, false, IfOk, IsOkAnd};
ghost use Rattle.bpf_insn.specs.declared.insn.AluOp.TheVariants.{Add, Mov, Sub};
ghost use Rattle.bpf_insn.specs.declared.insn.Width.TheVariants.{Bits32, Bits64};
ghost use Rattle.bpf_words.specs.Words.{alu_of, in_place, reads_dst, sign_extended};
ghost use Rattle.check_register_kinds.specs.declared.region.Region.{Region};
ghost use Rattle.check_register_kinds.specs.declared.region.Offsets.{Offsets};
ghost use Rattle.check_register_kinds.specs.Computes.{ComputesKind, CombinesKind, ChangesKind};
ghost use Rattle.check_register_kinds.specs.Freezes.{FreezeNumbers};
ghost use Rattle.check_register_kinds.specs.Kinds.{HoldsKind, IsNumber, IsWritten, LiesIn, StaysAhead, StaysBehind};

use crate::addresses::{address_plus, number_plus};
use crate::cause::Cause;
use crate::kind::Kind;
use bpf_insn::{AluOp, InPlaceOp, SignExtension, Width};
use scalar_domain::{Scalar, alu, extend, in_place};

/// What an arithmetic instruction makes of what dst holds, `first`, and of its operand, `second`. Numbers give a number,
/// a move of 64 bits what it moves, and an address plus or minus a number an address.
///
/// # Errors
/// `UnwrittenRegister` where an operand that is read may be unwritten, `AccessOutside` where an address may leave its
/// region, and `AddressAsNumber` for all else that is computed with an address or a freeze.
pub fn computed(width: Width, op: AluOp, first: Kind, second: Kind) -> Result<Kind, Cause>
    ensures means { IfOk result (λ kind. (numbers : FreezeNumbers) → ComputesKind numbers width op first second kind) }
    ensures sums { (region : Region) (offsets : Offsets) (number : Scalar) → width ≡ Bits64 → op ≡ Add → first ≡ Kind.Address region offsets → second ≡ Kind.Number number → StaysAhead region offsets number → IsOkAnd result (LiesIn region) }
    ensures turned_sums { (region : Region) (offsets : Offsets) (number : Scalar) → width ≡ Bits64 → op ≡ Add → first ≡ Kind.Number number → second ≡ Kind.Address region offsets → StaysAhead region offsets number → IsOkAnd result (LiesIn region) }
    ensures differences { (region : Region) (offsets : Offsets) (number : Scalar) → width ≡ Bits64 → op ≡ Sub → first ≡ Kind.Address region offsets → second ≡ Kind.Number number → StaysBehind region offsets number → IsOkAnd result (LiesIn region) }
    ensures unwritten { second ≡ Kind.Unwritten → result ≡ Err Cause.UnwrittenRegister }
    ensures unwritten_first { reads_dst op ≡ true → first ≡ Kind.Unwritten → result ≡ Err Cause.UnwrittenRegister }
    ensures numbers { (reads_dst op ≡ true → IsNumber first) → IsNumber second → IsOkAnd result IsNumber }
    ensures moves { width ≡ Bits64 → op ≡ Mov → IsWritten second → result ≡ Ok second }
{
    if reads_first(op) {
        combined(width, op, first, second)
    } else {
        moved(width, op, second)
    }
}

/// What is made of one word in its place.
///
/// # Errors
/// `UnwrittenRegister`, and `AddressAsNumber` where it is no number.
pub fn changed(op: InPlaceOp, kind: Kind) -> Result<Kind, Cause>
    ensures means { IfOk result (λ changed. (numbers : FreezeNumbers) → ChangesKind numbers (in_place op) kind changed) }
    ensures unwritten { kind ≡ Kind.Unwritten → result ≡ Err Cause.UnwrittenRegister }
    ensures numbers { IsNumber kind → IsOkAnd result IsNumber }
{
    match kind {
        Kind::Unwritten => Err(Cause::UnwrittenRegister),
        Kind::Number(scalar) => Ok(Kind::Number(in_place(op, scalar))),
        Kind::Address(_, _) | Kind::Freeze(_) => Err(Cause::AddressAsNumber),
    }
}

/// The low bits of a word, extended by their sign.
///
/// # Errors
/// `UnwrittenRegister`, and `AddressAsNumber` where it is no number.
pub fn extended(extension: SignExtension, kind: Kind) -> Result<Kind, Cause>
    ensures means { IfOk result (λ changed. (numbers : FreezeNumbers) → ChangesKind numbers (sign_extended extension) kind changed) }
    ensures unwritten { kind ≡ Kind.Unwritten → result ≡ Err Cause.UnwrittenRegister }
    ensures numbers { IsNumber kind → IsOkAnd result IsNumber }
{
    match kind {
        Kind::Unwritten => Err(Cause::UnwrittenRegister),
        Kind::Number(scalar) => Ok(Kind::Number(extend(extension, scalar))),
        Kind::Address(_, _) | Kind::Freeze(_) => Err(Cause::AddressAsNumber),
    }
}

// Whether dst is read.
fn reads_first(op: AluOp) -> bool
    ensures { result ≡ reads_dst op }
{
    !matches!(op, AluOp::Mov)
}

// What a move makes of its operand.
fn moved(width: Width, op: AluOp, second: Kind) -> Result<Kind, Cause>
    requires { reads_dst op ≡ false }
    ensures means { IfOk result (λ kind. (numbers : FreezeNumbers) (first : Kind) → ComputesKind numbers width op first second kind) }
    ensures unwritten { second ≡ Kind.Unwritten → result ≡ Err Cause.UnwrittenRegister }
    ensures numbers { IsNumber second → IsOkAnd result IsNumber }
    ensures moves { width ≡ Bits64 → IsWritten second → result ≡ Ok second }
{
    match width {
        Width::Bits32 => moved_low(op, second),
        Width::Bits64 => moved_whole(op, second),
    }
}

// What a move of 32 bits makes of its operand.
fn moved_low(op: AluOp, second: Kind) -> Result<Kind, Cause>
    requires { reads_dst op ≡ false }
    ensures means { IfOk result (λ kind. (numbers : FreezeNumbers) (first : Kind) → ComputesKind numbers Bits32 op first second kind) }
    ensures unwritten { second ≡ Kind.Unwritten → result ≡ Err Cause.UnwrittenRegister }
    ensures numbers { IsNumber second → IsOkAnd result IsNumber }
{
    match second {
        Kind::Number(scalar) => Ok(Kind::Number(alu(Width::Bits32, op, Scalar::any(), scalar))),
        Kind::Unwritten | Kind::Address(_, _) | Kind::Freeze(_) => Err(second.as_number()),
    }
}

// What a move of 64 bits makes of its operand.
fn moved_whole(op: AluOp, second: Kind) -> Result<Kind, Cause>
    requires { reads_dst op ≡ false }
    ensures means { IfOk result (λ kind. (numbers : FreezeNumbers) (first : Kind) → ComputesKind numbers Bits64 op first second kind) }
    ensures unwritten { second ≡ Kind.Unwritten → result ≡ Err Cause.UnwrittenRegister }
    ensures numbers { IsNumber second → IsOkAnd result IsNumber }
    ensures moves { IsWritten second → result ≡ Ok second }
{
    if second.is_written() {
        Ok(second)
    } else {
        Err(Cause::UnwrittenRegister)
    }
}

// What any other operation makes of two operands.
fn combined(width: Width, op: AluOp, first: Kind, second: Kind) -> Result<Kind, Cause>
    ensures means { IfOk result (λ kind. (numbers : FreezeNumbers) → CombinesKind numbers (alu_of width op) first second kind) }
    ensures sums { (region : Region) (offsets : Offsets) (number : Scalar) → width ≡ Bits64 → op ≡ Add → first ≡ Kind.Address region offsets → second ≡ Kind.Number number → StaysAhead region offsets number → IsOkAnd result (LiesIn region) }
    ensures turned_sums { (region : Region) (offsets : Offsets) (number : Scalar) → width ≡ Bits64 → op ≡ Add → first ≡ Kind.Number number → second ≡ Kind.Address region offsets → StaysAhead region offsets number → IsOkAnd result (LiesIn region) }
    ensures differences { (region : Region) (offsets : Offsets) (number : Scalar) → width ≡ Bits64 → op ≡ Sub → first ≡ Kind.Address region offsets → second ≡ Kind.Number number → StaysBehind region offsets number → IsOkAnd result (LiesIn region) }
    ensures unwritten { second ≡ Kind.Unwritten → result ≡ Err Cause.UnwrittenRegister }
    ensures unwritten_first { first ≡ Kind.Unwritten → result ≡ Err Cause.UnwrittenRegister }
    ensures numbers { IsNumber first → IsNumber second → IsOkAnd result IsNumber }
{
    match first {
        Kind::Unwritten => Err(Cause::UnwrittenRegister),
        Kind::Number(number) => number_plus(width, op, number, second),
        Kind::Address(region, offsets) => address_plus(width, op, region, offsets, second),
        Kind::Freeze(_) => Err(second.as_number()),
    }
}
