// What arithmetic makes of an address and a number. It relies on `region` for offsets.

ghost use Rattle.std.specs.Prelude.{◌≡◌, ℕ, ◌+◌, ◌-◌, ◌^◌, Some, IfOk, IsOkAnd};
ghost use Rattle.bpf_insn.specs.declared.insn.AluOp.TheVariants.{Add, Sub};
ghost use Rattle.bpf_insn.specs.declared.insn.Width.TheVariants.{Bits64};
ghost use Rattle.std.specs.Int.{w64};
ghost use Rattle.bpf_words.specs.Words.{alu_of, low};
ghost use Rattle.scalar_domain.specs.Scalar.{Has};
ghost use Rattle.check_register_kinds.specs.Computes.{CombinesKind};
ghost use Rattle.check_register_kinds.specs.Freezes.{FreezeNumbers};
ghost use Rattle.check_register_kinds.specs.Kinds.{HoldsKind, IsNumber, LiesAt, LiesIn, StaysAhead, StaysBehind};

use crate::cause::Cause;
use crate::kind::Kind;
use crate::region::{Offsets, Region};
use bpf_insn::{AluOp, Width};
use scalar_domain::{Scalar, alu};

// What an operation makes of a number and of what the other operand is.
pub(crate) fn number_plus(
    width: Width,
    op: AluOp,
    number: Scalar,
    second: Kind,
) -> Result<Kind, Cause>
    ensures means { IfOk result (λ kind. (numbers : FreezeNumbers) → CombinesKind numbers (alu_of width op) (Kind.Number number) second kind) }
    ensures sums { (region : Region) (offsets : Offsets) → width ≡ Bits64 → op ≡ Add → second ≡ Kind.Address region offsets → StaysAhead region offsets number → IsOkAnd result (LiesIn region) }
    ensures unwritten { second ≡ Kind.Unwritten → result ≡ Err Cause.UnwrittenRegister }
    ensures numbers { IsNumber second → IsOkAnd result IsNumber }
{
    match second {
        Kind::Number(other) => Ok(Kind::Number(alu(width, op, number, other))),
        Kind::Address(region, offsets) => plus_address(width, op, number, region, offsets),
        Kind::Unwritten | Kind::Freeze(_) => Err(second.as_number()),
    }
}

// What an operation makes of a number and an address.
fn plus_address(
    width: Width,
    op: AluOp,
    number: Scalar,
    region: Region,
    offsets: Offsets,
) -> Result<Kind, Cause>
    ensures means { IfOk result (λ kind. (numbers : FreezeNumbers) → CombinesKind numbers (alu_of width op) (Kind.Number number) (Kind.Address region offsets) kind) }
    ensures sums { width ≡ Bits64 → op ≡ Add → StaysAhead region offsets number → IsOkAnd result (LiesIn region) }
{
    match width {
        Width::Bits32 => Err(Cause::AddressAsNumber),
        Width::Bits64 => match op {
            AluOp::Add => ahead(region, offsets, number),
            _ => Err(Cause::AddressAsNumber),
        },
    }
}

// What an operation makes of an address and of what the other operand is.
pub(crate) fn address_plus(
    width: Width,
    op: AluOp,
    region: Region,
    offsets: Offsets,
    second: Kind,
) -> Result<Kind, Cause>
    ensures means { IfOk result (λ kind. (numbers : FreezeNumbers) → CombinesKind numbers (alu_of width op) (Kind.Address region offsets) second kind) }
    ensures sums { (number : Scalar) → width ≡ Bits64 → op ≡ Add → second ≡ Kind.Number number → StaysAhead region offsets number → IsOkAnd result (LiesIn region) }
    ensures differences { (number : Scalar) → width ≡ Bits64 → op ≡ Sub → second ≡ Kind.Number number → StaysBehind region offsets number → IsOkAnd result (LiesIn region) }
    ensures unwritten { second ≡ Kind.Unwritten → result ≡ Err Cause.UnwrittenRegister }
{
    match second {
        Kind::Number(number) => address_and_number(width, op, region, offsets, number),
        Kind::Unwritten | Kind::Address(_, _) | Kind::Freeze(_) => Err(second.as_number()),
    }
}

// What an operation makes of an address and a number.
fn address_and_number(
    width: Width,
    op: AluOp,
    region: Region,
    offsets: Offsets,
    number: Scalar,
) -> Result<Kind, Cause>
    ensures means { IfOk result (λ kind. (numbers : FreezeNumbers) → CombinesKind numbers (alu_of width op) (Kind.Address region offsets) (Kind.Number number) kind) }
    ensures sums { width ≡ Bits64 → op ≡ Add → StaysAhead region offsets number → IsOkAnd result (LiesIn region) }
    ensures differences { width ≡ Bits64 → op ≡ Sub → StaysBehind region offsets number → IsOkAnd result (LiesIn region) }
{
    match width {
        Width::Bits32 => Err(Cause::AddressAsNumber),
        Width::Bits64 => match op {
            AluOp::Add => ahead(region, offsets, number),
            AluOp::Sub => behind(region, offsets, number),
            _ => Err(Cause::AddressAsNumber),
        },
    }
}

// An address plus a number.
fn ahead(region: Region, offsets: Offsets, number: Scalar) -> Result<Kind, Cause>
    ensures means { IfOk result (λ kind. (numbers : FreezeNumbers) (address word : ℕ) → LiesAt region offsets address → Has number word → HoldsKind numbers kind (Some (low w64 (address + word)))) }
    ensures stays { StaysAhead region offsets number → IsOkAnd result (LiesIn region) }
{
    match offsets.advanced(region, number) {
        Some(offsets) => Ok(Kind::Address(region, offsets)),
        None => Err(Cause::AccessOutside),
    }
}

// An address minus a number.
fn behind(region: Region, offsets: Offsets, number: Scalar) -> Result<Kind, Cause>
    ensures means { IfOk result (λ kind. (numbers : FreezeNumbers) (address word : ℕ) → LiesAt region offsets address → Has number word → HoldsKind numbers kind (Some (low w64 (address + (2 ^ 64 - word))))) }
    ensures stays { StaysBehind region offsets number → IsOkAnd result (LiesIn region) }
{
    match offsets.receded(region, number) {
        Some(offsets) => Ok(Kind::Address(region, offsets)),
        None => Err(Cause::AccessOutside),
    }
}
