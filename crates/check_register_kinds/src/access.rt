// Where a load or store lies. It relies on `region` for offsets.

ghost use Rattle.std.specs.Prelude.{◌≡◌, ℕ, ◌+◌, ◌<◌, ◌^◌, ◌≤◌, Option, Some, IfErr, IfOk, IsOkAnd, IsTrue, ◌↔◌};
ghost use Rattle.std.specs.Int.{w64, cast_unsigned};
ghost use Rattle.bpf_semantics.specs.Memory.{address_at};
ghost use Rattle.check_register_kinds.specs.Accesses.{BeginsAt};
ghost use Rattle.check_register_kinds.specs.Kinds.{IsAt, HoldsKind, LiesAt, size_of};
ghost use Rattle.check_register_kinds.specs.Freezes.{FreezeNumbers};

use crate::cause::Cause;
use crate::kind::Kind;
use crate::region::{Offsets, Region};
use scalar_domain::Scalar;

/// Where the bytes of an access begin.
#[derive(Clone, Copy, Debug, PartialEq, Eq)]
pub struct Access {
    pub region: Region,
    pub offsets: Offsets,
}

/// Where `bytes` bytes lie that begin at a register's address plus the offset: all of them in the region, wherever they
/// begin.
///
/// # Errors
/// `UnwrittenRegister`, and `AccessOutside` where the register has no address or a byte may lie outside its region.
pub fn accessed(base: Kind, offset: i16, bytes: u16) -> Result<Access, Cause>
    ensures address { IfOk result (λ access. (numbers : FreezeNumbers) (o : Option ℕ) → HoldsKind numbers base o → (start : ℕ) × (o ≡ Some start) × LiesAt access.region access.offsets (address_at start offset)) }
    ensures inside { IfOk result (λ access. access.offsets.most + bytes ≤ size_of access.region) }
    ensures unwritten { (base ≡ Kind.Unwritten) ↔ (result ≡ Err Cause.UnwrittenRegister) }
    ensures known { (region : Region) (at : ℕ) → IsAt region at base → address_at at offset + bytes ≤ size_of region → IsOkAnd result (BeginsAt region (address_at at offset)) }
{
    match base {
        Kind::Unwritten => Err(Cause::UnwrittenRegister),
        Kind::Address(region, offsets) => located(region, offsets, offset, bytes),
        Kind::Number(_) | Kind::Freeze(_) => Err(Cause::AccessOutside),
    }
}

// Where so many bytes lie that begin at such an address plus the offset.
fn located(region: Region, offsets: Offsets, offset: i16, bytes: u16) -> Result<Access, Cause>
    ensures address { IfOk result (λ access. (address : ℕ) → LiesAt region offsets address → LiesAt access.region access.offsets (address_at address offset)) }
    ensures inside { IfOk result (λ access. access.offsets.most + bytes ≤ size_of access.region) }
    ensures cause { IfErr result (λ cause. cause ≡ Cause.AccessOutside) }
    ensures known { offsets.least ≡ offsets.most → address_at offsets.least offset + bytes ≤ size_of region → IsOkAnd result (BeginsAt region (address_at offsets.least offset)) }
{
    match offsets.advanced(region, Scalar::exactly(word_of(offset))) {
        Some(offsets) if fits(region, offsets, bytes) => Ok(Access { region, offsets }),
        _ => Err(Cause::AccessOutside),
    }
}

// Whether so many bytes that begin at any of these offsets lie in the region.
fn fits(region: Region, offsets: Offsets, bytes: u16) -> bool
    ensures { IsTrue result ↔ (offsets.most + bytes ≤ size_of region) }
{
    u32::from(offsets.most) + u32::from(bytes) <= u32::from(region.size())
}

// The offset as a word.
fn word_of(offset: i16) -> u64
    ensures { result ≡ cast_unsigned w64 offset }
{
    i64::from(offset).cast_unsigned()
}
