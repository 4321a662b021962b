// What is known of one register. It relies on `region` for addresses and on `scalar_domain` for numbers.

ghost use Rattle.std.specs.Prelude.{◌≡◌, ℕ, ◌<◌, ◌≤◌, ◌↔◌, ⊤, IfSome, IsSome, IsTrue, Option, Some};
ghost use Rattle.check_register_kinds.specs.Freezes.{FreezeNumbers};
ghost use Rattle.check_register_kinds.specs.Kinds.{GivesUpKind, HoldsKind, IsAtMost, IsBelow, IsBetween, IsKnown, IsNumber, IsWritten, LiesBelow, LiesIn, LiesWithin};

use crate::cause::Cause;
use crate::freeze_name::FreezeName;
use crate::region::{Offsets, Region};
use scalar_domain::Scalar;

/// What a register holds, as far as it is known.
#[derive(Clone, Copy, Debug, PartialEq, Eq)]
pub enum Kind {
    /// Perhaps nothing.
    Unwritten,
    /// One of these numbers.
    Number(Scalar),
    /// An address in a region, or the one after its last byte.
    Address(Region, Offsets),
    /// The freeze of that name, or 0 where the run got none.
    Freeze(FreezeName),
}

impl Kind {
    /// That number.
    pub fn exactly(value: u64) -> Self
        ensures has { (numbers : FreezeNumbers) → HoldsKind numbers result (Some value) }
        ensures only { (numbers : FreezeNumbers) (o : Option ℕ) → HoldsKind numbers result o → o ≡ Some value }
        ensures number { IsNumber result }
        ensures known { IsKnown value result }
    {
        Kind::Number(Scalar::exactly(value))
    }

    /// Whether it is a number.
    pub fn is_number(self) -> bool
        ensures { IsTrue result ↔ IsNumber self }
    {
        match self {
            Kind::Number(_) => true,
            Kind::Unwritten | Kind::Address(_, _) | Kind::Freeze(_) => false,
        }
    }

    /// Whether something is there.
    pub fn is_written(self) -> bool
        ensures { IsTrue result ↔ IsWritten self }
    {
        !matches!(self, Kind::Unwritten)
    }

    /// The only number that it may be.
    pub fn known(self) -> Option<u64>
        ensures only { IfSome result (λ n. (numbers : FreezeNumbers) (o : Option ℕ) → HoldsKind numbers self o → o ≡ Some n) }
        ensures known { (n : ℕ) → IsKnown n self → result ≡ Some n }
        ensures number { IsSome result → IsNumber self }
    {
        match self {
            Kind::Number(scalar) => scalar.known(),
            Kind::Unwritten | Kind::Address(_, _) | Kind::Freeze(_) => None,
        }
    }

    /// Why it is refused where only numbers are allowed: it may be unwritten, or is an address or a freeze.
    pub(crate) fn as_number(self) -> Cause
        ensures { (IsWritten self → result ≡ Cause.AddressAsNumber) × (self ≡ Kind.Unwritten → result ≡ Cause.UnwrittenRegister) }
    {
        match self {
            Kind::Unwritten => Cause::UnwrittenRegister,
            Kind::Number(_) | Kind::Address(_, _) | Kind::Freeze(_) => Cause::AddressAsNumber,
        }
    }

    /// Whether it is a number in this range, both ends included.
    pub fn lies_within(self, least: u64, most: u64) -> bool
        ensures means { IsTrue result → LiesWithin least most self }
        ensures between { IsBetween least most self → IsTrue result }
    {
        match self {
            Kind::Number(scalar) => least <= scalar.least() && scalar.most() <= most,
            _ => false,
        }
    }

    /// Whether it is a number below this one.
    pub fn lies_below(self, bound: u64) -> bool
        ensures means { IsTrue result → LiesBelow bound self }
        ensures below { IsBelow bound self → IsTrue result }
    {
        match self {
            Kind::Number(scalar) => scalar.most() < bound,
            _ => false,
        }
    }

    /// What it says where the freeze of that name is held no more and was one of these numbers: a copy of it is such a
    /// number then, and no freeze.
    pub fn given_up(self, name: FreezeName, copies: Scalar) -> Self
        ensures { GivesUpKind name copies self result }
    {
        match self {
            Kind::Freeze(other) if other.is_same(name) => Kind::Number(copies),
            kind => kind,
        }
    }

    /// What holds of a register where one or the other does: two numbers are a number, and two addresses of a region
    /// one between them. Where both are of different kinds nothing is known.
    pub fn join(self, other: Kind) -> Self
        ensures of_self { (numbers : FreezeNumbers) (o : Option ℕ) → HoldsKind numbers self o → HoldsKind numbers result o }
        ensures of_other { (numbers : FreezeNumbers) (o : Option ℕ) → HoldsKind numbers other o → HoldsKind numbers result o }
        ensures equal { self ≡ other → result ≡ self }
        ensures numbers { IsNumber self → IsNumber other → IsNumber result }
        ensures addresses { (region : Region) → LiesIn region self → LiesIn region other → LiesIn region result }
        ensures bounds { (most : ℕ) → IsAtMost most self → IsAtMost most other → IsAtMost most result }
    {
        if self == other {
            return self;
        }
        match self {
            Kind::Number(scalar) => join_number(scalar, other),
            Kind::Address(region, offsets) => join_address(region, offsets, other),
            Kind::Unwritten | Kind::Freeze(_) => Kind::Unwritten,
        }
    }
}

// What holds where a register has one of those numbers or is of the other kind.
fn join_number(scalar: Scalar, other: Kind) -> Kind
    ensures of_self { (numbers : FreezeNumbers) (o : Option ℕ) → HoldsKind numbers (Kind.Number scalar) o → HoldsKind numbers result o }
    ensures of_other { (numbers : FreezeNumbers) (o : Option ℕ) → HoldsKind numbers other o → HoldsKind numbers result o }
    ensures numbers { IsNumber other → IsNumber result }
    ensures bounds { (most : ℕ) → scalar.unsigned.most ≤ most → IsAtMost most other → IsAtMost most result }
{
    match other {
        Kind::Number(numbers) => Kind::Number(scalar.join(numbers)),
        _ => Kind::Unwritten,
    }
}

// What holds where a register has such an address or is of the other kind.
fn join_address(region: Region, offsets: Offsets, other: Kind) -> Kind
    ensures of_self { (numbers : FreezeNumbers) (o : Option ℕ) → HoldsKind numbers (Kind.Address region offsets) o → HoldsKind numbers result o }
    ensures of_other { (numbers : FreezeNumbers) (o : Option ℕ) → HoldsKind numbers other o → HoldsKind numbers result o }
    ensures addresses { LiesIn region other → LiesIn region result }
{
    match other {
        Kind::Address(place, others) if place == region => {
            Kind::Address(region, offsets.hull(others))
        }
        _ => Kind::Unwritten,
    }
}
