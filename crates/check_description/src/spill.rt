// An address or a freeze that stands in eight stack bytes. It relies on `check_register_kinds` for what is known of it.

ghost use Rattle.std.specs.Prelude.{◌≡◌, ◌↔◌, ◌≤◌, ◌<◌, ◌^◌, ℕ, Option, IsTrue};
ghost use Rattle.check_description.specs.Spills.{IsGone, kind_of, spill_of, spill_without};
ghost use Rattle.check_register_kinds.specs.Freezes.{FreezeNumbers};
ghost use Rattle.check_register_kinds.specs.Kinds.{HoldsKind, LiesAt};

use check_register_kinds::{FreezeName, Kind, Offsets, Region};

/// What is known to stand in eight stack bytes besides numbers.
#[derive(Clone, Copy, Debug, PartialEq, Eq)]
pub enum Spill {
    /// No address and no freeze.
    Nothing,
    /// An address in a region, or the one after its last byte.
    Address(Region, Offsets),
    /// The freeze of that name, or 0 where the run got none.
    Freeze(FreezeName),
}

impl Spill {
    /// What a word of that kind is where it stands in memory.
    pub(crate) fn of(kind: Kind) -> Self
        ensures is { result ≡ spill_of kind }
        ensures holds { (numbers : FreezeNumbers) (o : Option ℕ) → HoldsKind numbers kind o → HoldsKind numbers (kind_of result) o }
        ensures near { (region : Region) (offsets : Offsets) (address : ℕ) → result ≡ Spill.Address region offsets → LiesAt region offsets address → address < 2 ^ 64 }
    {
        match kind {
            Kind::Unwritten | Kind::Number(_) => Spill::Nothing,
            Kind::Address(region, offsets) => {
                // The proof knows how far off the region is once its size is asked.
                let _size = region.size();
                Spill::Address(region, offsets)
            }
            Kind::Freeze(name) => Spill::Freeze(name),
        }
    }

    /// What a register is to which it is loaded: nothing is known where it is none.
    pub(crate) fn kind(self) -> Kind
        ensures { result ≡ kind_of self }
    {
        match self {
            Spill::Nothing => Kind::Unwritten,
            Spill::Address(region, offsets) => Kind::Address(region, offsets),
            Spill::Freeze(name) => Kind::Freeze(name),
        }
    }

    /// Whether there is none.
    pub(crate) fn is_nothing(self) -> bool
        ensures { IsTrue result ↔ (self ≡ Spill.Nothing) }
    {
        match self {
            Spill::Nothing => true,
            Spill::Address(_, _) | Spill::Freeze(_) => false,
        }
    }

    /// Whether both are one.
    pub(crate) fn is_same(self, other: Self) -> bool
        ensures { IsTrue result ↔ (self ≡ other) }
    {
        self == other
    }

    /// What is left of it where the freeze of that name is held no more.
    pub(crate) fn without(self, name: FreezeName) -> Self
        ensures { result ≡ spill_without name self }
    {
        match self {
            Spill::Freeze(other) if other.is_same(name) => Spill::Nothing,
            spill => spill,
        }
    }

    /// Whether it is an address of a frame that is gone, where so many are live.
    pub(crate) fn is_gone(self, live: usize) -> bool
        ensures { IsTrue result ↔ IsGone live self }
    {
        match self {
            Spill::Address(Region::Frame(frame), _) => usize::from(frame) >= live,
            Spill::Address(Region::Context, _) | Spill::Nothing | Spill::Freeze(_) => false,
        }
    }
}
