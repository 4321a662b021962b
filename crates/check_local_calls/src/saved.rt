// R6 to R9 of a function that waits: what is known of them at its call, and what that is once it goes on. It relies on
// `check_register_kinds`, also for the freezes of which they are copies.

ghost use Rattle.std.specs.Prelude.{◌≡◌, ◌<◌, ◌≤◌, ℕ, List, Option, Some, slice_index_or};
ghost use Rattle.scalar_domain.specs.Scalar.{Has};
ghost use Rattle.check_description.specs.Changes.{at};
ghost use Rattle.check_local_calls.specs.Entering.{copy_back, kind_back, HoldBack};
ghost use Rattle.check_register_kinds.specs.Freezes.{AreHeld, FreezeNumbers, IsNumbered, certainty_of};
ghost use Rattle.check_register_kinds.specs.Kinds.{HoldsKind};
ghost use Rattle.check_description.specs.OpenCalls.{AreSaved, HoldsSaved};

use check_description::{SavedRegister, SavedRegisters};
use check_register_kinds::{Certainty, FreezeName, GREATEST_FREEZE, Held, Kind};
use scalar_domain::Scalar;

// A register of that kind, where these freezes are held at the call.
pub(crate) fn at_call(kind: Kind, held: &Held) -> SavedRegister
    ensures holds { (numbers : FreezeNumbers) (run : List ℕ) (o : Option ℕ) → AreHeld numbers held.now run → HoldsKind numbers kind o → HoldsSaved numbers result o }
    ensures kind { result.kind ≡ kind }
    ensures sure { (name : FreezeName) (number : ℕ) → kind ≡ Kind.Freeze name → certainty_of held.now name ≡ Some Certainty.Sure → Has result.copies number → (1 ≤ number) × (number ≤ 0xffff_ffff) }
{
    SavedRegister {
        kind,
        copies: copies_of(kind, held),
    }
}

// What the register is back in its function, where these freezes are held then: a copy of one that is held no more is
// a number.
fn register_back(register: &SavedRegister, held: &Held) -> Kind
    ensures holds { (numbers : FreezeNumbers) (run : List ℕ) (o : Option ℕ) → AreHeld numbers held.now run → HoldsSaved numbers register.now o → HoldsKind numbers result o }
    ensures is { result ≡ kind_back held.now register.now }
{
    match register.kind {
        Kind::Freeze(name) => given_copy(register, name, held),
        Kind::Unwritten | Kind::Number(_) | Kind::Address(_, _) => register.kind,
    }
}

// And what one is that was a copy of that freeze.
fn given_copy(register: &SavedRegister, name: FreezeName, held: &Held) -> Kind
    requires { register.now.kind ≡ Kind.Freeze name }
    ensures holds { (numbers : FreezeNumbers) (run : List ℕ) (o : Option ℕ) → AreHeld numbers held.now run → HoldsSaved numbers register.now o → HoldsKind numbers result o }
    ensures is { result ≡ copy_back name register.now.copies (certainty_of held.now name) }
{
    match held.certainty(name) {
        Some(_) => Kind::Freeze(name),
        None => Kind::Number(register.copies),
    }
}

// What they are back in their function, where these freezes are held then.
pub(crate) fn given_back(saved: &SavedRegisters, held: &Held) -> [Kind; 4]
    ensures is { (k : ℕ) (default : SavedRegister) → k < 4 → at result k ≡ kind_back held.now (slice_index_or saved.now.registers k default) }
    ensures holds { (numbers : FreezeNumbers) (run : List ℕ) (os : List (Option ℕ)) → AreHeld numbers held.now run → AreSaved numbers saved.now.registers os → HoldBack numbers result os }
{
    [
        register_back(&saved.registers[0], held),
        register_back(&saved.registers[1], held),
        register_back(&saved.registers[2], held),
        register_back(&saved.registers[3], held),
    ]
}

// What a copy of a freeze may be, where these freezes are held.
fn copies_of(kind: Kind, held: &Held) -> Scalar
    ensures has { (name : FreezeName) (number : ℕ) (numbers : FreezeNumbers) (run : List ℕ) → kind ≡ Kind.Freeze name → AreHeld numbers held.now run → numbers name ≡ Some number → Has result number }
    ensures sure { (name : FreezeName) (number : ℕ) → kind ≡ Kind.Freeze name → certainty_of held.now name ≡ Some Certainty.Sure → Has result number → (1 ≤ number) × (number ≤ 0xffff_ffff) }
{
    match kind {
        Kind::Freeze(name) => Scalar::within(least_copy(held.certainty(name)), GREATEST_FREEZE),
        Kind::Unwritten | Kind::Number(_) | Kind::Address(_, _) => Scalar::any(),
    }
}

// The least that a freeze may be of which that is known.
fn least_copy(certainty: Option<Certainty>) -> u64
    ensures bound { (number : ℕ) (o : Option ℕ) → IsNumbered certainty o → o ≡ Some number → result ≤ number }
    ensures sure { certainty ≡ Some Certainty.Sure → result ≡ 1 }
{
    match certainty {
        Some(Certainty::Sure) => 1,
        Some(Certainty::Open) | None => 0,
    }
}
