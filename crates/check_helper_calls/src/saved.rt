// Whether a function that waits has a copy of a freeze. It relies on `check_description` for what is known of one.

ghost use Rattle.std.specs.Prelude.{◌≡◌};
ghost use Rattle.std.specs.List.{list_any};
ghost use Rattle.check_helper_calls.specs.Fresh.{is_copy, saves};

use check_description::{SavedRegister, SavedRegisters};
use check_register_kinds::{FreezeName, Kind};

// Whether it was a copy of the freeze of that name.
fn was_copy(register: &SavedRegister, name: FreezeName) -> bool
    ensures { result ≡ is_copy name register.now }
{
    match register.kind {
        Kind::Freeze(other) => other.is_same(name),
        Kind::Unwritten | Kind::Number(_) | Kind::Address(_, _) => false,
    }
}

// Whether one of them was a copy of the freeze of that name.
fn saves_copy(saved: &SavedRegisters, name: FreezeName) -> bool
    ensures { result ≡ saves name saved.now }
{
    saved
        .registers
        .iter()
        .any(|register| was_copy(register, name))
}

// Whether a function that waits has a copy of the freeze of that name.
pub(crate) fn is_saved(callers: &[SavedRegisters], name: FreezeName) -> bool
    ensures { result ≡ list_any (saves name) callers.now }
{
    callers.iter().any(|saved| saves_copy(saved, name))
}
