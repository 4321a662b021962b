// The kinds of all registers at once. It relies on `check_register_kinds` for each of them.

ghost use Rattle.check_description.specs.Changes.{EachBecomes};
ghost use Rattle.check_register_kinds.specs.Kinds.{GivesUpKind};

use check_register_kinds::{FreezeName, Kind};
use scalar_domain::Scalar;

// Each copy of the freeze of that name is one of these numbers, and no freeze any more.
pub(crate) fn give_up_copies(registers: &mut [Kind; 11], name: FreezeName, copies: Scalar)
    ensures { EachBecomes (GivesUpKind name copies) registers.old registers.new }
{
    for reg in 0..11 {
        registers[reg] = registers[reg].given_up(name, copies);
    }
}
