// What is known where two paths meet. It relies on `check_register_kinds` for each register, on `stack_domain` for the stack, and on
// `check_description` for what is spilled.

ghost use Rattle.std.specs.Prelude.{◌≡◌, ◌↔◌, length, IsTrue};
ghost use Rattle.check_description.specs.Description.{Covers};
ghost use Rattle.reg_domain.specs.Enough.{Agree, JoinsTo};
ghost use Rattle.reg_domain.specs.AllRegisters.{EachJoins};

use check_description::Description;
use check_register_kinds::Kind;

/// What is known becomes what holds of a machine of which one or the other holds, as where two paths meet. Where they disagree on
/// the freezes, on the CCB's disposal, or on how many frames are live, the answer is false.
pub fn join(description: &mut Description, other: &Description) -> bool
    ensures first { IsTrue result → Covers description.old description.new }
    ensures second { IsTrue result → Covers other.now description.new }
    ensures agree { Agree description.old other.now → IsTrue result × JoinsTo description.old other.now description.new }
    ensures disagree { IsTrue result → Agree description.old other.now }
    ensures depth { IsTrue result → length description.new.stack ≡ length description.old.stack }
{
    if agrees(description, other) {
        join_agreed(description, other);
        true
    } else {
        false
    }
}

// Whether they agree on the freezes, on the CCB's disposal, and on how many frames are live.
fn agrees(description: &Description, other: &Description) -> bool
    ensures { IsTrue result ↔ Agree description.now other.now }
{
    description.held.is_same(&other.held)
        && description.disposed == other.disposed
        && description.stack.depth() == other.stack.depth()
}

// What holds where one or the other does.
fn join_agreed(description: &mut Description, other: &Description)
    requires { Agree description.old other.now }
    ensures first { Covers description.old description.new }
    ensures second { Covers other.now description.new }
    ensures joins { JoinsTo description.old other.now description.new }
{
    join_registers(&mut description.registers, &other.registers);
    description.stack.join(&other.stack);
    description
        .spills
        .join(&other.spills, &mut description.stack);
    description.numbers.join(&other.numbers);
    description.loaded = None;
}

// What holds of each register where it holds on this path or on the other.
fn join_registers(registers: &mut [Kind; 11], other: &[Kind; 11])
    ensures { EachJoins registers.old other.now registers.new }
{
    for reg in 0..11 {
        registers[reg] = registers[reg].join(other[reg]);
    }
}
