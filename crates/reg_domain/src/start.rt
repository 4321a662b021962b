// What is known at the entry of a program. It relies on `check_register_kinds` for registers and the first freeze, and on
// `stack_domain` for the outermost frame.

ghost use Rattle.check_description.specs.Description.{DescribesEntries};
ghost use Rattle.reg_domain.specs.Enough.{IsEntryKnown};
ghost use Rattle.std.specs.Prelude.{◌≡◌};
ghost use Rattle.check_register_kinds.specs.declared.freeze_name.FreezeName.TheVariants as names;
ghost use Rattle.reg_domain.specs.AllRegisters.{HoldAtEntry};
ghost use Rattle.check_description.specs.Changes.{at};
ghost use Rattle.check_register_kinds.specs.Kinds.{IsAt};

use check_description::{Description, Spills};
use check_register_kinds::{FreezeName, Held, Kind, Offsets, Region};
use stack_domain::{Stack, StackNumbers};
use std::alloc::Global;

/// At the entry of a program.
pub fn entry(alloc: Global) -> Description
    ensures entries { DescribesEntries result }
    ensures known { IsEntryKnown result }
{
    Description {
        registers: entry_registers(),
        stack: Stack::outermost(),
        spills: Spills::none(alloc),
        numbers: StackNumbers::none(alloc),
        loaded: None,
        held: Held::at_start(),
        disposed: false,
    }
}

// At the entry of a program: R1 is the context's address, R2 the freeze, and R10 the frame pointer.
fn entry_registers() -> [Kind; 11]
    ensures hold { HoldAtEntry result }
    ensures context { IsAt Region.Context 0 (at result 1) }
    ensures freeze { at result 2 ≡ Kind.Freeze names.Start }
    ensures frame { IsAt (Region.Frame 0) 512 (at result 10) }
{
    let mut registers = [Kind::Unwritten; 11];
    registers[1] = Kind::Address(Region::Context, Offsets { least: 0, most: 0 });
    registers[2] = Kind::Freeze(FreezeName::Start);
    registers[10] = Kind::Address(
        Region::Frame(0),
        Offsets {
            least: 512,
            most: 512,
        },
    );
    registers
}
