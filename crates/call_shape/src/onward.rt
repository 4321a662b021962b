// Where control may go from an instruction, whatever the machine: all that static paths depend on.

ghost use Rattle.std.specs.Prelude.{◌≡◌, ◌<◌};
ghost use Rattle.bpf_insn.specs.declared.program.TheConstants.{MAX_SLOTS};

use bpf_insn::{Callee, Insn, jump_target};

/// Where control goes on from an instruction. Slots are those of the program, and may lie outside it where its shape is
/// not lawful.
#[derive(Clone, Copy, Debug, PartialEq, Eq)]
pub enum Onward {
    /// The function ends.
    Leaves,
    /// At this slot.
    Continues(usize),
    /// At the one slot or at the other.
    Branches(usize, usize),
    /// In the function that starts at the first slot, and when that ends at the second one.
    Enters(usize, usize),
}

impl Onward {
    ghost use Rattle.call_shape.specs.Onward.{onward};

    /// Where control goes on from this instruction at this place.
    pub fn of(place: usize, insn: Insn) -> Self
        requires { place < MAX_SLOTS }
        ensures { result ≡ onward place insn }
    {
        match insn {
            Insn::Exit => Onward::Leaves,
            Insn::Jump(distance) => Onward::Continues(jump_target(place, distance.slots())),
            Insn::JumpIf { offset, .. } => Onward::Branches(
                place + 1,
                jump_target(place, i32::from(offset)),
            ),
            Insn::Call(Callee::Local(distance)) => Onward::Enters(
                jump_target(place, distance),
                place + 1,
            ),
            Insn::LoadImmediate { .. } => Onward::Continues(place + 2),
            Insn::Alu { .. }
            | Insn::InPlace { .. }
            | Insn::SignExtend { .. }
            | Insn::Load { .. }
            | Insn::Store { .. }
            | Insn::Call(Callee::Helper(_)) => Onward::Continues(place + 1),
        }
    }
}
