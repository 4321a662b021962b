// Local calls and their returns where a machine is described. It relies on `saved` for what is known of a function that
// waits, and on `stack_domain` for frames.

ghost use Rattle.std.specs.Prelude.{◌≡◌, ◌<◌, ◌+◌, ◌++◌, ◌∷◌, [], ℕ, ℤ, List, Option, Some, length, slice_index_or};
ghost use Rattle.bpf_insn.specs.declared.insn.Callee.TheVariants.{Local};
ghost use Rattle.bpf_insn.specs.declared.insn.Insn.TheVariants.{Call, Exit};
ghost use Rattle.bpf_semantics.specs.MachineState.{MachineState};
ghost use Rattle.bpf_semantics.specs.Step.{does};
ghost use Rattle.helpers.specs.declared.limits.HelperLimits.{HelperLimits};
ghost use Rattle.check_description.specs.Changes.{at};
ghost use Rattle.check_local_calls.specs.Entering.{entered_kinds, left_kinds, IsSureCopy, LeavesEntered, LeavesReturned, outlived_kind, words_saved};
ghost use Rattle.check_description.specs.Description.{Describes, DescribesWith, NeverStuck};
ghost use Rattle.check_register_kinds.specs.Freezes.{FreezeNumbers};
ghost use Rattle.check_register_kinds.specs.Kinds.{HoldsKind};
ghost use Rattle.check_description.specs.OpenCalls.{AreSaved};

use crate::saved::{at_call, given_back};
use bpf_insn::Reg;
use bpf_stack_frame::MAX_FRAMES;
use check_description::{Description, SavedRegister, SavedRegisters};
use check_register_kinds::{Kind, Offsets, Region};

/// At the start of a local function that is called where this is known; what is known of the caller's R6 to R9 is
/// answered. R1 to R5 are the arguments, R0 and R6 to R9 are unwritten, R10 is the new frame's pointer, and no byte of
/// that frame is written.
pub fn enter(description: &mut Description) -> SavedRegisters
    requires room { length description.old.stack < MAX_FRAMES }
    ensures unstuck { (limits : HelperLimits) (callers : List SavedRegisters) (distance : ℤ) → NeverStuck limits callers (Call (Local distance)) description.old }
    ensures enters { (callers : List SavedRegisters) (distance : ℤ) (m m' : MachineState) → Describes callers description.old m → does m (Call (Local distance)) ≡ Some m' → Describes (callers ++ result ∷ []) description.new m' }
    ensures known { LeavesEntered result description.old description.new }
    ensures depth { length description.new.stack ≡ length description.old.stack + 1 }
{
    let saved = saved(description);
    let pointer = pointer_to(description.stack.depth());
    description.registers = entered_registers(&description.registers, pointer);
    description.stack = description.stack.opened();
    description.loaded = None;
    saved
}

// What is known of R6 to R9 at a call.
fn saved(description: &Description) -> SavedRegisters
    ensures kinds { (k : ℕ) (default : SavedRegister) → k < 4 → (slice_index_or result.registers k default).kind ≡ at description.now.registers (6 + k) }
    ensures copies { (k : ℕ) (default : SavedRegister) → k < 4 → IsSureCopy description.now (slice_index_or result.registers k default) }
    ensures saves { (numbers : FreezeNumbers) (callers : List SavedRegisters) (m : MachineState) → DescribesWith numbers callers description.now m → AreSaved numbers result.registers (words_saved m.registers) }
{
    SavedRegisters {
        registers: [
            at_call(description.kind(Reg::R6), &description.held),
            at_call(description.kind(Reg::R7), &description.held),
            at_call(description.kind(Reg::R8), &description.held),
            at_call(description.kind(Reg::R9), &description.held),
        ],
    }
}

/// Back in the caller, of whose R6 to R9 that is known: a saved copy of a freeze that is held no more is a number. R0
/// is as it is, but that an address of the frame that is gone is unwritten then, and so is each that was spilled; R1 to R5
/// are unwritten.
pub fn leave(description: &mut Description, saved: &SavedRegisters)
    requires called { 1 < length description.old.stack }
    ensures unstuck { (limits : HelperLimits) (callers : List SavedRegisters) → NeverStuck limits (callers ++ saved.now ∷ []) Exit description.old }
    ensures leaves { (callers : List SavedRegisters) (m m' : MachineState) → Describes (callers ++ saved.now ∷ []) description.old m → does m Exit ≡ Some m' → Describes callers description.new m' }
    ensures known { LeavesReturned saved.now description.old description.new }
    ensures depth { length description.new.stack + 1 ≡ length description.old.stack }
{
    let mut stack = description.stack.closed();
    let live = stack.depth();
    description.spills.close(live, &mut stack);
    let r0 = outlived(description.kind(Reg::R0), live);
    let kept = given_back(saved, &description.held);
    description.registers = left_registers(r0, kept, pointer_to(live - 1));
    description.stack = stack;
    description.numbers.close(live);
    description.loaded = None;
}

// The frame pointer of that frame.
fn pointer_to(frame: usize) -> Kind
    requires { frame < MAX_FRAMES }
    ensures { result ≡ Kind.Address (Region.Frame frame) (record { least = 512; most = 512 }) }
{
    Kind::Address(
        Region::Frame(frame as u8),
        Offsets {
            least: 512,
            most: 512,
        },
    )
}

// What a function's result is in its caller, where so many frames are live: an address of one that is gone is unwritten.
fn outlived(value: Kind, live: usize) -> Kind
    ensures is { result ≡ outlived_kind live value }
    ensures holds { (numbers : FreezeNumbers) (o : Option ℕ) → HoldsKind numbers value o → HoldsKind numbers result o }
{
    match value {
        Kind::Address(Region::Frame(frame), _) => {
            if usize::from(frame) < live {
                value
            } else {
                Kind::Unwritten
            }
        }
        Kind::Address(Region::Context, _) | Kind::Unwritten | Kind::Number(_) | Kind::Freeze(_) =>
            value,
    }
}

// The registers of a function that is called, where that is the pointer to its frame.
fn entered_registers(registers: &[Kind; 11], pointer: Kind) -> [Kind; 11]
    ensures { result ≡ entered_kinds registers.now pointer }
{
    [
        Kind::Unwritten,
        registers[1],
        registers[2],
        registers[3],
        registers[4],
        registers[5],
        Kind::Unwritten,
        Kind::Unwritten,
        Kind::Unwritten,
        Kind::Unwritten,
        pointer,
    ]
}

// The registers of a function to which another returned that result, where that is its frame pointer.
fn left_registers(r0: Kind, kept: [Kind; 4], pointer: Kind) -> [Kind; 11]
    ensures { result ≡ left_kinds r0 kept pointer }
{
    [
        r0,
        Kind::Unwritten,
        Kind::Unwritten,
        Kind::Unwritten,
        Kind::Unwritten,
        Kind::Unwritten,
        kept[0],
        kept[1],
        kept[2],
        kept[3],
        pointer,
    ]
}
