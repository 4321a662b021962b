// How a run goes on after a helper call. It relies on `bpf_machine` for what an answer leaves.

ghost use Rattle.std.specs.Prelude.{◌≡◌, ◌+◌, ℕ, List, Some};
ghost use Rattle.bpf_insn.specs.declared.program.Slot.{Slot};
ghost use Rattle.bpf_semantics.specs.Step.{request_at, answered, HasRoomFor, IsAnswer};
ghost use Rattle.bpf_semantics.specs.Reached.{Reached};
ghost use Rattle.interpreter.specs.Segments.{StandsAt};

use bpf_machine::Machine;
use helpers::{Answer, Request};

/// The machine after the helper call at which it stands, with an answer that the call may get. A program that
/// reached the call has then reached this machine, by one instruction more. A machine that calls for a further freeze
/// holds fewer than eight, as the call's rule has it. It takes no memory.
pub fn resume(machine: &Machine, request: &Request, answer: &Answer) -> Machine
    requires stands { StandsAt machine.now request.now }
    requires allowed { IsAnswer machine.now request.now answer.now }
    requires room { HasRoomFor machine.now request.now }
    ensures machine { result ≡ answered request.now answer.now machine.now }
    ensures reached { (program : List Slot) (n : ℕ) → Reached program n machine.now → request_at program machine.now ≡ Some request.now → Reached program (n + 1) result }
{
    let mut next = *machine;
    pass(&mut next, request, answer);
    next
}

/// The same of a machine in its place.
pub fn pass(machine: &mut Machine, request: &Request, answer: &Answer)
    requires stands { StandsAt machine.old request.now }
    requires allowed { IsAnswer machine.old request.now answer.now }
    requires room { HasRoomFor machine.old request.now }
    ensures machine { machine.new ≡ answered request.now answer.now machine.old }
    ensures reached { (program : List Slot) (n : ℕ) → Reached program n machine.old → request_at program machine.old ≡ Some request.now → Reached program (n + 1) machine.new }
{
    machine.pass(request, answer);
}
