// Bytes to a program: the length first, and then slot after slot.

ghost use Rattle.std.specs.Prelude.{◌≡◌, ◌≤◌, ◌*◌, List, length, IfOk, IfErr, MatchResult};
ghost use Rattle.bpf_insn.specs.declared.program.TheConstants.{MAX_SLOTS};
ghost use Rattle.bpf_insn.specs.declared.program.Slot.{Slot};
ghost use Rattle.bpf_decode.specs.Spells.{Spells};
ghost use Rattle.bpf_decode.specs.FirstFault.{HasFault};
ghost use Rattle.bpf_decode.specs.Decoded.{IfFault};
ghost use Rattle.base.specs.declared.or_memory.OrMemory.TheVariants.{OutOfMemory};

use crate::fault::DecodeFault;
use crate::fields::SLOT_BYTES;
use crate::insn::insn;
use base::OrMemory;
use bpf_insn::{MAX_SLOTS, Program, ProgramBuilder};
use std::alloc::Global;

/// Why bytes were not decoded: memory was refused, or they spell no program.
pub type DecodeError = OrMemory<DecodeFault>;

/// How many slots the bytes are, from 1 to `MAX_SLOTS`.
fn slot_count(bytes: &[u8]) -> Result<usize, DecodeError>
    ensures slots { IfOk result (λ slots. (length bytes.now ≡ 8 * slots) × (1 ≤ slots) × (slots ≤ MAX_SLOTS)) }
    ensures fault { IfErr result (IfFault (HasFault bytes.now)) }
{
    if bytes.is_empty() {
        return Err(OrMemory::Fault(DecodeFault::Empty));
    }
    if bytes.len() % SLOT_BYTES != 0 {
        return Err(OrMemory::Fault(DecodeFault::PartialSlot));
    }
    let slots = bytes.len() / SLOT_BYTES;
    if slots > MAX_SLOTS {
        return Err(OrMemory::Fault(DecodeFault::TooManySlots));
    }
    Ok(slots)
}

/// The program that the bytes spell, or the first fault of the bytes.
fn program(alloc: Global, bytes: &[u8]) -> Result<Program, DecodeError>
    ensures found { IfOk result (Spells bytes.now) }
    ensures fault { IfErr result (IfFault (HasFault bytes.now)) }
{
    let slots = slot_count(bytes)?;
    let mut builder = ProgramBuilder::with_capacity(alloc, slots)?;
    let (mut slot, mut rest) = (0, bytes);
    while slot < slots {
        match insn(rest) {
            Ok(insn) => {
                builder.push(insn)?;
                let taken = insn.slots();
                rest = rest.split_at(SLOT_BYTES * taken).1;
                slot += taken;
            }
            Err(fault) => return Err(OrMemory::Fault(DecodeFault::At { slot, fault })),
        }
    }
    // From 1 to `MAX_SLOTS` slots, none of which writes R10, make a program.
    let Some(program) = builder.build() else {
        unreachable!()
    };
    Ok(program)
}

/// The program that the bytes spell. An error for want of memory says nothing of the bytes, and a
/// fault is the one that `HasFault` names: no bytes, a length that is no multiple of 8 and more than
/// 4096 slots in this order, and then the first faulty instruction.
pub fn decode(alloc: Global, bytes: &[u8]) -> Result<Program, DecodeError>
    // What is decoded is spelled so.
    ensures found { IfOk result (Spells bytes.now) }
    // What is spelled is decoded, unless memory runs out.
    ensures only { (spelled : List Slot) → Spells bytes.now spelled →
        MatchResult result (λ program. program ≡ spelled) (λ e. e ≡ OutOfMemory) }
    // Which fault it is.
    ensures fault { IfErr result (IfFault (HasFault bytes.now)) }
{
    program(alloc, bytes)
}
