// A program to bytes. It relies on `row` for the fields of each instruction.

ghost use Rattle.std.specs.Prelude.{◌≡◌, [], ◌∷◌, ◌++◌, IfOk, OnOk, List};
ghost use Rattle.bpf_insn.specs.declared.insn.Insn.{Insn};
ghost use Rattle.bpf_decode.specs.Spells.{Spells, SpellsThen, AreBytes};

use crate::fields::SLOT_BYTES;
use crate::row::{row, second_row};
use bpf_insn::{Insn, Program};
use std::alloc::{AllocError, Global};

/// Writes the slots of an instruction after those of others.
fn push(bytes: &mut Vec<u8>, insn: Insn) -> Result<(), AllocError>
    ensures spelled { OnOk result ((insns : List Insn) → SpellsThen bytes.old.items insns [] →
        SpellsThen bytes.new.items (insns ++ insn ∷ []) []) }
    ensures bytes { OnOk result (AreBytes bytes.new.items) }
{
    bytes.extend_from_slice(&row(insn).to_bytes())?;
    if let Some(second) = second_row(insn) {
        bytes.extend_from_slice(&second.to_bytes())?;
    }
    Ok(())
}

/// The bytes that spell the program. A program has one spelling, and `decode` makes of these bytes the same
/// program again, unless memory runs out: that is its clause `only`.
pub fn encode(alloc: Global, program: &Program) -> Result<Vec<u8>, AllocError>
    ensures { IfOk result (λ bytes. Spells bytes.items program.now) }
{
    let slots = program.len();
    let mut bytes = Vec::with_capacity(alloc, SLOT_BYTES * slots)?;
    for place in 0..slots {
        // A second slot is written with the first one.
        if let Some(insn) = program.fetch(place) {
            push(&mut bytes, insn)?;
        }
    }
    Ok(bytes)
}
