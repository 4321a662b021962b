// A text to a program: first where its labels are, and then line after line.

ghost use Rattle.std.specs.Prelude.{◌≡◌, ◌++◌, option_to_list, OnOk, IfOk, IfErr, MatchResult, List};
ghost use Rattle.bpf_insn.specs.declared.program.Slot.{Slot};
ghost use Rattle.bpf_insn.specs.Program.{SparesFramePointer};
ghost use Rattle.base.specs.declared.or_memory.OrMemory.TheVariants.{OutOfMemory};
ghost use Rattle.bpf_asm.specs.Lexemes.{lines};
ghost use Rattle.bpf_asm.specs.Labels.{label_at};
ghost use Rattle.bpf_asm.specs.Assembly.{said_in, said, Says, HasFault};
ghost use Rattle.bpf_asm.specs.Given.{HasResult, IfFault};

use crate::fault::AsmFault;
use crate::labels::{Labels, labels_of};
use crate::lexeme::first_line;
use crate::statement::{read_line, slots_of};
use base::OrMemory;
use bpf_insn::{Insn, Program, ProgramBuilder};
use std::alloc::{AllocError, Global};

/// Why a text was not assembled: memory was refused, or it says no program.
pub type AsmError = OrMemory<AsmFault>;

// Adds an instruction, if there is one.
fn push(builder: &mut ProgramBuilder, insn: Option<Insn>) -> Result<(), AllocError>
    ensures { OnOk result (builder.new ≡ builder.old ++ option_to_list insn) }
{
    match insn {
        Some(insn) => builder.push(insn),
        None => Ok(()),
    }
}

// The instructions of a text whose labels these are.
fn insns_of(alloc: Global, labels: &Labels, text: &[u8]) -> Result<ProgramBuilder, AsmError>
    ensures said { HasResult (λ builder. builder) result (said_in (label_at labels.now) 1 0 (lines text.now)) }
    ensures spares { IfOk result SparesFramePointer }
{
    let mut builder = ProgramBuilder::with_capacity(alloc, 0)?;
    let (mut rest, mut line, mut slot) = (text, 1, 0);
    while !rest.is_empty() {
        let (first, after) = first_line(rest);
        match read_line(labels, line, slot, first) {
            Ok(insn) => push(&mut builder, insn)?,
            Err(fault) => return Err(OrMemory::Fault(AsmFault::At { line, fault })),
        }
        slot += slots_of(first);
        line += 1;
        rest = after;
    }
    Ok(builder)
}

// The instructions of a text.
#[tactic(auto, unfolding(crate::specs::Assembly::said))]
fn builder_of(alloc: Global, text: &[u8]) -> Result<ProgramBuilder, AsmError>
    ensures said { HasResult (λ builder. builder) result (said text.now) }
    ensures spares { IfOk result SparesFramePointer }
{
    let labels = labels_of(alloc, text)?;
    insns_of(alloc, &labels, text)
}

/// The program that the text says. An error for want of memory says nothing of the text, and a fault is the one that `HasFault` names:
/// that of the first faulty line, or, where no line is faulty, that there is no instruction, or more than 4096 slots.
pub fn assemble(alloc: Global, text: &str) -> Result<Program, AsmError>
    // What is assembled is said so.
    ensures found { IfOk result (Says text.now) }
    // What is said is assembled, unless memory runs out.
    ensures only { (program : List Slot) → Says text.now program →
        MatchResult result (λ p. p ≡ program) (λ e. e ≡ OutOfMemory) }
    // Which fault it is.
    ensures fault { IfErr result (IfFault (HasFault text.now)) }
{
    let builder = builder_of(alloc, text.as_bytes())?;
    match builder.build() {
        Some(program) => Ok(program),
        None => Err(OrMemory::Fault(AsmFault::NoProgram)),
    }
}
