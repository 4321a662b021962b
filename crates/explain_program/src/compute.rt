// How an instruction is mended that computes with an address or a freeze, or compares one. It relies on `kinds` for words.

use crate::kinds::put_name;
use crate::program::Told;
use bpf_insn::{Condition, Insn, Operand, Reg};
use check_register_kinds::{FreezeName, Kind};
use cli_text_page::Page;
use explain_path::{Registers, Sketch};

/// Puts how such an instruction is mended, if that is known, and answers whether it is.
pub fn put_mending(page: &mut Page, told: &Told<'_>, insn: Insn, known: &Sketch) -> bool {
    match freeze_in(insn, known) {
        Some(reg) if is_comparison(insn) => {
            page.fill(
                "  = to mend it: test the freeze for 0 alone: `jeq r{}, 0, T`\n",
                &[u64::from(reg.number())],
            );
            true
        }
        Some(_) => {
            page.text("  = to mend it: a freeze is no number: use it in helpers 2 and 3 only\n");
            true
        }
        None if is_comparison(insn) => {
            put_comparison(page, told, insn, known);
            true
        }
        None => false,
    }
}

/// Whether an instruction compares.
pub fn is_comparison(insn: Insn) -> bool {
    matches!(insn, Insn::JumpIf { .. })
}

/// The first register that an instruction reads and that holds a freeze.
pub fn freeze_in(insn: Insn, known: &Sketch) -> Option<Reg> {
    let read = Registers::read_by(insn);
    for number in 0u8..11 {
        if let Some(reg) = Reg::from_number(number) {
            if read.has(reg) && matches!(known.kind(reg), Kind::Freeze(_)) {
                return Some(reg);
            }
        }
    }
    None
}

// Puts how a comparison of an address is mended: if it is a test for 0 and the run holds a freeze in a register, this one is to be tested.
fn put_comparison(page: &mut Page, told: &Told<'_>, insn: Insn, known: &Sketch) {
    match any_freeze(known) {
        Some(name) if is_test(insn) => put_test(page, told, known, name),
        _ => page.text(
            "  = to mend it: compare numbers alone, and a freeze with the constant 0 by jeq or jne\n",
        ),
    }
}

// Whether an instruction asks if a register is 0, or is not.
fn is_test(insn: Insn) -> bool {
    matches!(
        insn,
        Insn::JumpIf {
            condition: Condition::Equal | Condition::NotEqual,
            src: Operand::Immediate(0),
            ..
        }
    )
}

// The freeze that the last of R0 to R9 holds which holds one.
fn any_freeze(known: &Sketch) -> Option<FreezeName> {
    let mut found = None;
    for number in 0u8..10 {
        if let Some(name) = freeze_of(known, number) {
            found = Some(name);
        }
    }
    found
}

// The freeze that a register of that number holds, if it holds one.
fn freeze_of(known: &Sketch, number: u8) -> Option<FreezeName> {
    match known.kind(Reg::from_number(number)?) {
        Kind::Freeze(name) => Some(name),
        _ => None,
    }
}

// Puts which registers hold a freeze, and that the last of them is to be tested.
fn put_test(page: &mut Page, told: &Told<'_>, known: &Sketch, name: FreezeName) {
    page.text("  = to mend it: ");
    put_name(page, told.log(), name);
    page.text(" is in ");
    let mut before = "";
    let mut last = 0u8;
    for number in 0u8..10 {
        if freeze_of(known, number) == Some(name) {
            page.text(before);
            page.fill("r{}", &[u64::from(number)]);
            before = " and ";
            last = number;
        }
    }
    page.fill(" here: test it, `jeq r{}, 0, T`\n", &[u64::from(last)]);
}
