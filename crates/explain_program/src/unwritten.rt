// Why a register is unwritten at the end of a path: a call left it so, or nothing on the path writes it. It relies on `giving` for moves.

use crate::arguments::helper_of;
use crate::giving::{depth_at, moved_from};
use crate::program::Told;
use crate::steps::mattering;
use bpf_insn::{Insn, Reg};
use cli_text_page::Page;
use explain_path::{Path, Registers, Sketch, written_by};

// Why a register is unwritten.
#[derive(Clone, Copy)]
enum Why {
    /// The call at that place of the path left it so.
    Call(usize),
    /// Nothing on the path writes it.
    Never,
    Other,
}

/// Puts which registers are read and may be unwritten, and why.
pub fn put_unwritten(
    page: &mut Page,
    told: &Told<'_>,
    path: Option<&Path>,
    insn: Insn,
    known: &Sketch,
) {
    let mut before = "";
    for number in 0u8..11 {
        if let Some(reg) = unwritten_in(insn, known, number) {
            page.text(before);
            before = "; ";
            match path {
                Some(path) => put_why(page, path, reg, reason_of(told, path, reg)),
                None => put_other(page, reg),
            }
        }
    }
}

// The register of that number, if an instruction reads it and it may be unwritten.
fn unwritten_in(insn: Insn, known: &Sketch, number: u8) -> Option<Reg> {
    match Reg::from_number(number) {
        Some(reg) if mattering(insn).has(reg) && !known.kind(reg).is_written() => Some(reg),
        _ => None,
    }
}

fn put_why(page: &mut Page, path: &Path, reg: Reg, reason: Why) {
    let number = u64::from(reg.number());
    match reason {
        Why::Call(place) => page.fill(
            "the call at slot {} left r{} unwritten",
            &[slot_at(path, place), number],
        ),
        Why::Never => page.fill("r{} is unwritten on this path", &[number]),
        Why::Other => put_other(page, reg),
    }
}

fn put_other(page: &mut Page, reg: Reg) {
    page.fill(
        "r{} is read, and on some path here it is unwritten, or of another kind than on others",
        &[u64::from(reg.number())],
    );
}

fn slot_at(path: &Path, place: usize) -> u64 {
    match path.slots.get(place) {
        Some(slot) => *slot as u64,
        None => 0,
    }
}

// Why a register is unwritten at the end of a path, which is followed back within the function of its last instruction.
fn reason_of(told: &Told<'_>, path: &Path, reg: Reg) -> Why {
    let end = path.slots.len().saturating_sub(1);
    let depth = depth_at(told, path, end);
    for back in 1..path.slots.len() {
        let place = end.saturating_sub(back);
        let there = depth_at(told, path, place);
        if there < depth {
            return Why::Other;
        }
        if there == depth {
            if let Some(insn) = insn_at(told, path, place) {
                if is_call(insn) && (1..6).contains(&reg.number()) {
                    return Why::Call(place);
                }
                if written_by(insn) == Some(reg) {
                    return Why::Other;
                }
            }
        }
    }
    if depth == 1 { Why::Never } else { Why::Other }
}

fn insn_at(told: &Told<'_>, path: &Path, place: usize) -> Option<Insn> {
    told.program.fetch(*path.slots.get(place)?)
}

fn is_call(insn: Insn) -> bool {
    matches!(insn, Insn::Call(_))
}

/// Puts how it is mended that a call left a register unwritten, if one did, and answers whether one did.
pub fn put_mending(
    page: &mut Page,
    told: &Told<'_>,
    path: Option<&Path>,
    insn: Insn,
    known: &Sketch,
) -> bool {
    let Some(path) = path else {
        return false;
    };
    for number in 0u8..11 {
        if let Some(reg) = unwritten_in(insn, known, number) {
            return match reason_of(told, path, reg) {
                Why::Call(place) => {
                    put_copy(page, told, path, insn, reg, place);
                    true
                }
                _ => false,
            };
        }
    }
    false
}

// Puts that a register is to be copied before the call at that place, and which copy there is; or that an argument is to be put there again.
fn put_copy(page: &mut Page, told: &Told<'_>, path: &Path, insn: Insn, reg: Reg, place: usize) {
    let number = u64::from(reg.number());
    if helper_of(insn).is_some() {
        page.fill(
            "  = to mend it: put the argument into r{} before this call: each call leaves r1 to r5 unwritten\n",
            &[number],
        );
        return;
    }
    page.fill(
        "  = to mend it: copy r{} to one of r6 to r9 before the call, and use that copy",
        &[number],
    );
    if let Some(copy) = copy_of(told, path, reg, place) {
        page.fill("; r{} holds one here", &[u64::from(copy.number())]);
    }
    page.text("\n");
}

// The register that holds at the end of a path what another one held before the call at that place, if a move shows it.
fn copy_of(told: &Told<'_>, path: &Path, reg: Reg, call: usize) -> Option<Reg> {
    let end = path.slots.len().saturating_sub(1);
    let depth = depth_at(told, path, end);
    let mut written = Registers::none();
    for back in 1..path.slots.len() {
        let place = end.saturating_sub(back);
        if depth_at(told, path, place) == depth {
            let insn = insn_at(told, path, place)?;
            if let Some(target) = written_by(insn) {
                if place < call && target == reg {
                    return None;
                }
                if place < call && moved_from(insn) == Some(reg) && is_kept(target, written) {
                    return Some(target);
                }
                written = written.with(target);
            }
        }
    }
    None
}

// Whether a register is kept by calls, and is none of those that are written later.
fn is_kept(reg: Reg, written: Registers) -> bool {
    (6..10).contains(&reg.number()) && !written.has(reg)
}
